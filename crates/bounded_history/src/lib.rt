//! Lists of changes, record by record, for rules and fields. If all lists together have too many entries, a list is
//! reduced by columns of records.
#![tactic(auto)]

mod changes;
mod columns;
mod entry;
pub mod laws;
mod pool;

pub use changes::Changes;
pub use entry::{Content, Entry};
pub use pool::Pool;
