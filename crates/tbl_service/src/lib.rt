//! Table services (cFE user's guide, table services): the stored files, and the tables that applications register. Each
//! table has an active and a waiting image.
#![tactic(auto)]

mod buffer;
mod capacities;
mod error;
mod place;
mod seats;
mod service;
mod slot;
mod store;

pub use capacities::TableCapacities;
pub use error::TableError;
pub use seats::Slot;
pub use service::Tables;
pub use slot::Stage;
