//! Table files and images of the Limit Checker's two tables: writing them, opening them, and reading their fields.
#![tactic(auto)]

mod actionpoint;
mod codes;
mod encode;
mod entry;
mod error;
mod file;
mod image;
pub mod laws;
mod layout;
mod output;
pub mod preamble;
mod watchpoint;
mod wrapping;

pub use actionpoint::ActionpointEntry;
pub use encode::{encode_adt, encode_wdt};
pub use entry::{are_zeros, entry_bytes, is_blank};
pub use error::FileError;
pub use file::{HEADERS_LENGTH, TableFile, open};
pub use image::{AdtImage, AdtVersion, TableEntry, WdtImage};
pub use layout::Layout;
pub use watchpoint::WatchpointEntry;
pub use wrapping::{table_name, wrap};
