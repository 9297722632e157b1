//! A run of the host: rule texts are compiled, and the records of a stream, which is read in pieces, are handled.
#![tactic(auto)]

mod bringing;
mod capacities;
mod compiling;
mod error;
mod feeding;
mod flight;
mod found;
mod front;
mod gathered;
mod gathering;
mod halt;
mod handling;
pub mod laws;
mod outlet;
mod pieces;
mod records;
mod running;
mod settling;
mod window;

pub use capacities::FedCapacities;
pub use error::{Report, RunError};
pub use feeding::FedHost;
pub use found::Found;
pub use gathering::run_gathered;
pub use halt::Halt;
pub use records::Records;
pub use running::{run, run_within};
