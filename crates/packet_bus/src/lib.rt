//! The packet bus of the core Flight System: packet headers, pipes with their subscriptions, and a pool in which each packet is
//! stored once, in however many pipes it waits (CCSDS 133.0-B; cFE user's guide, software bus services).
#![tactic(auto)]

mod bus;
mod capacities;
mod error;
mod header;
mod pipe;
mod pool;
mod seats;

pub use bus::Bus;
pub use capacities::BusCapacities;
pub use error::BusError;
pub use header::{Header, HeaderFault, PacketKind, parse_header};
pub use packet_builders::{build_command, build_telemetry};
pub use pool::PACKET_SIZE;
