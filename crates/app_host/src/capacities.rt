//! The capacities of a host's lists.

use packet_bus::BusCapacities;
use tbl_service::TableCapacities;

/// How many elements the lists of a host have room for. The list of spares is the caller's: the host only takes from it.
#[derive(Clone, Copy, Debug)]
pub struct HostCapacities {
    /// The lists of the packet bus.
    pub bus: BusCapacities,
    /// Seats, each with the place of a sender of events.
    pub senders: usize,
    /// The lists of the table services.
    pub tables: TableCapacities,
    /// Message ids, each with a sequence count.
    pub counts: usize,
    /// Bytes that wait to be written.
    pub outgoing: usize,
}
