//! The capacities of a fed host's lists.

use app_host::HostCapacities;

/// How many elements the lists of a fed host have room for. The table files of its rule texts are never changed.
#[derive(Clone, Copy, Debug)]
pub struct FedCapacities {
    /// The lists of the host.
    pub host: HostCapacities,
    /// Bytes of the stream: unread ones, and those of records that were taken.
    pub stream: usize,
}
