//! The capacities of the bus's lists.

/// How many elements the lists of a bus have room for.
#[derive(Clone, Copy, Debug)]
pub struct BusCapacities {
    /// Seats, each with the place of a pipe.
    pub seats: usize,
    /// Message ids, each with the seats that are subscribed to it.
    pub message_ids: usize,
    /// Packets in the pool.
    pub packets: usize,
    /// Numbers of free places in the pool.
    pub free: usize,
    /// Subscriptions of a pipe.
    pub subscriptions: usize,
    /// Packets that wait in a pipe.
    pub waiting: usize,
}
