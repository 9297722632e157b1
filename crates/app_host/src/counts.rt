//! The sequence counts of outgoing packets (CCSDS 133.0-B, packet sequence count).

ghost use Rattle.std.specs.Prelude.{◌≡◌, ◌+◌, ◌%◌, ◌<◌, replicate, slice_set, length, IfOk};
ghost use Rattle.lc_model.specs.Packet.{count_end, message_id_end};
ghost use Rattle.lc_model.specs.Services.Seen.{count_among};

use lc_model::packet::{MESSAGE_IDS, next_count};
use std::alloc::{AllocError, Global};
use std::marker::Model;

/// For each message id the number of packets sent so far, modulo 16,384. `Events` counts the event packets. Contracts see the
/// numbers as a list.
#[derive(Debug, Drop)]
pub struct Counts {
    counts: Vec<u16>,
}

impl Model for Counts {
    ghost use Rattle.std.specs.Prelude.{◌≡◌, ◌<◌, ℕ, List, length, All, vec_capacity};
    ghost use Rattle.lc_model.specs.Packet.{count_end, message_id_end};

    ghost Value = { List ℕ };

    ghost view = { λ c. c.counts.items };

    ghost invariant = { λ c. (length c.counts.items ≡ message_id_end) ×
        All (λ (count : ℕ). count < count_end) c.counts.items ×
        (vec_capacity c.counts ≡ message_id_end) };
}

impl Counts {
    /// Creates counts of 0. It allocates all memory that they ever need; out of memory is the only error.
    pub fn new(alloc: Global) -> Result<Counts, AllocError>
        ensures { IfOk result (λ counts. counts ≡ replicate message_id_end 0) }
    {
        let mut counts = Vec::with_capacity(alloc, MESSAGE_IDS)?;
        for _ in 0..MESSAGE_IDS {
            counts.push_reserved(0);
        }
        Ok(Counts { counts })
    }

    /// How many message ids there are counts for, which no call changes.
    pub fn capacity(&self) -> usize
        ensures { result ≡ message_id_end }
    {
        self.counts.capacity()
    }

    /// Returns the sequence count of the next packet of a message id, and counts that packet. Condition: an id of packet
    /// version 0.
    pub fn advance(&mut self, message_id: u16) -> u16
        requires { message_id < message_id_end }
        ensures count { result ≡ count_among self.old message_id }
        ensures below { result < count_end }
        ensures after { self.new ≡ slice_set self.old message_id
            ((count_among self.old message_id + 1) % count_end) }
        ensures inside { message_id < length self.old }
    {
        let place = &mut self.counts[usize::from(message_id)];
        let count = *place;
        *place = next_count(count);
        count
    }
}
