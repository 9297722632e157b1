//! A slice as a sink, with a limit.

ghost use Rattle.std.specs.Prelude.{◌≡◌, ◌-◌, ◌<◌, ◌≤◌, ◌⊎◌, ◌↔◌, ℕ, min, length, take, drop, Some, None, false, IfOk, OnErr, IsErr};
ghost use Rattle.lc_model.specs.Device.{one_call_more, retried_by_call, WritesSome, WriteFails};

use crate::device::{ByteSink, DeviceFault};

/// A sink that fills a slice from its start, up to a limit, and that may fail at one chosen write. Contracts know its bytes.
#[derive(Drop)]
pub struct Limited<'a> {
    /// Where the bytes go.
    pub room: &'a mut [u8],
    /// The bytes taken so far: the first ones of the room.
    pub taken: usize,
    /// The most bytes that are taken.
    pub limit: usize,
    /// The number of the write that fails, from 1 on.
    pub fault_at: Option<u64>,
    /// The writes so far.
    pub writes: u64,
    /// Whether a write has failed.
    pub failed: bool,
    /// Whether a write came after a failed one.
    pub retried: bool,
    ghost within: { taken ≤ limit },
    ghost has_room: { limit ≤ length room.now },
}

impl<'a> Limited<'a> {
    /// A sink that takes `limit` bytes and then fails. The room is at least that long.
    pub fn new(room: &'a mut [u8], limit: usize) -> Limited<'a>
        requires { limit ≤ length room.old }
        ensures room { result.room.now ≡ room.old }
        ensures taken { result.taken ≡ 0 }
        ensures limit { result.limit ≡ limit }
        ensures fault_at { result.fault_at ≡ None }
        ensures writes { result.writes ≡ 0 }
        ensures failed { result.failed ≡ false }
        ensures retried { result.retried ≡ false }
    {
        Limited {
            room,
            taken: 0,
            limit,
            fault_at: None,
            writes: 0,
            failed: false,
            retried: false,
        }
    }

    /// Takes `limit` bytes as `new` does, but the write of this number fails. Writes count from 1.
    pub fn failing_at(room: &'a mut [u8], limit: usize, write: u64) -> Limited<'a>
        requires { limit ≤ length room.old }
        ensures room { result.room.now ≡ room.old }
        ensures taken { result.taken ≡ 0 }
        ensures limit { result.limit ≡ limit }
        ensures fault_at { result.fault_at ≡ Some write }
        ensures writes { result.writes ≡ 0 }
        ensures failed { result.failed ≡ false }
        ensures retried { result.retried ≡ false }
    {
        Limited {
            room,
            taken: 0,
            limit,
            fault_at: Some(write),
            writes: 0,
            failed: false,
            retried: false,
        }
    }

    /// The bytes taken so far.
    pub fn bytes(&self) -> &[u8]
        ensures { result.now ≡ take self.now.taken self.now.room.now }
    {
        &self.room[..self.taken]
    }
}

impl<'a> ByteSink for Limited<'a> {
    ghost sink = { λ limited.
        record {
          gained = Some (take limited.taken limited.room.now);
          failed = limited.failed;
          retried = limited.retried;
        } };

    fn write(&mut self, bytes: &[u8]) -> Result<usize, DeviceFault>
        requires { 0 < length bytes.now }
        ensures written { IfOk result
            (λ count. WritesSome (⟦<Limited<'a> as ByteSink>⟧.sink self.old)
            (⟦<Limited<'a> as ByteSink>⟧.sink self.new) count bytes.now) }
        ensures fault { OnErr result
            (WriteFails (⟦<Limited<'a> as ByteSink>⟧.sink self.old)
            (⟦<Limited<'a> as ByteSink>⟧.sink self.new)) }
        ensures retried { self.new.retried ≡ retried_by_call self.old.failed self.old.retried }

        // The chosen write fails, and so does a write at the limit; any other takes all that the limit allows.
        ensures told { IsErr result ↔ ((self.old.fault_at ≡ Some self.new.writes) ⊎
            (self.old.taken ≡ self.old.limit)) }
        ensures whole { IfOk result
            (λ count. count ≡ min (length bytes.now) (self.old.limit - self.old.taken)) }
        ensures writes { self.new.writes ≡ one_call_more self.old.writes }
        ensures behind { drop self.new.taken self.new.room.now ≡
            drop self.new.taken self.old.room.now }
        ensures limit { self.new.limit ≡ self.old.limit }
        ensures fault_at { self.new.fault_at ≡ self.old.fault_at }
    {
        self.writes = self.writes.saturating_add(1);
        self.retried |= self.failed;
        if self.fault_at == Some(self.writes) || self.taken == self.limit {
            self.failed = true;
            return Err(DeviceFault);
        }
        let count = bytes.len().min(self.limit - self.taken);
        self.room[self.taken..self.taken + count].copy_from_slice(&bytes[..count]);
        self.taken += count;
        Ok(count)
    }

    fn failed(&self) -> bool {
        self.failed
    }
}
