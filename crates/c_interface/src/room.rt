//! A caller's room as a sink, which fails only where it is full.

ghost use Rattle.std.specs.Prelude.{◌≡◌, ℕ, ◌<◌, ◌≤◌, true, false, length, take, Some, IfOk, OnErr};
ghost use Rattle.lc_model.specs.Device.{WritesSome, WriteFails};

use lc_model::{ByteSink, DeviceFault};
use std::marker::{Brand, PhantomData};

/// How many bytes a room has, where that is known. No code reads it.
pub(crate) trait Size {
    ghost size: { ℕ };
}

impl Size for Brand {
    ghost size = { 0 };
}

/// Takes bytes into a slice, from its front on, and fails where there is no room left. Its type parameter says how many bytes
/// it has, whatever calls it went through.
#[derive(Drop)]
pub(crate) struct Room<'a, S: Size> {
    room: &'a mut [u8],
    taken: usize,
    failed: bool,
    retried: bool,
    of: PhantomData<S>,
    ghost size: { length room.now ≡ S.size },
    ghost within: { taken ≤ length room.now },
    ghost full: { failed ≡ true → taken ≡ length room.now },
}

impl<'a, S: Size> Room<'a, S> {
    /// Creates it with nothing taken.
    pub(crate) fn new(room: &'a mut [u8]) -> Room<'a, S>
        requires { length room.old ≡ S.size }
        ensures room { result.room.now ≡ room.old }
        ensures taken { result.taken ≡ 0 }
        ensures failed { result.failed ≡ false }
        ensures retried { result.retried ≡ false }
    {
        Room {
            room,
            taken: 0,
            failed: false,
            retried: false,
            of: PhantomData,
        }
    }

    /// The bytes taken so far.
    pub(crate) fn bytes(&self) -> &[u8]
        ensures bytes { result.now ≡ take self.now.taken self.now.room.now }
        ensures few { length result.now ≤ S.size }
        ensures full { self.now.failed ≡ true → length result.now ≡ S.size }
    {
        &self.room[..self.taken]
    }
}

impl<'a, S: Size> ByteSink for Room<'a, S> {
    ghost sink = { λ it.
        record { gained = Some (take it.taken it.room.now); failed = it.failed; retried = it.retried } };

    fn write(&mut self, bytes: &[u8]) -> Result<usize, DeviceFault> {
        self.retried |= self.failed;
        let left = self.room.len() - self.taken;
        if left == 0 {
            self.failed = true;
            return Err(DeviceFault);
        }
        let count = bytes.len().min(left);
        self.room[self.taken..self.taken + count].copy_from_slice(&bytes[..count]);
        self.taken += count;
        Ok(count)
    }

    fn failed(&self) -> bool {
        self.failed
    }
}
