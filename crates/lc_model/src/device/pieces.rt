//! A slice as a source, in pieces.

ghost use Rattle.std.specs.Prelude.{◌≡◌, ◌<◌, ◌↔◌, ℕ, min, length, Some, None, false, IfOk, OnErr, IsErr};
ghost use Rattle.lc_model.specs.Device.{one_call_more, retried_by_call, ReadsSome, ReadFails};

use crate::device::{ByteSource, DeviceFault};

/// A source that gives the bytes of a slice in pieces, and that may fail at one chosen read. Contracts know its bytes.
#[derive(Drop)]
pub struct Pieces<'a> {
    /// The bytes that are left.
    pub left: &'a [u8],
    /// The most bytes of one read.
    pub most: usize,
    /// The number of the read that fails, from 1 on.
    pub fault_at: Option<u64>,
    /// The reads so far.
    pub reads: u64,
    /// Whether a read has failed.
    pub failed: bool,
    /// Whether a read came after a failed one.
    pub retried: bool,
    ghost some: { 0 < most },
}

impl<'a> Pieces<'a> {
    /// Gives all of the bytes, at most `most` of them at each read, and never fails.
    pub fn new(bytes: &'a [u8], most: usize) -> Pieces<'a>
        requires { 0 < most }
        ensures left { result.left.now ≡ bytes.now }
        ensures most { result.most ≡ most }
        ensures fault_at { result.fault_at ≡ None }
        ensures reads { result.reads ≡ 0 }
        ensures failed { result.failed ≡ false }
        ensures retried { result.retried ≡ false }
    {
        Pieces {
            left: bytes,
            most,
            fault_at: None,
            reads: 0,
            failed: false,
            retried: false,
        }
    }

    /// The same bytes in the same pieces, but the read of this number fails. Reads count from 1.
    pub fn failing_at(bytes: &'a [u8], most: usize, read: u64) -> Pieces<'a>
        requires { 0 < most }
        ensures left { result.left.now ≡ bytes.now }
        ensures most { result.most ≡ most }
        ensures fault_at { result.fault_at ≡ Some read }
        ensures reads { result.reads ≡ 0 }
        ensures failed { result.failed ≡ false }
        ensures retried { result.retried ≡ false }
    {
        Pieces {
            left: bytes,
            most,
            fault_at: Some(read),
            reads: 0,
            failed: false,
            retried: false,
        }
    }
}

impl<'a> ByteSource for Pieces<'a> {
    ghost source = { λ pieces.
        record {
          rest = Some pieces.left.now;
          reads = pieces.reads;
          failed = pieces.failed;
          retried = pieces.retried;
        } };

    fn read(&mut self, buffer: &mut [u8]) -> Result<usize, DeviceFault>
        requires { 0 < length buffer.old }
        ensures read { IfOk result
            (λ count. ReadsSome (⟦<Pieces<'a> as ByteSource>⟧.source self.old)
            (⟦<Pieces<'a> as ByteSource>⟧.source self.new) count buffer.new) }
        ensures fault { OnErr result
            (ReadFails (⟦<Pieces<'a> as ByteSource>⟧.source self.old)
            (⟦<Pieces<'a> as ByteSource>⟧.source self.new)) }
        ensures counted { self.new.reads ≡ one_call_more self.old.reads }
        ensures retried { self.new.retried ≡ retried_by_call self.old.failed self.old.retried }

        // The chosen read fails; any other gives all that a piece, the buffer and the rest allow.
        ensures told { IsErr result ↔ (self.old.fault_at ≡ Some self.new.reads) }
        ensures whole { IfOk result
            (λ count. count ≡ min (min self.old.most (length buffer.old))
            (length self.old.left.now)) }
        ensures most { self.new.most ≡ self.old.most }
        ensures fault_at { self.new.fault_at ≡ self.old.fault_at }
    {
        self.reads = self.reads.saturating_add(1);
        self.retried |= self.failed;
        if self.fault_at == Some(self.reads) {
            self.failed = true;
            return Err(DeviceFault);
        }
        let count = self.most.min(buffer.len()).min(self.left.len());
        let (piece, left) = self.left.split_at(count);
        buffer[..count].copy_from_slice(piece);
        self.left = left;
        Ok(count)
    }

    fn reads(&self) -> u64 {
        self.reads
    }

    fn failed(&self) -> bool {
        self.failed
    }
}
