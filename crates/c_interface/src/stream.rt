//! A stream in memory, as a source that can't fail.

ghost use Rattle.std.specs.Prelude.{◌≡◌, Some, false};
ghost use Rattle.c_interface.specs.Running.{unread};

use lc_model::{ByteSource, DeviceFault};

/// Gives the bytes of a slice. No read fails.
#[derive(Drop)]
pub(crate) struct Stream<'a> {
    left: &'a [u8],
    reads: u64,
}

impl<'a> Stream<'a> {
    /// Creates it with nothing read.
    pub(crate) fn new(bytes: &'a [u8]) -> Stream<'a>
        ensures { ⟦<Stream<'a> as ByteSource>⟧.source result ≡ unread bytes.now }
    {
        Stream {
            left: bytes,
            reads: 0,
        }
    }
}

impl<'a> ByteSource for Stream<'a> {
    ghost source = { λ stream.
        record {
          rest = Some stream.left.now;
          reads = stream.reads;
          failed = false;
          retried = false;
        } };

    fn read(&mut self, buffer: &mut [u8]) -> Result<usize, DeviceFault> {
        self.reads = self.reads.saturating_add(1);
        let count = buffer.len().min(self.left.len());
        let (piece, left) = self.left.split_at(count);
        buffer[..count].copy_from_slice(piece);
        self.left = left;
        Ok(count)
    }

    fn reads(&self) -> u64 {
        self.reads
    }

    fn failed(&self) -> bool {
        false
    }
}
