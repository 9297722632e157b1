//! A reader of the standard library as a source.

ghost use Rattle.std.specs.Prelude.{◌≡◌, false};

use crate::device::{ByteSource, DeviceFault};
use std::io::Read;

/// A source over a reader. Contracts know its bytes if they know the reader's, so not those of a file. Each error of the reader
/// is a fault, that of an interrupted call too.
#[derive(Drop)]
pub struct Reading<R> {
    reader: R,
    reads: u64,
    failed: bool,
    retried: bool,
}

impl<R: Read> Reading<R> {
    /// A source over this reader, before its first read.
    pub fn new(reader: R) -> Reading<R>
        ensures { ⟦<Reading<R> as ByteSource>⟧.source result ≡
            record { rest = R.remaining reader; reads = 0; failed = false; retried = false } }
    {
        Reading {
            reader,
            reads: 0,
            failed: false,
            retried: false,
        }
    }
}

impl<R: Read> ByteSource for Reading<R> {
    ghost source = { λ reading.
        record {
          rest = R.remaining reading.reader;
          reads = reading.reads;
          failed = reading.failed;
          retried = reading.retried;
        } };

    fn read(&mut self, buffer: &mut [u8]) -> Result<usize, DeviceFault> {
        self.reads = self.reads.saturating_add(1);
        self.retried |= self.failed;
        match self.reader.read(buffer) {
            Ok(count) => Ok(count),
            Err(_) => {
                self.failed = true;
                Err(DeviceFault)
            }
        }
    }

    fn reads(&self) -> u64 {
        self.reads
    }

    fn failed(&self) -> bool {
        self.failed
    }
}
