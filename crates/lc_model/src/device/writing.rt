//! A writer of the standard library as a sink.

ghost use Rattle.std.specs.Prelude.{◌≡◌, false};

use crate::device::{ByteSink, DeviceFault};
use std::io::Write;

/// A sink over a writer. Contracts know its bytes if they know the writer's, so not those of a file. Each error of the writer
/// is a fault, that of an interrupted call too, and so is a write that takes no byte.
#[derive(Drop)]
pub struct Writing<W> {
    writer: W,
    failed: bool,
    retried: bool,
}

impl<W: Write> Writing<W> {
    /// A sink over this writer, before its first write.
    pub fn new(writer: W) -> Writing<W>
        ensures { ⟦<Writing<W> as ByteSink>⟧.sink result ≡
            record { gained = W.contents writer; failed = false; retried = false } }
    {
        Writing {
            writer,
            failed: false,
            retried: false,
        }
    }
}

impl<W: Write> ByteSink for Writing<W> {
    ghost sink = { λ writing.
        record {
          gained = W.contents writing.writer;
          failed = writing.failed;
          retried = writing.retried;
        } };

    fn write(&mut self, bytes: &[u8]) -> Result<usize, DeviceFault> {
        self.retried |= self.failed;
        match self.writer.write(bytes) {
            Ok(count) if count > 0 => Ok(count),
            _ => {
                self.failed = true;
                Err(DeviceFault)
            }
        }
    }

    fn failed(&self) -> bool {
        self.failed
    }
}
