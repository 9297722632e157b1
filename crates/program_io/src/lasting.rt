//! A writer that outlasts the reader of its device.

ghost use Rattle.std.specs.Prelude.{◌≡◌, ◌⊎◌, true, Ok};
ghost use Rattle.program_io.specs.Lasting.{IsNotGone};

use std::io::{self, ErrorKind, Write};

/// A writer that, if it lasts, takes and drops all bytes from the write on at which its device has lost its reader. So a command goes on
/// to the end of its input, and its status is the same whoever reads its output.
#[derive(Drop)]
pub struct Lasting<W: Drop> {
    device: W,
    lasts: bool,
    is_closed: bool,
}

impl<W: Drop> Lasting<W> {
    /// Wraps a device. Without `lasts` all errors are those of the device.
    pub fn new(device: W, lasts: bool) -> Lasting<W> {
        Lasting {
            device,
            lasts,
            is_closed: false,
        }
    }

    /// The answer to a call that the device answered so. `taken` stands for an error that its reader has gone.
    fn outlast<T: Drop>(&mut self, answer: io::Result<T>, taken: T) -> io::Result<T>
        ensures lasts { self.old.lasts ≡ true → IsNotGone result }
        ensures passes { IsNotGone answer → result ≡ answer }
        ensures taken { (result ≡ answer) ⊎ (result ≡ Ok taken) }
    {
        match answer {
            Err(error) if self.lasts && matches!(error.kind(), ErrorKind::BrokenPipe) => {
                self.is_closed = true;
                Ok(taken)
            }
            answer => answer,
        }
    }
}

impl<W: Write + Drop> Write for Lasting<W> {
    fn write(&mut self, bytes: &[u8]) -> io::Result<usize> {
        if self.is_closed {
            return Ok(bytes.len());
        }
        let written = self.device.write(bytes);
        self.outlast(written, bytes.len())
    }

    fn flush(&mut self) -> io::Result<()> {
        if self.is_closed {
            return Ok(());
        }
        let flushed = self.device.flush();
        self.outlast(flushed, ())
    }
}
