//! A device that records why it failed.

use std::cell::Cell;
use std::io::{self, ErrorKind, Read, Write};

/// A reader or writer that records the kind of its first error.
#[derive(Drop)]
pub struct Noting<'a, D: Drop> {
    device: D,
    kind: &'a Cell<Option<ErrorKind>>,
}

impl<'a, D: Drop> Noting<'a, D> {
    /// Wraps a device; the kind of its first error is stored in `kind`.
    pub fn new(device: D, kind: &'a Cell<Option<ErrorKind>>) -> Noting<'a, D> {
        Noting { device, kind }
    }

    fn note(&self, error: &io::Error) {
        if self.kind.get().is_none() {
            self.kind.set(Some(error.kind()));
        }
    }
}

impl<R: Read + Drop> Read for Noting<'_, R> {
    fn read(&mut self, room: &mut [u8]) -> io::Result<usize> {
        let read = self.device.read(room);
        if let Err(error) = &read {
            self.note(error);
        }
        read
    }
}

impl<W: Write + Drop> Write for Noting<'_, W> {
    fn write(&mut self, bytes: &[u8]) -> io::Result<usize> {
        let written = self.device.write(bytes);
        if let Err(error) = &written {
            self.note(error);
        }
        written
    }

    fn flush(&mut self) -> io::Result<()> {
        let flushed = self.device.flush();
        if let Err(error) = &flushed {
            self.note(error);
        }
        flushed
    }
}
