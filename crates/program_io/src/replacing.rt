//! A file that keeps its old bytes until it is written to.

ghost use Rattle.std.specs.Prelude.{◌≡◌, ◌<◌, ◌≤◌, length, None, false, IfSome};

use lc_model::{ByteSink, DeviceFault};
use std::fs::OpenFile;
use std::io::{self, Write};

/// A file that is open for writing. Its old bytes stay until the first write, or until `empty`. Contracts know no bytes of it.
#[derive(Drop)]
pub struct Replacing<F> {
    file: F,
    is_emptied: bool,
    failed: bool,
    retried: bool,
}

/// Removes the old bytes of a file, unless that was done. A device or a pipe has none.
fn remove_old<F: OpenFile>(file: &F, is_emptied: &mut bool) -> io::Result<()> {
    if *is_emptied {
        return Ok(());
    }
    if file.metadata()?.is_file() {
        file.set_len(0)?;
    }
    *is_emptied = true;
    Ok(())
}

/// Removes the old bytes of a file, unless that was done, and writes the first of these bytes. Returns how many; `None` if it failed.
fn replace<F: Write + OpenFile>(file: &mut F, is_emptied: &mut bool, bytes: &[u8]) -> Option<usize>
    ensures some { IfSome result (λ count. 0 < count) }
    ensures fits { IfSome result (λ count. count ≤ length bytes.now) }
{
    if remove_old(file, is_emptied).is_err() {
        return None;
    }
    match file.write(bytes) {
        Ok(count) if count > 0 => Some(count),
        _ => None,
    }
}

impl<F: Write + OpenFile + Drop> Replacing<F> {
    /// The file, with its old bytes.
    pub fn new(file: F) -> Replacing<F>
        ensures { ⟦<Replacing<F> as ByteSink>⟧.sink result ≡
            record { gained = None; failed = false; retried = false } }
    {
        Replacing {
            file,
            is_emptied: false,
            failed: false,
            retried: false,
        }
    }

    /// Removes the old bytes, if nothing was written. Error: they can't be removed.
    pub fn empty(mut self) -> io::Result<()> {
        remove_old(&self.file, &mut self.is_emptied)
    }
}

impl<F: Write + OpenFile + Drop> ByteSink for Replacing<F> {
    ghost sink = { λ it. record { gained = None; failed = it.failed; retried = it.retried } };

    fn write(&mut self, bytes: &[u8]) -> Result<usize, DeviceFault> {
        self.retried |= self.failed;
        match replace(&mut self.file, &mut self.is_emptied, bytes) {
            Some(count) => Ok(count),
            None => {
                self.failed = true;
                Err(DeviceFault)
            }
        }
    }

    fn failed(&self) -> bool {
        self.failed
    }
}
