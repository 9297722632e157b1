//! A file that is read in pieces; the bytes that aren't listed yet are held.

use crate::error::{FileError, error_at};
use crate::why::fault_of;
use lc_model::stream::PIECE;
use std::alloc::Global;
use std::fs::{File, Files};
use std::io::Read;

/// A file that is read piece by piece. It holds the bytes read until the caller lets them go.
#[derive(Drop)]
pub struct Feed<'a, F: Drop> {
    name: &'a str,
    file: F,
    held: Vec<u8>,
}

impl<'a, F: Read + Drop> Feed<'a, F> {
    /// The bytes that are held.
    pub fn contents(&self) -> &[u8] {
        self.held.as_slice()
    }

    /// Reads a piece after the held bytes. Returns false at the file's end.
    pub fn read_on(&mut self) -> Result<bool, FileError<'a>> {
        let mut piece = [0; PIECE];
        match self.file.read(&mut piece) {
            Ok(count) => {
                self.held.extend_from_slice(&piece[..count])?;
                Ok(count > 0)
            }
            Err(error) => Err(error_at(self.name, fault_of(&error))),
        }
    }

    /// Drops the first `size` held bytes, or all if there are fewer.
    pub fn let_go(&mut self, size: usize) {
        let size = size.min(self.held.len());
        let left = self.held.len() - size;
        self.held.copy_within(size.., 0);
        self.held.truncate(left);
    }
}

/// What is read piece by piece from this reader; errors have this name.
pub fn feed_over<F: Drop>(alloc: Global, name: &str, file: F) -> Feed<'_, F> {
    Feed {
        name,
        file,
        held: Vec::new(alloc),
    }
}

/// Opens the file of this name; nothing of it is read yet.
pub fn feed_of<'a, R: Files + AllocGlobal>(
    rt: &R,
    name: &'a str,
) -> Result<Feed<'a, R::File>, FileError<'a>> {
    match File::open(rt, name) {
        Ok(file) => Ok(feed_over(rt.alloc(), name, file)),
        Err(error) => Err(error_at(name, fault_of(&error))),
    }
}
