//! Finds the rule text that a stream names and that isn't given.

use flight_core::{Found, Records};
use std::alloc::{AllocError, Global};
use std::cell::Cell;
use std::io::{self, Read};

/// As many rule texts as a record can name.
const ALL_TEXTS: usize = 65_536;

/// A reader of a stream. It stores the number of the rule text that the run's first bad record names, if that text isn't given.
#[derive(Drop)]
pub struct TextNoting<'a, I: Drop> {
    input: I,
    /// The bytes after the last whole record. A half of any text that a record can name counts as a record here.
    records: Records,
    /// The number of texts that are given.
    texts: usize,
    missing: &'a Cell<Option<usize>>,
}

impl<'a, I: Drop> TextNoting<'a, I> {
    /// Wraps a reader of a stream for a run of `texts` rule texts; the number is stored in `missing`. Error: out of memory.
    pub fn new(
        alloc: Global,
        input: I,
        texts: usize,
        missing: &'a Cell<Option<usize>>,
    ) -> Result<TextNoting<'a, I>, AllocError> {
        Ok(TextNoting {
            input,
            records: Records::new(alloc, ALL_TEXTS)?,
            texts,
            missing,
        })
    }

    /// Reads the records of the next piece of the stream. It has at most 8,192 bytes, so all of it is taken.
    fn follow(&mut self, piece: &[u8]) {
        let _taken = self.records.feed(piece);
        for _ in 0..self.records.held() {
            match self.records.next() {
                Some(Found::Half { text, .. }) => {
                    if text >= self.texts {
                        self.missing.set(Some(text));
                        return;
                    }
                }
                Some(Found::Record(_)) => {}
                Some(Found::Bad { .. }) | None => return,
            }
        }
    }
}

impl<I: Read + Drop> Read for TextNoting<'_, I> {
    fn read(&mut self, room: &mut [u8]) -> io::Result<usize> {
        let count = self.input.read(room)?;
        if self.missing.get().is_none() {
            self.follow(&room[..count]);
        }
        Ok(count)
    }
}
