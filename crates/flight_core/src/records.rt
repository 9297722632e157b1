//! The records of a stream that comes in pieces.

ghost use Rattle.std.specs.Prelude.{◌≡◌, ◌≤◌, ◌<◌, ◌+◌, false, length, IfOk, IfSome, IsNone};
ghost use Rattle.std.specs.Borrow.{sem};
ghost use Rattle.std.specs.Io.BufRead.{Rests};
ghost use Rattle.lc_model.specs.Host.Stream.{header_size, max_body};
ghost use Rattle.flight_core.specs.Front.{part_of};
ghost use Rattle.flight_core.specs.Found.{answer_in, IsShortNamed, NamesText};
ghost use Rattle.flight_core.specs.Records.{nothing_held, taken_of, fed, next_answer, after_next, front_of, most_held, IsRecord};
ghost use Rattle.flight_core.specs.Window.{window_room};
ghost use Rattle.flight_core.specs.contracts.records.Records.{the_row};

use crate::found::{Found, read_off};
use crate::front::{Front, front_of};
use crate::window::{MOST_HELD, Window};
use std::alloc::{AllocError, Global};
use std::marker::Model;

/// The records of a stream, however it is cut into pieces.
///
/// A piece is appended to the unread bytes, and each record is judged and lent in place. The cost of all calls is a constant for
/// each byte and each call. Contracts see it as `Held`: the unread bytes, the number of records handed out, whether the next
/// record is bad, the number of rule texts, and the record handed out last.
#[derive(Drop)]
pub struct Records {
    window: Window,
    texts: usize,
    count: u64,
    is_bad: bool,
}

impl Model for Records {
    ghost use Rattle.flight_core.specs.Records.{Held};

    ghost Value = { Held };

    ghost view = { λ r.
        record {
          bytes = r.window.held;
          last = r.window.last;
          count = r.count;
          is_bad = r.is_bad;
          texts = r.texts;
        } };
}

impl Records {
    /// Creates it for an empty stream that may name halves of `texts` rule texts. It allocates all memory that it ever needs;
    /// running out of it is the only error.
    pub fn new(alloc: Global, texts: usize) -> Result<Records, AllocError>
        ensures { IfOk result (λ records. records ≡ nothing_held texts) }
    {
        Ok(Records {
            window: Window::new(alloc)?,
            texts,
            count: 0,
            is_bad: false,
        })
    }

    /// Appends the start of `piece` to the unread bytes, as much as leaves at most 73,739 of them (a longest record and a piece
    /// of 8,192 bytes), and returns the number of bytes taken. After a bad record it takes none.
    pub fn feed(&mut self, piece: &[u8]) -> usize
        ensures taken { result ≡ length (taken_of self.old piece.now) }
        ensures fed { self.new ≡ fed self.old piece.now }
        ensures few { length self.new.bytes ≤ most_held }
        ensures whole { self.old.is_bad ≡ false →
            length self.old.bytes + length piece.now ≤ most_held →
            taken_of self.old piece.now ≡ piece.now }
    {
        let room = MOST_HELD - self.window.contents().len();
        if self.is_bad {
            // Nothing is taken, and no record is lent from here on.
            self.window.add(&[]);
            return 0;
        }
        let taken = piece.len().min(room);
        self.window.add(&piece[..taken]);
        taken
    }

    /// Takes the next record off the unread bytes and lends it in place. Returns `Bad` for a bad record, at this and each later
    /// call, and `None` if no whole record is there yet.
    #[inline(always)]
    pub fn next(&mut self) -> Option<Found<'_>>
        ensures found { answer_in result ≡ next_answer self.old }
        ensures text { IfSome result (NamesText self.old.texts) }
        ensures named { IfSome result IsShortNamed }
        ensures shorter { IsRecord (next_answer self.old) →
            length (after_next self.old).bytes < length self.old.bytes }
        ensures part { IsNone result → front_of self.old ≡ part_of self.old.bytes }
        ensures few { IsNone result → length self.old.bytes < header_size + max_body }
        ensures* after { sem 𝓛 (Rests the_row self.entry (λ new. new ≡ after_next self.old)) }
    {
        match front_of(self.texts, self.window.contents()) {
            Front::Part => None,
            Front::NoRecord => {
                self.is_bad = true;
                Some(Found::Bad {
                    n: self.count.saturating_add(1),
                })
            }
            Front::Record { shape, size } => {
                self.count = self.count.saturating_add(1);
                self.window.take(size);
                Some(read_off(shape, self.window.last()))
            }
        }
    }

    /// The bytes, header and body, of the record handed out last; empty after the next piece.
    pub fn last_record(&self) -> &[u8]
        ensures { result.now ≡ self.now.last }
    {
        self.window.last()
    }

    /// How many records were handed out, up to 2^64 - 1.
    pub(crate) fn count(&self) -> u64
        ensures { result ≡ self.now.count }
    {
        self.count
    }

    /// How many bytes, unread or of records that were taken, there is room for. No call changes it.
    pub fn capacity(&self) -> usize
        ensures { result ≡ window_room }
    {
        self.window.capacity()
    }

    /// The number of unread bytes.
    pub fn held(&self) -> usize
        ensures held { result ≡ length self.now.bytes }
        ensures few { length self.now.bytes ≤ most_held }
    {
        self.window.contents().len()
    }
}
