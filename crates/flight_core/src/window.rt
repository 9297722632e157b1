//! A buffer of unread bytes: pieces are appended at its end, records are taken off its start.

ghost use Rattle.std.specs.Prelude.{◌≡◌, ◌≤◌, ◌+◌, ◌-◌, ◌++◌, [], length, take, drop, IfOk, vec_capacity};
ghost use Rattle.flight_core.specs.Window.{empty_window, window_room};

use lc_model::write_at;
use std::alloc::{AllocError, Global};
use std::marker::Model;

/// The most unread bytes: a longest record of 11 + 65,536 bytes, and a piece of 8,192.
pub(crate) const MOST_HELD: usize = 73_739;

/// The size of the buffer. Unread bytes are moved to its start only when its end is reached; then over 16,384 bytes were taken
/// since the last move, so that moving costs a constant for each byte.
const ROOM: usize = MOST_HELD + 16_384;

/// The unread bytes, and the record taken last, in a list that never grows. Contracts see both as lists.
#[derive(Drop)]
pub(crate) struct Window {
    room: Vec<u8>,
    /// Where the record taken last begins.
    last: usize,
    /// Where the unread bytes begin, and where they end.
    start: usize,
    end: usize,
}

impl Model for Window {
    ghost use Rattle.std.specs.Prelude.{take, drop, length, vec_capacity};
    ghost use Rattle.flight_core.specs.Window.{Shown, IsWindow};

    ghost Value = { Shown };

    ghost view = { λ w.
        record {
          last = drop w.last (take w.start w.room.items);
          held = drop w.start (take w.end w.room.items);
        } };

    ghost invariant = { λ w. IsWindow w.last w.start w.end (length w.room.items)
        (vec_capacity w.room) };
}

/// Moves the bytes from `start` to before `end` to the front.
#[cold]
#[inline(never)]
pub(crate) fn move_to_front(bytes: &mut Vec<u8>, start: usize, end: usize)
    requires ordered { start ≤ end }
    requires inside { end ≤ length bytes.old.items }
    ensures items { take (end - start) bytes.new.items ≡ drop start (take end bytes.old.items) }
    ensures size { length bytes.new.items ≡ length bytes.old.items }
    ensures capacity { vec_capacity bytes.new ≡ vec_capacity bytes.old }
{
    bytes.copy_within(start..end, 0);
}

impl Window {
    /// Creates an empty one. It allocates all memory that it ever needs; running out of it is the only error.
    pub fn new(alloc: Global) -> Result<Window, AllocError>
        ensures { IfOk result (λ window. window ≡ empty_window) }
    {
        Ok(Window {
            room: Vec::with_capacity(alloc, ROOM)?,
            last: 0,
            start: 0,
            end: 0,
        })
    }

    /// How many bytes there is room for.
    pub fn capacity(&self) -> usize
        ensures { result ≡ window_room }
    {
        self.room.capacity()
    }

    /// The unread bytes.
    #[inline(always)]
    pub fn contents(&self) -> &[u8]
        ensures held { result.now ≡ self.now.held }
        ensures few { length self.now.held ≤ MOST_HELD }
    {
        &self.room[self.start..self.end]
    }

    /// The bytes taken last.
    #[inline(always)]
    pub fn last(&self) -> &[u8]
        ensures { result.now ≡ self.now.last }
    {
        &self.room[self.last..self.start]
    }

    /// Takes the first `size` unread bytes.
    #[inline(always)]
    pub fn take(&mut self, size: usize)
        requires { size ≤ length self.old.held }
        ensures { self.new ≡
            record { last = take size self.old.held; held = drop size self.old.held } }
    {
        self.last = self.start;
        self.start += size;
    }

    /// Appends bytes. Condition: at most 73,739 bytes are unread then.
    pub fn add(&mut self, bytes: &[u8])
        requires { length self.old.held + length bytes.now ≤ MOST_HELD }
        ensures { self.new ≡ record { last = []; held = self.old.held ++ bytes.now } }
    {
        if self.end + bytes.len() > ROOM {
            move_to_front(&mut self.room, self.start, self.end);
            self.end -= self.start;
            self.start = 0;
        }
        self.last = self.start;
        write_at(&mut self.room, self.end, bytes);
        self.end += bytes.len();
    }
}
