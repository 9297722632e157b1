//! Places of a text as editors count them.

ghost use Rattle.std.specs.Prelude.{◌≡◌, ◌<◌, ◌≤◌, ◌+◌, ◌==◌, length, min, slice_index};
ghost use Rattle.editor_text.specs.Place.{ends_line, is_after, line_feed, next_place, offset_of, place_of, reach, units_of};

use std::marker::Model;

/// A place of a text: its line and the UTF-16 units before it on the line, both counted from 0. A line ends with a line feed, with a
/// carriage return, or with both in this order (Language Server Protocol 3.17, "Position").
#[derive(Clone, Copy, Debug, PartialEq, Eq)]
pub struct UnitPlace {
    /// Lines before it.
    pub line: u32,
    /// UTF-16 units before it on its line.
    pub unit: u32,
}

/// The place of the first byte.
const START: UnitPlace = UnitPlace { line: 0, unit: 0 };

/// The UTF-16 units of a character, by its first byte; 0 for its other bytes.
fn units_of(byte: u8) -> u32
    ensures { result ≡ units_of byte }
{
    match byte {
        0x80..=0xBF => 0,
        0xF0..=0xFF => 2,
        _ => 1,
    }
}

/// Whether the byte after this one is a line feed.
fn is_before_line_feed(text: &[u8], at: usize) -> bool
    requires { at < length text.now }
    ensures { result ≡ (slice_index text.now (at + 1) == line_feed) }
{
    let next = at + 1;
    next < text.len() && text[next] == b'\n'
}

/// Whether a line ends with this byte: with a line feed, or a carriage return that no line feed follows.
fn ends_line(text: &[u8], at: usize) -> bool
    requires { at < length text.now }
    ensures { result ≡ ends_line text.now at }
{
    text[at] == b'\n' || text[at] == b'\r' && !is_before_line_feed(text, at)
}

/// The place after this byte, whose own place is given.
fn next_place(text: &[u8], at: usize, place: UnitPlace) -> UnitPlace
    requires { at < length text.now }
    ensures { result ≡ next_place text.now at place }
{
    if ends_line(text, at) {
        UnitPlace {
            line: place.line.saturating_add(1),
            unit: 0,
        }
    } else {
        UnitPlace {
            line: place.line,
            unit: place.unit.saturating_add(units_of(text[at])),
        }
    }
}

/// Whether a place stands after another.
fn is_after(a: UnitPlace, b: UnitPlace) -> bool
    ensures { result ≡ is_after a b }
{
    a.line > b.line || a.line == b.line && a.unit > b.unit
}

/// The last byte whose place isn't after this one, or the text's end.
fn reach(text: &[u8], place: UnitPlace) -> usize
    ensures reach { result ≡ reach text.now place 0 (length text.now) }
    ensures within { result ≤ length text.now }
{
    let mut here = START;
    let mut at = 0;
    while at < text.len() {
        here = next_place(text, at, here);
        if is_after(here, place) {
            return at;
        }
        at += 1;
    }
    at
}

/// How many bytes stand before a place. After a line's last unit, its end; after the last line, the text's end; inside a character, its
/// first byte.
pub fn offset_at(text: &[u8], place: UnitPlace) -> usize
    ensures offset { result ≡ offset_of text.now place }
    ensures within { result ≤ length text.now }
{
    let at = reach(text, place);
    if at > 0 && text[at - 1] == b'\r' && is_before_line_feed(text, at - 1) {
        at - 1
    } else {
        at
    }
}

/// A walk through a text that gives the places of bytes. Places in the order of the text cost one reading of it in all.
#[derive(Drop)]
pub struct Walk<'a> {
    text: &'a [u8],
    at: usize,
    place: UnitPlace,
}

impl<'a> Model for Walk<'a> {
    ghost use Rattle.std.specs.Prelude.{ℕ, List, ◌≡◌, ◌≤◌, length};
    ghost use Rattle.editor_text.specs.Place.{place_of};

    ghost Value = { List ℕ };

    ghost view = { λ walk. walk.text.now };

    ghost invariant = { λ walk. (walk.at ≤ length walk.text.now) × (walk.place ≡ place_of walk.text.now walk.at) };
}

impl<'a> Walk<'a> {
    /// A walk at the text's first byte.
    #[tactic(auto, unfolding(crate::specs::Place::place_of))]
    pub fn new(text: &'a [u8]) -> Walk<'a>
        ensures { result ≡ text.now }
    {
        Walk {
            text,
            at: 0,
            place: START,
        }
    }

    /// The place of the byte that has `at` bytes before it; beyond the end, that of the end. A place before the last one starts anew.
    #[tactic(auto, unfolding(crate::specs::Place::place_of))]
    pub fn place_at(&mut self, at: usize) -> UnitPlace
        ensures place { result ≡ place_of self.old (min at (length self.old)) }
        ensures same { self.new ≡ self.old }
    {
        let at = at.min(self.text.len());
        let place = if at < self.at {
            walk_on(self.text, 0, at, START)
        } else {
            walk_on(self.text, self.at, at, self.place)
        };
        self.at = at;
        self.place = place;
        place
    }
}

/// The place of a byte, from that of a byte before it.
fn walk_on(text: &[u8], from: usize, at: usize, start: UnitPlace) -> UnitPlace
    requires order { from ≤ at }
    requires within { at ≤ length text.now }
    requires start { start ≡ place_of text.now from }
    ensures { result ≡ place_of text.now at }
{
    let mut place = start;
    for here in from..at {
        place = next_place(text, here, place);
    }
    place
}
