//! The kinds of records, and which body each may have.

ghost use Rattle.std.specs.Prelude.{◌≡◌, ◌≤◌, true, length};
ghost use Rattle.lc_model.specs.Host.Stream.{all_kinds, fits_body, max_body};
ghost use Rattle.stream_script.specs.Kind.{kind_in, kind_number, kind_numbered, kind_word, fits_kind, has_half, may_bring};
ghost use Rattle.stream_script.specs.Script.{some_kind};

use crate::error::Reason;
use crate::word::is;
use lc_model::stream::{NAME, fits_body};

/// The kind of a record, by what it brings.
#[derive(Clone, Copy)]
pub enum RecordKind {
    /// The bytes of a packet.
    Packet,
    /// A tick, without bytes.
    Tick,
    /// A file's name in 40 bytes, and its bytes.
    File,
    /// A file's name in 40 bytes, and which half of which rule text it has.
    Half,
}

impl RecordKind {
    /// The kind's number in a stream.
    pub fn number(self) -> u8
        ensures { result ≡ kind_number self }
    {
        match self {
            RecordKind::Packet => 1,
            RecordKind::Tick => 2,
            RecordKind::File => 3,
            RecordKind::Half => 4,
        }
    }

    /// The kind with this number.
    pub(crate) fn from_number(number: u8) -> Option<RecordKind>
        ensures { result ≡ kind_numbered number }
    {
        match number {
            1 => Some(RecordKind::Packet),
            2 => Some(RecordKind::Tick),
            3 => Some(RecordKind::File),
            4 => Some(RecordKind::Half),
            _ => None,
        }
    }

    /// The kind's word in a script.
    pub fn word(self) -> &'static [u8]
        ensures { result.now ≡ kind_word self }
    {
        match self {
            RecordKind::Packet => b"packet",
            RecordKind::Tick => b"tick",
            RecordKind::File => b"file",
            RecordKind::Half => b"half",
        }
    }

    /// Whether a record of this kind may have a body of this size in bytes.
    pub(crate) fn fits(self, size: usize) -> bool
        ensures exact { result ≡ fits_body all_kinds (kind_number self) size }
        ensures longest { result ≡ true → size ≤ max_body }
    {
        fits_body(self.number(), size)
    }

    /// Whether a body of a fitting size names half 1 or 2, if the kind is `Half`; true for other kinds.
    pub(crate) fn has_half(self, body: &[u8]) -> bool
        requires { fits_kind self (length body.now) }
        ensures { result ≡ has_half self body.now }
    {
        match self {
            RecordKind::Half => body[NAME] == 1 || body[NAME] == 2,
            _ => true,
        }
    }

    /// Whether a record of this kind may have this body.
    pub(crate) fn may_bring(self, body: &[u8]) -> bool
        ensures exact { result ≡ may_bring self body.now }
        ensures longest { result ≡ true → length body.now ≤ max_body }
    {
        self.fits(body.len()) && self.has_half(body)
    }
}

/// The kind that a word names.
fn kind_in(word: &[u8]) -> Option<RecordKind>
    ensures { result ≡ kind_in word.now }
{
    if is(word, b"packet") {
        Some(RecordKind::Packet)
    } else if is(word, b"tick") {
        Some(RecordKind::Tick)
    } else if is(word, b"file") {
        Some(RecordKind::File)
    } else if is(word, b"half") {
        Some(RecordKind::Half)
    } else {
        None
    }
}

/// The kind that a word names. The error is `UnknownKind`.
pub(crate) fn some_kind(word: &[u8]) -> Result<RecordKind, Reason>
    ensures { result ≡ some_kind (kind_in word.now) }
{
    match kind_in(word) {
        Some(kind) => Ok(kind),
        None => Err(Reason::UnknownKind),
    }
}
