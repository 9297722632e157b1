//! The records that are read off a stream.

ghost use Rattle.std.specs.Prelude.{◌≡◌, ℕ, ◌==◌, ◌-◌, ◌≤◌, length, take, Some};
ghost use Rattle.std.specs.List.{position_or_len};
ghost use Rattle.lc_model.specs.Name.{name_in};
ghost use Rattle.lc_model.specs.Host.Stream.{header_size};
ghost use Rattle.flight_core.specs.Front.{entry_by, HasName, IsOfText};
ghost use Rattle.flight_core.specs.Found.{answer_of, IsShortNamed, NamesText};
ghost use Rattle.flight_core.specs.Answer.{Entry};

use crate::front::Shape;
use lc_model::stream::{HEADER, NAME, moment_of};
use lc_model::{Body, Kind, Moment, Record, name_in};

/// The next record of a stream, or the number of a bad one. It borrows its bytes and names from the buffer.
#[derive(Clone, Copy, Debug, PartialEq, Eq)]
pub enum Found<'a> {
    /// A packet, a tick or a file, with its moment.
    Record(Record<'a>),
    /// The compiled table file of this half of text `text`, numbered from 0, is to be stored under `name`.
    Half {
        moment: Moment,
        /// The file name: the bytes before the first zero byte of its 40-byte field.
        name: &'a [u8],
        kind: Kind,
        text: usize,
    },
    /// Record `n`, numbered from 1 up to 2^64 - 1, is bad: its kind, its length, its half or its text number is not valid.
    Bad {
        n: u64,
    },
}

/// The name in a body's first 40 bytes.
fn front_name(body: &[u8]) -> &[u8]
    requires { NAME ≤ length body.now }
    ensures name { result.now ≡ name_in (take NAME body.now) }
    ensures few { length result.now ≤ NAME }
{
    name_in(&body[..NAME])
}

/// The record of this shape in these bytes.
#[inline(always)]
pub(crate) fn read_off(shape: Shape, bytes: &[u8]) -> Found<'_>
    requires long { header_size ≤ length bytes.now }
    requires named { HasName shape (length bytes.now - header_size) }
    ensures entry { answer_of result ≡ Entry (entry_by shape bytes.now) }
    ensures text { (texts : ℕ) → IsOfText texts shape → NamesText texts result }
    ensures named { IsShortNamed result }
{
    let moment = moment_of(bytes);
    let body = &bytes[HEADER..];
    match shape {
        Shape::Packet => Found::Record(Record {
            moment,
            body: Body::Packet(body),
        }),
        Shape::Tick => Found::Record(Record {
            moment,
            body: Body::Tick,
        }),
        Shape::File => Found::Record(Record {
            moment,
            body: Body::File {
                name: front_name(body),
                bytes: &body[NAME..],
            },
        }),
        Shape::Half { kind, text } => Found::Half {
            moment,
            name: front_name(body),
            kind,
            text,
        },
    }
}
