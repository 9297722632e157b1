//! Judges the next record of a stream (this project's own format).

ghost use Rattle.std.specs.Prelude.{◌≡◌, ◌+◌, ◌≤◌, true, length, take, slice_index, option_map, IfSome};
ghost use Rattle.lc_model.specs.Bytes.{u16_at};
ghost use Rattle.lc_model.specs.Name.{name_in, name_size};
ghost use Rattle.lc_model.specs.Host.Stream.{all_kinds, contents_of, fits_body, half_contents};
ghost use Rattle.flight_core.specs.Front.{contents_by, HasName, IsFront, IsOfText};

use lc_model::stream::{HALF, HEADER, NAME, body_size, fits_body};
use lc_model::{Kind, u16_at};

/// The kind of a whole record.
#[derive(Clone, Copy)]
pub(crate) enum Shape {
    Packet,
    Tick,
    File,
    /// The file of this table of text `text`.
    Half { kind: Kind, text: usize },
}

/// What the unread bytes begin with.
#[derive(Clone, Copy)]
pub(crate) enum Front {
    /// Nothing, or a part of a record.
    Part,
    /// A bad record, whatever follows.
    NoRecord,
    /// A whole record of `size` bytes.
    Record { shape: Shape, size: usize },
}

/// The half that a body of kind 4 names; `None` if there is no such half, or no such text among `texts`.
#[inline(never)]
fn half(texts: usize, body: &[u8]) -> Option<Shape>
    requires { length body.now ≡ HALF }
    ensures text { IfSome result (IsOfText texts) }
    ensures named { IfSome result (λ shape. HasName shape (length body.now)) }
    ensures brings { option_map (contents_by body.now) result ≡
        half_contents texts (name_in (take NAME body.now)) (slice_index body.now name_size)
        (u16_at body.now (name_size + 1)) }
{
    let text = usize::from(u16_at(body, 41));
    if text >= texts {
        return None;
    }
    match body[NAME] {
        1 => Some(Shape::Half {
            kind: Kind::Wdt,
            text,
        }),
        2 => Some(Shape::Half {
            kind: Kind::Adt,
            text,
        }),
        _ => None,
    }
}

/// The shape of a record with this kind and body, among `texts` texts; `None` if its half or text number is not valid.
#[inline(always)]
fn shape_of(texts: usize, kind: u8, body: &[u8]) -> Option<Shape>
    requires { fits_body all_kinds kind (length body.now) ≡ true }
    ensures text { IfSome result (IsOfText texts) }
    ensures named { IfSome result (λ shape. HasName shape (length body.now)) }
    ensures brings { option_map (contents_by body.now) result ≡ contents_of texts kind body.now }
{
    match kind {
        1 => Some(Shape::Packet),
        2 => Some(Shape::Tick),
        3 => Some(Shape::File),
        _ => half(texts, body),
    }
}

/// Judges the next record; `texts` is the number of texts.
#[inline(always)]
pub(crate) fn front_of(texts: usize, bytes: &[u8]) -> Front
    ensures { IsFront texts bytes.now result }
{
    if bytes.len() < HEADER {
        return Front::Part;
    }
    let size = body_size(bytes);
    if !fits_body(bytes[0], size) {
        return Front::NoRecord;
    }
    if bytes.len() < HEADER + size {
        return Front::Part;
    }
    match shape_of(texts, bytes[0], &bytes[HEADER..HEADER + size]) {
        Some(shape) => Front::Record {
            shape,
            size: HEADER + size,
        },
        None => Front::NoRecord,
    }
}
