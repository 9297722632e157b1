//! What is at the front of a stream: a record, a part of one, or neither.

ghost use Rattle.std.specs.Prelude.{◌≡◌, ◌≤◌, length, slice_index};
ghost use Rattle.lc_model.specs.Host.Stream.{body_size, header_size};
ghost use Rattle.stream_script.specs.Front.{front_in, front_of_kind, IsInside, Reads};
ghost use Rattle.stream_script.specs.Kind.{kind_numbered};

use crate::kind::RecordKind;
use lc_model::stream::{HEADER, body_size};

/// What is at the front of a stream.
#[derive(Clone, Copy)]
pub enum Front {
    /// The stream is at its end.
    End,
    /// A whole record of this kind and this size in bytes, header included.
    Record { kind: RecordKind, size: usize },
    /// Bytes that can't begin a record, whatever follows.
    NoRecord,
    /// The beginning of a record that is cut short.
    Cut,
}

/// What is at the front of bytes that have a whole header.
fn front_of_header(bytes: &[u8]) -> Front
    requires { header_size ≤ length bytes.now }
    ensures stands { result ≡ front_of_kind (kind_numbered (slice_index bytes.now 0)) bytes.now }
    ensures inside { IsInside bytes.now result }
{
    let Some(kind) = RecordKind::from_number(bytes[0]) else {
        return Front::NoRecord;
    };
    let length = body_size(bytes);
    if !kind.fits(length) {
        return Front::NoRecord;
    }
    let size = HEADER + length;
    if bytes.len() < size {
        return Front::Cut;
    }
    let (record, _) = bytes.split_at(size);
    let (_, body) = record.split_at(HEADER);
    if !kind.has_half(body) {
        return Front::NoRecord;
    }
    Front::Record { kind, size }
}

/// Returns what is at the front of these bytes.
pub fn front_of(bytes: &[u8]) -> Front
    ensures stands { result ≡ front_in bytes.now }
    ensures inside { IsInside bytes.now result }
    ensures reads { Reads bytes.now result }
{
    if bytes.is_empty() {
        return Front::End;
    }
    if bytes.len() < HEADER {
        return Front::Cut;
    }
    front_of_header(bytes)
}
