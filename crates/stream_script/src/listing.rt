//! From a stream to its listing.

ghost use Rattle.std.specs.Prelude.{◌≡◌, ◌++◌, ◌+◌, ◌-◌, ◌^◌, ◌<◌, ◌≤◌, decimal, length, IfOk};
ghost use Rattle.lc_model.specs.Host.Stream.{header_size, moment_of};
ghost use Rattle.stream_script.specs.Front.{body_in_front, bytes_left, record_size};
ghost use Rattle.stream_script.specs.Kind.{fits_kind};
ghost use Rattle.stream_script.specs.Listing.{head_shown, lines_from, lines_of_rest, record_shown};

use crate::front::{Front, front_of};
use crate::kind::RecordKind;
use crate::shown::with_body;
use crate::text_building::{with_digits, with_number, with_text};
use lc_model::stream::HEADER;
use lc_model::{Moment, u16_at, u32_at};
use std::alloc::{AllocError, Global};

/// A text with a record's number, its moment and its kind.
fn with_head(
    text: Vec<u8>,
    number: usize,
    moment: Moment,
    kind: RecordKind,
) -> Result<Vec<u8>, AllocError>
    ensures { IfOk result (λ after. after.items ≡ text.items ++ head_shown number moment kind) }
{
    let text = with_number(text, number as u64)?;
    let text = with_number(text, u64::from(moment.seconds))?;
    let text = with_number(text, u64::from(moment.subseconds))?;
    with_text(text, kind.word())
}

/// A text with a record's line.
fn with_record(
    alloc: Global,
    text: Vec<u8>,
    number: usize,
    moment: Moment,
    kind: RecordKind,
    body: &[u8],
) -> Result<Vec<u8>, AllocError>
    requires { fits_kind kind (length body.now) }
    ensures { IfOk result
        (λ after. after.items ≡ text.items ++ record_shown number moment kind body.now) }
{
    let text = with_head(text, number, moment, kind)?;
    let text = with_body(alloc, text, kind, body)?;
    with_text(text, b"\n")
}

/// A text with the line of the record in front, which has this size in bytes.
fn with_front(
    alloc: Global,
    text: Vec<u8>,
    number: usize,
    kind: RecordKind,
    size: usize,
    bytes: &[u8],
) -> Result<Vec<u8>, AllocError>
    requires same { size ≡ record_size bytes.now }
    requires long { header_size ≤ size }
    requires inside { size ≤ length bytes.now }
    requires fits { fits_kind kind (size - header_size) }
    ensures { IfOk result
        (λ after. after.items ≡ text.items ++ record_shown number (moment_of bytes.now) kind
        (body_in_front bytes.now)) }
{
    let moment = Moment {
        seconds: u32_at(bytes, 1),
        subseconds: u16_at(bytes, 5),
    };
    let (record, _) = bytes.split_at(size);
    let (_, body) = record.split_at(HEADER);
    with_record(alloc, text, number, moment, kind, body)
}

/// A text with a record's number and why it can't be read.
fn with_end(text: Vec<u8>, number: usize, end: &[u8]) -> Result<Vec<u8>, AllocError>
    ensures { IfOk result (λ after. after.items ≡ text.items ++ (decimal number ++ end.now)) }
{
    let text = with_digits(text, number as u64)?;
    with_text(text, end)
}

/// A text with the line of what is in front, which has this number. Also returns the bytes after it, if it is a record.
fn with_next<'a>(
    alloc: Global,
    text: Vec<u8>,
    number: usize,
    bytes: &'a [u8],
) -> Result<(Vec<u8>, Option<&'a [u8]>), AllocError>
    ensures said { IfOk result
        (λ next. next.0.items ++ lines_of_rest (number + 1) next.1 ≡ text.items ++ lines_from number
        bytes.now) }
    ensures fewer { IfOk result (λ next. bytes_left next.1 ≤ length bytes.now) }
{
    match front_of(bytes) {
        Front::End => Ok((text, None)),
        Front::NoRecord => {
            let text = with_end(text, number, b" is no record\n")?;
            Ok((text, None))
        }
        Front::Cut => {
            let text = with_end(text, number, b" is cut short\n")?;
            Ok((text, None))
        }
        Front::Record { kind, size } => {
            let text = with_front(alloc, text, number, kind, size, bytes)?;
            let (_, rest) = bytes.split_at(size);
            Ok((text, Some(rest)))
        }
    }
}

/// Lists the rest of a stream, whose first record has this number, with a line for each record: number, seconds, subseconds, kind and
/// content. The content is a packet's message id, command and size, a file's name and size, or the half and its rule text. If the
/// stream ends early, the last line has the number of the record that is missing or cut short. Numbers of rule texts aren't judged.
/// The only error is a lack of memory.
pub fn write_listing_from(alloc: Global, first: usize, stream: &[u8]) -> Result<Vec<u8>, AllocError>
    requires { first + length stream.now + 1 < 2 ^ 64 }
    ensures { IfOk result (λ listing. listing.items ≡ lines_from first stream.now) }
{
    let mut listing = Vec::new(alloc);
    let mut left = Some(stream);
    let mut number = first;
    while let Some(bytes) = left {
        let (text, rest) = with_next(alloc, listing, number, bytes)?;
        listing = text;
        left = rest;
        number += 1;
    }
    Ok(listing)
}
