//! From a stream to its script.

ghost use Rattle.std.specs.Prelude.{◌≡◌, ◌++◌, ◌≤◌, codes, decimal, length, drop, IfOk};
ghost use Rattle.lc_model.specs.Host.Stream.{header_size, moment_of};
ghost use Rattle.stream_script.specs.Front.{body_in_front, bytes_left, record_size};
ghost use Rattle.stream_script.specs.Number.{bytes_word};
ghost use Rattle.stream_script.specs.Telemetry.{telemetry_line};
ghost use Rattle.stream_script.specs.Whole.{record_line, script_of, script_of_rest};

use crate::front::{Front, front_of};
use crate::kind::RecordKind;
use crate::text_building::{with_bytes, with_number, with_text};
use lc_model::stream::HEADER;
use lc_model::{Moment, u16_at, u32_at};
use std::alloc::{AllocError, Global};

/// A text with the script line of a record.
fn with_line(
    alloc: Global,
    mut text: Vec<u8>,
    moment: Moment,
    kind: RecordKind,
    body: &[u8],
) -> Result<Vec<u8>, AllocError>
    ensures { IfOk result
        (λ after. after.items ≡ text.items ++ record_line moment kind body.now ++ codes "\n") }
{
    text.extend_from_slice(b"record ")?;
    let text = with_number(text, u64::from(moment.seconds))?;
    let mut text = with_number(text, u64::from(moment.subseconds))?;
    text.extend_from_slice(kind.word())?;
    text.extend_from_slice(b" ")?;
    let mut text = with_bytes(alloc, text, body)?;
    text.extend_from_slice(b"\n")?;
    Ok(text)
}

/// A text with the script line of the record in front, which has this size in bytes.
fn with_front(
    alloc: Global,
    text: Vec<u8>,
    kind: RecordKind,
    size: usize,
    bytes: &[u8],
) -> Result<Vec<u8>, AllocError>
    requires same { size ≡ record_size bytes.now }
    requires long { header_size ≤ size }
    requires inside { size ≤ length bytes.now }
    ensures { IfOk result
        (λ after. after.items ≡ text.items ++ record_line (moment_of bytes.now) kind
        (body_in_front bytes.now) ++ codes "\n") }
{
    let moment = Moment {
        seconds: u32_at(bytes, 1),
        subseconds: u16_at(bytes, 5),
    };
    let (record, _) = bytes.split_at(size);
    let (_, body) = record.split_at(HEADER);
    with_line(alloc, text, moment, kind, body)
}

/// A text with the script line of what is in front. Also returns the bytes after it, if it is a record.
fn with_next<'a>(
    alloc: Global,
    text: Vec<u8>,
    bytes: &'a [u8],
) -> Result<(Vec<u8>, Option<&'a [u8]>), AllocError>
    ensures said { IfOk result
        (λ next. next.0.items ++ script_of_rest next.1 ≡ text.items ++ script_of bytes.now) }
    ensures fewer { IfOk result (λ next. bytes_left next.1 ≤ length bytes.now) }
{
    match front_of(bytes) {
        Front::End => Ok((text, None)),
        Front::NoRecord => {
            let text = with_text(text, b"# no record\n")?;
            Ok((text, None))
        }
        Front::Cut => {
            let text = with_text(text, b"# cut short\n")?;
            Ok((text, None))
        }
        Front::Record { kind, size } => {
            let text = with_front(alloc, text, kind, size, bytes)?;
            let (_, rest) = bytes.split_at(size);
            Ok((text, Some(rest)))
        }
    }
}

/// The `telemetry` line with this message id, sequence count and payload. The only error is a lack of memory.
pub fn telemetry_line(
    alloc: Global,
    mid: u16,
    count: u16,
    payload: &[u8],
) -> Result<Vec<u8>, AllocError>
    ensures { IfOk result (λ line. line.items ≡ telemetry_line mid count payload.now) }
{
    let mut text = Vec::new(alloc);
    text.extend_from_slice(b"telemetry ")?;
    let mut text = with_bytes(alloc, text, &mid.to_be_bytes())?;
    text.extend_from_slice(b" ")?;
    let text = with_number(text, u64::from(count))?;
    with_bytes(alloc, text, payload)
}

/// The script of a stream: a line for each record, with its moment, its kind and the bytes of its body. A comment ends it if the rest
/// isn't a record or is cut short. The only error is a lack of memory.
pub fn write_script(alloc: Global, stream: &[u8]) -> Result<Vec<u8>, AllocError>
    ensures { IfOk result (λ script. script.items ≡ script_of stream.now) }
{
    let mut script = Vec::new(alloc);
    let mut left = Some(stream);
    while let Some(bytes) = left {
        let (text, rest) = with_next(alloc, script, bytes)?;
        script = text;
        left = rest;
    }
    Ok(script)
}
