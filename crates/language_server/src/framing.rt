//! Messages among the bytes that a client sends: header lines with `Content-Length`, an empty line, and a body of this many bytes (Language
//! Server Protocol 3.17, "Base Protocol").

use diagnostics::{behind, front};

/// The longest body that is read, in bytes.
pub const LONGEST_BODY: usize = 67_108_864;

/// The longest header lines, in bytes.
const LONGEST_HEADERS: usize = 8_192;

/// The header that has the size of the body.
const LENGTH: &[u8] = b"content-length:";

/// What stands between header lines and body.
const END: &[u8] = b"\r\n\r\n";

/// What stands in front of bytes that were read.
#[derive(Clone, Copy)]
pub enum Frame {
    /// A part of a message.
    Part,
    /// This many bytes that are no message.
    Junk(usize),
    /// This many bytes of header lines, of a body that is too long.
    TooLong(usize),
    /// A message: the place of its body, and that after its body.
    Whole { from: usize, to: usize },
}

/// Whether the bytes begin with this word, in letters of either case.
fn begins_with(bytes: &[u8], word: &[u8]) -> bool {
    front(bytes, word.len()).eq_ignore_ascii_case(word)
}

/// The first place of a word.
fn first_place(bytes: &[u8], word: &[u8]) -> Option<usize> {
    (0..bytes.len()).find(|at| begins_with(behind(bytes, *at), word))
}

/// The last place of a word.
fn last_place(bytes: &[u8], word: &[u8]) -> Option<usize> {
    (0..bytes.len())
        .rev()
        .find(|at| begins_with(behind(bytes, *at), word))
}

/// The number that decimal digits give, with blanks before it; at most one more than the longest body. `None` if there are none.
fn number_in(bytes: &[u8]) -> Option<usize> {
    let blanks = bytes.iter().take_while(|byte| **byte == b' ').count();
    let mut number = None;
    for byte in behind(bytes, blanks) {
        if !byte.is_ascii_digit() {
            break;
        }
        let digit = usize::from(byte.wrapping_sub(b'0'));
        let more = number
            .unwrap_or(0usize)
            .saturating_mul(10)
            .saturating_add(digit);
        number = Some(more.min(LONGEST_BODY + 1));
    }
    number
}

/// The size of the body that header lines give: the last one that does.
fn body_size(headers: &[u8]) -> Option<usize> {
    let at = last_place(headers, LENGTH)?;
    number_in(behind(headers, at.saturating_add(LENGTH.len())))
}

/// What stands in front of bytes that have no end of header lines: a part of a message, unless they are too many.
fn open_frame(held: &[u8]) -> Frame {
    if held.len() < LONGEST_HEADERS {
        return Frame::Part;
    }
    match last_place(front(held, LONGEST_HEADERS), LENGTH) {
        Some(at) if at > 0 => Frame::Junk(at),
        Some(_) => Frame::Junk(LENGTH.len()),
        None => Frame::Junk(LONGEST_HEADERS - LENGTH.len()),
    }
}

/// What stands in front of bytes with a body of this size from this place on.
fn body_frame(held: &[u8], from: usize, size: usize) -> Frame {
    let to = from.saturating_add(size);
    if size > LONGEST_BODY {
        Frame::TooLong(from)
    } else if to <= held.len() {
        Frame::Whole { from, to }
    } else {
        Frame::Part
    }
}

/// What stands in front of bytes that were read. Bytes before the last `Content-Length:` of header lines don't count.
pub fn first_frame(held: &[u8]) -> Frame {
    let Some(end) = first_place(front(held, LONGEST_HEADERS), END) else {
        return open_frame(held);
    };
    let from = end.saturating_add(END.len());
    match body_size(front(held, end)) {
        Some(size) => body_frame(held, from, size),
        None => Frame::Junk(from),
    }
}
