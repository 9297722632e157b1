//! Repeated lines: `repeat NUMBER {` before them, and `}` after them.

ghost use Rattle.std.specs.Prelude.{◌≡◌, ◌<◌, ◌≤◌, ◌+◌, ◌^◌, drop, IfOk, IfSome};
ghost use Rattle.text_lines.specs.Lines.{texts_of};
ghost use Rattle.scenarios.specs.Plain.{behind_end, depth_behind, is_end, is_repeat, times_in};

use crate::error::Reason;
use crate::number::number_in;
use crate::word::{is, words_in};
use std::alloc::{AllocError, Global};

/// A current repetition: the place of its first line, and how often it is repeated again.
#[derive(Clone, Copy)]
pub(crate) struct Repetition {
    pub(crate) first: usize,
    pub(crate) left: u32,
}

/// Whether a line with these words begins a repetition.
pub(crate) fn is_repeat(words: &[&[u8]]) -> bool
    ensures { result ≡ is_repeat (texts_of words.now) }
{
    match words {
        [] => false,
        [verb, ..] => is(verb, b"repeat"),
    }
}

/// Whether a line with these words ends one.
pub(crate) fn is_end(words: &[&[u8]]) -> bool
    ensures { result ≡ is_end (texts_of words.now) }
{
    match words {
        [verb] => is(verb, b"}"),
        [] | [_, _, ..] => false,
    }
}

/// The number of repetitions in a line with these words: `repeat NUMBER {`.
pub(crate) fn times_in(words: &[&[u8]]) -> Result<u32, Reason>
    ensures { result ≡ times_in (texts_of words.now) }
{
    let [_, number, open] = words else {
        return Err(Reason::NoRepeat);
    };
    if !is(open, b"{") {
        return Err(Reason::NoRepeat);
    }
    number_in(1_000_000, number)
}

/// The number of open inner repetitions after a line with these words; `None` if the outer repetition ends.
fn depth_behind(words: &[&[u8]], depth: usize) -> Option<usize>
    requires { depth < 2 ^ 63 }
    ensures depth { result ≡ depth_behind (texts_of words.now) depth }
    ensures one_more { IfSome result (λ inner. inner ≤ depth + 1) }
{
    if is_repeat(words) {
        return Some(depth + 1);
    }
    if !is_end(words) {
        return Some(depth);
    }
    if depth == 0 {
        return None;
    }
    Some(depth - 1)
}

/// The place after the end of the repetition whose first line is at this place. The only error is a lack of memory.
pub(crate) fn behind_end(
    alloc: Global,
    lines: &[&[u8]],
    first: usize,
) -> Result<Option<usize>, AllocError>
    ensures { IfOk result
        (λ end. end ≡ behind_end 0 first (drop first (texts_of lines.now))) }
{
    let mut depth = 0;
    for place in first..lines.len() {
        let words = words_in(alloc, lines[place])?;
        match depth_behind(words.as_slice(), depth) {
            Some(inner) => depth = inner,
            None => return Ok(Some(place + 1)),
        }
    }
    Ok(None)
}
