//! The lines of a text by their numbers.

ghost use Rattle.std.specs.Prelude.{◌≡◌, ◌≤◌};
ghost use Rattle.script_errors.specs.Line.{IsLine, IsLineBegin, line_count};

use diagnostics::line_of;

/// A line of a text.
#[derive(Clone, Copy)]
pub struct Line<'a> {
    /// The number of bytes of the text before it.
    pub begin: usize,
    /// Its bytes, without the line feed.
    pub bytes: &'a [u8],
}

/// The number of bytes of the text before the line with this number, from 1.
fn line_begin(text: &[u8], number: usize) -> usize
    requires some { 1 ≤ number }
    requires there { number ≤ line_count text.now }
    ensures { IsLineBegin text.now number result }
{
    let mut at = 0;
    let mut line = 1;
    while line < number && at < text.len() {
        if text[at] == b'\n' {
            line += 1;
        }
        at += 1;
    }
    at
}

/// The number of lines of the text: one more than line feeds.
pub fn line_count(text: &[u8]) -> usize
    ensures { result ≡ line_count text.now }
{
    text.iter().filter(|byte| **byte == b'\n').count() + 1
}

/// The line with this number, from 1.
pub fn line_numbered(text: &[u8], number: usize) -> Line<'_>
    requires some { 1 ≤ number }
    requires there { number ≤ line_count text.now }
    ensures { IsLine text.now number result }
{
    let begin = line_begin(text, number);
    Line {
        begin,
        bytes: line_of(text, begin),
    }
}
