//! Gaps: what stands between two pieces.

ghost use Rattle.std.specs.Prelude.{◌≡◌, option_map};
ghost use Rattle.rule_layout.specs.Gaps.{blanks, lines, may_touch, new_line, sound_gap};

use crate::piece::{is, is_comment};

/// Line feeds, and blanks after them.
#[derive(Clone, Copy)]
pub(crate) struct Gap {
    pub lines: u8,
    pub blanks: usize,
}

impl Gap {
    /// So many blanks on one line.
    pub fn of_blanks(count: usize) -> Gap
        ensures { result ≡ blanks count }
    {
        Gap {
            lines: 0,
            blanks: count,
        }
    }

    /// So many line feeds, and no blanks.
    pub fn of_lines(count: u8) -> Gap
        ensures { result ≡ lines count }
    {
        Gap {
            lines: count,
            blanks: 0,
        }
    }

    /// A line feed, and so many blanks.
    pub fn new_line(count: usize) -> Gap
        ensures { result ≡ new_line count }
    {
        Gap {
            lines: 1,
            blanks: count,
        }
    }
}

/// Whether a token may follow another with nothing between them: nothing stands after `(`, and nothing before `;` and `)`.
pub(crate) fn may_touch(before: &[u8], text: &[u8]) -> bool
    ensures { result ≡ may_touch before.now text.now }
{
    is(before, b"(") || is(text, b";") || is(text, b")")
}

/// The gap, or a wider one if the two pieces would not stay what they are: a comment ends with its line, and most tokens need a
/// blank between them. Nothing stands before the first piece.
pub(crate) fn sound_gap(before: Option<&[u8]>, gap: Gap, text: &[u8]) -> Gap
    ensures { result ≡ sound_gap (option_map (λ before. before.now) before.entry) gap text.now }
{
    match before {
        None => Gap::of_blanks(0),
        Some(before) => {
            if is_comment(before) && gap.lines == 0 {
                Gap::new_line(gap.blanks)
            } else if gap.lines == 0 && gap.blanks == 0 && !may_touch(before, text) {
                Gap::of_blanks(1)
            } else {
                gap
            }
        }
    }
}
