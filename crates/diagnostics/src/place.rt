//! Places of a text.

ghost use Rattle.std.specs.Prelude.{◌≡◌, ◌≤◌, length};
ghost use Rattle.diagnostics.specs.Line.{line_number};
ghost use Rattle.diagnostics.specs.Character.{column};

use crate::character::character_count;
use crate::line::{line_number, line_start};

/// A line and a column, both counted from 1. A column is a character.
#[derive(Clone, Copy)]
pub(crate) struct Place {
    /// Counted from 1.
    pub line: usize,
    /// Counted from 1, in characters.
    pub column: usize,
}

/// The line and column of the byte that has `at` bytes before it, or of the text's end.
pub(crate) fn place_of(text: &[u8], at: usize) -> Place
    requires { at ≤ length text.now }
    ensures line { result.line ≡ line_number text.now at }
    ensures column { result.column ≡ column text.now at }
{
    let front = text.split_at(at).0.split_at(line_start(text, at)).1;
    Place {
        line: line_number(text, at),
        column: character_count(front) + 1,
    }
}
