//! Where a mark stands.

ghost use Rattle.std.specs.Prelude.{◌≡◌, ◌≤◌, length};
ghost use Rattle.diagnostics.specs.Object.{IsSpot, end_column, token_in_line};

use crate::character::character_count;
use crate::line::{line_start, written_line};
use crate::message::Mark;
use crate::place::place_of;

/// A place of a text, and what is said of it.
#[derive(Clone, Copy)]
pub struct Spot<'a> {
    /// From 1.
    pub line: usize,
    /// From 1, in characters.
    pub column: usize,
    /// The column after the marked bytes, as far as they stand on the line.
    pub end_column: usize,
    /// What the message says about it.
    pub label: &'a str,
}

/// The `size` bytes at this place, as far as they stand on its line.
fn token_in_line(text: &[u8], at: usize, size: usize) -> &[u8]
    requires { at ≤ length text.now }
    ensures { result.now ≡ token_in_line text.now at size }
{
    let line = written_line(text, at);
    let offset = (at - line_start(text, at)).min(line.len());
    let rest = line.split_at(offset).1;
    rest.split_at(size.min(rest.len())).0
}

/// The column after the `size` bytes at this place.
fn end_column(text: &[u8], at: usize, size: usize) -> usize
    requires { at ≤ length text.now }
    ensures { result ≡ end_column text.now at size }
{
    let before = text.split_at(at).0.split_at(line_start(text, at)).1;
    character_count(before) + 1 + character_count(token_in_line(text, at, size))
}

/// Where a mark stands. A place beyond the text's end is its end.
pub fn spot_of<'a>(text: &[u8], mark: &'a Mark) -> Spot<'a>
    ensures { IsSpot text.now mark.now result }
{
    let at = mark.at.min(text.len());
    let place = place_of(text, at);
    Spot {
        line: place.line,
        column: place.column,
        end_column: end_column(text, at, mark.size),
        label: mark.label.as_str(),
    }
}
