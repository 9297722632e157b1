//! How many columns pieces take on one line.

ghost use Rattle.std.specs.Prelude.{◌≡◌, ◌&&◌, ◌||◌, bytes_eq, codes, length};
ghost use Rattle.rule_layout.specs.Layout.{columns_from, item_columns, may_break, part_columns};
ghost use Rattle.rule_layout.specs.Pieces.{shapes_of};
ghost use Rattle.rule_layout.specs.Shapes.{is_comment};

use crate::gap::may_touch;
use crate::piece::{Piece, is, is_comment};

/// The most columns of a line that can be broken.
pub(crate) const MOST_COLUMNS: usize = 100;

/// Whether a line may be broken before this piece.
pub(crate) fn may_break(text: &[u8]) -> bool
    ensures { result ≡ may_break text.now }
{
    is(text, b"mask")
        || is(text, b"stale")
        || is(text, b"event")
        || is(text, b"report")
        || is(text, b"when")
        || is(text, b"or")
        || is(text, b"xor")
        || is(text, b"and")
}

/// Whether the pieces that stand on one line end between these two.
fn ends_between(before: &[u8], next: &[u8], is_part: bool) -> bool
    ensures { result ≡ (bytes_eq before.now (codes ";") ||
        (is_comment next.now || (is_part && may_break next.now))) }
{
    is(before, b";") || is_comment(next) || is_part && may_break(next)
}

/// The columns of a piece and those after it on one line: up to the end of the item or a comment, and, of a part, up to the next
/// place where the line may be broken.
fn columns(text: &[u8], rest: &[Piece], is_part: bool) -> usize
    ensures { result ≡ columns_from is_part text.now (length text.now) (shapes_of rest.now) }
{
    let mut sum = text.len();
    let mut before = text;
    let mut count = 0;
    while count < rest.len() {
        let next = rest[count].text;
        if ends_between(before, next, is_part) {
            return sum;
        }
        let blanks = if may_touch(before, next) { 0 } else { 1 };
        sum = sum.saturating_add(blanks).saturating_add(next.len());
        before = next;
        count += 1;
    }
    sum
}

/// The columns from this piece to the end of its item, or to a comment.
pub(crate) fn item_columns(text: &[u8], rest: &[Piece]) -> usize
    ensures { result ≡ item_columns text.now (shapes_of rest.now) }
{
    columns(text, rest, false)
}

/// The columns from this piece to the next place where the line may be broken.
pub(crate) fn part_columns(text: &[u8], rest: &[Piece]) -> usize
    ensures { result ≡ part_columns text.now (shapes_of rest.now) }
{
    columns(text, rest, true)
}
