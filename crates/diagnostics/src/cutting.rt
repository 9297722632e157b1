//! The part of a long line that is shown.

ghost use Rattle.std.specs.Prelude.{◌≡◌, IfOk};
ghost use Rattle.diagnostics.specs.Window.{dotted_before, mark_width, window, window_start};

use crate::parts::{behind, front};
use std::alloc::{AllocError, Global};

/// The most columns of a line that are shown.
pub const WIDTH: usize = 100;

/// How many of them stand before the mark.
const BEFORE: usize = 40;

/// What stands for the rest of a line.
const DOTS: [char; 3] = ['.', '.', '.'];

/// The first column shown of a line of `columns` columns, for a mark that begins after `mark` of them.
pub fn window_start(columns: usize, mark: usize) -> usize
    ensures { result ≡ window_start columns mark }
{
    if columns <= WIDTH {
        return 0;
    }
    mark.saturating_sub(BEFORE).min(columns - WIDTH)
}

/// A line's columns from `start` on, with dots in the place of the first three where the line has columns before them.
fn dotted_before(alloc: Global, start: usize, part: &[char]) -> Result<Vec<char>, AllocError>
    ensures { IfOk result (λ dotted. dotted.items ≡ dotted_before start part.now) }
{
    if start == 0 {
        return Vec::from_slice(alloc, part);
    }
    let mut dotted = Vec::from_slice(alloc, &DOTS)?;
    dotted.extend_from_slice(behind(part, DOTS.len()))?;
    Ok(dotted)
}

/// The columns shown from `start` on, at most 100. Three dots replace the first three where the line is cut before them, and the
/// last three where it is cut after them.
pub fn window(alloc: Global, columns: &[char], start: usize) -> Result<Vec<char>, AllocError>
    ensures { IfOk result (λ shown. shown.items ≡ window columns.now start) }
{
    let rest = behind(columns, start);
    let mut shown = dotted_before(alloc, start, front(rest, WIDTH))?;
    if rest.len() <= WIDTH {
        return Ok(shown);
    }
    shown.truncate(WIDTH - DOTS.len());
    shown.extend_from_slice(&DOTS)?;
    Ok(shown)
}

/// How many columns are marked: those of the token that are shown, and at least one.
pub fn mark_width(shown: usize, from: usize, token: usize) -> usize
    ensures { result ≡ mark_width shown from token }
{
    token.min(shown.saturating_sub(from)).max(1)
}
