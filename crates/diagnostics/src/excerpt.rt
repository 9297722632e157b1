//! A line, as it is shown with marks under a part of it.

ghost use Rattle.std.specs.Prelude.{◌≡◌, ◌≤◌, length, IfOk};
ghost use Rattle.diagnostics.specs.Excerpt.{IsExcerpt};

use crate::columns::shown_columns;
use crate::cutting::{WIDTH, mark_width, window, window_start};
use crate::line::{line_number, line_start, written_line};
use crate::parts::{behind, front};
use std::alloc::{AllocError, Global};

/// The part of a line that is shown, and which of its columns are marked.
#[derive(Drop)]
pub(crate) struct Excerpt {
    /// The line's number, from 1.
    pub line: usize,
    /// At most 100 columns.
    pub columns: Vec<char>,
    /// Columns before the first mark.
    pub from: usize,
    /// Columns that are marked, one at least.
    pub marks: usize,
    /// Whether a part of the line is left out.
    pub is_cut: bool,
}

/// The excerpt for this many bytes at this place.
pub(crate) fn excerpt_of(
    alloc: Global,
    text: &[u8],
    at: usize,
    size: usize,
) -> Result<Excerpt, AllocError>
    requires { at ≤ length text.now }
    ensures { IfOk result (IsExcerpt text.now at size) }
{
    let line = written_line(text, at);
    let offset = at - line_start(text, at);
    let token = front(behind(line, offset), size);
    let all = shown_columns(alloc, line)?;
    let mark = shown_columns(alloc, front(line, offset))?.len();
    let start = window_start(all.len(), mark);
    let columns = window(alloc, all.as_slice(), start)?;
    let from = mark.saturating_sub(start);
    let marks = mark_width(columns.len(), from, shown_columns(alloc, token)?.len());
    Ok(Excerpt {
        line: line_number(text, at),
        is_cut: all.len() > WIDTH,
        columns,
        from,
        marks,
    })
}
