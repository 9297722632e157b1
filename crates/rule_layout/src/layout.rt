//! The layout: which gap stands before each piece.

ghost use Rattle.std.specs.Prelude.{◌≡◌, ◌-◌, bytes_eq, codes, if◌then◌else◌, nat_lt};
ghost use Rattle.rule_layout.specs.Layout.{after, at_start, before_comment, before_equals, before_token, column_after, gap_before, indent, indent_of, item_columns, lacks_room, most_columns, must_break, plus, with_comment, with_item, with_token};
ghost use Rattle.rule_layout.specs.Pieces.{shape_of, shapes_of};

use crate::columns::{MOST_COLUMNS, item_columns, may_break, part_columns};
use crate::gap::{Gap, may_touch};
use crate::group::{Group, group_of};
use crate::piece::{Piece, is, is_comment};

/// The blanks in front of a line that goes on with an item, and as many for each open parenthesis.
const INDENT: usize = 4;

/// Deeper parentheses add no blanks.
const MOST_DEPTH: usize = 8;

/// How the text stands after the pieces so far.
#[derive(Clone, Copy)]
pub(crate) struct Layout {
    /// Whether an item has begun and not ended.
    is_inside: bool,
    /// The columns of the last line.
    column: usize,
    /// How many parentheses are open.
    depth: usize,
    /// Whether the item has no room on one line.
    is_broken: bool,
    /// Whether the item's condition has no room on one line.
    is_long: bool,
    /// The declarations whose `=` stand in one column.
    group: Group,
}

impl Layout {
    /// Nothing has come yet.
    pub fn new() -> Layout
        ensures { result ≡ at_start }
    {
        Layout {
            is_inside: false,
            column: 0,
            depth: 0,
            is_broken: false,
            is_long: false,
            group: Group {
                items: 0,
                columns: 0,
            },
        }
    }

    /// The gap before a piece, if `before` is the one before it and `rest` are those after it. An item begins a line, and one
    /// empty line before it stays.
    pub fn gap_before(self, before: &[u8], piece: &Piece, rest: &[Piece]) -> Gap
        ensures { result ≡ gap_before self before.now (shape_of piece.now) (shapes_of rest.now) }
    {
        if is_comment(piece.text) {
            self.before_comment(piece)
        } else if !self.is_inside {
            Gap::of_lines(piece.lines.max(1))
        } else if is(piece.text, b"=") {
            self.before_equals(before)
        } else {
            self.before_token(before, piece.text, rest)
        }
    }

    /// A comment at the end of a line stays there, and one with a line to itself keeps it.
    fn before_comment(self, piece: &Piece) -> Gap
        ensures { result ≡ before_comment self (shape_of piece.now) }
    {
        if piece.lines == 0 {
            Gap::of_blanks(1)
        } else if self.is_inside {
            Gap::new_line(self.indent())
        } else {
            Gap::of_lines(piece.lines)
        }
    }

    /// The `=` of a group stand in one column.
    fn before_equals(self, name: &[u8]) -> Gap
        ensures { result ≡ before_equals self name.now }
    {
        let missing = self.group.columns.saturating_sub(name.len());
        Gap::of_blanks(missing.saturating_add(1))
    }

    /// A token inside an item stands on a new line if the old one has no room, or at the places where long items are broken.
    fn before_token(self, before: &[u8], text: &[u8], rest: &[Piece]) -> Gap
        ensures { result ≡ before_token self before.now text.now (shapes_of rest.now) }
    {
        if is_comment(before) || self.must_break(text) || self.lacks_room(text, rest) {
            Gap::new_line(self.indent())
        } else if may_touch(before, text) {
            Gap::of_blanks(0)
        } else {
            Gap::of_blanks(1)
        }
    }

    /// Whether a line is broken before this token, however much room there is.
    fn must_break(self, text: &[u8]) -> bool
        ensures { result ≡ must_break self text.now }
    {
        is(text, b"when") && self.is_broken || is(text, b"or") && self.is_long && self.depth == 0
    }

    /// Whether a line may be broken before this token, and has no room for what goes with it.
    fn lacks_room(self, text: &[u8], rest: &[Piece]) -> bool
        ensures { result ≡ lacks_room self text.now (shapes_of rest.now) }
    {
        if !may_break(text) {
            return false;
        }
        let columns = part_columns(text, rest).saturating_add(1);
        self.column.saturating_add(columns) > MOST_COLUMNS
    }

    fn indent(self) -> usize
        ensures { result ≡ indent_of self }
    {
        INDENT + INDENT * self.depth.min(MOST_DEPTH)
    }

    /// The last column after a piece with this gap before it.
    fn column_after(self, gap: Gap, text: &[u8]) -> usize
        ensures { result ≡ column_after self.column gap text.now }
    {
        let start = if gap.lines > 0 { 0 } else { self.column };
        start.saturating_add(gap.blanks.saturating_add(text.len()))
    }

    /// The state after an item's first piece, which ends in this column.
    fn with_item(self, column: usize, text: &[u8], rest: &[Piece]) -> Layout
        ensures { result ≡ with_item self column text.now (shapes_of rest.now) }
    {
        let group = if self.group.items > 1 {
            Group {
                items: self.group.items - 1,
                columns: self.group.columns,
            }
        } else {
            group_of(text, rest)
        };
        Layout {
            is_inside: true,
            column,
            depth: 0,
            is_broken: item_columns(text, rest) > MOST_COLUMNS,
            is_long: false,
            group,
        }
    }

    /// How many parentheses are open after this token.
    fn depth_after(self, text: &[u8]) -> usize
        ensures { result ≡ (if bytes_eq text.now (codes "(") then plus self.depth 1 else
            if bytes_eq text.now (codes ")") then self.depth - 1 else self.depth) }
    {
        if is(text, b"(") {
            self.depth.saturating_add(1)
        } else if is(text, b")") {
            self.depth.saturating_sub(1)
        } else {
            self.depth
        }
    }

    /// Whether the item's condition has no room on one line, after this token.
    fn is_long_after(self, text: &[u8], rest: &[Piece]) -> bool
        ensures { result ≡ (if bytes_eq text.now (codes "when") then
            nat_lt most_columns (plus (item_columns text.now (shapes_of rest.now)) indent) else
            self.is_long) }
    {
        if is(text, b"when") {
            item_columns(text, rest).saturating_add(INDENT) > MOST_COLUMNS
        } else {
            self.is_long
        }
    }

    /// The state after a token inside an item, which ends in this column.
    fn with_token(self, column: usize, text: &[u8], rest: &[Piece]) -> Layout
        ensures { result ≡ with_token self column text.now (shapes_of rest.now) }
    {
        Layout {
            is_inside: !is(text, b";"),
            column,
            depth: self.depth_after(text),
            is_broken: self.is_broken,
            is_long: self.is_long_after(text, rest),
            group: self.group,
        }
    }

    /// The state after a comment, which ends in this column.
    fn with_comment(self, column: usize) -> Layout
        ensures { result ≡ with_comment self column }
    {
        Layout {
            is_inside: self.is_inside,
            column,
            depth: self.depth,
            is_broken: self.is_broken,
            is_long: self.is_long,
            group: self.group,
        }
    }

    /// The state after a piece with this gap before it, if `rest` are those after it.
    pub fn after(self, gap: Gap, text: &[u8], rest: &[Piece]) -> Layout
        ensures { result ≡ after self gap text.now (shapes_of rest.now) }
    {
        let column = self.column_after(gap, text);
        if is_comment(text) {
            self.with_comment(column)
        } else if !self.is_inside {
            self.with_item(column, text, rest)
        } else {
            self.with_token(column, text, rest)
        }
    }
}
