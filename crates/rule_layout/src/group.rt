//! Groups: declarations of one kind on neighbouring lines, whose `=` stand in one column.

ghost use Rattle.std.specs.Prelude.{◌≡◌, bytes_eq, codes, if◌then◌else◌};
ghost use Rattle.rule_layout.specs.declared.group.NextPart.TheVariants.{Inside, Item};
ghost use Rattle.rule_layout.specs.Layout.{group_of, group_step};
ghost use Rattle.rule_layout.specs.Pieces.{shape_of, shapes_of};

use crate::piece::{Piece, is, is_comment};

/// A group of declarations, or what follows of it.
#[derive(Clone, Copy)]
pub(crate) struct Group {
    /// How many declarations follow.
    pub items: usize,
    /// The columns of the longest name.
    pub columns: usize,
}

/// What comes next in a declaration.
#[derive(Clone, Copy)]
enum NextPart {
    Item,
    Name,
    Inside,
}

/// What comes after a token inside an item.
fn part_after(text: &[u8]) -> NextPart
    ensures { result ≡ (if bytes_eq text.now (codes ";") then Item else Inside) }
{
    if is(text, b";") {
        NextPart::Item
    } else {
        NextPart::Inside
    }
}

/// A group with one piece more; `None` if the piece is no part of it.
fn group_step(
    kind: &[u8],
    group: Group,
    place: NextPart,
    piece: &Piece,
) -> Option<(Group, NextPart)>
    ensures { result ≡ group_step kind.now group place (shape_of piece.now) }
{
    let Group { items, columns } = group;
    if is_comment(piece.text) {
        return match place {
            NextPart::Item => {
                if piece.lines == 0 {
                    Some((group, NextPart::Item))
                } else {
                    None
                }
            }
            NextPart::Name => Some((group, NextPart::Name)),
            NextPart::Inside => Some((group, NextPart::Inside)),
        };
    }
    match place {
        NextPart::Item => {
            if is(piece.text, kind) && piece.lines < 2 {
                let items = items.saturating_add(1);
                Some((Group { items, columns }, NextPart::Name))
            } else {
                None
            }
        }
        NextPart::Name => {
            let columns = columns.max(piece.text.len());
            Some((Group { items, columns }, part_after(piece.text)))
        }
        NextPart::Inside => Some((group, part_after(piece.text))),
    }
}

/// The group that begins with this piece: a word of a declaration.
pub(crate) fn group_of(kind: &[u8], rest: &[Piece]) -> Group
    ensures { result ≡ group_of kind.now (shapes_of rest.now) }
{
    let mut group = Group {
        items: 1,
        columns: 0,
    };
    let mut place = NextPart::Name;
    let mut count = 0;
    while count < rest.len() {
        match group_step(kind, group, place, &rest[count]) {
            None => return group,
            Some((next, there)) => {
                group = next;
                place = there;
            }
        }
        count += 1;
    }
    group
}
