//! How bytes are shown.

ghost use Rattle.std.specs.Prelude.{◌≡◌, ◌||◌, ◌++◌, IfOk, OnOk};
ghost use Rattle.diagnostics.specs.Character.{is_control, is_direction, shown, shown_of};

use crate::character::front_character;
use std::alloc::{AllocError, Global};

/// What stands for a character that can't be shown.
const REPLACEMENT: char = '\u{FFFD}';

/// Whether the character is a control character, or changes the direction of what follows (the Unicode Standard's Bidi_Control).
fn is_hidden(character: char) -> bool
    ensures { result ≡ (is_control character || is_direction character) }
{
    matches!(
        character as u32,
        0..=0x1F | 0x7F..=0x9F | 0x61C | 0x200E..=0x200F | 0x202A..=0x202E | 0x2066..=0x2069
    )
}

/// Adds the columns that show a character.
fn push_shown(columns: &mut Vec<char>, character: char) -> Result<(), AllocError>
    ensures { OnOk result (columns.new.items ≡ columns.old.items ++ shown_of character) }
{
    if character == '\t' {
        columns.extend_from_slice(&[' ', ' ', ' ', ' '])?;
    } else if is_hidden(character) {
        columns.push(REPLACEMENT)?;
    } else {
        columns.push(character)?;
    }
    Ok(())
}

/// The columns that show the bytes. A tab is four blanks; a control character, a character that changes the direction and a
/// byte that isn't UTF-8 is U+FFFD; any other character is itself, in one column.
pub fn shown_columns(alloc: Global, bytes: &[u8]) -> Result<Vec<char>, AllocError>
    ensures { IfOk result (λ columns. columns.items ≡ shown bytes.now) }
{
    let mut columns = Vec::new(alloc);
    let mut rest = bytes;
    while !rest.is_empty() {
        let (character, size) = front_character(rest);
        push_shown(&mut columns, character)?;
        rest = rest.split_at(size).1;
    }
    Ok(columns)
}
