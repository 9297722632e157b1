//! Messages for fields outside their packets, and for bad masks.

ghost use Rattle.std.specs.Prelude.{◌≡◌, IfOk};
ghost use Rattle.diagnostics.specs.Message.{IsAt};

use crate::marks::{mark, value_of};
use crate::naming::declared_in;
use crate::source::{Declaration, NameKind, Source};
use diagnostics::{Mark, Message, Signed, around, quote};
use lc_model::FieldType;
use rule_lexer::{Token, TokenKind};
use std::alloc::{AllocError, Global};

/// The token of a field's type, and the type.
#[derive(Clone, Copy)]
pub struct Typed<'a> {
    /// The token of the type.
    pub word: Token<'a>,
    /// The type.
    pub kind: FieldType,
}

/// The type in the item that declares a field.
pub fn type_of<'a>(source: &Source<'a>, field: Declaration<'a>) -> Option<Typed<'a>> {
    let part = *source.parts.get(field.part)?;
    for word in source.tokens_of(part) {
        if let TokenKind::FieldKind(kind) = word.kind {
            return Some(Typed { word: *word, kind });
        }
    }
    None
}

/// The type of a field, if there is one.
fn type_if<'a>(source: &Source<'a>, field: Option<Declaration<'a>>) -> Option<Typed<'a>> {
    type_of(source, field?)
}

/// The declared packet of the field in the item with this token number; `None` if it isn't declared.
pub fn packet_of<'a>(source: &Source<'a>, number: usize) -> Option<Declaration<'a>> {
    let part = source.part_of(number);
    let name = source.token(part.from.saturating_add(3))?;
    source.find_declaration(NameKind::Packet, name.text)
}

/// The length of a packet, if there is one.
fn length_if<'a>(source: &Source<'a>, packet: Option<Declaration<'a>>) -> Option<Token<'a>> {
    source.value_in(packet?, TokenKind::Length)
}

/// The last offset at which a field of this type fits into a packet of this length.
fn last_place(length: i64, kind: FieldType) -> Signed {
    Signed(length.saturating_sub(kind.width() as i64).max(0))
}

/// What to do about a field that ends after its packet.
fn shorter(alloc: Global, typed: Typed<'_>, length: i64) -> Result<String, AllocError> {
    let width = typed.kind.width();
    let most = last_place(length, typed.kind);
    let word = quote(alloc, typed.word.text)?;
    if width == 1 {
        format!(in alloc; "its 1 byte ({word}) needs at most {most} here")
    } else {
        format!(in alloc; "its {width} bytes ({word}) need at most {most} here")
    }
}

/// What to do about a field that begins before its packet.
fn later(
    alloc: Global,
    typed: Option<Typed<'_>>,
    length: Option<Token<'_>>,
) -> Result<String, AllocError> {
    match (typed, length) {
        (Some(typed), Some(length)) => {
            let most = last_place(value_of(length), typed.kind);
            format!(in alloc; "write 0 to {most}")
        }
        _ => String::from_str(alloc, "write 0 or more"),
    }
}

/// The value of a number token; 0 if there is none.
fn value_if(token: Option<Token<'_>>) -> i64 {
    match token {
        Some(token) => value_of(token),
        None => 0,
    }
}

/// What to do about a field that isn't inside its packet.
fn outside_label(
    alloc: Global,
    typed: Option<Typed<'_>>,
    length: Option<Token<'_>>,
    is_before: bool,
) -> Result<String, AllocError> {
    match typed {
        Some(typed) if !is_before => shorter(alloc, typed, value_if(length)),
        _ => later(alloc, typed, length),
    }
}

/// How many bytes a packet has.
fn bytes_label(
    alloc: Global,
    packet: Declaration<'_>,
    length: Token<'_>,
) -> Result<String, AllocError> {
    let name = quote(alloc, packet.text)?;
    let bytes = Signed(value_of(length));
    format!(in alloc; "{name} has {bytes} bytes")
}

/// A mark under the length of a packet, if there is one.
fn length_mark(
    alloc: Global,
    packet: Option<Declaration<'_>>,
    length: Option<Token<'_>>,
) -> Result<Option<Mark>, AllocError> {
    match (packet, length) {
        (Some(packet), Some(length)) => {
            let label = bytes_label(alloc, packet, length)?;
            Ok(Some(mark(length, label)))
        }
        _ => Ok(None),
    }
}

/// What is wrong with a field that isn't inside its packet.
fn outside_head(
    alloc: Global,
    field: Option<Declaration<'_>>,
    is_before: bool,
) -> Result<String, AllocError> {
    let behind = if is_before {
        " begins before its packet"
    } else {
        " extends past the end of its packet"
    };
    match field {
        Some(field) => around(alloc, "the field ", field.text, behind),
        None => around(alloc, "the field ", b"", behind),
    }
}

/// The message for a field that isn't inside its packet.
pub fn outside(
    alloc: Global,
    source: &Source<'_>,
    number: usize,
    token: Token<'_>,
) -> Result<Message, AllocError>
    ensures { IfOk result (IsAt 25 token.entry.at) }
{
    let field = declared_in(source, number);
    let packet = packet_of(source, number);
    let length = length_if(source, packet);
    let is_before = value_of(token) < 0;
    let head = outside_head(alloc, field, is_before)?;
    let label = outside_label(alloc, type_if(source, field), length, is_before)?;
    let other = length_mark(alloc, packet, length)?;
    Message::at(alloc, 25, head, mark(token, label)).with(other)
}

/// What is wrong with a mask.
fn mask_head(alloc: Global, token: Token<'_>) -> Result<String, AllocError> {
    let value = value_of(token);
    if value == 0 {
        String::from_str(alloc, "a mask of 0 leaves no bit of the field")
    } else if value < 0 {
        String::from_str(alloc, "a mask is not negative")
    } else {
        around(alloc, "the mask ", token.text, " is wider than the field")
    }
}

/// What to do about a mask.
fn mask_label(alloc: Global, typed: Option<Typed<'_>>) -> Result<String, AllocError> {
    let most = match typed {
        Some(typed) => typed.kind.full_mask(),
        None => 0xFFFF_FFFF,
    };
    format!(in alloc; "write 1 to 0x{most:X}, or leave out `mask`")
}

/// How many bits a field has.
fn bits_label(
    alloc: Global,
    field: Declaration<'_>,
    kind: FieldType,
) -> Result<String, AllocError> {
    let name = quote(alloc, field.text)?;
    let bits = kind.width() * 8;
    format!(in alloc; "{name} has {bits} bits")
}

/// A mark under the type of a field, if there is one.
fn bits_mark(
    alloc: Global,
    field: Option<Declaration<'_>>,
    typed: Option<Typed<'_>>,
) -> Result<Option<Mark>, AllocError> {
    match (field, typed) {
        (Some(field), Some(typed)) => {
            let label = bits_label(alloc, field, typed.kind)?;
            Ok(Some(mark(typed.word, label)))
        }
        _ => Ok(None),
    }
}

/// The message for a mask that has no bit of its field, or has a bit outside it.
pub fn bad_mask(
    alloc: Global,
    source: &Source<'_>,
    number: usize,
    token: Token<'_>,
) -> Result<Message, AllocError>
    ensures { IfOk result (IsAt 26 token.entry.at) }
{
    let field = declared_in(source, number);
    let typed = type_if(source, field);
    let head = mask_head(alloc, token)?;
    let label = mask_label(alloc, typed)?;
    let other = bits_mark(alloc, field, typed)?;
    Message::at(alloc, 26, head, mark(token, label)).with(other)
}
