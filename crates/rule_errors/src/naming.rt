//! Messages for names that are declared twice, or not at all.

ghost use Rattle.std.specs.Prelude.{◌≡◌, IfOk};
ghost use Rattle.diagnostics.specs.Message.{IsAt};

use crate::advice::Advice;
use crate::marks::{declared_mark, mark, span};
use crate::nearest::{last_nearest_name, nearest_name};
use crate::source::{Declaration, NameKind, Source};
use diagnostics::{Many, Message, around, choice_of, printable};
use rule_lexer::{Token, TokenKind};
use std::alloc::{AllocError, Global};

/// The name that the item of the token with this number declares.
pub fn declared_in<'a>(source: &Source<'a>, number: usize) -> Option<Declaration<'a>> {
    let part = source.part_of(number);
    let second = source.token(part.from.saturating_add(1))?;
    source
        .names
        .iter()
        .find(|name| name.at == second.at)
        .copied()
}

/// The label of a name's first declaration, with its kind if the second one is of another kind.
fn first_label(kind: Option<NameKind>, is_alike: bool) -> &'static str {
    if is_alike {
        return "first declared here";
    }
    match kind {
        Some(NameKind::Packet) => "first declared here, as a packet",
        Some(NameKind::Field) => "first declared here, as a field",
        Some(NameKind::Rule) => "first declared here, as a rule",
        None => "first declared here, as another item",
    }
}

/// What to do about a name that is declared twice.
fn twice_label(is_alike: bool) -> &'static str {
    if is_alike {
        "give one of the two another name"
    } else {
        "packets, fields and rules share their names: take another"
    }
}

/// The message for a name that is declared twice.
pub fn duplicate(
    alloc: Global,
    source: &Source<'_>,
    number: usize,
    token: Token<'_>,
) -> Result<Message, AllocError>
    ensures { IfOk result (IsAt 21 token.entry.at) }
{
    let kind = source.kind_of(source.part_of(number));
    let first = source.first_declared(token.text);
    let first_kind = match first {
        Some(first) => first.kind,
        None => kind,
    };
    let is_alike = first_kind == kind;
    let head = around(alloc, "the name ", token.text, " is declared twice")?;
    let label = String::from_str(alloc, twice_label(is_alike))?;
    let other = declared_mark(alloc, first, first_label(first_kind, is_alike))?;
    Message::at(alloc, 21, head, mark(token, label)).with(other)
}

/// How a declaration of the name would begin.
fn declaration(alloc: Global, kind: NameKind, text: &[u8]) -> Result<String, AllocError> {
    let name = printable(alloc, text)?;
    match kind {
        NameKind::Packet => format!(in alloc;
            "declare it: `packet {name} = mid NUMBER length NUMBER;`"
        ),
        _ => format!(in alloc; "declare it: `field {name} = PACKET TYPE at NUMBER;`"),
    }
}

/// What to do about a name of another kind.
fn other_kind(wanted: NameKind, kind: Option<NameKind>) -> &'static str {
    match (wanted, kind) {
        (NameKind::Field, Some(NameKind::Packet)) => "this is a packet: name one of its fields",
        (NameKind::Packet, Some(NameKind::Field)) => "this is a field: name a packet",
        (NameKind::Packet, _) => "this is a rule: name a packet",
        _ => "this is a rule: name a field",
    }
}

/// A declaration of another kind with the unknown name, or else one with a similar name.
fn near_name<'a>(
    alloc: Global,
    source: &Source<'a>,
    wanted: NameKind,
    text: &[u8],
) -> Result<Option<Declaration<'a>>, AllocError> {
    if let Some(other) = source.first_declared(text) {
        return Ok(Some(other));
    }
    match nearest_name(alloc, source, wanted, text)? {
        Some(near) => Ok(source.find_declaration(wanted, near)),
        None => Ok(None),
    }
}

/// To write the nearest name, or, in words only, one of two that are equally near.
fn near_advice(
    alloc: Global,
    source: &Source<'_>,
    near: &[u8],
    wanted: NameKind,
    token: Token<'_>,
) -> Result<Advice, AllocError> {
    match last_nearest_name(alloc, source, wanted, token.text)? {
        Some(other) if other != near => {
            let names = choice_of(alloc, &[near, other])?;
            Ok(Advice::words(format!(in alloc; "did you mean {names}?")?))
        }
        _ => Advice::meant(alloc, span(token), near),
    }
}

/// What to do about an unknown name, by the declaration that is near.
fn advice(
    alloc: Global,
    source: &Source<'_>,
    near: Option<Declaration<'_>>,
    wanted: NameKind,
    token: Token<'_>,
) -> Result<Advice, AllocError> {
    match near {
        Some(near) if near.text == token.text => {
            Advice::plain(alloc, other_kind(wanted, near.kind))
        }
        Some(near) => near_advice(alloc, source, near.text, wanted, token),
        None => Ok(Advice::words(declaration(alloc, wanted, token.text)?)),
    }
}

/// Whether the token with this number names a packet or a field of this kind.
pub fn names(source: &Source<'_>, number: usize, kind: NameKind) -> bool {
    let part = source.part_of(number);
    match (source.kind_of(part), kind) {
        (Some(NameKind::Field), NameKind::Packet) => number == part.from.saturating_add(3),
        (Some(NameKind::Rule), NameKind::Field) => number > part.from.saturating_add(1),
        _ => false,
    }
}

/// Whether the token with this number uses the same name for the same kind, in another place.
fn is_other_use(
    source: &Source<'_>,
    number: usize,
    other: Token<'_>,
    token: Token<'_>,
    kind: NameKind,
) -> bool {
    other.at != token.at
        && other.kind == TokenKind::Name
        && other.text == token.text
        && names(source, number, kind)
}

/// The number of other places that use the same name for the same kind.
fn other_uses(source: &Source<'_>, token: Token<'_>, kind: NameKind) -> usize {
    let mut count = 0usize;
    for (number, other) in source.tokens.iter().enumerate() {
        if is_other_use(source, number, *other, token, kind) {
            count = count.saturating_add(1);
        }
    }
    count
}

/// The advice, with the number of other uses.
fn with_uses(alloc: Global, advice: String, others: usize) -> Result<String, AllocError> {
    if others == 0 {
        return Ok(advice);
    }
    let more = Many(others, "more place");
    format!(in alloc; "{advice} (used here and in {more})")
}

/// What is wrong with a name that isn't declared as this kind.
fn unknown_head(alloc: Global, wanted: NameKind, text: &[u8]) -> Result<String, AllocError> {
    let before = match wanted {
        NameKind::Packet => "no packet has the name ",
        _ => "no field has the name ",
    };
    around(alloc, before, text, "")
}

/// The kind of names that an item of this kind uses: packets in a field, fields in a rule.
fn named_kind(kind: Option<NameKind>) -> NameKind {
    match kind {
        Some(NameKind::Field) => NameKind::Packet,
        _ => NameKind::Field,
    }
}

/// The message for a name that isn't declared as its kind.
pub fn unknown(
    alloc: Global,
    source: &Source<'_>,
    number: usize,
    token: Token<'_>,
) -> Result<Message, AllocError>
    ensures { IfOk result (IsAt 22 token.entry.at) }
{
    let wanted = named_kind(source.kind_of(source.part_of(number)));
    let near = near_name(alloc, source, wanted, token.text)?;
    let others = other_uses(source, token, wanted);
    let head = unknown_head(alloc, wanted, token.text)?;
    let Advice { label, edit } = advice(alloc, source, near, wanted, token)?;
    let label = with_uses(alloc, label, others)?;
    let other = declared_mark(alloc, near, "declared here")?;
    Message::at(alloc, 22, head, mark(token, label))
        .with_edit(edit)
        .with(other)
}
