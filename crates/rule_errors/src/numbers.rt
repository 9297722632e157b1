//! Messages for numbers in comparisons and in rules.

ghost use Rattle.std.specs.Prelude.{◌≡◌, IfOk};
ghost use Rattle.diagnostics.specs.Message.{IsAt};

use crate::fields::{Typed, type_of};
use crate::marks::{mark, text_of};
use crate::source::{NameKind, Source};
use diagnostics::{Grouped, Mark, Message, Signed, around, push_quoted};
use field_checker::RuleNumber;
use lc_model::FieldType;
use rule_lexer::{Token, TokenKind};
use std::alloc::{AllocError, Global};

/// The least and the greatest number of the type, in words.
fn range_label(alloc: Global, kind: FieldType) -> Result<String, AllocError> {
    let (least, most) = (Signed(kind.least()), Signed(kind.greatest()));
    format!(in alloc; "write {least} to {most}")
}

/// What to do about a number outside its field's type.
fn compared_label(alloc: Global, typed: Option<Typed<'_>>) -> Result<String, AllocError> {
    match typed {
        Some(typed) => range_label(alloc, typed.kind),
        None => String::from_str(alloc, "write a number of its type"),
    }
}

/// Two parts in backticks, with words between them.
fn both(
    alloc: Global,
    before: &str,
    first: &[u8],
    between: &str,
    second: &[u8],
) -> Result<String, AllocError> {
    let mut text = around(alloc, before, first, between)?;
    push_quoted(alloc, &mut text, second)?;
    Ok(text)
}

/// A mark under the type of the field of this name, if there is one.
fn type_mark(
    alloc: Global,
    name: &[u8],
    typed: Option<Typed<'_>>,
) -> Result<Option<Mark>, AllocError> {
    match typed {
        Some(typed) => {
            let label = both(alloc, "", name, " has the type ", typed.word.text)?;
            Ok(Some(mark(typed.word, label)))
        }
        None => Ok(None),
    }
}

/// The name of the field that is compared with the number in the token with this number.
fn compared_name<'a>(source: &Source<'a>, number: usize) -> &'a [u8] {
    text_of(source.token(number.saturating_sub(2)))
}

/// The type of the field of this name, if there is one.
fn named_type<'a>(source: &Source<'a>, name: &[u8]) -> Option<Typed<'a>> {
    type_of(source, source.find_declaration(NameKind::Field, name)?)
}

/// The message for a compared number outside its field's type.
pub fn bad_compared(
    alloc: Global,
    source: &Source<'_>,
    number: usize,
    token: Token<'_>,
) -> Result<Message, AllocError>
    ensures { IfOk result (IsAt 27 token.entry.at) }
{
    let name = compared_name(source, number);
    let typed = named_type(source, name);
    let head = both(
        alloc,
        "the number ",
        token.text,
        " is outside the type of ",
        name,
    )?;
    let label = compared_label(alloc, typed)?;
    let other = type_mark(alloc, name, typed)?;
    Message::at(alloc, 27, head, mark(token, label)).with(other)
}

/// What is wrong with a number of an item.
fn number_head(number: RuleNumber) -> &'static str {
    match number {
        RuleNumber::Fails => "the number of `fails` is out of range",
        RuleNumber::Sequence => "the number of `sequence` is out of range",
        RuleNumber::EventId => "the event number is out of range",
        RuleNumber::ReportPassive => "the first number of `report` is out of range",
        RuleNumber::ReportPassToFail => "the second number of `report` is out of range",
        RuleNumber::ReportFailToPass => "the third number of `report` is out of range",
        RuleNumber::Stale => "the number of `stale` is out of range",
    }
}

/// What to do about a number of an item.
fn number_label(alloc: Global, number: RuleNumber) -> Result<String, AllocError> {
    let least = Grouped(u64::from(number.least()));
    let most = Grouped(u64::from(number.most()));
    let never = if number == RuleNumber::Stale {
        " (0 is never)"
    } else {
        ""
    };
    format!(in alloc; "write {least} to {most}{never}")
}

/// The kind of the token that is `back` tokens before the one with this number.
fn kind_before(source: &Source<'_>, number: usize, back: usize) -> Option<TokenKind> {
    match source.token(number.checked_sub(back)?) {
        Some(token) => Some(token.kind),
        None => None,
    }
}

/// Which number of an item the token is, by the words before it.
fn rule_number(source: &Source<'_>, number: usize) -> RuleNumber {
    match kind_before(source, number, 1) {
        Some(TokenKind::Fails) => return RuleNumber::Fails,
        Some(TokenKind::Sequence) => return RuleNumber::Sequence,
        Some(TokenKind::Stale) => return RuleNumber::Stale,
        Some(TokenKind::Report) => return RuleNumber::ReportPassive,
        _ => {}
    }
    if kind_before(source, number, 2) == Some(TokenKind::Report) {
        RuleNumber::ReportPassToFail
    } else if kind_before(source, number, 3) == Some(TokenKind::Report) {
        RuleNumber::ReportFailToPass
    } else {
        RuleNumber::EventId
    }
}

/// The message for a number that is out of its range.
pub fn bad_number(
    alloc: Global,
    source: &Source<'_>,
    number: usize,
    token: Token<'_>,
) -> Result<Message, AllocError>
    ensures { IfOk result (IsAt 28 token.entry.at) }
{
    let kind = rule_number(source, number);
    let head = String::from_str(alloc, number_head(kind))?;
    let label = number_label(alloc, kind)?;
    Ok(Message::at(alloc, 28, head, mark(token, label)))
}
