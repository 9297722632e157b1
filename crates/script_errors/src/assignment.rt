//! Messages about the words `FIELD=VALUE` of a scenario, and about the values of a ramp.

use crate::argument::value_in;
use crate::names::{DeclaredNames, FieldName, NAMES_ADVICE};
use crate::said::{LineMessage, advise, expect_word, mark_word, said_of};
use crate::word::{Word, nth_word};
use diagnostics::{Signed, choice_of, nearest, quote};
use std::alloc::{AllocError, Global};

/// The most names that a message suggests.
const MOST_LISTED: usize = 4;

/// The words before and after the first `=`; none if there is no `=`.
fn assignment_in(word: Word<'_>) -> Option<(Word<'_>, Word<'_>)> {
    let place = word.text.iter().position(|byte| *byte == b'=')?;
    let (name, rest) = word.text.split_at_checked(place)?;
    let value = rest.split_first()?.1;
    Some((
        Word {
            at: word.at,
            text: name,
        },
        Word {
            at: word.at.saturating_add(place).saturating_add(1),
            text: value,
        },
    ))
}

/// The advice to write one of these names of fields: all of them, or the first four and dots.
fn names_advice(alloc: Global, names: &[&[u8]]) -> Result<String, AllocError> {
    if names.is_empty() {
        return String::from_str(alloc, "no rule text declares a field");
    }
    if names.len() <= MOST_LISTED {
        let words = choice_of(alloc, names)?;
        return format!(in alloc; "write {words}");
    }
    let mut label = String::from_str(alloc, "write ")?;
    for (number, name) in names.iter().enumerate() {
        if number == MOST_LISTED {
            label.push_str(" ..")?;
            break;
        }
        if number > 0 {
            label.push_str(", ")?;
        }
        let shown = quote(alloc, *name)?;
        label.push_str(shown.as_str())?;
    }
    Ok(label)
}

/// A suggestion for a word, among these names of fields: a similar name, or else the advice to write one of them.
fn meant_among(alloc: Global, word: Word<'_>, names: &[&[u8]]) -> Result<String, AllocError> {
    if let Some(meant) = nearest(alloc, word.text, names)? {
        let meant = quote(alloc, meant)?;
        return format!(in alloc; "did you mean {meant}?");
    }
    names_advice(alloc, names)
}

/// The first word after the verb that has no `=`.
fn first_unassigned(line: &[u8]) -> Option<Word<'_>> {
    for number in 1..line.len() {
        let word = nth_word(line, number);
        if word.is_end() {
            return None;
        }
        if assignment_in(word).is_none() {
            return Some(word);
        }
    }
    None
}

/// The message about the first word after the verb that has no `=`, if there is one.
pub fn unassigned_said(
    alloc: Global,
    line: &[u8],
    names: &DeclaredNames<'_>,
) -> Result<Option<LineMessage>, AllocError> {
    let Some(word) = first_unassigned(line) else {
        return Ok(None);
    };
    let own = names.fields_of(alloc, nth_word(line, 0).text)?;
    let label = if own.iter().any(|name| *name == word.text) {
        String::from_str(alloc, "write `=` and a value behind it")?
    } else {
        meant_among(alloc, word, own.as_slice())?
    };
    let said = expect_word(
        alloc,
        word,
        "a field with its value, as `FIELD=VALUE`",
        label.as_str(),
    )?;
    Ok(Some(said))
}

/// The first field name of the line that belongs to another packet.
fn first_foreign<'a>(line: &'a [u8], packet: &[u8], names: &DeclaredNames<'_>) -> Option<Word<'a>> {
    for number in 1..line.len() {
        let word = nth_word(line, number);
        if word.is_end() {
            return None;
        }
        if let Some((name, _)) = assignment_in(word) {
            if names
                .field(name.text)
                .is_some_and(|field| field.packet != packet)
            {
                return Some(name);
            }
        }
    }
    None
}

/// The first field name of the line that no rule text declares.
fn first_unknown<'a>(line: &'a [u8], names: &DeclaredNames<'_>) -> Option<Word<'a>> {
    for number in 1..line.len() {
        let word = nth_word(line, number);
        if word.is_end() {
            return None;
        }
        if let Some((name, _)) = assignment_in(word) {
            if names.field(name.text).is_none() {
                return Some(name);
            }
        }
    }
    None
}

/// The message about a field of another packet, if the line has one.
pub fn other_said(
    alloc: Global,
    line: &[u8],
    names: &DeclaredNames<'_>,
) -> Result<Option<LineMessage>, AllocError> {
    let packet = nth_word(line, 0);
    let Some(name) = first_foreign(line, packet.text, names) else {
        return Ok(None);
    };
    let Some(field) = names.field(name.text) else {
        return Ok(None);
    };
    let (of, shown) = (packet.quote(alloc)?, name.quote(alloc)?);
    let own = quote(alloc, field.packet)?;
    let head = format!(in alloc; "the packet {of} has no field {shown}")?;
    let label = format!(in alloc; "it is a field of {own}")?;
    Ok(Some(said_of(name, head, label)))
}

/// Whether a line with this first word is a ramp.
fn is_ramp(verb: Word<'_>) -> bool {
    matches!(verb.text, b"ramp")
}

/// The message about an `=` at this place of the line, without a name in front of it. The names are those of the packet's fields.
fn unnamed_said(alloc: Global, at: usize, own: &[&[u8]]) -> Result<LineMessage, AllocError> {
    let sign = Word { at, text: b"=" };
    let head = String::from_str(alloc, "a field's name is missing before `=`")?;
    let label = names_advice(alloc, own)?;
    Ok(said_of(sign, head, label))
}

/// The message about a field name that no rule text declares, if the line has one. Of a ramp it is always its field's name.
pub fn unknown_said(
    alloc: Global,
    line: &[u8],
    names: &DeclaredNames<'_>,
) -> Result<Option<LineMessage>, AllocError> {
    let verb = nth_word(line, 0);
    let name = if is_ramp(verb) {
        nth_word(line, 1)
    } else {
        match first_unknown(line, names) {
            Some(name) => name,
            None => return Ok(None),
        }
    };
    let own = names.fields_of(alloc, verb.text)?;
    if name.is_end() {
        return Ok(Some(unnamed_said(alloc, name.at, own.as_slice())?));
    }
    let shown = name.quote(alloc)?;
    let head = format!(in alloc; "no rule text has a field {shown}")?;
    let label = if names.is_empty() {
        String::from_str(alloc, NAMES_ADVICE)?
    } else {
        meant_among(alloc, name, own.as_slice())?
    };
    Ok(Some(said_of(name, head, label)))
}

/// The message about a value outside this field's type.
fn outside_said(
    alloc: Global,
    field: FieldName<'_>,
    value: Word<'_>,
) -> Result<LineMessage, AllocError> {
    let (least, greatest) = (Signed(field.kind.least()), Signed(field.kind.greatest()));
    let (shown, name) = (value.quote(alloc)?, quote(alloc, field.name)?);
    let head = format!(in alloc; "{shown} is outside the type of the field {name}")?;
    let kind = field.kind.word();
    let label = format!(in alloc; "`{kind}` has {least} to {greatest}")?;
    Ok(said_of(value, head, label))
}

/// The message about a word that is not a value, or a value outside this field's type or mask. None for a value that the field can have.
fn field_value_said(
    alloc: Global,
    field: FieldName<'_>,
    value: Word<'_>,
) -> Result<Option<LineMessage>, AllocError> {
    match value_in(value.text) {
        None => {
            let shown = value.quote(alloc)?;
            let head = format!(in alloc; "{shown} is no value of a field")?;
            let advice = "write a number, or hexadecimal digits behind `0x`";
            Ok(Some(advise(alloc, value, head, advice)?))
        }
        Some(number) if !field.kind.has(number) => Ok(Some(outside_said(alloc, field, value)?)),
        Some(number) if field.bits_beside(number) != 0 => {
            Ok(Some(mask_said(alloc, field, value)?))
        }
        Some(_) => Ok(None),
    }
}

/// The message about a value with bits outside this field's mask.
fn mask_said(
    alloc: Global,
    field: FieldName<'_>,
    value: Word<'_>,
) -> Result<LineMessage, AllocError> {
    let (shown, name) = (value.quote(alloc)?, quote(alloc, field.name)?);
    let head = format!(in alloc; "{shown} has bits outside the mask of the field {name}")?;
    let mask = field.mask;
    let label = format!(in alloc; "its mask is 0x{mask:X}, and a value isn't shifted")?;
    Ok(said_of(value, head, label))
}

/// The message about the first two fields of the line that give one bit two values, if there are two.
pub fn shared_said(
    alloc: Global,
    line: &[u8],
    names: &DeclaredNames<'_>,
) -> Result<Option<LineMessage>, AllocError> {
    for number in 1..line.len() {
        let word = nth_word(line, number);
        if word.is_end() {
            return Ok(None);
        }
        if let Some(earlier) = contradicted_before(line, number, names) {
            let (shown, other) = (word.quote(alloc)?, earlier.quote(alloc)?);
            let head = format!(in alloc; "{shown} and {other} give one bit two values")?;
            let label = String::from_str(alloc, "these fields share bits")?;
            let mut said = said_of(word, head, label);
            said.other = Some(mark_word(earlier, String::from_str(alloc, "the other one")?));
            return Ok(Some(said));
        }
    }
    Ok(None)
}

/// The field and the value of a word `FIELD=VALUE`; none if the field is not declared or the value is not a number.
fn given_in<'a>(word: Word<'_>, names: &DeclaredNames<'a>) -> Option<(FieldName<'a>, i64)> {
    let (name, value) = assignment_in(word)?;
    Some((names.field(name.text)?, value_in(value.text)?))
}

/// The first earlier word that gives a bit another value than the word with this number does, if all words before it are valid.
fn contradicted_before<'a>(
    line: &'a [u8],
    number: usize,
    names: &DeclaredNames<'_>,
) -> Option<Word<'a>> {
    let (field, value) = given_in(nth_word(line, number), names)?;
    for earlier in 1..number {
        let word = nth_word(line, earlier);
        let (other, given) = given_in(word, names)?;
        if field.contradicts(value, other, given) {
            return Some(word);
        }
    }
    None
}

/// The message about the first value of a ramp that is outside its field's type or mask, if there is one.
fn ramp_values_said(
    alloc: Global,
    line: &[u8],
    names: &DeclaredNames<'_>,
) -> Result<Option<LineMessage>, AllocError> {
    let Some(field) = names.field(nth_word(line, 1).text) else {
        return Ok(None);
    };
    for number in 2..4 {
        let value = nth_word(line, number);
        if value_in(value.text).is_some() {
            let said = field_value_said(alloc, field, value)?;
            if said.is_some() {
                return Ok(said);
            }
        }
    }
    Ok(None)
}

/// The message about the first value of the line that its field can't have: not a number, or outside its type or mask. None if there is no
/// such value.
pub fn value_said(
    alloc: Global,
    line: &[u8],
    names: &DeclaredNames<'_>,
) -> Result<Option<LineMessage>, AllocError> {
    if is_ramp(nth_word(line, 0)) {
        return ramp_values_said(alloc, line, names);
    }
    for number in 1..line.len() {
        let word = nth_word(line, number);
        if word.is_end() {
            return Ok(None);
        }
        let Some((name, value)) = assignment_in(word) else {
            return Ok(None);
        };
        if let Some(field) = names.field(name.text) {
            let said = field_value_said(alloc, field, value)?;
            if said.is_some() {
                return Ok(said);
            }
        }
    }
    Ok(None)
}
