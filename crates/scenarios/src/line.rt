//! The lines of a plain script that a scenario's line gives.

ghost use Rattle.std.specs.Prelude.{◌≡◌, ◌≤◌, length, IfOk, IfErr, Ok, slice_get};
ghost use Rattle.std.specs.List.{position_or_len};
ghost use Rattle.text_lines.specs.Lines.{texts_of};
ghost use Rattle.scenarios.specs.Error.{IsRefused};
ghost use Rattle.scenarios.specs.Line.{all_assigned, all_kept, assigned, field_given, given_by, given_in, is_equals, kept, line_said, other_said, own_field, packet_said, plain_said, verb_said};

use crate::error::{LineRefusal, Reason};
use crate::force::{ForceChange, force_at};
use crate::named::{Rule, ScenarioField, packet_place};
use crate::number::value_in;
use crate::order::{filter_line, mode_line, state_line};
use crate::ramp::{ramp_lines, some_field};
use crate::said::Saying;
use crate::word::{is, is_plain, line_of};
use std::alloc::Global;

/// The number of bytes before the first `=`.
fn name_length(word: &[u8]) -> usize
    ensures place { result ≡ position_or_len is_equals word.now }
    ensures inside { result ≤ length word.now }
{
    word.iter().take_while(|byte| **byte != b'=').count()
}

/// Checks that the field at this index is of the packet of this name.
fn own_field(fields: &[ScenarioField<'_>], place: usize, packet: &[u8]) -> Result<(), Reason>
    ensures { result ≡ own_field packet.now (slice_get fields.now place) }
{
    match fields.get(place) {
        Some(field) => if field.is_of(packet) {
            Ok(())
        } else {
            Err(Reason::OtherField)
        },
        None => Err(Reason::UnknownField),
    }
}

/// A value that a line gives to a field, by the field's place.
#[derive(Clone, Copy)]
pub(crate) struct Given {
    field: usize,
    value: i64,
}

/// The field of this name and the value of this word. The packet has to have the field.
fn field_given(
    fields: &[ScenarioField<'_>],
    packet: &[u8],
    name: &[u8],
    value: &[u8],
) -> Result<Given, Reason>
    ensures { result ≡ field_given packet.now name.now value.now fields.now }
{
    let field = some_field(fields, name)?;
    own_field(fields, field, packet)?;
    let value = value_in(value)?;
    Ok(Given { field, value })
}

/// The same for a value after `=`.
fn given_by(
    fields: &[ScenarioField<'_>],
    packet: &[u8],
    name: &[u8],
    rest: &[u8],
) -> Result<Given, Reason>
    ensures { result ≡ given_by packet.now name.now rest.now fields.now }
{
    match rest {
        [] => Err(Reason::NoField),
        [_, value @ ..] => field_given(fields, packet, name, value),
    }
}

/// `FIELD=VALUE`: the value that a word gives to a field of the packet of this name.
fn given_in(fields: &[ScenarioField<'_>], packet: &[u8], word: &[u8]) -> Result<Given, Reason>
    ensures { result ≡ given_in packet.now word.now fields.now }
{
    let (name, rest) = word.split_at(name_length(word));
    given_by(fields, packet, name, rest)
}

/// Sets a field of the packet of this name to the value of a word.
fn assign<'a>(said: Saying<'a>, packet: &[u8], word: &[u8]) -> Result<Saying<'a>, LineRefusal>
    ensures said { IfOk result (λ after. assigned packet.now word.now said.entry ≡ Ok after) }
    ensures refused { IfErr result (IsRefused (assigned packet.now word.now said.entry)) }
{
    let given = given_in(said.fields(), packet, word)?;
    said.with_value(given.field, given.value)
}

/// Checks that the field of a word has the word's value after all words of the line are written. Error: `TwoValues`.
fn keep(said: &Saying<'_>, place: usize, packet: &[u8], word: &[u8]) -> Result<(), Reason>
    ensures { result ≡ kept place packet.now word.now said.now }
{
    let given = given_in(said.fields(), packet, word)?;
    if said.reads_value(place, given.field, given.value) {
        Ok(())
    } else {
        Err(Reason::TwoValues)
    }
}

/// The same check for all words.
fn keep_all(said: &Saying<'_>, place: usize, packet: &[u8], words: &[&[u8]]) -> Result<(), Reason>
    ensures { result ≡ all_kept place packet.now (texts_of words.now) said.now }
{
    for word in words {
        keep(said, place, packet, word)?;
    }
    Ok(())
}

/// Sets the fields of all these words to their values.
fn all_assigned<'a>(
    start: Saying<'a>,
    packet: &[u8],
    words: &[&[u8]],
) -> Result<Saying<'a>, LineRefusal>
    ensures said { IfOk result
        (λ after. all_assigned packet.now (texts_of words.now) start.entry ≡ Ok after) }
    ensures refused { IfErr result
        (IsRefused (all_assigned packet.now (texts_of words.now) start.entry)) }
{
    let mut said = start;
    for word in words {
        match assign(said, packet, word) {
            Ok(after) => said = after,
            Err(fault) => return Err(fault),
        }
    }
    Ok(said)
}

/// Sets these fields to their values, and adds the packet's line.
fn packet_said<'a>(
    alloc: Global,
    said: Saying<'a>,
    n: usize,
    place: usize,
    packet: &[u8],
    words: &[&[u8]],
) -> Result<Saying<'a>, LineRefusal>
    ensures said { IfOk result
        (λ after. packet_said n place packet.now (texts_of words.now) said.entry ≡ Ok after) }
    ensures refused { IfErr result
        (IsRefused (packet_said n place packet.now (texts_of words.now) said.entry)) }
{
    let said = all_assigned(said, packet, words)?;
    keep_all(&said, place, packet, words)?;
    said.with_packet(alloc, n, place)
}

/// Adds a line of a plain script, with its words unchanged.
fn plain_said<'a>(
    alloc: Global,
    said: Saying<'a>,
    n: usize,
    verb: &[u8],
    words: &[&[u8]],
) -> Result<Saying<'a>, LineRefusal>
    ensures said { IfOk result
        (λ after. plain_said n verb.now (texts_of words.now) said.entry ≡ Ok after) }
    ensures refused { IfErr result
        (IsRefused (plain_said n verb.now (texts_of words.now) said.entry)) }
{
    let line = line_of(alloc, verb, words)?;
    said.with_line(n, line.as_slice())
}

/// Adds a line that begins neither with a word of a plain script nor with a packet's name.
fn other_said<'a>(
    alloc: Global,
    rules: &[Rule<'_>],
    changes: &[ForceChange],
    said: Saying<'a>,
    n: usize,
    verb: &[u8],
    words: &[&[u8]],
) -> Result<Saying<'a>, LineRefusal>
    ensures said { IfOk result
        (λ after. other_said rules.now changes.now n verb.now (texts_of words.now) said.entry ≡ Ok after) }
    ensures refused { IfErr result
        (IsRefused (other_said rules.now changes.now n verb.now (texts_of words.now) said.entry)) }
{
    if is(verb, b"mode") {
        let line = mode_line(alloc, words)?;
        return said.with_line(n, line.as_slice());
    }
    if is(verb, b"state") {
        let force = force_at(changes, said.line_count() + 1);
        let line = state_line(alloc, rules, force, words)?;
        return said.with_line(n, line.as_slice());
    }
    if is(verb, b"filter") {
        let line = filter_line(alloc, words)?;
        return said.with_line(n, line.as_slice());
    }
    if is(verb, b"}") {
        return Err(LineRefusal::Line(Reason::Unbegun));
    }
    plain_said(alloc, said, n, verb, words)
}

/// Adds a line that has words.
fn verb_said<'a>(
    alloc: Global,
    rules: &[Rule<'_>],
    changes: &[ForceChange],
    said: Saying<'a>,
    n: usize,
    verb: &[u8],
    words: &[&[u8]],
) -> Result<Saying<'a>, LineRefusal>
    ensures said { IfOk result
        (λ after. verb_said rules.now changes.now n verb.now (texts_of words.now) said.entry ≡ Ok after) }
    ensures refused { IfErr result
        (IsRefused (verb_said rules.now changes.now n verb.now (texts_of words.now) said.entry)) }
{
    if is_plain(verb) {
        return plain_said(alloc, said, n, verb, words);
    }
    if is(verb, b"ramp") {
        return ramp_lines(alloc, said, n, words);
    }
    match packet_place(said.packets(), verb) {
        Some(place) => packet_said(alloc, said, n, place, verb, words),
        None => other_said(alloc, rules, changes, said, n, verb, words),
    }
}

/// Adds the line with this number and these words.
pub(crate) fn line_said<'a>(
    alloc: Global,
    rules: &[Rule<'_>],
    changes: &[ForceChange],
    said: Saying<'a>,
    n: usize,
    words: &[&[u8]],
) -> Result<Saying<'a>, LineRefusal>
    ensures said { IfOk result
        (λ after. line_said rules.now changes.now n (texts_of words.now) said.entry ≡ Ok after) }
    ensures refused { IfErr result
        (IsRefused (line_said rules.now changes.now n (texts_of words.now) said.entry)) }
{
    match words {
        [] => said.with_line(n, b""),
        [verb, rest @ ..] => verb_said(alloc, rules, changes, said, n, verb, rest),
    }
}
