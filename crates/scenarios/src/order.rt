//! Commands in words: the Limit Checker's mode, the state of its rules, and filters of events.

ghost use Rattle.std.specs.Prelude.{◌≡◌, IfOk, IfErr, Ok, Some};
ghost use Rattle.text_lines.specs.Lines.{texts_of};
ghost use Rattle.scenarios.specs.Error.{IsRefused};
ghost use Rattle.scenarios.specs.Rules.{rule_named};
ghost use Rattle.scenarios.specs.Orders.{command_line, filter_line, filter_of, is_all, is_off, mode_line, number_of_rule, number_written, rule_number, some_name, standing_number, state_line, state_of, state_said};

use crate::error::{LineRefusal, Reason};
use crate::named::Rule;
use crate::number::number_in;
use crate::rules::number_of_rule;
use crate::word::is;
use lc_model::{ApMode, mids};
use std::alloc::{AllocError, Global};
use stream_script::decimal_number;
use table_listing::InHex;

/// The rule number that means all rules.
pub(crate) const ALL: u16 = 0xFFFF;

/// The line of a command.
fn command_line(alloc: Global, mid: u16, code: u8, payload: &[u8]) -> Result<Vec<u8>, AllocError>
    ensures { IfOk result (λ line. line.items ≡ command_line mid code payload.now) }
{
    let mid = mid.to_be_bytes();
    let (mid, payload) = (InHex(&mid), InHex(payload));
    let line = format!(in alloc; "command {mid} {code} {payload}")?;
    Ok(line.into_bytes())
}

/// The number of a mode or a state that a command sets: they have the same words and numbers.
fn standing_number(word: &[u8]) -> Option<u16>
    ensures { result ≡ standing_number word.now }
{
    match ApMode::from_word(word) {
        Some(state) => Some(u16::from(state.code())),
        None => None,
    }
}

/// `mode MODE`: the Limit Checker's command 2.
pub(crate) fn mode_line(alloc: Global, words: &[&[u8]]) -> Result<Vec<u8>, LineRefusal>
    ensures said { IfOk result (λ line. mode_line (texts_of words.now) ≡ Ok line.items) }
    ensures refused { IfErr result (IsRefused (mode_line (texts_of words.now))) }
{
    let [mode] = words else {
        return Err(LineRefusal::Line(Reason::NoMode));
    };
    match standing_number(mode) {
        Some(number) => {
            let [a, b] = number.to_be_bytes();
            Ok(command_line(alloc, mids::LC_COMMAND, 2, &[a, b, 0, 0])?)
        }
        None => Err(LineRefusal::Line(Reason::NoMode)),
    }
}

/// Whether a word names all rules.
fn is_all(word: &[u8]) -> bool
    ensures { result ≡ is_all word.now }
{
    is(word, b"all")
}

/// Whether the command puts one rule off for good; it can't put all rules off.
fn is_off(name: &[u8], state: &[u8]) -> bool
    ensures { result ≡ is_off name.now state.now }
{
    is(state, b"off") && !is_all(name)
}

/// The number of a rule that a word writes: any but the one that means all rules.
fn number_written(number: u64) -> Result<u16, Reason>
    ensures { result ≡ number_written number }
{
    if number < u64::from(ALL) {
        Ok(number as u16)
    } else {
        Err(Reason::UnknownRule)
    }
}

/// The number of the rule that a word names; `force` is the text in force.
fn number_named(rules: &[Rule<'_>], force: Option<usize>, word: &[u8]) -> Result<u16, Reason>
    ensures { result ≡ number_of_rule (rule_named force word.now rules.now) }
{
    match number_of_rule(rules, force, word) {
        Some(number) => Ok(number),
        None => Err(Reason::UnknownRule),
    }
}

/// The number of the rule that a word writes or names, or of all rules; `force` is the text in force.
fn rule_number(rules: &[Rule<'_>], force: Option<usize>, word: &[u8]) -> Result<u16, Reason>
    ensures { result ≡ rule_number force word.now rules.now }
{
    if is_all(word) {
        return Ok(ALL);
    }
    match decimal_number(word) {
        Some(number) => number_written(number),
        None => number_named(rules, force, word),
    }
}

/// The command that puts a rule into a state.
fn state_of(alloc: Global, name: &[u8], state: &[u8], rule: u16) -> Result<Vec<u8>, LineRefusal>
    ensures said { IfOk result (λ line. state_of name.now state.now rule ≡ Ok line.items) }
    ensures refused { IfErr result (IsRefused (state_of name.now state.now rule)) }
{
    let [a, b] = rule.to_be_bytes();
    if is_off(name, state) {
        return Ok(command_line(alloc, mids::LC_COMMAND, 4, &[a, b, 0, 0])?);
    }
    match standing_number(state) {
        Some(number) => {
            let [c, d] = number.to_be_bytes();
            Ok(command_line(alloc, mids::LC_COMMAND, 3, &[a, b, c, d])?)
        }
        None => Err(LineRefusal::Line(Reason::NoState)),
    }
}

/// The command that puts the rule that a word names into a state; `force` is the text in force.
fn state_said(
    alloc: Global,
    rules: &[Rule<'_>],
    force: Option<usize>,
    name: &[u8],
    state: &[u8],
) -> Result<Vec<u8>, LineRefusal>
    ensures said { IfOk result
        (λ line. state_said rules.now force name.now state.now ≡ Ok line.items) }
    ensures refused { IfErr result (IsRefused (state_said rules.now force name.now state.now)) }
{
    let rule = rule_number(rules, force, name)?;
    state_of(alloc, name, state, rule)
}

/// `state RULE STATE`: the Limit Checker's command 3, or 4 to put the rule off for good; `force` is the text in force.
pub(crate) fn state_line(
    alloc: Global,
    rules: &[Rule<'_>],
    force: Option<usize>,
    words: &[&[u8]],
) -> Result<Vec<u8>, LineRefusal>
    ensures said { IfOk result
        (λ line. state_line rules.now force (texts_of words.now) ≡ Ok line.items) }
    ensures refused { IfErr result (IsRefused (state_line rules.now force (texts_of words.now))) }
{
    let [name, state] = words else {
        return Err(LineRefusal::Line(Reason::NoState));
    };
    state_said(alloc, rules, force, name, state)
}

/// An application's name in its field of 20 bytes, with zeros after it.
fn some_name(name: &[u8]) -> Result<[u8; 20], Reason>
    ensures { result ≡ some_name name.now }
{
    if name.len() > 20 {
        return Err(Reason::NoFilter);
    }
    let mut field = [0; 20];
    field[..name.len()].copy_from_slice(name);
    Ok(field)
}

/// The command that sets a filter.
fn filter_of(alloc: Global, name: &[u8], event: &[u8], mask: &[u8]) -> Result<Vec<u8>, LineRefusal>
    ensures said { IfOk result (λ line. filter_of name.now event.now mask.now ≡ Ok line.items) }
    ensures refused { IfErr result (IsRefused (filter_of name.now event.now mask.now)) }
{
    let field = some_name(name)?;
    let event = number_in(65_535, event)?;
    let mask = number_in(65_535, mask)?;
    let [a, b] = (event as u16).to_be_bytes();
    let [c, d] = (mask as u16).to_be_bytes();
    let mut payload = Vec::from_slice(alloc, &field)?;
    payload.extend_from_slice(&[a, b, c, d])?;
    Ok(command_line(alloc, mids::EVENT_SERVICES, 1, payload.as_slice())?)
}

/// `filter APPLICATION EVENT MASK`: the event services' command 1.
pub(crate) fn filter_line(alloc: Global, words: &[&[u8]]) -> Result<Vec<u8>, LineRefusal>
    ensures said { IfOk result (λ line. filter_line (texts_of words.now) ≡ Ok line.items) }
    ensures refused { IfErr result (IsRefused (filter_line (texts_of words.now))) }
{
    let [name, event, mask] = words else {
        return Err(LineRefusal::Line(Reason::NoFilter));
    };
    filter_of(alloc, name, event, mask)
}
