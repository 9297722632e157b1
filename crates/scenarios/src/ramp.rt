//! Ramps: a field goes from one value to another in steps.

ghost use Rattle.std.specs.Prelude.{◌≡◌, ◌<◌, ◌^◌, ◌++◌, codes, slice_get, IfOk, IfErr, Ok, unsigned_abs};
ghost use Rattle.std.specs.Fmt.{decimal};
ghost use Rattle.text_lines.specs.Lines.{texts_of};
ghost use Rattle.scenarios.specs.Error.{IsRefused};
ghost use Rattle.scenarios.specs.Said.{field_place};
ghost use Rattle.scenarios.specs.Ramp.{has_ticks, is_paced, next_value, packet_of, packet_of_field, ramp_in, ramp_lines, ramp_of, ramp_paced, ramp_said, some_field, step_in, ticked, value_said, values_behind, values_said};

use crate::error::{LineRefusal, Reason};
use crate::named::{ScenarioField, field_place, packet_place};
use crate::number::{number_in, value_in};
use crate::said::Saying;
use crate::word::is;
use std::alloc::{AllocError, Global};

/// The most values of a ramp.
const MOST_VALUES: u64 = 100_000;

/// `ramp FIELD FROM TO by STEP each SECONDS [tick]`, with the index of the field.
#[derive(Clone, Copy)]
pub(crate) struct Ramp {
    field: usize,
    from: i64,
    to: i64,
    step: u32,
    each: u32,
    has_ticks: bool,
}

/// Whether there are ticks, by the words after the others.
fn has_ticks(words: &[&[u8]]) -> Result<bool, Reason>
    ensures { result ≡ has_ticks (texts_of words.now) }
{
    match words {
        [] => Ok(false),
        [word] => if is(word, b"tick") {
            Ok(true)
        } else {
            Err(Reason::NoRamp)
        },
        [_, _, ..] => Err(Reason::NoRamp),
    }
}

/// Whether these two words are `by` and `each`.
fn is_paced(by: &[u8], each: &[u8]) -> bool
    ensures { result ≡ is_paced by.now each.now }
{
    is(by, b"by") && is(each, b"each")
}

/// The index of the first field of a name. The error is `UnknownField`.
pub(crate) fn some_field(fields: &[ScenarioField<'_>], name: &[u8]) -> Result<usize, Reason>
    ensures { result ≡ some_field (field_place name.now fields.now) }
{
    match field_place(fields, name) {
        Some(place) => Ok(place),
        None => Err(Reason::UnknownField),
    }
}

/// The step that a word writes, which can't be 0.
fn step_in(word: &[u8]) -> Result<u32, Reason>
    ensures exact { result ≡ step_in word.now }
    ensures some { IfOk result (λ step. 0 < step) }
{
    let step = number_in(u32::MAX, word)?;
    if step == 0 {
        return Err(Reason::BadNumber);
    }
    Ok(step)
}

/// The ramp of these words.
fn ramp_of(
    fields: &[ScenarioField<'_>],
    name: &[u8],
    from: &[u8],
    to: &[u8],
    step: &[u8],
    seconds: &[u8],
    has_ticks: bool,
) -> Result<Ramp, Reason>
    ensures exact { result ≡
        ramp_of fields.now name.now from.now to.now step.now seconds.now has_ticks }
    ensures steps { IfOk result (λ ramp. 0 < ramp.step) }
{
    let field = some_field(fields, name)?;
    let step = step_in(step)?;
    let from = value_in(from)?;
    let to = value_in(to)?;
    let each = number_in(u32::MAX, seconds)?;
    Ok(Ramp {
        field,
        from,
        to,
        step,
        each,
        has_ticks,
    })
}

/// The ramp with the pace of these words.
fn ramp_paced(
    fields: &[ScenarioField<'_>],
    name: &[u8],
    from: &[u8],
    to: &[u8],
    words: &[&[u8]],
) -> Result<Ramp, Reason>
    ensures exact { result ≡ ramp_paced fields.now name.now from.now to.now (texts_of words.now) }
    ensures steps { IfOk result (λ ramp. 0 < ramp.step) }
{
    let [by, step, each, seconds, rest @ ..] = words else {
        return Err(Reason::NoRamp);
    };
    if !is_paced(by, each) {
        return Err(Reason::NoRamp);
    }
    let has_ticks = has_ticks(rest)?;
    ramp_of(fields, name, from, to, step, seconds, has_ticks)
}

/// The ramp of the words after `ramp`.
fn ramp_in(fields: &[ScenarioField<'_>], words: &[&[u8]]) -> Result<Ramp, Reason>
    ensures exact { result ≡ ramp_in fields.now (texts_of words.now) }
    ensures steps { IfOk result (λ ramp. 0 < ramp.step) }
{
    match words {
        [name, from, to, pace @ ..] => ramp_paced(fields, name, from, to, pace),
        [] | [_] | [_, _] => Err(Reason::NoRamp),
    }
}

impl Ramp {
    /// The number of values after the first, up to the end.
    fn values_behind(&self) -> u64
        requires { 0 < self.now.step }
        ensures { result ≡ values_behind self.now }
    {
        self.to.abs_diff(self.from) / u64::from(self.step)
    }

    /// The value after a value, towards the end.
    fn next_value(&self, value: i64) -> i64
        requires { unsigned_abs value < 2 ^ 32 }
        ensures { result ≡ next_value self.now value }
    {
        if self.from <= self.to {
            value + i64::from(self.step)
        } else {
            value - i64::from(self.step)
        }
    }
}

/// The index of the packet of a field.
fn packet_place_of(said: &Saying<'_>, field: usize) -> Option<usize>
    ensures { result ≡ packet_of_field said.now (slice_get said.now.fields field) }
{
    match said.fields().get(field) {
        Some(field) => packet_place(said.packets(), field.packet()),
        None => None,
    }
}

/// Adds the next packet of a field.
fn packet_of<'a>(
    alloc: Global,
    said: Saying<'a>,
    n: usize,
    field: usize,
) -> Result<Saying<'a>, LineRefusal>
    ensures said { IfOk result (λ after. packet_of n field said.entry ≡ Ok after) }
    ensures refused { IfErr result (IsRefused (packet_of n field said.entry)) }
{
    match packet_place_of(&said, field) {
        Some(place) => said.with_packet(alloc, n, place),
        None => Ok(said),
    }
}

/// Adds a tick if the ramp has ticks.
fn add_tick(said: Saying<'_>, n: usize, has_ticks: bool) -> Result<Saying<'_>, LineRefusal>
    ensures said { IfOk result (λ after. ticked n has_ticks said.entry ≡ Ok after) }
    ensures refused { IfErr result (IsRefused (ticked n has_ticks said.entry)) }
{
    if has_ticks {
        return said.with_line(n, b"tick");
    }
    Ok(said)
}

/// The line that moves the moment by seconds.
fn seconds_line(alloc: Global, seconds: u32) -> Result<Vec<u8>, AllocError>
    ensures { IfOk result (λ line. line.items ≡ codes "after " ++ decimal seconds) }
{
    let line = format!(in alloc; "after {seconds}")?;
    Ok(line.into_bytes())
}

/// Adds a value's packet, its tick, and the seconds after it.
fn value_said<'a>(
    alloc: Global,
    said: Saying<'a>,
    n: usize,
    ramp: &Ramp,
    value: i64,
) -> Result<Saying<'a>, LineRefusal>
    ensures said { IfOk result (λ after. value_said n ramp.now value said.entry ≡ Ok after) }
    ensures refused { IfErr result (IsRefused (value_said n ramp.now value said.entry)) }
    ensures fits { IfOk result (λ _. unsigned_abs value < 2 ^ 32) }
{
    let said = said.with_value(ramp.field, value)?;
    let said = packet_of(alloc, said, n, ramp.field)?;
    let said = add_tick(said, n, ramp.has_ticks)?;
    let line = seconds_line(alloc, ramp.each)?;
    said.with_line(n, line.as_slice())
}

/// Adds the first `count` values.
fn values_said<'a>(
    alloc: Global,
    start: Saying<'a>,
    n: usize,
    ramp: &Ramp,
    count: u64,
) -> Result<Saying<'a>, LineRefusal>
    ensures said { IfOk result
        (λ after. values_said count n ramp.now ramp.now.from start.entry ≡ Ok after) }
    ensures refused { IfErr result
        (IsRefused (values_said count n ramp.now ramp.now.from start.entry)) }
{
    let mut said = start;
    let mut value = ramp.from;
    for _ in 0..count {
        match value_said(alloc, said, n, ramp, value) {
            Ok(after) => said = after,
            Err(fault) => return Err(fault),
        }
        value = ramp.next_value(value);
    }
    Ok(said)
}

/// Adds all values, one after the other.
fn ramp_said<'a>(
    alloc: Global,
    said: Saying<'a>,
    n: usize,
    ramp: &Ramp,
) -> Result<Saying<'a>, LineRefusal>
    requires { 0 < ramp.now.step }
    ensures said { IfOk result (λ after. ramp_said n ramp.now said.entry ≡ Ok after) }
    ensures refused { IfErr result (IsRefused (ramp_said n ramp.now said.entry)) }
{
    let behind = ramp.values_behind();
    if behind >= MOST_VALUES {
        return Err(LineRefusal::Line(Reason::TooLong));
    }
    values_said(alloc, said, n, ramp, behind + 1)
}

/// Adds the lines of a ramp: a packet for each value up to the end, after each packet a tick if the ramp has ticks, and then the seconds
/// between values.
pub(crate) fn ramp_lines<'a>(
    alloc: Global,
    said: Saying<'a>,
    n: usize,
    words: &[&[u8]],
) -> Result<Saying<'a>, LineRefusal>
    ensures said { IfOk result (λ after. ramp_lines n (texts_of words.now) said.entry ≡ Ok after) }
    ensures refused { IfErr result (IsRefused (ramp_lines n (texts_of words.now) said.entry)) }
{
    let ramp = ramp_in(said.fields(), words)?;
    ramp_said(alloc, said, n, &ramp)
}
