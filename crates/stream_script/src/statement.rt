//! Statements: what each line adds, by its first word and its number of words.

ghost use Rattle.std.specs.Prelude.{◌≡◌, ◌<◌, ◌≤◌, ◌+◌, length, IfOk, IfErr, Ok};
ghost use Rattle.lc_model.specs.Packet.{count_end, longest_packet, telemetry_header_size};
ghost use Rattle.text_lines.specs.Lines.{texts_of};
ghost use Rattle.stream_script.specs.Error.{IsRefused};
ghost use Rattle.stream_script.specs.Script.{app_ordered, command_brought, command_fits, fields_brought, fields_said, file_brought, five_words, four_words, half_brought, moment_set, moved_on, one_word, packet_brought, record_brought, sample_requested, sets_fields, some_words, statement, table_ordered, telemetry_brought, telemetry_fits, three_words, told, two_words, whole_record};

use crate::error::{Reason, StatementFault};
use crate::fields::payload_of;
use crate::kind::{RecordKind, some_kind};
use crate::number::number_in;
use crate::script::Script;
use crate::word::{ages_in, bytes_in, is, long_name, mid_in, short_name};
use lc_model::{Moment, mids};
use std::alloc::{AllocError, Global};

/// `at S F`: the moment is second S and F / 65,536.
fn moment_set(script: Script, seconds: &[u8], subseconds: &[u8]) -> Result<Script, Reason>
    ensures { result ≡ moment_set script seconds.now subseconds.now }
{
    let seconds = number_in(u32::MAX, seconds)?;
    let subseconds = number_in(65_535, subseconds)?;
    Ok(script.with_moment(Moment {
        seconds,
        subseconds: subseconds as u16,
    }))
}

/// `after S`: the moment moves on by S seconds.
fn moved_on(script: Script, seconds: &[u8]) -> Result<Script, Reason>
    ensures { result ≡ moved_on script seconds.now }
{
    let moment = script.moment();
    let more = number_in(u32::MAX - moment.seconds, seconds)?;
    Ok(script.with_moment(Moment {
        seconds: moment.seconds + more,
        subseconds: moment.subseconds,
    }))
}

/// A record of this kind with this body, at the moment.
fn record_brought(
    alloc: Global,
    script: Script,
    kind: &[u8],
    bytes: &[u8],
) -> Result<Script, StatementFault>
    ensures said { IfOk result (λ after. record_brought script kind.now bytes.now ≡ Ok after) }
    ensures refused { IfErr result (IsRefused (record_brought script kind.now bytes.now)) }
{
    let kind = some_kind(kind)?;
    let body = bytes_in(alloc, bytes)?;
    script.bring(kind, body.as_slice())
}

/// `record S F KIND BYTES`: the record of this moment, this kind and this body.
fn whole_record(
    alloc: Global,
    script: Script,
    seconds: &[u8],
    subseconds: &[u8],
    kind: &[u8],
    bytes: &[u8],
) -> Result<Script, StatementFault>
    ensures said { IfOk result
        (λ after. whole_record script seconds.now subseconds.now kind.now bytes.now ≡ Ok after) }
    ensures refused { IfErr result
        (IsRefused (whole_record script seconds.now subseconds.now kind.now bytes.now)) }
{
    let script = moment_set(script, seconds, subseconds)?;
    record_brought(alloc, script, kind, bytes)
}

/// `packet BYTES`.
fn packet_brought(alloc: Global, script: Script, bytes: &[u8]) -> Result<Script, StatementFault>
    ensures said { IfOk result (λ after. packet_brought script bytes.now ≡ Ok after) }
    ensures refused { IfErr result (IsRefused (packet_brought script bytes.now)) }
{
    let body = bytes_in(alloc, bytes)?;
    script.bring(RecordKind::Packet, body.as_slice())
}

/// `file NAME BYTES`.
fn file_brought(
    alloc: Global,
    script: Script,
    name: &[u8],
    bytes: &[u8],
) -> Result<Script, StatementFault>
    ensures said { IfOk result (λ after. file_brought script name.now bytes.now ≡ Ok after) }
    ensures refused { IfErr result (IsRefused (file_brought script name.now bytes.now)) }
{
    let field = long_name(name)?;
    let contents = bytes_in(alloc, bytes)?;
    let mut body = Vec::from_slice(alloc, &field)?;
    body.extend_from_slice(contents.as_slice())?;
    script.bring(RecordKind::File, body.as_slice())
}

/// `wdt TEXT NAME` and `adt TEXT NAME`: the half of this number.
fn half_brought(
    alloc: Global,
    script: Script,
    half: u8,
    text: &[u8],
    name: &[u8],
) -> Result<Script, StatementFault>
    ensures said { IfOk result (λ after. half_brought script half text.now name.now ≡ Ok after) }
    ensures refused { IfErr result (IsRefused (half_brought script half text.now name.now)) }
{
    let text = number_in(65_535, text)?;
    let field = long_name(name)?;
    let [a, b] = (text as u16).to_be_bytes();
    let mut body = Vec::from_slice(alloc, &field)?;
    body.extend_from_slice(&[half, a, b])?;
    Ok(script.with_record(RecordKind::Half, body.as_slice())?)
}

/// `start NAME`, `stop NAME`, `restart NAME`, `reload NAME`: the command of this code to the executive services.
fn app_ordered(script: Script, code: u8, name: &[u8]) -> Result<Script, StatementFault>
    ensures said { IfOk result (λ after. app_ordered script code name.now ≡ Ok after) }
    ensures refused { IfErr result (IsRefused (app_ordered script code name.now)) }
{
    let field = short_name(name)?;
    Ok(script.command(mids::EXECUTIVE_SERVICES, code, &field)?)
}

/// `load FILE`, `validate TABLE`, `activate TABLE`, `abort TABLE`: the command of this code to the table services.
fn table_ordered(script: Script, code: u8, name: &[u8]) -> Result<Script, StatementFault>
    ensures said { IfOk result (λ after. table_ordered script code name.now ≡ Ok after) }
    ensures refused { IfErr result (IsRefused (table_ordered script code name.now)) }
{
    let field = long_name(name)?;
    Ok(script.command(mids::TABLE_SERVICES, code, &field)?)
}

/// `sample FIRST LAST age` and `sample FIRST LAST keep`: the sample request.
fn sample_requested(
    script: Script,
    first: &[u8],
    last: &[u8],
    ages: &[u8],
) -> Result<Script, StatementFault>
    ensures said { IfOk result
        (λ after. sample_requested script first.now last.now ages.now ≡ Ok after) }
    ensures refused { IfErr result
        (IsRefused (sample_requested script first.now last.now ages.now)) }
{
    let first = number_in(65_535, first)?;
    let last = number_in(65_535, last)?;
    let ages = ages_in(ages)?;
    let [a, b] = (first as u16).to_be_bytes();
    let [c, d] = (last as u16).to_be_bytes();
    Ok(script.command(mids::SAMPLE, 0, &[a, b, c, d, 0, ages, 0, 0])?)
}

/// `telemetry MID COUNT BYTES`: telemetry with this sequence count and this payload, and the time of the moment.
fn telemetry_brought(
    alloc: Global,
    script: Script,
    mid: &[u8],
    count: &[u8],
    bytes: &[u8],
) -> Result<Script, StatementFault>
    ensures said { IfOk result
        (λ after. telemetry_brought script mid.now count.now bytes.now ≡ Ok after) }
    ensures refused { IfErr result
        (IsRefused (telemetry_brought script mid.now count.now bytes.now)) }
{
    let mid = mid_in(alloc, mid)?;
    let count = number_in(16_383, count)?;
    let payload = bytes_in(alloc, bytes)?;
    telemetry_fits(script, mid, count as u16, payload.as_slice())
}

/// Adds a telemetry packet if it has at most 2,048 bytes.
fn telemetry_fits(
    script: Script,
    mid: u16,
    count: u16,
    payload: &[u8],
) -> Result<Script, StatementFault>
    requires { count < count_end }
    ensures said { IfOk result (λ after. telemetry_fits mid count payload.now script ≡ Ok after) }
    ensures refused { IfErr result (IsRefused (telemetry_fits mid count payload.now script)) }
{
    if payload.len() > 2_036 {
        return Err(StatementFault::Line(Reason::BadBody));
    }
    Ok(add_telemetry(script, mid, count, payload)?)
}

/// Adds telemetry with the time of the moment.
fn add_telemetry(script: Script, mid: u16, count: u16, payload: &[u8]) -> Result<Script, AllocError>
    requires count { count < count_end }
    requires size { telemetry_header_size + length payload.now ≤ longest_packet }
    ensures { IfOk result (λ after. after ≡ told mid count payload.now script) }
{
    let time = script.moment();
    script.telemetry(mid, count, time, payload)
}

/// `fields MID COUNT LENGTH {TYPE OFFSET VALUE}`: telemetry with this sequence count, this length and these fields, and the time
/// of the moment.
fn fields_brought(
    alloc: Global,
    script: Script,
    mid: &[u8],
    count: &[u8],
    size: &[u8],
    words: &[&[u8]],
) -> Result<Script, StatementFault>
    ensures said { IfOk result
        (λ after. fields_brought script mid.now count.now size.now (texts_of words.now) ≡
        Ok after) }
    ensures refused { IfErr result
        (IsRefused (fields_brought script mid.now count.now size.now (texts_of words.now))) }
{
    let mid = mid_in(alloc, mid)?;
    let count = number_in(16_383, count)?;
    let payload = payload_of(alloc, size, words)?;
    Ok(add_telemetry(script, mid, count as u16, payload.as_slice())?)
}

/// `command MID CODE BYTES`: the command of this code with this payload.
fn command_brought(
    alloc: Global,
    script: Script,
    mid: &[u8],
    code: &[u8],
    bytes: &[u8],
) -> Result<Script, StatementFault>
    ensures said { IfOk result
        (λ after. command_brought script mid.now code.now bytes.now ≡ Ok after) }
    ensures refused { IfErr result (IsRefused (command_brought script mid.now code.now bytes.now)) }
{
    let mid = mid_in(alloc, mid)?;
    let code = number_in(127, code)?;
    let payload = bytes_in(alloc, bytes)?;
    command_fits(script, mid, code as u8, payload.as_slice())
}

/// Adds a command if it has at most 2,048 bytes.
fn command_fits(
    script: Script,
    mid: u16,
    code: u8,
    payload: &[u8],
) -> Result<Script, StatementFault>
    ensures said { IfOk result (λ after. command_fits mid code payload.now script ≡ Ok after) }
    ensures refused { IfErr result (IsRefused (command_fits mid code payload.now script)) }
{
    if payload.len() > 2_040 {
        return Err(StatementFault::Line(Reason::BadBody));
    }
    Ok(script.command(mid, code, payload)?)
}

fn one_word(script: Script, verb: &[u8]) -> Result<Script, StatementFault>
    ensures said { IfOk result (λ after. one_word script verb.now ≡ Ok after) }
    ensures refused { IfErr result (IsRefused (one_word script verb.now)) }
{
    if is(verb, b"tick") {
        Ok(script.with_record(RecordKind::Tick, b"")?)
    } else if is(verb, b"housekeeping") {
        Ok(script.command(mids::LC_HOUSEKEEPING_REQUEST, 0, b"")?)
    } else {
        Err(StatementFault::Line(Reason::UnknownStatement))
    }
}

fn two_words(alloc: Global, script: Script, verb: &[u8], a: &[u8]) -> Result<Script, StatementFault>
    ensures said { IfOk result (λ after. two_words script verb.now a.now ≡ Ok after) }
    ensures refused { IfErr result (IsRefused (two_words script verb.now a.now)) }
{
    if is(verb, b"after") {
        Ok(moved_on(script, a)?)
    } else if is(verb, b"packet") {
        packet_brought(alloc, script, a)
    } else if is(verb, b"start") {
        app_ordered(script, 1, a)
    } else if is(verb, b"stop") {
        app_ordered(script, 2, a)
    } else if is(verb, b"restart") {
        app_ordered(script, 3, a)
    } else if is(verb, b"reload") {
        app_ordered(script, 4, a)
    } else if is(verb, b"load") {
        table_ordered(script, 1, a)
    } else if is(verb, b"validate") {
        table_ordered(script, 2, a)
    } else if is(verb, b"activate") {
        table_ordered(script, 3, a)
    } else if is(verb, b"abort") {
        table_ordered(script, 4, a)
    } else {
        Err(StatementFault::Line(Reason::UnknownStatement))
    }
}

fn three_words(
    alloc: Global,
    script: Script,
    verb: &[u8],
    a: &[u8],
    b: &[u8],
) -> Result<Script, StatementFault>
    ensures said { IfOk result (λ after. three_words script verb.now a.now b.now ≡ Ok after) }
    ensures refused { IfErr result (IsRefused (three_words script verb.now a.now b.now)) }
{
    if is(verb, b"at") {
        Ok(moment_set(script, a, b)?)
    } else if is(verb, b"file") {
        file_brought(alloc, script, a, b)
    } else if is(verb, b"wdt") {
        half_brought(alloc, script, 1, a, b)
    } else if is(verb, b"adt") {
        half_brought(alloc, script, 2, a, b)
    } else {
        Err(StatementFault::Line(Reason::UnknownStatement))
    }
}

fn four_words(
    alloc: Global,
    script: Script,
    verb: &[u8],
    a: &[u8],
    b: &[u8],
    c: &[u8],
) -> Result<Script, StatementFault>
    ensures said { IfOk result (λ after. four_words script verb.now a.now b.now c.now ≡ Ok after) }
    ensures refused { IfErr result (IsRefused (four_words script verb.now a.now b.now c.now)) }
{
    if is(verb, b"sample") {
        sample_requested(script, a, b, c)
    } else if is(verb, b"telemetry") {
        telemetry_brought(alloc, script, a, b, c)
    } else if is(verb, b"command") {
        command_brought(alloc, script, a, b, c)
    } else {
        Err(StatementFault::Line(Reason::UnknownStatement))
    }
}

fn five_words(
    alloc: Global,
    script: Script,
    verb: &[u8],
    a: &[u8],
    b: &[u8],
    c: &[u8],
    d: &[u8],
) -> Result<Script, StatementFault>
    ensures said { IfOk result
        (λ after. five_words script verb.now a.now b.now c.now d.now ≡ Ok after) }
    ensures refused { IfErr result
        (IsRefused (five_words script verb.now a.now b.now c.now d.now)) }
{
    if !is(verb, b"record") {
        return Err(StatementFault::Line(Reason::UnknownStatement));
    }
    whole_record(alloc, script, a, b, c, d)
}

/// The script after a line with these words, if its statement has a fixed number of words.
fn some_words(alloc: Global, script: Script, words: &[&[u8]]) -> Result<Script, StatementFault>
    ensures said { IfOk result (λ after. some_words script (texts_of words.now) ≡ Ok after) }
    ensures refused { IfErr result (IsRefused (some_words script (texts_of words.now))) }
{
    match words {
        [verb] => one_word(script, verb),
        [verb, a] => two_words(alloc, script, verb, a),
        [verb, a, b] => three_words(alloc, script, verb, a, b),
        [verb, a, b, c] => four_words(alloc, script, verb, a, b, c),
        [verb, a, b, c, d] => five_words(alloc, script, verb, a, b, c, d),
        [] => Err(StatementFault::Line(Reason::UnknownStatement)),
        [_, _, _, _, _, _, ..] => Err(StatementFault::Line(Reason::UnknownStatement)),
    }
}

/// Whether the first of these words is `fields`.
fn sets_fields(words: &[&[u8]]) -> bool
    ensures { result ≡ sets_fields (texts_of words.now) }
{
    match words {
        [] => false,
        [verb, ..] => is(verb, b"fields"),
    }
}

/// The script after a line whose first word is `fields`.
fn fields_said(alloc: Global, script: Script, words: &[&[u8]]) -> Result<Script, StatementFault>
    ensures said { IfOk result (λ after. fields_said script (texts_of words.now) ≡ Ok after) }
    ensures refused { IfErr result (IsRefused (fields_said script (texts_of words.now))) }
{
    match words {
        [_, mid, count, size, fields @ ..] => fields_brought(
            alloc, script, mid, count, size, fields,
        ),
        [] | [_] | [_, _] | [_, _, _] => Err(StatementFault::Line(Reason::UnknownStatement)),
    }
}

/// The script after a line with these words.
pub(crate) fn statement(
    alloc: Global,
    script: Script,
    words: &[&[u8]],
) -> Result<Script, StatementFault>
    ensures said { IfOk result (λ after. statement script (texts_of words.now) ≡ Ok after) }
    ensures refused { IfErr result (IsRefused (statement script (texts_of words.now))) }
{
    if sets_fields(words) {
        return fields_said(alloc, script, words);
    }
    some_words(alloc, script, words)
}
