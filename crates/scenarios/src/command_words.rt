//! The script's line that says a command packet: a line is made from the packet, and it is the packet's only if a script of it
//! says this packet.

ghost use Rattle.std.specs.Prelude.{◌≡◌, ◌+◌, ◌++◌, ◌<◌, ◌≤◌, ◌^◌, [], true, bytes_eq, codes, decimal, drop, length, option_map, take, IfOk, IfSome, if◌then◌else◌};
ghost use Rattle.std.specs.List.{list_all};
ghost use Rattle.lc_model.specs.Command.{state_numbered};
ghost use Rattle.lc_model.specs.Host.Stream.{header_size};
ghost use Rattle.lc_model.specs.Packet.{command, command_header_size, longest_packet};
ghost use Rattle.scenarios.specs.CommandWords.{SaysCommand, SaysPacket, app_verb, are_of_several, command_in_words, filter_tried, first_numbered, is_named_otherwise, is_printable, is_script_of, is_stream_of, lc_tried, name_word, one_packet, order_tried, payload_tried, read_back, record_in_words, rule_word, sample_tried, says_packet, standing_tried, table_verb};
ghost use Rattle.scenarios.specs.Plain.{plain_in};
ghost use Rattle.stream_script.specs.Script.{script_in};

use crate::declared::DeclaredItems;
use crate::error::ScenarioError;
use crate::named::Rule;
use crate::order::ALL;
use crate::plain::plain_script;
use lc_model::packet::{COMMAND_HEADERS, LONGEST_PACKET, function_code, header_fault, message_id};
use lc_model::stream::HEADER;
use lc_model::{ApMode, mids, name_in, u16_at};
use packet_builders::build_command;
use std::alloc::{AllocError, Global};
use stream_script::{ScriptError, read_script};

// ---- what is read back

/// Whether a byte is a printable character of ASCII, or a space.
fn is_printable(byte: u8) -> bool
    ensures { result ≡ is_printable byte }
{
    (b' '..=b'~').contains(&byte)
}

/// Whether all bytes are.
fn are_printable(bytes: &[u8]) -> bool
    ensures { result ≡ list_all is_printable bytes.now }
{
    bytes.iter().all(|byte| is_printable(*byte))
}

/// Whether a stream is one record, at second 0, that brings this packet.
fn is_one_packet(alloc: Global, stream: &[u8], packet: &[u8]) -> Result<bool, AllocError>
    requires { length packet.now < 2 ^ 32 }
    ensures { IfOk result (λ is. is ≡ bytes_eq stream.now (one_packet packet.now)) }
{
    let [a, b, c, d] = (packet.len() as u32).to_be_bytes();
    let mut one = Vec::from_slice(alloc, &[1, 0, 0, 0, 0, 0, 0, a, b, c, d])?;
    one.extend_from_slice(packet)?;
    Ok(stream == one.as_slice())
}

/// Whether a plain script says such a stream.
fn is_stream_of(alloc: Global, script: &[u8], packet: &[u8]) -> Result<bool, AllocError>
    requires { length packet.now < 2 ^ 32 }
    ensures { IfOk result (λ is. is ≡ is_stream_of packet.now (script_in script.now)) }
{
    match read_script(alloc, script) {
        Ok(stream) => is_one_packet(alloc, stream.as_slice(), packet),
        Err(ScriptError::Line { n: _, reason: _ }) => Ok(false),
        Err(ScriptError::Memory) => Err(AllocError),
    }
}

/// Whether a line is a script that says such a stream, in the words of these declarations.
fn is_script_of(
    alloc: Global,
    line: &[u8],
    declared: &DeclaredItems<'_>,
    packet: &[u8],
) -> Result<bool, AllocError>
    requires { length packet.now < 2 ^ 32 }
    ensures { IfOk result
        (λ is. is ≡ is_script_of packet.now (plain_in declared.now [] line.now)) }
{
    match plain_script(alloc, line, declared, &[]) {
        Ok(plain) => is_stream_of(alloc, plain.text.as_slice(), packet),
        Err(ScenarioError::Line { n: _, reason: _ }) => Ok(false),
        Err(ScenarioError::Memory) => Err(AllocError),
    }
}

/// Whether a line of printable characters is such a script.
#[tactic(auto, using(crate::proofs::CommandSaid::says))]
fn says_packet(
    alloc: Global,
    line: &[u8],
    declared: &DeclaredItems<'_>,
    packet: &[u8],
) -> Result<bool, AllocError>
    requires { length packet.now < 2 ^ 32 }
    ensures exact { IfOk result (λ says. says ≡ says_packet declared.now line.now packet.now) }
    ensures says { IfOk result
        (λ says. says ≡ true → SaysPacket declared.now line.now packet.now) }
{
    if !are_printable(line) {
        return Ok(false);
    }
    is_script_of(alloc, line, declared, packet)
}

// ---- the word of a rule

/// The first rule of a number.
fn first_numbered<'r, 'a>(rules: &'r [Rule<'a>], number: u16) -> Option<&'r Rule<'a>>
    ensures { option_map (λ rule. rule.now) result ≡ first_numbered number rules.now }
{
    rules.iter().find(|rule| rule.number() == number)
}

/// Whether a rule of this number has another name.
fn is_named_otherwise(rules: &[Rule<'_>], number: u16, name: &[u8]) -> bool
    ensures { result ≡ is_named_otherwise number name.now rules.now }
{
    rules.iter().any(|rule| rule.is_otherwise(number, name))
}

/// Whether a rule is of another text than the first.
fn are_of_several(rules: &[Rule<'_>]) -> bool
    ensures { result ≡ are_of_several rules.now }
{
    rules.iter().any(|rule| rule.text != 0)
}

/// A number's digits.
fn digits_of(alloc: Global, number: u16) -> Result<Vec<u8>, AllocError>
    ensures { IfOk result (λ word. word.items ≡ decimal number) }
{
    let digits = format!(in alloc; "{number}")?;
    Ok(digits.into_bytes())
}

/// A rule's name, with its text's number in front where there are several texts.
fn name_of(alloc: Global, rules: &[Rule<'_>], rule: &Rule<'_>) -> Result<Vec<u8>, AllocError>
    ensures { IfOk result (λ word. word.items ≡
        (if are_of_several rules.now then decimal rule.now.text ++ codes ":" ++ rule.now.name
        else rule.now.name)) }
{
    if !are_of_several(rules) {
        return Vec::from_slice(alloc, rule.name);
    }
    let text = rule.text;
    let mut word = format!(in alloc; "{text}:")?.into_bytes();
    word.extend_from_slice(rule.name)?;
    Ok(word)
}

/// The word of the rule with this number: its name where all texts that have it agree on it, else the number.
fn name_word(
    alloc: Global,
    rules: &[Rule<'_>],
    number: u16,
    first: Option<&Rule<'_>>,
) -> Result<Vec<u8>, AllocError>
    ensures { IfOk result (λ word. word.items ≡
        name_word number rules.now (option_map (λ rule. rule.now) first.entry)) }
{
    match first {
        Some(rule) if !is_named_otherwise(rules, number, rule.name) => name_of(alloc, rules, rule),
        _ => digits_of(alloc, number),
    }
}

/// The word of the rule with this number, or of all.
fn rule_word(alloc: Global, rules: &[Rule<'_>], number: u16) -> Result<Vec<u8>, AllocError>
    ensures { IfOk result (λ word. word.items ≡ rule_word number rules.now) }
{
    if number == ALL {
        return Vec::from_slice(alloc, b"all");
    }
    name_word(alloc, rules, number, first_numbered(rules, number))
}

// ---- the line that is tried

/// These words, one behind the other.
fn line_of(alloc: Global, front: &[u8], rest: &[u8]) -> Result<Vec<u8>, AllocError>
    ensures { IfOk result (λ line. line.items ≡ front.now ++ rest.now) }
{
    let mut line = Vec::from_slice(alloc, front)?;
    line.extend_from_slice(rest)?;
    Ok(line)
}

/// A line whose last word is the mode, or the state, of this number.
fn standing_tried(mut front: Vec<u8>, number: u16) -> Result<Option<Vec<u8>>, AllocError>
    ensures { IfOk result (λ line. option_map (λ line. line.items) line ≡
        standing_tried front.items (state_numbered number)) }
{
    match ApMode::from_code(number) {
        Some(standing) => {
            front.extend_from_slice(b" ")?;
            front.extend_from_slice(standing.word().as_bytes())?;
            Ok(Some(front))
        }
        None => Ok(None),
    }
}

/// `state RULE`, of the rule with this number.
fn state_front(alloc: Global, rules: &[Rule<'_>], number: u16) -> Result<Vec<u8>, AllocError>
    ensures { IfOk result (λ line. line.items ≡ codes "state " ++ rule_word number rules.now) }
{
    let word = rule_word(alloc, rules, number)?;
    line_of(alloc, b"state ", word.as_slice())
}

/// `state RULE off`.
fn off_line(alloc: Global, rules: &[Rule<'_>], number: u16) -> Result<Vec<u8>, AllocError>
    ensures { IfOk result
        (λ line. line.items ≡ codes "state " ++ rule_word number rules.now ++ codes " off") }
{
    let mut line = state_front(alloc, rules, number)?;
    line.extend_from_slice(b" off")?;
    Ok(line)
}

/// The line of a command to the Limit Checker.
fn lc_tried(
    alloc: Global,
    rules: &[Rule<'_>],
    code: u8,
    payload: &[u8],
) -> Result<Option<Vec<u8>>, AllocError>
    ensures { IfOk result (λ line. option_map (λ line. line.items) line ≡
        lc_tried rules.now code payload.now) }
{
    if payload.len() < 4 {
        return Ok(None);
    }
    match code {
        2 => standing_tried(Vec::from_slice(alloc, b"mode")?, u16_at(payload, 0)),
        3 => standing_tried(
            state_front(alloc, rules, u16_at(payload, 0))?,
            u16_at(payload, 2),
        ),
        4 => Ok(Some(off_line(alloc, rules, u16_at(payload, 0))?)),
        _ => Ok(None),
    }
}

/// The line of a request to sample rules.
fn sample_tried(alloc: Global, payload: &[u8]) -> Result<Option<Vec<u8>>, AllocError>
    ensures { IfOk result
        (λ line. option_map (λ line. line.items) line ≡ sample_tried payload.now) }
{
    if payload.len() < 8 {
        return Ok(None);
    }
    let (first, last) = (u16_at(payload, 0), u16_at(payload, 2));
    let ages = if u16_at(payload, 4) == 0 {
        "keep"
    } else {
        "age"
    };
    let line = format!(in alloc; "sample {first} {last} {ages}")?;
    Ok(Some(line.into_bytes()))
}

/// The line of a filter of an event.
fn filter_tried(alloc: Global, code: u8, payload: &[u8]) -> Result<Option<Vec<u8>>, AllocError>
    ensures { IfOk result
        (λ line. option_map (λ line. line.items) line ≡ filter_tried code payload.now) }
{
    if code != 1 || payload.len() < 24 {
        return Ok(None);
    }
    let (event, mask) = (u16_at(payload, 20), u16_at(payload, 22));
    let rest = format!(in alloc; " {event} {mask}")?.into_bytes();
    let (name, _) = payload.split_at(20);
    let mut line = line_of(alloc, b"filter ", name_in(name))?;
    line.extend_from_slice(rest.as_slice())?;
    Ok(Some(line))
}

/// The words in front of the name in a command to the table services.
fn table_verb(code: u8) -> Option<&'static [u8]>
    ensures { option_map (λ verb. verb.now) result ≡ table_verb code }
{
    match code {
        1 => Some(b"load "),
        2 => Some(b"validate "),
        3 => Some(b"activate "),
        4 => Some(b"abort "),
        _ => None,
    }
}

/// The words in front of the name in a command to the executive services.
fn app_verb(code: u8) -> Option<&'static [u8]>
    ensures { option_map (λ verb. verb.now) result ≡ app_verb code }
{
    match code {
        1 => Some(b"start "),
        2 => Some(b"stop "),
        3 => Some(b"restart "),
        4 => Some(b"reload "),
        _ => None,
    }
}

/// The line of an order that names an application, a file or a table.
fn order_tried(
    alloc: Global,
    verb: Option<&[u8]>,
    payload: &[u8],
) -> Result<Option<Vec<u8>>, AllocError>
    ensures { IfOk result (λ line. option_map (λ line. line.items) line ≡
        order_tried (option_map (λ verb. verb.now) verb.entry) payload.now) }
{
    match verb {
        Some(verb) => Ok(Some(line_of(alloc, verb, name_in(payload))?)),
        None => Ok(None),
    }
}

/// The line of a command with this message id and code.
fn payload_tried(
    alloc: Global,
    rules: &[Rule<'_>],
    mid: u16,
    code: u8,
    payload: &[u8],
) -> Result<Option<Vec<u8>>, AllocError>
    ensures { IfOk result (λ line. option_map (λ line. line.items) line ≡
        payload_tried rules.now mid code payload.now) }
{
    match mid {
        mids::LC_COMMAND => lc_tried(alloc, rules, code, payload),
        mids::LC_HOUSEKEEPING_REQUEST => Ok(Some(Vec::from_slice(alloc, b"housekeeping")?)),
        mids::SAMPLE => sample_tried(alloc, payload),
        mids::EVENT_SERVICES => filter_tried(alloc, code, payload),
        mids::TABLE_SERVICES => order_tried(alloc, table_verb(code), payload),
        mids::EXECUTIVE_SERVICES => order_tried(alloc, app_verb(code), payload),
        _ => Ok(None),
    }
}

// ---- the line

/// The line that was tried, where it says the packet.
fn read_back(
    alloc: Global,
    declared: &DeclaredItems<'_>,
    packet: &[u8],
    tried: Option<Vec<u8>>,
) -> Result<Option<Vec<u8>>, AllocError>
    requires { length packet.now < 2 ^ 32 }
    ensures exact { IfOk result (λ line. option_map (λ line. line.items) line ≡
        read_back declared.now packet.now (option_map (λ line. line.items) tried)) }
    ensures says { IfOk result (λ line. IfSome line
        (λ line. SaysPacket declared.now line.items packet.now)) }
{
    match tried {
        Some(line) => {
            if says_packet(alloc, line.as_slice(), declared, packet)? {
                Ok(Some(line))
            } else {
                Ok(None)
            }
        }
        None => Ok(None),
    }
}

/// The first bytes.
fn front(bytes: &[u8], size: usize) -> &[u8]
    requires { size ≤ length bytes.now }
    ensures { result.now ≡ take size bytes.now }
{
    bytes.split_at(size).0
}

/// The line of a command with this message id, code and payload, where a line says it.
fn line_said(
    alloc: Global,
    declared: &DeclaredItems<'_>,
    mid: u16,
    code: u8,
    payload: &[u8],
) -> Result<Option<Vec<u8>>, AllocError>
    requires { command_header_size + length payload.now ≤ longest_packet }
    ensures exact { IfOk result (λ line. option_map (λ line. line.items) line ≡
        read_back declared.now (command mid 0 code payload.now)
        (payload_tried declared.now.rules mid code payload.now)) }
    ensures says { IfOk result (λ line. IfSome line
        (λ line. SaysPacket declared.now line.items (command mid 0 code payload.now))) }
{
    let tried = payload_tried(alloc, declared.rules(), mid, code, payload)?;
    let mut buffer = [0; LONGEST_PACKET];
    let size = build_command(mid, 0, code, payload, &mut buffer);
    read_back(alloc, declared, front(&buffer, size), tried)
}

/// The script's line that says a command, as `state LOW off` or `load /cf/w.tbl`, in printable characters; none for a packet with a
/// fault, and where no line says this command. Sequence count and checksum, which the host doesn't read, are left out. A rule is
/// called by its name (`TEXT:NAME` where there are several texts) where all texts that have a rule of its number agree on it, else by
/// its number. Out of memory is the only error.
pub fn command_in_words(
    alloc: Global,
    packet: &[u8],
    declared: &DeclaredItems<'_>,
) -> Result<Option<Vec<u8>>, AllocError>
    ensures exact { IfOk result (λ line. option_map (λ line. line.items) line ≡
        command_in_words declared.now packet.now) }
    ensures says { IfOk result (λ line. IfSome line
        (λ line. SaysCommand declared.now line.items packet.now)) }
{
    if header_fault(packet).is_some() {
        return Ok(None);
    }
    let (_, payload) = packet.split_at(COMMAND_HEADERS);
    line_said(
        alloc,
        declared,
        message_id(packet),
        function_code(packet),
        payload,
    )
}

/// The script's line that says the packet of a whole record in bytes, with its header; none where the record brings no packet, or one
/// that has no such line. Out of memory is the only error.
pub fn record_in_words(
    alloc: Global,
    record: &[u8],
    declared: &DeclaredItems<'_>,
) -> Result<Option<Vec<u8>>, AllocError>
    ensures exact { IfOk result (λ line. option_map (λ line. line.items) line ≡
        record_in_words declared.now «record».now) }
    ensures says { IfOk result (λ line. IfSome line
        (λ line. SaysCommand declared.now line.items (drop header_size «record».now))) }
{
    if record.len() < HEADER || record[0] != 1 {
        return Ok(None);
    }
    let (_, packet) = record.split_at(HEADER);
    command_in_words(alloc, packet, declared)
}
