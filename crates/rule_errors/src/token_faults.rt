//! Messages for invalid tokens, and for a text that is too long.

ghost use Rattle.std.specs.Prelude.{◌≡◌, None, drop, if◌then◌else◌, IfOk};
ghost use Rattle.rule_lexer.specs.declared.error.LexError.{LexError};
ghost use Rattle.rpn_compiler.specs.declared.error.CompileError.TheVariants.{Lex};
ghost use Rattle.rpn_compiler.specs.Fault.{refusal_of};
ghost use Rattle.diagnostics.specs.Message.{IsAt, first_place};
ghost use Rattle.rule_errors.specs.Telling.{TellsOf, TellsReason, ends_line, place_of};

use crate::advice::{Advice, ByteSpan};
use crate::bytes::{character, last_word, word_size};
use crate::strays::{bad_byte, run_size};
use diagnostics::{Grouped, Many, Mark, Message, around, behind, front, nearest};
use lc_model::TYPE_WORDS;
use rule_lexer::{LexError, LexReason, TokenKind, lex};
use std::alloc::{AllocError, Global};

/// The most bytes of a name, and of a quoted text.
const LONGEST_NAME: usize = 32;

const LONGEST_STRING: usize = 31;

const LARGEST_NUMBER: u64 = 0xFFFF_FFFF;

/// The size of the sign in front in bytes: 0 or 1.
fn sign_size(rest: &[u8]) -> usize {
    usize::from(matches!(rest, [b'-', ..]))
}

/// The size in bytes of the number in front, valid or not, with its sign.
fn number_size(rest: &[u8]) -> usize {
    let sign = sign_size(rest);
    word_size(behind(rest, sign)).saturating_add(sign)
}

/// The number of decimal digits in front.
fn digit_count(text: &[u8]) -> usize {
    text.iter().take_while(|byte| byte.is_ascii_digit()).count()
}

fn are_hexadecimal(text: &[u8]) -> bool {
    !text.is_empty() && text.iter().all(|byte| byte.is_ascii_hexdigit())
}

/// The digits in front, if only letters follow them.
fn without_unit(digits: &[u8]) -> Option<&[u8]> {
    let count = digit_count(digits);
    let unit = behind(digits, count);
    if count == 0 || !unit.iter().all(|byte| byte.is_ascii_alphabetic()) {
        return None;
    }
    Some(front(digits, count))
}

/// The digits after `0X`, or before an `h`.
fn inner_digits(digits: &[u8]) -> &[u8] {
    match digits {
        [b'0', b'X', inner @ ..] => inner,
        [inner @ .., b'h' | b'H'] => inner,
        _ => &[],
    }
}

/// The number that was probably meant, without a sign.
fn intended_number(alloc: Global, digits: &[u8]) -> Result<Vec<u8>, AllocError> {
    let inner = inner_digits(digits);
    if are_hexadecimal(inner) {
        return hexadecimal(alloc, inner);
    }
    if matches!(digits, [b'0', _, _, _]) && are_hexadecimal(digits) {
        return hexadecimal(alloc, digits);
    }
    match without_unit(digits) {
        Some(number) => Vec::from_slice(alloc, number),
        None if are_hexadecimal(digits) => hexadecimal(alloc, digits),
        None => without_lines(alloc, digits),
    }
}

/// The digits with `0x` before them.
pub fn hexadecimal(alloc: Global, digits: &[u8]) -> Result<Vec<u8>, AllocError> {
    let mut number = Vec::from_slice(alloc, b"0x")?;
    number.extend_from_slice(digits)?;
    Ok(number)
}

/// The bytes without each `_`.
fn without_lines(alloc: Global, digits: &[u8]) -> Result<Vec<u8>, AllocError> {
    let mut number = Vec::new(alloc);
    for byte in digits {
        if *byte != b'_' {
            number.push(*byte)?;
        }
    }
    Ok(number)
}

/// Whether the bytes are one number, and nothing else.
fn is_number(alloc: Global, text: &[u8]) -> bool {
    match lex(alloc, text) {
        Ok(tokens) =>
            matches!(tokens.as_slice(), [token] if matches!(token.kind, TokenKind::Number(_))),
        Err(_) => false,
    }
}

/// The number that was probably meant, with the sign that is written.
fn with_sign(alloc: Global, written: &[u8]) -> Result<Vec<u8>, AllocError> {
    let sign = sign_size(written);
    let mut whole = Vec::from_slice(alloc, front(written, sign))?;
    let number = intended_number(alloc, behind(written, sign))?;
    whole.extend_from_slice(number.as_slice())?;
    Ok(whole)
}

/// Whether these are digits, all of them binary ones, or none.
fn are_binary(digits: &[u8]) -> bool {
    digits.iter().all(|byte| matches!(*byte, b'0' | b'1'))
}

/// Whether another number than the one that is left without letters may be meant: with a letter like a digit behind the digits, with
/// an exponent, or in binary digits.
fn is_doubtful(digits: &[u8]) -> bool {
    let count = digit_count(digits);
    match (front(digits, count), behind(digits, count)) {
        (_, [b'O' | b'o' | b'I' | b'l', ..]) => true,
        ([_, ..], [b'e' | b'E', power @ ..]) => digit_count(power) == power.len(),
        ([b'0'], [b'b' | b'B', rest @ ..]) => are_binary(rest),
        _ => false,
    }
}

/// What to do about an invalid number of these bytes.
fn number_advice(alloc: Global, old: ByteSpan, written: &[u8]) -> Result<Advice, AllocError> {
    let digits = behind(written, sign_size(written));
    if matches!(digits, b"0x") {
        return Advice::plain(alloc, "write hexadecimal digits behind `0x`");
    }
    let number = with_sign(alloc, written)?;
    if !is_doubtful(digits) && is_number(alloc, number.as_slice()) {
        return Advice::meant(alloc, old, number.as_slice());
    }
    Advice::plain(alloc, "write digits, or hexadecimal digits behind `0x`")
}

/// Whether a field's type stands after these bytes: they end with `=` and a packet's name.
fn ends_before_type(bytes: &[u8]) -> bool {
    let bytes = bytes.trim_ascii_end();
    let name = last_word(bytes);
    if matches!(name, [] | [b'm', b'i', b'd']) {
        return false;
    }
    match front(bytes, bytes.len().saturating_sub(name.len())).trim_ascii_end() {
        [.., b'<' | b'!' | b'=' | b'>', b'='] => false,
        [.., b'='] => true,
        _ => false,
    }
}

/// The letters of a word behind its digits, and then the digits: `u8` for `8u`.
fn letters_first(alloc: Global, word: &[u8]) -> Result<Vec<u8>, AllocError> {
    let count = digit_count(word);
    let mut turned = Vec::from_slice(alloc, behind(word, count))?;
    turned.extend_from_slice(front(word, count))?;
    Ok(turned)
}

/// The type that was probably meant by an invalid number at a type's place.
fn intended_type(
    alloc: Global,
    text: &[u8],
    at: usize,
    written: &[u8],
) -> Result<Option<&'static [u8]>, AllocError> {
    if !ends_before_type(front(text, at)) {
        return Ok(None);
    }
    let turned = letters_first(alloc, written)?;
    match TYPE_WORDS.iter().find(|word| **word == turned.as_slice()) {
        Some(word) => Ok(Some(*word)),
        None => nearest(alloc, written, TYPE_WORDS),
    }
}

/// What to do about an invalid number.
fn invalid_advice(
    alloc: Global,
    text: &[u8],
    at: usize,
    written: &[u8],
) -> Result<Advice, AllocError> {
    let old = ByteSpan::new(at, written.len());
    match intended_type(alloc, text, at, written)? {
        Some(word) => Advice::meant(alloc, old, word),
        None => number_advice(alloc, old, written),
    }
}

/// What to do about a number that is too large.
fn most_advice(alloc: Global) -> Result<Advice, AllocError> {
    let most = Grouped(LARGEST_NUMBER);
    Ok(Advice::words(format!(in alloc; "write at most {most}")?))
}

fn bad_number(
    alloc: Global,
    text: &[u8],
    at: usize,
    is_too_large: bool,
) -> Result<Message, AllocError>
    ensures { IfOk result (IsAt 2 at) }
{
    let rest = behind(text, at);
    let size = number_size(rest);
    let written = front(rest, size);
    let what = if is_too_large {
        " is too large"
    } else {
        " is not a number"
    };
    let head = around(alloc, "", written, what)?;
    let Advice { label, edit } = if is_too_large {
        most_advice(alloc)?
    } else {
        invalid_advice(alloc, text, at, written)?
    };
    Ok(Message::at(alloc, 2, head, Mark { at, size, label }).with_edit(edit))
}

fn long_name(alloc: Global, text: &[u8], at: usize) -> Result<Message, AllocError>
    ensures { IfOk result (IsAt 3 at) }
{
    let size = word_size(behind(text, at));
    let count = Many(size, "character");
    let more = Many(size.saturating_sub(LONGEST_NAME), "character");
    let head = format!(in alloc; "the name has {count}, at most 32 are allowed")?;
    let label = format!(in alloc; "shorten it by {more}")?;
    Ok(Message::at(alloc, 3, head, Mark { at, size, label }))
}

/// The number of bytes up to the line's end, without a carriage return before it.
pub fn line_rest(rest: &[u8]) -> usize {
    let size = rest.iter().take_while(|byte| **byte != b'\n').count();
    match front(rest, size) {
        [before @ .., b'\r'] => before.len(),
        line => line.len(),
    }
}

/// The number of bytes after a quote up to the next one on its line, or up to the line's end, and whether there is a next one.
fn inside(rest: &[u8]) -> (usize, bool) {
    let size = rest
        .iter()
        .take_while(|byte| **byte != b'"' && **byte != b'\n')
        .count();
    match behind(rest, size) {
        [b'"', ..] => (size, true),
        _ => (line_rest(rest), false),
    }
}

fn unclosed_string(alloc: Global, text: &[u8], at: usize) -> Result<Message, AllocError>
    ensures { IfOk result (IsAt 4 at) }
{
    let head = String::from_str(alloc, "the quoted text has no closing quote on its line")?;
    let size = line_rest(behind(text, at));
    let label = String::from_str(alloc, "write `\"` where the quoted text ends")?;
    Ok(Message::at(alloc, 4, head, Mark { at, size, label }))
}

fn long_string(alloc: Global, text: &[u8], at: usize) -> Result<Message, AllocError>
    ensures { IfOk result (IsAt 4 at) }
{
    let (size, _) = inside(behind(text, at.saturating_add(1)));
    let count = Many(size, "character");
    let more = Many(size.saturating_sub(LONGEST_STRING), "character");
    let head = format!(in alloc; "the quoted text has {count}, at most 31 are allowed")?;
    let label = format!(in alloc; "shorten it by {more}")?;
    let size = size.saturating_add(2);
    Ok(Message::at(alloc, 4, head, Mark { at, size, label }))
}

/// What is wrong with a character of a quoted text; `found` has its bytes.
fn forbidden_head(alloc: Global, first: char, found: &[u8]) -> Result<String, AllocError> {
    if first == '\t' {
        return String::from_str(alloc, "a tab may not stand in a quoted text");
    }
    around(alloc, "", found, " may not stand in a quoted text")
}

fn forbidden_byte(alloc: Global, text: &[u8], at: usize) -> Result<Message, AllocError>
    ensures { IfOk result (IsAt 4 at) }
{
    let rest = behind(text, at);
    let (first, size) = character(rest);
    let head = forbidden_head(alloc, first, front(rest, size))?;
    let label = String::from_str(
        alloc,
        "write A to Z, a to z, digits and signs of ASCII only",
    )?;
    Ok(Message::at(alloc, 4, head, Mark { at, size, label }))
}

/// Whether a carriage return is here, directly before the line's end.
fn is_line_end(text: &[u8], at: usize) -> bool
    ensures { result ≡ ends_line (drop at text.now) }
{
    match behind(text, at) {
        [byte] => *byte == b'\r',
        [byte, next, ..] => *byte == b'\r' && *next == b'\n',
        [] => false,
    }
}

fn long_text(alloc: Global) -> Result<Message, AllocError>
    ensures { IfOk result (λ message. (message.code ≡ 5) × (first_place message ≡ None)) }
{
    let head = String::from_str(
        alloc,
        "the file is too long: at most 65,536 bytes are allowed",
    )?;
    Ok(Message {
        code: 5,
        warning: None,
        head,
        first: None,
        others: Vec::new(alloc),
        edit: None,
    })
}

/// The message for a quoted text with a forbidden character. A carriage return at the line's end isn't one: then the text isn't closed.
fn forbidden_or_unclosed(
    alloc: Global,
    text: &[u8],
    at: usize,
    begin: usize,
) -> Result<Message, AllocError>
    ensures { IfOk result (IsAt 4 (if ends_line (drop at text.now) then begin else at)) }
{
    if is_line_end(text, at) {
        unclosed_string(alloc, text, begin)
    } else {
        forbidden_byte(alloc, text, at)
    }
}

/// The message for the fault of a token that begins at this place.
fn describe_fault(
    alloc: Global,
    text: &[u8],
    reason: LexReason,
    begin: usize,
) -> Result<Message, AllocError>
    ensures { IfOk result (TellsReason text.now reason begin) }
{
    match reason {
        LexReason::NoToken { at } => bad_byte(alloc, text, at),
        LexReason::NotANumber { at } => bad_number(alloc, text, at, false),
        LexReason::NumberTooLarge { at } => bad_number(alloc, text, at, true),
        LexReason::NameTooLong { at } => long_name(alloc, text, at),
        LexReason::Unclosed { at } => unclosed_string(alloc, text, at),
        LexReason::StringTooLong { at } => long_string(alloc, text, at),
        LexReason::ForbiddenByte { at } => forbidden_or_unclosed(alloc, text, at, begin),
        LexReason::TextTooLong => long_text(alloc),
        LexReason::Memory => Err(AllocError),
    }
}

/// The place at which the token with this error begins, in bytes from the text's first.
pub fn place(error: LexError) -> usize
    ensures { result ≡ place_of error }
{
    match error {
        LexError::BadByte { at }
        | LexError::BadNumber { at }
        | LexError::NameTooLong { at }
        | LexError::BadString { at } => at,
        LexError::TextTooLong | LexError::Memory => 0,
    }
}

/// The message for an error of tokens.
pub fn token_message(alloc: Global, text: &[u8], error: LexError) -> Result<Message, AllocError>
    ensures { IfOk result (TellsOf text.now (refusal_of (Lex error))) }
{
    describe_fault(alloc, text, error.reason(text), place(error))
}

/// The size of the bad token in bytes. A quoted text goes to its closing quote, or to its line's end.
pub fn bad_size(text: &[u8], error: LexError) -> usize {
    let rest = behind(text, place(error));
    let size = match error {
        LexError::BadByte { .. } => run_size(rest),
        LexError::BadNumber { .. } => number_size(rest),
        LexError::NameTooLong { .. } => word_size(rest),
        LexError::BadString { .. } => {
            let (size, is_closed) = inside(behind(rest, 1));
            size.saturating_add(1)
                .saturating_add(usize::from(is_closed))
        }
        LexError::TextTooLong | LexError::Memory => rest.len(),
    };
    size.max(1)
}
