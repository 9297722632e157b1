//! Messages for errors of items: names, places and numbers that aren't valid.

ghost use Rattle.std.specs.Prelude.{◌≡◌, IfOk};
ghost use Rattle.rpn_compiler.specs.declared.error.CompileError.TheVariants.{Check};
ghost use Rattle.rpn_compiler.specs.Fault.{refusal_of};
ghost use Rattle.rule_errors.specs.Telling.{TellsOf, place_of_check};

use crate::fields::{bad_mask, outside};
use crate::naming::{duplicate, unknown};
use crate::numbers::{bad_compared, bad_number};
use crate::packets::{bad_length, no_telemetry, reserved_mid};
use crate::source::Source;
use diagnostics::Message;
use field_checker::CheckError;
use rule_lexer::{Token, TokenKind};
use std::alloc::{AllocError, Global};

/// The place of an error of items, in bytes from the text's first; 0 for `Memory`.
pub fn check_place(error: CheckError) -> usize
    ensures { result ≡ place_of_check error }
{
    match error {
        CheckError::DuplicateName { at }
        | CheckError::UnknownName { at }
        | CheckError::MidRange { at }
        | CheckError::ReservedMid { at }
        | CheckError::FieldOutside { at }
        | CheckError::MaskRange { at }
        | CheckError::ConstRange { at }
        | CheckError::NumberRange { at }
        | CheckError::LengthRange { at } => at,
        CheckError::Memory => 0,
    }
}

/// The token with this number, placed at `at`.
fn token_at<'a>(source: &Source<'a>, number: usize, at: usize) -> Token<'a>
    ensures { result.at ≡ at }
{
    match source.token(number) {
        Some(token) => Token {
            at,
            text: token.text,
            kind: token.kind,
        },
        None => Token {
            at,
            text: b"",
            kind: TokenKind::Name,
        },
    }
}

/// The message for an error of items.
pub fn check_message(
    alloc: Global,
    source: &Source<'_>,
    error: CheckError,
) -> Result<Message, AllocError>
    ensures { IfOk result (TellsOf source.now.text.now (refusal_of (Check error))) }
{
    let at = check_place(error);
    let number = source.number_at(at);
    let token = token_at(source, number, at);
    match error {
        CheckError::DuplicateName { .. } => duplicate(alloc, source, number, token),
        CheckError::UnknownName { .. } => unknown(alloc, source, number, token),
        CheckError::MidRange { .. } => no_telemetry(alloc, token),
        CheckError::ReservedMid { .. } => reserved_mid(alloc, token),
        CheckError::FieldOutside { .. } => outside(alloc, source, number, token),
        CheckError::MaskRange { .. } => bad_mask(alloc, source, number, token),
        CheckError::ConstRange { .. } => bad_compared(alloc, source, number, token),
        CheckError::NumberRange { .. } => bad_number(alloc, source, number, token),
        CheckError::LengthRange { .. } => bad_length(alloc, token),
        CheckError::Memory => Err(AllocError),
    }
}
