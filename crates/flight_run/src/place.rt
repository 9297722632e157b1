//! Where a rule text is refused.

ghost use Rattle.std.specs.Prelude.{◌≡◌};
ghost use Rattle.rpn_compiler.specs.Fault.{refusal_of};
ghost use Rattle.flight_run.specs.Lines.{place_in};

use field_checker::CheckError;
use rpn_compiler::CompileError;
use rule_lexer::LexError;
use rule_parser::ParseError;

/// The part of a rule text that a refusal is about.
#[derive(Clone, Copy)]
pub enum RefusalPlace {
    /// The whole text.
    Whole,
    /// The byte at this place, from 0.
    At(usize),
    /// This rule, from 0.
    Rule(usize),
}

/// Where the text is refused.
pub fn place_of(error: CompileError) -> RefusalPlace
    ensures { result ≡ place_in (refusal_of error) }
{
    match error {
        CompileError::Lex(error) => match error {
            LexError::BadByte { at }
            | LexError::BadNumber { at }
            | LexError::NameTooLong { at }
            | LexError::BadString { at } => RefusalPlace::At(at),
            LexError::TextTooLong | LexError::Memory => RefusalPlace::Whole,
        },
        CompileError::Parse(error) => match error {
            ParseError::Expected { at, what: _ } | ParseError::TooNested { at } => RefusalPlace::At(
                at,
            ),
            ParseError::Memory => RefusalPlace::Whole,
        },
        CompileError::Check(error) => match error {
            CheckError::DuplicateName { at }
            | CheckError::UnknownName { at }
            | CheckError::MidRange { at }
            | CheckError::ReservedMid { at }
            | CheckError::FieldOutside { at }
            | CheckError::MaskRange { at }
            | CheckError::ConstRange { at }
            | CheckError::NumberRange { at }
            | CheckError::LengthRange { at } => RefusalPlace::At(at),
            CheckError::Memory => RefusalPlace::Whole,
        },
        CompileError::EquationTooLong { rule } => RefusalPlace::Rule(rule),
        CompileError::TooManyWatchpoints | CompileError::TooManyRules | CompileError::Memory => {
            RefusalPlace::Whole
        }
    }
}
