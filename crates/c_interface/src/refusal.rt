//! A refusal, in numbers.

ghost use Rattle.std.specs.Prelude.{◌≡◌, ◌≢◌, ◌<◌};
ghost use Rattle.rpn_compiler.specs.Fault.{refusal_of};
ghost use Rattle.c_interface.specs.Refusing.{numbers_of, unfit};

use field_checker::CheckError;
use rpn_compiler::CompileError;
use rule_lexer::LexError;
use rule_parser::ParseError;

/// The code for a lack of memory.
pub const NO_MEMORY: u32 = 255;

/// What `at` counts: nothing; bytes of the text before the fault; rules before it.
pub const NOTHING: u32 = 0;

const BYTES: u32 = 1;

const RULES: u32 = 2;

/// Why something is refused, in numbers for C.
#[repr(C)]
#[derive(Clone, Copy, Debug, PartialEq, Eq)]
pub struct Refusal {
    /// The number of the refusal; 0 if nothing is refused.
    pub code: u32,
    /// What `at` counts: 0 nothing, 1 bytes of the text, 2 rules of the text, 3 records, 4 a schedule's lines, where nothing was run.
    pub of: u32,
    /// The bytes or rules before the fault; the number of the record at fault from 1, of all records if the code is 0, and 0 if it
    /// is 144 or 145; or the schedule's line from 1, or 0.
    pub at: u64,
    /// The number of the refused text, from 0.
    pub text: u64,
}

/// Creates the refusal that refuses nothing.
pub fn none() -> Refusal
    ensures { result ≡ record { code = 0; of = 0; at = 0; text = 0 } }
{
    Refusal {
        code: 0,
        of: NOTHING,
        at: 0,
        text: 0,
    }
}

fn whole(text: u64, code: u32) -> Refusal
    ensures { result ≡ record { code = code; of = 0; at = 0; text = text } }
{
    Refusal {
        code,
        of: NOTHING,
        at: 0,
        text,
    }
}

fn at(text: u64, code: u32, at: usize) -> Refusal
    ensures { result ≡ record { code = code; of = 1; at = at; text = text } }
{
    Refusal {
        code,
        of: BYTES,
        at: at as u64,
        text,
    }
}

/// The numbers of a refusal of the text with this number.
pub fn in_numbers(text: u64, error: CompileError) -> Refusal
    ensures numbers { result ≡ numbers_of text (refusal_of error) }
    ensures some { 0 < result.code }
    ensures fit { result.code ≢ unfit }
    ensures of { result.of < 3 }
{
    match error {
        CompileError::Lex(error) => match error {
            LexError::BadByte { at: place } => at(text, 1, place),
            LexError::BadNumber { at: place } => at(text, 2, place),
            LexError::NameTooLong { at: place } => at(text, 3, place),
            LexError::BadString { at: place } => at(text, 4, place),
            LexError::TextTooLong => whole(text, 5),
            LexError::Memory => whole(text, NO_MEMORY),
        },
        CompileError::Parse(error) => match error {
            ParseError::Expected { at: place, what: _ } => at(text, 11, place),
            ParseError::TooNested { at: place } => at(text, 12, place),
            ParseError::Memory => whole(text, NO_MEMORY),
        },
        CompileError::Check(error) => match error {
            CheckError::DuplicateName { at: place } => at(text, 21, place),
            CheckError::UnknownName { at: place } => at(text, 22, place),
            CheckError::MidRange { at: place } => at(text, 23, place),
            CheckError::ReservedMid { at: place } => at(text, 24, place),
            CheckError::FieldOutside { at: place } => at(text, 25, place),
            CheckError::MaskRange { at: place } => at(text, 26, place),
            CheckError::ConstRange { at: place } => at(text, 27, place),
            CheckError::NumberRange { at: place } => at(text, 28, place),
            CheckError::LengthRange { at: place } => at(text, 29, place),
            CheckError::Memory => whole(text, NO_MEMORY),
        },
        CompileError::TooManyWatchpoints => whole(text, 31),
        CompileError::TooManyRules => whole(text, 41),
        CompileError::EquationTooLong { rule } => Refusal {
            code: 42,
            of: RULES,
            at: rule as u64,
            text,
        },
        CompileError::Memory => whole(text, NO_MEMORY),
    }
}
