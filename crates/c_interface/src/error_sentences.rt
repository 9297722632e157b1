//! The sentence of each error, for people. A type's own `Display` has the same words, but no contract says which;
//! `tools/gate/try_library` sees that they are the same.

ghost use Rattle.std.specs.Prelude.{◌≡◌, ◌+◌, ◌≤◌, ◌++◌, decimal, length};
ghost use Rattle.c_interface.specs.Said.{Says, longest_number, most_said};
ghost use Rattle.c_interface.specs.Words.{checker_words, lexer_words, longest_words, out_of_memory, parser_words, run_words, schedule_words, text_words, unfit_words};

use crate::expected_words::words_for;
use crate::sentence::Sentence;
use crate::wording::Wording;
use field_checker::CheckError;
use flight_core::RunError;
use rpn_compiler::CompileError;
use rule_lexer::LexError;
use rule_parser::ParseError;
use schedules::ScheduleError;

/// Words, and a number after them.
fn with_number(words: &[u8], number: u64) -> Wording
    requires { length words.now + longest_number ≤ longest_words }
    ensures text { result ≡ words.now ++ decimal number }
    ensures size { length result ≤ length words.now + longest_number }
{
    let mut all = Wording::of(words);
    all.add_number(number);
    all
}

/// Words around a number.
fn around_number(before: &[u8], number: u64, after: &[u8]) -> Wording
    requires { length before.now + longest_number + length after.now ≤ longest_words }
    ensures text { result ≡ before.now ++ (decimal number ++ after.now) }
    ensures size { length result ≤ length before.now + longest_number + length after.now }
{
    let mut all = Wording::of(before);
    all.add_number(number);
    all.add(after);
    all
}

/// What a parser's error says is expected, and where.
fn expectation(before: &[u8], what: &[u8], between: &[u8], at: u64) -> Wording
    requires { length before.now + length what.now + length between.now + longest_number ≤
        longest_words }
    ensures text { result ≡ before.now ++ (what.now ++ (between.now ++ decimal at)) }
    ensures size { length result ≤ longest_words }
{
    let mut all = Wording::of(before);
    all.add(what);
    all.add(between);
    all.add_number(at);
    all
}

/// What the error of the text with a number says.
fn error_of_text(before: &[u8], text: u64, between: &[u8], error: Wording) -> Wording
    requires { length before.now + length between.now + length error + longest_number ≤ most_said }
    ensures { result ≡ before.now ++ (decimal text ++ (between.now ++ error)) }
{
    let mut all = Wording::of(before);
    all.add_number(text);
    all.add(between);
    all.add(error.as_bytes());
    all
}

/// Words around a number of 128 bits.
fn around_wide_number(before: &[u8], number: u128, after: &[u8]) -> Wording
    requires { length before.now + length after.now ≤ longest_words }
    ensures { result ≡ before.now ++ (decimal number ++ after.now) }
{
    let mut all = Wording::of(before);
    all.add_wide(number);
    all.add(after);
    all
}

fn of_lexer(error: LexError) -> Wording
    ensures text { result ≡ lexer_words error }
    ensures size { length result ≤ longest_words }
{
    match error {
        LexError::BadByte { at } => with_number(b"no token begins with the byte at ", at as u64),
        LexError::BadNumber { at } => with_number(b"no number below 2^32 at ", at as u64),
        LexError::NameTooLong { at } => {
            around_number(b"the name at ", at as u64, b" has over 32 bytes")
        }
        LexError::BadString { at } => {
            with_number(b"no string of at most 31 printable bytes at ", at as u64)
        }
        LexError::TextTooLong => Wording::of(b"the text has over 65,536 bytes"),
        LexError::Memory => Wording::of(b"out of memory"),
    }
}

fn of_parser(error: ParseError) -> Wording
    ensures text { result ≡ parser_words error }
    ensures size { length result ≤ longest_words }
{
    match error {
        ParseError::Expected { at, what } => {
            expectation(b"expected ", words_for(what), b" at ", at as u64)
        }
        ParseError::TooNested { at } => with_number(
            b"over 64 parentheses and operators in one condition, at ",
            at as u64,
        ),
        ParseError::Memory => Wording::of(b"out of memory"),
    }
}

fn of_checker(error: CheckError) -> Wording
    ensures text { result ≡ checker_words error }
    ensures size { length result ≤ longest_words }
{
    match error {
        CheckError::DuplicateName { at } => {
            around_number(b"the name at ", at as u64, b" is declared before")
        }
        CheckError::UnknownName { at } => {
            with_number(b"nothing of that kind has the name at ", at as u64)
        }
        CheckError::MidRange { at } => around_number(
            b"the message id at ",
            at as u64,
            b" isn't one of telemetry, 0x0800 to 0x0FFF",
        ),
        CheckError::ReservedMid { at } => around_number(
            b"the message id at ",
            at as u64,
            b" is one of the host's own, 0x0808 and 0x08A7",
        ),
        CheckError::FieldOutside { at } => {
            around_number(b"the field at ", at as u64, b" isn't inside its packet")
        }
        CheckError::MaskRange { at } => around_number(
            b"the mask at ",
            at as u64,
            b" isn't in the field's type: 1 to 0xFF in 8 bits, to 0xFFFF in 16, to 0xFFFFFFFF in 32",
        ),
        CheckError::ConstRange { at } => around_number(
            b"the number at ",
            at as u64,
            b" isn't in the field's type: u8 0 to 255, i8 -128 to 127, u16 0 to 65,535, i16 -32,768 to 32,767, u32 0 to 4,294,967,295, i32 -2,147,483,648 to 2,147,483,647",
        ),
        CheckError::NumberRange { at } => {
            around_number(b"the number at ", at as u64, b" is out of range")
        }
        CheckError::LengthRange { at } => around_number(
            b"the packet length at ",
            at as u64,
            b" isn't from 12 to 2,048",
        ),
        CheckError::Memory => Wording::of(b"out of memory"),
    }
}

fn of_compiler(error: CompileError) -> Wording
    ensures text { result ≡ text_words error }
    ensures size { length result ≤ longest_words }
{
    match error {
        CompileError::Lex(error) => of_lexer(error),
        CompileError::Parse(error) => of_parser(error),
        CompileError::Check(error) => of_checker(error),
        CompileError::TooManyWatchpoints => {
            Wording::of(b"the rules mention over 176 watchpoints")
        }
        CompileError::TooManyRules => Wording::of(b"there are over 176 rules"),
        CompileError::EquationTooLong { rule } => around_number(
            b"the equation of rule ",
            rule as u64,
            b", counted from 0, has over 32 words",
        ),
        CompileError::Memory => Wording::of(b"out of memory"),
    }
}

fn of_reader(error: ScheduleError) -> Wording
    ensures { result ≡ schedule_words error }
{
    match error {
        ScheduleError::BadLine { n } => {
            around_number(b"line ", n as u64, b" is no line of a schedule")
        }
        ScheduleError::TooManySlots { n } => {
            around_number(b"line ", n as u64, b" asks for over 64 slots")
        }
        ScheduleError::TooManyEntries { n } => {
            around_number(b"line ", n as u64, b" has the ninth entry of its slot")
        }
        ScheduleError::Memory => Wording::of(b"out of memory"),
    }
}

fn of_host(error: RunError) -> Wording
    ensures { result ≡ run_words error }
{
    match error {
        RunError::Compile { text, error } => {
            error_of_text(b"text ", text as u64, b": ", of_compiler(error))
        }
        RunError::BadRecord { n } => around_number(b"record ", n, b" is none"),
        RunError::Truncated { n } => with_number(b"the stream ends inside record ", n),
        RunError::Read => Wording::of(b"a read failed"),
        RunError::Write { sent } => around_wide_number(b"a write failed behind ", sent, b" bytes"),
        RunError::ReadBound => {
            Wording::of(b"the stream has not ended after as many reads as may be made")
        }
        RunError::Memory => Wording::of(b"out of memory"),
    }
}

/// The sentence of a text that is refused.
pub(crate) fn of_text(error: CompileError) -> Sentence
    ensures { Says (text_words error) result }
{
    let words = of_compiler(error);
    Sentence::of(words.as_bytes())
}

/// The sentence of a text that says no schedule.
pub(crate) fn of_schedule(error: ScheduleError) -> Sentence
    ensures { Says (schedule_words error) result }
{
    let words = of_reader(error);
    Sentence::of(words.as_bytes())
}

/// The sentence of what ended a run.
pub(crate) fn of_run(error: RunError) -> Sentence
    ensures { Says (run_words error) result }
{
    let words = of_host(error);
    Sentence::of(words.as_bytes())
}

/// The sentence of lengths that do not add up to the bytes of their texts.
pub(crate) fn of_lengths() -> Sentence
    ensures { Says unfit_words result }
{
    Sentence::of(b"the lengths are not those of the texts")
}

/// The sentence of a lack of memory.
pub(crate) fn of_no_memory() -> Sentence
    ensures { Says out_of_memory result }
{
    Sentence::of(b"out of memory")
}
