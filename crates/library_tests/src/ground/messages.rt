//! The text of each error, as its reader sees it.

use crate::shared::same;
use field_checker::{CheckError, RuleNumber, number_at};
use rpn_compiler::CompileError;
use rule_lexer::{LexReason, lex};
use rule_parser::{ParseError, Sign, What, Word, parse};
use std::fmt::{Debug, Display};
use std::process::Abort;
use table_file::FileError;
use table_validator::{FaultCode, TableFault, WHOLE_IMAGE};
use watch_sharing::ShareError;

/// Checks that each error displays as expected.
fn all_read<R: Abort + AllocGlobal, E: Copy + Debug + Display>(rt: &R, rows: &[(E, &str)]) {
    for &(error, expected) in rows {
        let written = format!(in rt.alloc(); "{error}").expect(rt, "memory for a sentence");
        same(rt, error, written.as_str(), expected);
    }
}

/// The lexer's error says what is wrong with the text.
#[test]
fn of_texts(rt: HostRuntime) {
    let rows = &[
        (
            LexReason::NoToken { at: 3 },
            "no token begins with the byte at 3",
        ),
        (
            LexReason::NotANumber { at: 4 },
            "the number at 4 isn't of digits alone, or of `0x` and hexadecimal digits",
        ),
        (
            LexReason::NumberTooLarge { at: 5 },
            "the number at 5 is over 4,294,967,295",
        ),
        (
            LexReason::NameTooLong { at: 6 },
            "the name at 6 has over 32 bytes",
        ),
        (
            LexReason::Unclosed { at: 7 },
            "the string at 7 isn't closed on its line",
        ),
        (
            LexReason::StringTooLong { at: 8 },
            "the string at 8 has over 31 bytes",
        ),
        (
            LexReason::ForbiddenByte { at: 9 },
            "the byte at 9 may not stand in a string",
        ),
        (LexReason::TextTooLong, "the text has over 65,536 bytes"),
    ];
    all_read(&rt, rows);
}

/// The parser's error names what is expected, and its place.
#[test]
fn of_items(rt: HostRuntime) {
    let rows = &[
        (
            ParseError::Expected {
                at: 7,
                what: What::Item,
            },
            "expected `packet`, `field` or `rule` at 7",
        ),
        (
            ParseError::Expected {
                at: 7,
                what: What::Name,
            },
            "expected a name at 7",
        ),
        (
            ParseError::Expected {
                at: 7,
                what: What::Operand,
            },
            "expected a name, `not` or `(` at 7",
        ),
        (
            ParseError::Expected {
                at: 7,
                what: What::Word(Word::When),
            },
            "expected `when` at 7",
        ),
        (
            ParseError::Expected {
                at: 7,
                what: What::Sign(Sign::Semicolon),
            },
            "expected `;` at 7",
        ),
        (
            ParseError::Expected {
                at: 7,
                what: What::Sign(Sign::Close),
            },
            "expected `)` at 7",
        ),
        (
            ParseError::TooNested { at: 7 },
            "over 64 parentheses and operators in one condition, at 7",
        ),
        (ParseError::Memory, "out of memory"),
    ];
    all_read(&rt, rows);
}

/// A name is declared twice or not at all, or its field does not lie in its packet.
#[test]
fn of_names(rt: HostRuntime) {
    let rows = &[
        (
            CheckError::DuplicateName { at: 30 },
            "the name at 30 is declared before",
        ),
        (
            CheckError::UnknownName { at: 10 },
            "nothing of that kind has the name at 10",
        ),
        (
            CheckError::FieldOutside { at: 40 },
            "the field at 40 isn't inside its packet",
        ),
    ];
    all_read(&rt, rows);
}

/// A number outside its range is reported by its place.
#[test]
fn of_numbers(rt: HostRuntime) {
    let rows = &[(
        CheckError::NumberRange { at: 100 },
        "the number at 100 is out of range",
    )];
    all_read(&rt, rows);
}

/// Which number it is, with its range.
#[test]
fn of_the_numbers_of_rules(rt: HostRuntime) {
    let rows = &[
        (RuleNumber::Fails, "`fails` takes 1 to 65,535"),
        (RuleNumber::Sequence, "`sequence` takes 1 to 65,535"),
        (
            RuleNumber::EventId,
            "an event has a number from 1,000 to 65,535",
        ),
        (
            RuleNumber::ReportPassive,
            "the first number of `report` is 0 to 255",
        ),
        (
            RuleNumber::ReportPassToFail,
            "the second number of `report` is 0 to 65,535",
        ),
        (
            RuleNumber::ReportFailToPass,
            "the third number of `report` is 0 to 65,535",
        ),
        (RuleNumber::Stale, "`stale` takes 0 to 4,294,967,295"),
    ];
    all_read(&rt, rows);
}

/// The items say which number it is, at its place alone.
#[test]
fn of_the_number_at_a_place(rt: HostRuntime) {
    let text =
        b"rule LOW active fails 0 sequence 7 event error 999 \"\" report 256 0 65536 when V < 1;";
    let tokens = lex(rt.alloc(), text).expect(&rt, "tokens");
    let file = parse(rt.alloc(), text, tokens.as_slice()).expect(&rt, "items");
    let rows = &[
        (22, Some(RuleNumber::Fails)),
        (33, None),
        (47, Some(RuleNumber::EventId)),
        (61, Some(RuleNumber::ReportPassive)),
        (65, None),
        (67, Some(RuleNumber::ReportFailToPass)),
        (23, None),
    ];
    for &(at, expected) in rows {
        same(&rt, at, number_at(&file, at), expected);
    }
}

/// The ranges of message ids, lengths, masks and compared numbers.
#[test]
fn of_ranges(rt: HostRuntime) {
    let rows = &[
        (
            CheckError::MidRange { at: 15 },
            "the message id at 15 isn't one of telemetry, 0x0800 to 0x0FFF",
        ),
        (
            CheckError::ReservedMid { at: 15 },
            "the message id at 15 is one of the host's own, 0x0808 and 0x08A7",
        ),
        (
            CheckError::LengthRange { at: 29 },
            "the packet length at 29 isn't from 12 to 2,048",
        ),
        (
            CheckError::MaskRange { at: 62 },
            "the mask at 62 isn't in the field's type: 1 to 0xFF in 8 bits, to 0xFFFF in 16, to 0xFFFFFFFF in 32",
        ),
        (
            CheckError::ConstRange { at: 119 },
            "the number at 119 isn't in the field's type: u8 0 to 255, i8 -128 to 127, u16 0 to 65,535, i16 -32,768 to 32,767, u32 0 to 4,294,967,295, i32 -2,147,483,648 to 2,147,483,647",
        ),
    ];
    all_read(&rt, rows);
}

/// There are too many rules, or they are too long for their tables.
#[test]
fn of_rules(rt: HostRuntime) {
    let rows = &[
        (
            CompileError::Check(CheckError::UnknownName { at: 10 }),
            "nothing of that kind has the name at 10",
        ),
        (
            CompileError::TooManyWatchpoints,
            "the rules mention over 176 watchpoints",
        ),
        (CompileError::TooManyRules, "there are over 176 rules"),
        (
            CompileError::EquationTooLong { rule: 3 },
            "the equation of rule 3, counted from 0, has over 32 words",
        ),
        (CompileError::Memory, "out of memory"),
    ];
    all_read(&rt, rows);
    let shared = &[(
        ShareError::TooManyWatchpoints,
        "the rules mention over 176 watchpoints",
    )];
    all_read(&rt, shared);
}

#[test]
fn of_files(rt: HostRuntime) {
    let rows = &[
        (FileError::ShortFile, "the file has under 116 bytes"),
        (FileError::NotCfe, "no cFE file"),
        (FileError::WrongSubtype, "no table file"),
        (FileError::HeaderLength, "the file header's length isn't 64"),
        (FileError::PartialLoad, "a part of a table"),
        (
            FileError::SizeMismatch,
            "the image has another length than its header says",
        ),
    ];
    all_read(&rt, rows);
}

/// A fault of an image is reported after its entry.
#[test]
fn of_images(rt: HostRuntime) {
    let rows = &[
        (
            TableFault {
                code: FaultCode::UnknownWatchpoint,
                entry: 0,
            },
            "entry 0: no such watchpoint",
        ),
        (
            TableFault {
                code: FaultCode::UnknownType,
                entry: 175,
            },
            "entry 175: no such type",
        ),
        (
            TableFault {
                code: FaultCode::WrongSize,
                entry: WHOLE_IMAGE,
            },
            "entry 65535: another length than the table's images have",
        ),
    ];
    all_read(&rt, rows);
}
