//! Each refusal by its name, with its number.

use crate::shared::same;
use app_host::HostError;
use event_service::EventError;
use field_checker::CheckError;
use flight_profile::{RunError, ScheduleError};
use packet_bus::{BusError, HeaderFault};
use rpn_compiler::CompileError;
use rule_lexer::LexError;
use rule_parser::{ParseError, What};
use std::process::Abort;
use table_file::FileError;
use tbl_service::TableError;
use watch_sharing::ShareError;

const LEX: [(LexError, Option<u8>); 6] = [
    (LexError::BadByte { at: 0 }, Some(1)),
    (LexError::BadNumber { at: 0 }, Some(2)),
    (LexError::NameTooLong { at: 0 }, Some(3)),
    (LexError::BadString { at: 0 }, Some(4)),
    (LexError::TextTooLong, Some(5)),
    (LexError::Memory, None),
];

#[test]
fn of_lexing(rt: HostRuntime) {
    for (error, number) in LEX.iter() {
        same(&rt, *error, error.code(), *number);
    }
}

const PARSE: [(ParseError, Option<u8>); 3] = [
    (
        ParseError::Expected {
            at: 6,
            what: What::Name,
        },
        Some(11),
    ),
    (ParseError::TooNested { at: 0 }, Some(12)),
    (ParseError::Memory, None),
];

#[test]
fn of_parsing(rt: HostRuntime) {
    for (error, number) in PARSE.iter() {
        same(&rt, *error, error.code(), *number);
    }
}

const CHECK: [(CheckError, Option<u8>); 10] = [
    (CheckError::DuplicateName { at: 0 }, Some(21)),
    (CheckError::UnknownName { at: 0 }, Some(22)),
    (CheckError::MidRange { at: 0 }, Some(23)),
    (CheckError::ReservedMid { at: 0 }, Some(24)),
    (CheckError::FieldOutside { at: 0 }, Some(25)),
    (CheckError::MaskRange { at: 0 }, Some(26)),
    (CheckError::ConstRange { at: 0 }, Some(27)),
    (CheckError::NumberRange { at: 0 }, Some(28)),
    (CheckError::LengthRange { at: 0 }, Some(29)),
    (CheckError::Memory, None),
];

#[test]
fn of_checking(rt: HostRuntime) {
    for (error, number) in CHECK.iter() {
        same(&rt, *error, error.code(), *number);
    }
}

const SHARE: [(ShareError, Option<u8>); 2] = [
    (ShareError::TooManyWatchpoints, Some(31)),
    (ShareError::Memory, None),
];

const COMPILE: [(CompileError, Option<u8>); 3] = [
    (CompileError::TooManyRules, Some(41)),
    (CompileError::EquationTooLong { rule: 0 }, Some(42)),
    (CompileError::Memory, None),
];

#[test]
fn of_compiling(rt: HostRuntime) {
    for (error, number) in SHARE.iter() {
        same(&rt, *error, error.code(), *number);
    }
    for (error, number) in COMPILE.iter() {
        same(&rt, *error, error.code(), *number);
    }
}

const FILE: [(FileError, Option<u8>); 7] = [
    (FileError::ShortFile, Some(51)),
    (FileError::NotCfe, Some(52)),
    (FileError::WrongSubtype, Some(53)),
    (FileError::HeaderLength, Some(54)),
    (FileError::PartialLoad, Some(55)),
    (FileError::SizeMismatch, Some(56)),
    (FileError::Memory, None),
];

#[test]
fn of_files(rt: HostRuntime) {
    for (error, number) in FILE.iter() {
        same(&rt, *error, error.code(), *number);
    }
}

const BUS: [(BusError, Option<u8>); 6] = [
    (
        BusError::BadPacket {
            reason: HeaderFault::TooShort,
        },
        Some(91),
    ),
    (BusError::PipeFull, Some(92)),
    (BusError::NoPipe, Some(93)),
    (BusError::TooManyPipes, Some(94)),
    (BusError::TooManySubscriptions, Some(95)),
    (BusError::Memory, None),
];

const EVENT: [(EventError, Option<u8>); 4] = [
    (EventError::NotRegistered, Some(101)),
    (EventError::FilterFull, Some(102)),
    (EventError::AppsFull, Some(103)),
    (EventError::Memory, None),
];

#[test]
fn of_bus_and_events(rt: HostRuntime) {
    for (error, number) in BUS.iter() {
        same(&rt, *error, error.code(), *number);
    }
    for (error, number) in EVENT.iter() {
        same(&rt, *error, error.code(), *number);
    }
}

const TABLE: [(TableError, Option<u8>); 11] = [
    (TableError::NoFile, Some(111)),
    (TableError::FileFault(FileError::ShortFile), Some(112)),
    (TableError::UnknownTable, Some(113)),
    (TableError::WrongSize, Some(114)),
    (TableError::UpdatePending, Some(115)),
    (TableError::NothingLoaded, Some(116)),
    (TableError::NotValidated, Some(117)),
    (TableError::StoreFull, Some(118)),
    (TableError::FileTooLong, Some(119)),
    (TableError::NoSlot, Some(120)),
    (TableError::Memory, None),
];

#[test]
fn of_tables(rt: HostRuntime) {
    for (error, number) in TABLE.iter() {
        same(&rt, *error, error.code(), *number);
    }
}

const HOST: [(HostError, Option<u8>); 5] = [
    (HostError::NoSuchApp, Some(121)),
    (HostError::NoSpare, Some(122)),
    (HostError::AlreadyRunning, Some(123)),
    (HostError::TooManyApps, Some(124)),
    (HostError::Memory, None),
];

const SCHEDULE: [(ScheduleError, Option<u8>); 4] = [
    (ScheduleError::BadLine { n: 0 }, Some(131)),
    (ScheduleError::TooManySlots { n: 1 }, Some(132)),
    (ScheduleError::TooManyEntries { n: 10 }, Some(133)),
    (ScheduleError::Memory, None),
];

#[test]
fn of_applications(rt: HostRuntime) {
    for (error, number) in HOST.iter() {
        same(&rt, *error, error.code(), *number);
    }
    for (error, number) in SCHEDULE.iter() {
        same(&rt, *error, error.code(), *number);
    }
}

const RUN: [(RunError, Option<u8>); 7] = [
    (
        RunError::Compile {
            text: 0,
            error: CompileError::TooManyRules,
        },
        None,
    ),
    (RunError::BadRecord { n: 1 }, Some(141)),
    (RunError::Truncated { n: 5 }, Some(142)),
    (RunError::Read, Some(143)),
    (RunError::Write { sent: 100 }, Some(144)),
    (RunError::ReadBound, Some(145)),
    (RunError::Memory, None),
];

#[test]
fn of_runs(rt: HostRuntime) {
    for (error, number) in RUN.iter() {
        same(&rt, *error, error.code(), *number);
    }
}
