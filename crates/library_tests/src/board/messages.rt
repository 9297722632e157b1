//! What a person reads of each error of the board.

use app_host::{HostError, WriteFault};
use event_service::EventError;
use flight_core::RunError;
use flight_run_args::WordsError;
use limit_engine::StateRefusal;
use packet_bus::{BusError, HeaderFault};
use rpn_compiler::CompileError;
use schedules::ScheduleError;
use std::fmt::Display;
use std::process::Abort;
use table_file::FileError;
use tbl_service::TableError;

/// Each error is written so.
fn all_read<R: Abort + AllocGlobal, E: Copy + Display>(rt: &R, rows: &[(E, &str)]) {
    for &(error, expected) in rows {
        let written = format!(in rt.alloc(); "{error}").expect(rt, "memory for a sentence");
        assert_eq!(rt; written.as_str(), expected);
    }
}

/// Why bytes are no packet.
#[test]
fn of_headers(rt: HostRuntime) {
    let rows = &[
        (HeaderFault::TooShort, "fewer bytes than a header"),
        (HeaderFault::WrongVersion, "the packet's version isn't 0"),
        (HeaderFault::NoSecondaryHeader, "no secondary header"),
        (HeaderFault::Segment, "a part of a packet"),
        (
            HeaderFault::WrongLength,
            "the packet has another length than its header says",
        ),
        (HeaderFault::TooLong, "the packet is over 2,048 bytes long"),
    ];
    all_read(&rt, rows);
}

/// The bus says which of its limits was met, or why bytes are not a packet.
#[test]
fn of_the_bus(rt: HostRuntime) {
    let rows = &[
        (
            BusError::BadPacket {
                reason: HeaderFault::Segment,
            },
            "bad packet: a part of a packet",
        ),
        (BusError::PipeFull, "a pipe is full"),
        (BusError::NoPipe, "no pipe on this seat"),
        (BusError::TooManyPipes, "the seat has its pipe"),
        (
            BusError::TooManySubscriptions,
            "the pipe has 256 subscriptions",
        ),
        (BusError::Memory, "out of memory"),
    ];
    all_read(&rt, rows);
}

/// The event services.
#[test]
fn of_the_event_services(rt: HostRuntime) {
    let rows = &[
        (EventError::NotRegistered, "no such sender"),
        (EventError::FilterFull, "the sender has 16 filters"),
        (EventError::AppsFull, "the seat or the name is taken"),
        (EventError::Memory, "out of memory"),
    ];
    all_read(&rt, rows);
}

/// The table services; a file that does not open says why.
#[test]
fn of_the_table_services(rt: HostRuntime) {
    let rows = &[
        (TableError::NoFile, "no such file"),
        (
            TableError::FileFault(FileError::NotCfe),
            "the file does not open: no cFE file",
        ),
        (TableError::UnknownTable, "no such table"),
        (
            TableError::WrongSize,
            "the image has another size than the table",
        ),
        (TableError::UpdatePending, "an activated image waits"),
        (TableError::NothingLoaded, "no image waits"),
        (TableError::NotValidated, "the image was not found valid"),
        (TableError::StoreFull, "eight files are stored"),
        (TableError::FileTooLong, "the file is too long"),
        (
            TableError::NoSlot,
            "no place for the table, or its name is taken",
        ),
        (TableError::Memory, "out of memory"),
    ];
    all_read(&rt, rows);
}

/// The executive.
#[test]
fn of_the_host(rt: HostRuntime) {
    let rows = &[
        (HostError::NoSuchApp, "no such application runs"),
        (HostError::NoSpare, "no spare of that name"),
        (HostError::AlreadyRunning, "the application runs already"),
        (HostError::TooManyApps, "eight applications run"),
        (HostError::Memory, "out of memory"),
    ];
    all_read(&rt, rows);
}

/// Commands for modes and states.
#[test]
fn of_states(rt: HostRuntime) {
    let rows = &[
        (StateRefusal::BadIndex, "no rule has the number"),
        (
            StateRefusal::BadMode,
            "no mode or no state that may be set has the number",
        ),
        (
            StateRefusal::NotSettable,
            "the rule's state does not allow the change",
        ),
    ];
    all_read(&rt, rows);
}

/// The line of a schedule that says nothing, or too much.
#[test]
fn of_schedules(rt: HostRuntime) {
    let rows = &[
        (
            ScheduleError::BadLine { n: 3 },
            "line 3 is no line of a schedule",
        ),
        (
            ScheduleError::TooManySlots { n: 1 },
            "line 1 asks for over 64 slots",
        ),
        (
            ScheduleError::TooManyEntries { n: 10 },
            "line 10 has the ninth entry of its slot",
        ),
        (ScheduleError::Memory, "out of memory"),
    ];
    all_read(&rt, rows);
}

/// What ended a run: a text is named by its number, with its own error; a record by its number; a failed write by the bytes
/// before it.
#[test]
fn of_runs(rt: HostRuntime) {
    let rows = &[
        (
            RunError::Compile {
                text: 2,
                error: CompileError::TooManyRules,
            },
            "text 2: there are over 176 rules",
        ),
        (RunError::BadRecord { n: 5 }, "record 5 is none"),
        (
            RunError::Truncated { n: 6 },
            "the stream ends inside record 6",
        ),
        (RunError::Read, "a read failed"),
        (
            RunError::Write { sent: 100 },
            "a write failed behind 100 bytes",
        ),
        (
            RunError::ReadBound,
            "the stream has not ended after as many reads as may be made",
        ),
        (RunError::Memory, "out of memory"),
    ];
    all_read(&rt, rows);
}

/// Words of the command line.
#[test]
fn of_words(rt: HostRuntime) {
    let rows = &[
        (
            WordsError::Usage,
            "usage: flight_run [compile RULES WDT ADT or run --schedule S --stream IN --out OUT RULES..]",
        ),
        (WordsError::Memory, "no memory"),
    ];
    all_read(&rt, rows);
}

/// A failed write of a step.
#[test]
fn of_a_step(rt: HostRuntime) {
    let rows = &[(WriteFault { sent: 12 }, "a write failed behind 12 bytes")];
    all_read(&rt, rows);
}
