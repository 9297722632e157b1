//! Lack of memory: `rt try --test --fail-alloc N` refuses the Nth allocation of a test's process. Each of these tests then
//! passes, for each N that it reaches; the other tests need their results, and fail.

use crate::board::values::{adt_file, wdt_file};
use crate::shared::same;
use event_service::{EventError, Events};
use flight_run_args::{WordsError, read_words};
use lc_model::Seat;
use packet_bus::{Bus, BusError};
use std::fmt::Debug;
use std::process::Abort;
use table_file::{AdtVersion, FileError};
use tbl_service::{TableError, Tables};

/// What was made, or `Memory` and no other error.
fn made_or_memory<R: Abort, T, E: Copy + Debug + PartialEq>(
    rt: &R,
    of: &str,
    made: Result<T, E>,
    memory: E,
) -> Option<T> {
    match made {
        Ok(made) => Some(made),
        Err(error) => {
            same(rt, of, error, memory);
            None
        }
    }
}

/// N from 1 to 3: the values', the image's or the file's room.
#[test]
fn all_watchpoints_or_no_memory(rt: HostRuntime) {
    let file = made_or_memory(&rt, "file", wdt_file(rt.alloc()), FileError::Memory);
    if let Some(file) = file {
        same(&rt, "length", file.len(), 4_380);
    }
}

/// N from 1 to 5: the text's, the words', the values', the image's and the file's room.
#[test]
fn all_actionpoints_or_no_memory(rt: HostRuntime) {
    let file = adt_file(rt.alloc(), AdtVersion::Two);
    if let Some(file) = made_or_memory(&rt, "file", file, FileError::Memory) {
        same(&rt, "length", file.len(), 19_516);
    }
}

#[test]
fn a_bus_or_no_memory(rt: HostRuntime) {
    let bus = made_or_memory(&rt, "bus", Bus::new(rt.alloc()), BusError::Memory);
    if let Some(mut bus) = bus {
        same(&rt, "a pipe", bus.add_pipe(Seat::new(7)), Ok(()));
    }
}

#[test]
fn event_services_or_no_memory(rt: HostRuntime) {
    let events = made_or_memory(&rt, "events", Events::new(rt.alloc()), EventError::Memory);
    if let Some(mut events) = events {
        same(
            &rt,
            "a sender",
            events.register(Seat::new(0), b"LC"),
            Ok(()),
        );
    }
}

/// A file is stored, and becomes the image of a table.
#[test]
fn table_services_or_no_memory(rt: HostRuntime) {
    let tables = made_or_memory(&rt, "tables", Tables::new(rt.alloc()), TableError::Memory);
    let file = made_or_memory(&rt, "file", wdt_file(rt.alloc()), FileError::Memory);
    if let (Some(mut tables), Some(file)) = (tables, file) {
        let slot = tables.register(Seat::new(0), b"LC.LC_WDT", 4_264, None);
        same(&rt, "a table", slot.is_ok(), true);
        same(
            &rt,
            "a file",
            tables.put_file(b"/cf/wdt.tbl", &file),
            Ok(()),
        );
        same(&rt, "an image", tables.load(b"/cf/wdt.tbl"), Ok(()));
    }
}

#[test]
fn a_plan_or_no_memory(rt: HostRuntime) {
    let words = ["flight_run", "compile", "a.rules", "w.tbl", "a.tbl"];
    let plan = read_words(rt.alloc(), &words);
    let _plan = made_or_memory(&rt, "words", plan, WordsError::Memory);
}
