//! The tables of the low-volts text as values, and what the encoders make of them.

ghost use Rattle.std.specs.Prelude.{◌≡◌, length, IfOk};
ghost use Rattle.lc_model.specs.Tables.Image.{Watchpoints, Actionpoints, WideActionpoints, image_length, FitsWatchpoint, FitsEntry};
ghost use Rattle.table_file.specs.Layout.{layout_of_version};

use arrayvec::ArrayVec;
use lc_model::{ApMode, Bytes, CmpOp, EventKind, FieldType, Kind, ReportMaxima, Term};
use std::alloc::{AllocError, Global};
use table_file::{
    AdtImage, AdtVersion, FileError, TableEntry, WdtImage, encode_adt, encode_wdt, wrap,
};

/// In place of the text's hash.
pub const HASH: [u8; 32] = [7; 32];

/// The watchpoint: the 16 bits at byte 12 are below 2,400.
pub fn low() -> Term
    ensures { FitsWatchpoint result }
{
    Term {
        kind: FieldType::U16Be,
        mid: 0x0883,
        offset: 12,
        mask: 0xFFFF,
        stale: 2,
        op: CmpOp::Less,
        value: 2400,
    }
}

/// The actionpoint: two failing samples in a row request sequence 7.
fn actionpoint(alloc: Global) -> Result<TableEntry, AllocError>
    ensures first { IfOk result (λ entry. FitsEntry Actionpoints entry) }
    ensures second { IfOk result (λ entry. FitsEntry WideActionpoints entry) }
{
    Ok(TableEntry {
        mode: ApMode::Active,
        report: ReportMaxima {
            passive: 0,
            pass_to_fail: 0,
            fail_to_pass: 0,
        },
        sequence: 7,
        fails: 2,
        event_kind: EventKind::Error,
        event_id: 1001,
        text: Bytes::from_vec(Vec::from_slice(alloc, b"low volts")?),
        words: ArrayVec::try_from([0].as_slice()).unwrap(),
    })
}

/// The image of its watchpoints.
pub fn watchpoints(alloc: Global) -> Result<Vec<u8>, FileError>
    ensures { IfOk result (λ bytes. length bytes.items ≡ image_length Watchpoints) }
{
    let image = WdtImage {
        hash: HASH,
        watchpoints: Vec::from_slice(alloc, &[low()])?,
    };
    encode_wdt(alloc, &image)
}

/// The image of its actionpoints.
pub fn actionpoints(alloc: Global, version: AdtVersion) -> Result<Vec<u8>, FileError>
    ensures { IfOk result (λ bytes. length bytes.items ≡ image_length (layout_of_version version)) }
{
    let entry = actionpoint(alloc)?;
    let image = AdtImage {
        version,
        hash: HASH,
        watchpoint_count: 1,
        actionpoints: vec![in alloc; entry].map_err(|_| FileError::Memory)?,
    };
    encode_adt(alloc, &image)
}

/// The file of its watchpoints.
pub fn wdt_file(alloc: Global) -> Result<Vec<u8>, FileError> {
    let image = watchpoints(alloc)?;
    wrap(alloc, Kind::Wdt, &image)
}

/// The file of its actionpoints.
pub fn adt_file(alloc: Global, version: AdtVersion) -> Result<Vec<u8>, FileError> {
    let image = actionpoints(alloc, version)?;
    wrap(alloc, Kind::Adt, &image)
}
