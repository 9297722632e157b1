//! What a ground team does: it makes table files from a rule text, and judges files before their uplink.

use crate::ground::judging::{Unfit, judge};
use crate::shared::LOW_VOLTS;
use lc_model::Kind;
use rpn_compiler::compile;
use std::process::Abort;
use std::test::Fail;
use table_file::FileError;
use table_validator::{FaultCode, TableFault, WHOLE_IMAGE};

/// The place of the low byte of the first actionpoint's first word: after both headers, the preamble and 46 bytes.
const FIRST_WORD: usize = 116 + 40 + 46 + 1;

/// Checks that the file is sound as this table.
fn may_go_up<R: Abort>(rt: &R, kind: Kind, file: &[u8]) {
    assert_eq!(rt; judge(kind, file), Ok(()));
}

/// Checks that the file's image is refused with this fault.
fn is_refused<R: Abort>(rt: &R, kind: Kind, file: &[u8], code: FaultCode, entry: u16) {
    assert_eq!(rt;
        judge(kind, file),
        Err(Unfit::Table(TableFault { code, entry }))
    );
}

#[test]
fn both_files_of_a_text_may_go_up(rt: HostRuntime) -> Result<(), Fail> {
    let pair = compile(rt.alloc(), LOW_VOLTS)?;
    may_go_up(&rt, Kind::Wdt, pair.wdt.as_slice());
    may_go_up(&rt, Kind::Adt, pair.adt.as_slice());
    // Each file as the other table: the image has another size.
    is_refused(
        &rt,
        Kind::Adt,
        pair.wdt.as_slice(),
        FaultCode::WrongSize,
        WHOLE_IMAGE,
    );
    Ok(())
}

#[test]
fn so_may_the_files_of_the_empty_text(rt: HostRuntime) -> Result<(), Fail> {
    let pair = compile(rt.alloc(), b"")?;
    may_go_up(&rt, Kind::Wdt, pair.wdt.as_slice());
    may_go_up(&rt, Kind::Adt, pair.adt.as_slice());
    Ok(())
}

#[test]
fn files_that_are_damaged(rt: HostRuntime) -> Result<(), Fail> {
    let mut adt = compile(rt.alloc(), LOW_VOLTS)?.adt;
    if adt.len() > FIRST_WORD {
        adt[FIRST_WORD] = 1;
    }
    is_refused(
        &rt,
        Kind::Adt,
        adt.as_slice(),
        FaultCode::UnknownWatchpoint,
        0,
    );
    adt.truncate(15_000);
    assert_eq!(rt;
        judge(Kind::Adt, adt.as_slice()),
        Err(Unfit::File(FileError::SizeMismatch))
    );
    Ok(())
}
