//! `compile RULES WDT ADT`.

ghost use Rattle.std.specs.Prelude.{IfErr, IfOk};
ghost use Rattle.flight_run.specs.Commands.{IsCompileDone, compile_order};
ghost use Rattle.flight_run.specs.Stops.{StopsIn};

use crate::done::Done;
use crate::fault::Fault;
use program_io::{Disk, check_apart, read_text, write_file};
use rpn_compiler::compile;
use std::alloc::Global;

/// Compiles the rule text of a file into two table files, that of watchpoints first. A file that is another of the three is a
/// fault.
pub fn compile_files<'a, D: Disk>(
    alloc: Global,
    disk: &mut D,
    rules: &'a str,
    wdt: &'a str,
    adt: &'a str,
) -> Result<Done, Fault<'a>>
    ensures done { IfOk result (IsCompileDone rules.entry.now wdt.entry.now adt.entry.now
        (D.calls disk.old) (D.calls disk.new)) }
    ensures stops { IfErr result (StopsIn
        (compile_order rules.entry.now wdt.entry.now adt.entry.now)
        (D.calls disk.old) (D.calls disk.new)) }
{
    let text = read_text(disk, rules)?;
    let pair = compile(alloc, text.as_slice())?;
    check_apart(disk, wdt, &[rules])?;
    check_apart(disk, adt, &[rules, wdt])?;
    write_file(disk, wdt, pair.wdt.as_slice())?;
    write_file(disk, adt, pair.adt.as_slice())?;
    Ok(Done::Compiled {
        watchpoints: pair.watchpoints,
        rules: pair.rules,
    })
}
