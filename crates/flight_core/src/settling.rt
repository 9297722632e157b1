//! Writes collected output to its device.

ghost use Rattle.flight_core.specs.Going.{EndsFor, Settles};

use crate::halt::Halt;
use crate::outlet::Outlet;
use lc_model::{ByteSink, DeviceFault};

/// Writes the collected output to the device; `written` is the number of bytes of output so far, and if it is 0 nothing is
/// collected.
pub(crate) fn settle<T: ByteSink, O: Outlet<T>>(out: &mut T, written: u128) -> Result<(), Halt>
    ensures { Settles written (O.device out.old) (O.device out.new) (O.held out.old)
        (O.held out.new) result }
{
    if written == 0 {
        return Ok(());
    }
    match O::settle(out) {
        Ok(()) => Ok(()),
        Err(DeviceFault) => Err(Halt::Unsent(0)),
    }
}

/// Why the run ends, if it stops for `halt`: at a bad record the collected output is written first, and if the device fails then,
/// that is the reason. A device that has failed is not written to again.
pub(crate) fn final_reason<T: ByteSink, O: Outlet<T>>(
    halt: Halt,
    out: &mut T,
    written: u128,
) -> Halt
    ensures { EndsFor written (O.device out.old) (O.device out.new) (O.held out.old)
        (O.held out.new) halt result }
{
    match halt {
        Halt::NoRecord => match settle::<T, O>(out, written) {
            Ok(()) => Halt::NoRecord,
            Err(failed) => failed,
        },
        other => other,
    }
}
