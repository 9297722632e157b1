//! The faults of standard input and standard output.

ghost use Rattle.tool_faults.specs.Cause.{IsListed, IsOfInput, IsOfOutput, IsOfWrite};

use crate::fault::Fault;
use program_io::{STANDARD_INPUT, STANDARD_OUTPUT, Why, reason_for};
use std::io::{self, ErrorKind};

/// The fault for an error of standard input.
pub fn input_fault(kind: ErrorKind) -> Fault<'static>
    ensures { IsOfInput kind result }
{
    match kind {
        ErrorKind::OutOfMemory => Fault::Memory,
        kind => Fault::File(STANDARD_INPUT, reason_for(kind)),
    }
}

/// The fault for an error of standard output: `Gone` if its reader closed it.
pub fn output_fault(kind: ErrorKind) -> Fault<'static>
    ensures { IsOfOutput kind result }
{
    match kind {
        ErrorKind::OutOfMemory => Fault::Memory,
        ErrorKind::BrokenPipe => Fault::Gone,
        kind => Fault::File(STANDARD_OUTPUT, reason_for(kind)),
    }
}

/// The fault for a failed write to standard output, with this kind of error if it is known.
pub fn written_fault(kind: Option<ErrorKind>) -> Fault<'static>
    ensures { IsOfWrite kind result }
{
    match kind {
        Some(kind) => output_fault(kind),
        None => Fault::File(STANDARD_OUTPUT, Why::Failed),
    }
}

/// The result of a write to standard output, with an error as `output_fault` maps it.
pub fn listing_result(written: io::Result<()>) -> Result<(), Fault<'static>>
    ensures { IsListed written result }
{
    match written {
        Ok(()) => Ok(()),
        Err(error) => Err(output_fault(error.kind())),
    }
}
