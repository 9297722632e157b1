//! The result and the exit status of the process.

ghost use Rattle.std.specs.Prelude.{◌≡◌};
ghost use Rattle.flight_run.specs.Answer.{IsSaid, status_by};

use crate::fault::Fault;
use program_io::STANDARD_OUTPUT;
use std::io;

/// The result of printing what was done: a fault if standard output can't be used.
pub fn print_result(printed: io::Result<()>) -> Result<(), Fault<'static>>
    ensures { IsSaid printed result }
{
    match printed {
        Ok(()) => Ok(()),
        Err(_) => Err(Fault::File(STANDARD_OUTPUT)),
    }
}

/// The exit status: 0 if there is no fault.
pub fn status_by(answer: &Result<(), Fault<'_>>) -> u8
    ensures { result ≡ status_by answer.now }
{
    match answer {
        Ok(()) => 0,
        Err(fault) => fault.status(),
    }
}
