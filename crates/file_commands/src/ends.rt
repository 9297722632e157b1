//! How a stream or a file of packets ends, for commands whose listing doesn't say it.

ghost use Rattle.std.specs.Prelude.{◌≡◌};
ghost use Rattle.file_commands.specs.Ends.{answer_behind_packets, answer_where};

use flight_core::RunError;
use stream_script::Front;
use tool_faults::Fault;

/// Returns the end of a stream in the file `name`, if `front` stands where record `n`, counted from 1, would begin.
/// Errors: `Stream` with `BadRecord` for bytes that aren't a record, or with `Truncated` for a cut one.
pub fn end_of_stream<'a>(name: &'a str, front: Front, n: u64) -> Result<(), Fault<'a>>
    ensures { result ≡ answer_where name.entry front n }
{
    match front {
        Front::End => Ok(()),
        Front::NoRecord => Err(Fault::Stream(name, RunError::BadRecord { n })),
        Front::Cut | Front::Record { .. } => Err(Fault::Stream(name, RunError::Truncated { n })),
    }
}

/// Returns the end of a file of packets that has `left` bytes after its last whole packet, number `number`, counted
/// from 1. Error: `Packets` with both numbers if `left` isn't 0.
pub fn end_of_packets<'a>(name: &'a str, number: u64, left: usize) -> Result<(), Fault<'a>>
    ensures { result ≡ answer_behind_packets name.entry number left }
{
    if left == 0 {
        Ok(())
    } else {
        Err(Fault::Packets(name, number, left))
    }
}
