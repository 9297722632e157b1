//! Files as the tools use them: read up to a bound.

ghost use Rattle.std.specs.Prelude.{◌≡◌, ◌≤◌, IfOk, vec_len};
ghost use Rattle.program_io.specs.Error.{error_at};
ghost use Rattle.tool_faults.specs.Cause.{fault_of_file};

use crate::fault::Fault;
use program_io::{FileFault, Shell, error_at, read_all};
use std::fs::Files;

/// The longest table file that is stored on board, in bytes.
pub const LONGEST_TABLE: u64 = 32_768;

/// The longest script, in bytes.
pub const LONGEST_WHOLE: u64 = 67_108_864;

/// The fault of a file with this name: `File`, or `Memory`.
pub fn fault_at(name: &str, fault: FileFault) -> Fault<'_>
    ensures { result ≡ fault_of_file (error_at name.entry fault) }
{
    Fault::from(error_at(name, fault))
}

/// Reads a file of at most `most` bytes. Errors: `File`, also for a longer file; `Memory`.
pub fn read<'a, R: Files + AllocGlobal>(
    rt: &R,
    name: &'a str,
    most: u64,
) -> Result<Vec<u8>, Fault<'a>>
    ensures { IfOk result (λ bytes. vec_len bytes ≤ most) }
{
    read_all(rt, name, most).map_err(|fault| fault_at(name, fault))
}

/// Reads a rule text: at most 65,537 bytes, one more than a text may have. Errors: `File`; `Memory`.
pub fn read_text<'a, R: Files + AllocGlobal>(rt: &R, name: &'a str) -> Result<Vec<u8>, Fault<'a>> {
    Ok(program_io::read_text(&mut Shell::new(rt), name)?)
}

/// Reads a text of at most 65,536 bytes. Errors: `File`, also for a longer text; `Memory`.
pub fn read_whole_text<'a, R: Files + AllocGlobal>(
    rt: &R,
    name: &'a str,
) -> Result<Vec<u8>, Fault<'a>> {
    Ok(program_io::read_whole_text(&mut Shell::new(rt), name)?)
}

/// Checks that a file to be written isn't one of these others, which are read. Error: `File` if it is.
pub fn check_apart<'a, R: Files + AllocGlobal>(
    rt: &R,
    name: &'a str,
    others: &[&str],
) -> Result<(), Fault<'a>> {
    Ok(program_io::check_apart(&mut Shell::new(rt), name, others)?)
}
