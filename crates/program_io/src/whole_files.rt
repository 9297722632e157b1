//! Files that are read whole.

ghost use Rattle.std.specs.Prelude.{◌≤◌, IfOk, vec_len};

use crate::why::{FileFault, Why, fault_of};
use std::fs::{File, Files};
use std::io::Read;

/// Reads the first bytes of a file, at most `most`.
pub fn read_front<R: Files + AllocGlobal>(
    rt: &R,
    name: &str,
    most: u64,
) -> Result<Vec<u8>, FileFault> {
    let file = match File::open(rt, name) {
        Ok(file) => file,
        Err(error) => return Err(fault_of(&error)),
    };
    let mut bytes = Vec::new(rt.alloc());
    match file.take(most).read_to_end(&mut bytes) {
        Ok(_count) => Ok(bytes),
        Err(error) => Err(fault_of(&error)),
    }
}

/// Reads a file of at most `most` bytes. Error: `TooLong` for a longer file, of which one byte more is read.
pub fn read_all<R: Files + AllocGlobal>(rt: &R, name: &str, most: u64) -> Result<Vec<u8>, FileFault>
    ensures { IfOk result (λ bytes. vec_len bytes ≤ most) }
{
    let bytes = read_front(rt, name, most.saturating_add(1))?;
    if bytes.len() as u64 > most {
        return Err(FileFault::Unusable(Why::TooLong(most)));
    }
    Ok(bytes)
}
