//! Files that are written in one call.

use crate::why::{FileFault, fault_of};
use std::fs::{File, Files};
use std::io::Write;

/// Creates a file with these bytes, in place of another of its name.
pub fn write_all_to<R: Files>(rt: &R, name: &str, bytes: &[u8]) -> Result<(), FileFault> {
    let mut file = match File::create(rt, name) {
        Ok(file) => file,
        Err(error) => return Err(fault_of(&error)),
    };
    match file.write_all(bytes) {
        Ok(()) => Ok(()),
        Err(error) => Err(fault_of(&error)),
    }
}
