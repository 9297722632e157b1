//! Bytes and numbers at the end of what is written so far.

ghost use Rattle.std.specs.Prelude.{◌≡◌, ◌++◌, replicate, OnOk};
ghost use Rattle.std.specs.List.{flat_map};
ghost use Rattle.lc_model.specs.Bytes as model;

use byteorder::{BigEndian, ByteOrder};
use std::alloc::AllocError;

/// Two bytes, the high one first.
pub fn push_u16(out: &mut Vec<u8>, number: u16) -> Result<(), AllocError>
    ensures { OnOk result (out.new.items ≡ out.old.items ++ model.u16 number) }
{
    let mut bytes = [0; 2];
    BigEndian::write_u16(&mut bytes, number);
    out.extend_from_slice(&bytes)
}

/// Four bytes, the high one first.
pub fn push_u32(out: &mut Vec<u8>, number: u32) -> Result<(), AllocError>
    ensures { OnOk result (out.new.items ≡ out.old.items ++ model.u32 number) }
{
    let mut bytes = [0; 4];
    BigEndian::write_u32(&mut bytes, number);
    out.extend_from_slice(&bytes)
}

/// Adds this many zeros.
pub fn push_zeros(out: &mut Vec<u8>, count: usize) -> Result<(), AllocError>
    ensures { OnOk result (out.new.items ≡ out.old.items ++ replicate count 0) }
{
    let length = out.len().checked_add(count).ok_or(AllocError)?;
    out.resize(length, 0)
}

/// Words of two bytes each.
pub fn push_words(out: &mut Vec<u8>, words: &[u16]) -> Result<(), AllocError>
    ensures { OnOk result (out.new.items ≡ out.old.items ++ flat_map model.u16 words.now) }
{
    for word in words {
        push_u16(out, *word)?;
    }
    Ok(())
}
