//! The images of the low-volts text, by their bytes.
//!
//! The text is `packet P = mid 0x0883 length 16; field V = P u16be at 12 stale 2; rule LOW active fails 2 sequence 7 event
//! error 1001 "low volts" when V < 2400;`.

use crate::board::values::HASH;
use std::alloc::{AllocError, Global};

/// Type, operator, message id, offset, mask, zero, stale age, comparison value.
pub const WATCHPOINT: [u8; 24] = [
    3, 1, 0x08, 0x83, 0, 0, 0, 12, 0, 0, 0xFF, 0xFF, 0, 0, 0, 0, 0, 0, 0, 2, 0, 0, 0x09, 0x60,
];

/// State, maxima of events, sequence 7, fails 2, event type 3, event id 1001, the text's 32 bytes, words.
pub const ACTIONPOINT: [u8; 50] =
    *b"\x01\x00\x00\x00\x00\x00\x00\x07\x00\x02\x00\x03\x03\xE9low volts\0\0\0\0\0\0\0\0\0\0\0\0\0\0\0\0\0\0\0\0\0\0\0\x00\x00\xFF\x05";

/// An image of this version and kind: one entry of this size, which begins with these bytes, over one watchpoint; and 175
/// entries that aren't used: 0xFF, and zeros.
pub fn image(
    alloc: Global,
    version: u8,
    kind: u8,
    entry: &[u8],
    size: usize,
) -> Result<Vec<u8>, AllocError> {
    let mut image = Vec::from_slice(alloc, &[0, version, 0, kind, 0, 1, 0, 1])?;
    image.extend_from_slice(&HASH)?;
    image.extend_from_slice(entry)?;
    push_zeros(&mut image, size.saturating_sub(entry.len()))?;
    for _ in 1..176u8 {
        image.push(0xFF)?;
        push_zeros(&mut image, size.saturating_sub(1))?;
    }
    Ok(image)
}

fn push_zeros(bytes: &mut Vec<u8>, count: usize) -> Result<(), AllocError> {
    for _ in 0..count {
        bytes.push(0)?;
    }
    Ok(())
}
