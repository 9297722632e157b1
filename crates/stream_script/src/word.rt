//! Reads the words of a statement.

ghost use Rattle.std.specs.Prelude.{◌≡◌, ◌≤◌, bytes_eq, length, IfOk, IfErr, Ok};
ghost use Rattle.lc_model.specs.Name.{app_name_size, name_size};
ghost use Rattle.stream_script.specs.Error.{IsRefused};
ghost use Rattle.stream_script.specs.Number.{bytes_in};
ghost use Rattle.stream_script.specs.Script.{ages_in, mid_in, name_field};

use crate::error::{Reason, StatementFault};
use hex::FromHexError;
use lc_model::u16_at;
use std::alloc::Global;

/// Whether the word is this one.
pub(crate) fn is(word: &[u8], other: &[u8]) -> bool
    ensures { result ≡ bytes_eq word.now other.now }
{
    word == other
}

/// The bytes that a word writes: `-` for no bytes, else two hexadecimal digits for each byte.
pub(crate) fn bytes_in(alloc: Global, word: &[u8]) -> Result<Vec<u8>, StatementFault>
    ensures said { IfOk result (λ bytes. bytes_in word.now ≡ Ok bytes.items) }
    ensures refused { IfErr result (IsRefused (bytes_in word.now)) }
{
    if is(word, b"-") {
        return Ok(Vec::new(alloc));
    }
    match hex::decode(alloc, word) {
        Ok(bytes) => Ok(bytes),
        Err(FromHexError::OutOfMemory) => Err(StatementFault::Memory),
        Err(_) => Err(StatementFault::Line(Reason::BadBytes)),
    }
}

/// A file's or a table's name in its field of 40 bytes, with zeros after it.
pub(crate) fn long_name(word: &[u8]) -> Result<[u8; 40], Reason>
    ensures { result ≡ name_field name_size word.now }
{
    if word.len() > 40 {
        return Err(Reason::LongName);
    }
    let mut field = [0; 40];
    field[..word.len()].copy_from_slice(word);
    Ok(field)
}

/// An application's name in its field of 20 bytes, with zeros after it.
pub(crate) fn short_name(word: &[u8]) -> Result<[u8; 20], Reason>
    ensures { result ≡ name_field app_name_size word.now }
{
    if word.len() > 20 {
        return Err(Reason::LongName);
    }
    let mut field = [0; 20];
    field[..word.len()].copy_from_slice(word);
    Ok(field)
}

/// Whether the watchpoints age after a sample, as a number.
pub(crate) fn ages_in(word: &[u8]) -> Result<u8, Reason>
    ensures { result ≡ ages_in word.now }
{
    if is(word, b"age") {
        Ok(1)
    } else if is(word, b"keep") {
        Ok(0)
    } else {
        Err(Reason::UnknownStatement)
    }
}

/// The message id that four hexadecimal digits write.
pub(crate) fn mid_in(alloc: Global, word: &[u8]) -> Result<u16, StatementFault>
    ensures said { IfOk result (λ mid. mid_in word.now ≡ Ok mid) }
    ensures refused { IfErr result (IsRefused (mid_in word.now)) }
{
    let bytes = bytes_in(alloc, word)?;
    if bytes.len() != 2 {
        return Err(StatementFault::Line(Reason::BadNumber));
    }
    Ok(u16_at(bytes.as_slice(), 0))
}
