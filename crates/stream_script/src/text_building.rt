//! Appends words and numbers to a text. The only error is a lack of memory.

ghost use Rattle.std.specs.Prelude.{◌≡◌, ◌++◌, codes, decimal, map, IfOk};
ghost use Rattle.stream_script.specs.Listing.{name_shown, printable, size_shown};
ghost use Rattle.stream_script.specs.Number.{bytes_word};

use itoa::Buffer;
use std::alloc::{AllocError, Global};

/// A text with more bytes after it.
pub(crate) fn with_text(mut text: Vec<u8>, more: &[u8]) -> Result<Vec<u8>, AllocError>
    ensures { IfOk result (λ after. after.items ≡ text.items ++ more.now) }
{
    text.extend_from_slice(more)?;
    Ok(text)
}

/// A text with a decimal number after it.
pub(crate) fn with_digits(mut text: Vec<u8>, number: u64) -> Result<Vec<u8>, AllocError>
    ensures { IfOk result (λ after. after.items ≡ text.items ++ decimal number) }
{
    let mut digits = Buffer::new();
    text.extend_from_slice(digits.format(number).as_bytes())?;
    Ok(text)
}

/// A text with a decimal number and a space after it.
pub(crate) fn with_number(mut text: Vec<u8>, number: u64) -> Result<Vec<u8>, AllocError>
    ensures { IfOk result (λ after. after.items ≡ text.items ++ decimal number ++ codes " ") }
{
    let mut digits = Buffer::new();
    text.extend_from_slice(digits.format(number).as_bytes())?;
    text.extend_from_slice(b" ")?;
    Ok(text)
}

/// A text with the word that writes these bytes.
pub(crate) fn with_bytes(
    alloc: Global,
    mut text: Vec<u8>,
    bytes: &[u8],
) -> Result<Vec<u8>, AllocError>
    ensures { IfOk result (λ after. after.items ≡ text.items ++ bytes_word bytes.now) }
{
    if bytes.is_empty() {
        text.extend_from_slice(b"-")?;
        return Ok(text);
    }
    let digits = hex::encode(alloc, bytes)?;
    text.extend_from_slice(digits.as_str().as_bytes())?;
    Ok(text)
}

/// A byte of a name, or `?` if it isn't printable.
fn printable(byte: u8) -> u8
    ensures { result ≡ printable byte }
{
    if (b' '..=b'~').contains(&byte) {
        byte
    } else {
        b'?'
    }
}

/// A text with the bytes of a name as they are printed.
fn with_printable(mut text: Vec<u8>, name: &[u8]) -> Result<Vec<u8>, AllocError>
    ensures { IfOk result (λ after. after.items ≡ text.items ++ map printable name.now) }
{
    for byte in name {
        text.push(printable(*byte))?;
    }
    Ok(text)
}

/// A text with a space and a name.
pub(crate) fn with_name(text: Vec<u8>, name: &[u8]) -> Result<Vec<u8>, AllocError>
    ensures { IfOk result (λ after. after.items ≡ text.items ++ name_shown name.now) }
{
    let text = with_text(text, b" ")?;
    with_printable(text, name)
}

/// A text with a number of bytes.
pub(crate) fn with_size(text: Vec<u8>, size: usize) -> Result<Vec<u8>, AllocError>
    ensures { IfOk result (λ after. after.items ≡ text.items ++ size_shown size) }
{
    let text = with_text(text, b" ")?;
    let text = with_digits(text, size as u64)?;
    with_text(text, b" bytes")
}
