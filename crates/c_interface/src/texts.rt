//! Texts that lie one after the other.

ghost use Rattle.std.specs.Prelude.{◌≡◌, ◌==◌, length, IfOk};
ghost use Rattle.std.specs.List.{sum};
ghost use Rattle.flight_core.specs.Compiled.{sources_of};
ghost use Rattle.c_interface.specs.Texts.{texts_in};

use std::alloc::{AllocError, Global};

/// Whether these lengths add up to `bytes`, and so are those of parts of that many bytes.
pub(crate) fn are_lengths(lengths: &[usize], bytes: usize) -> bool
    ensures { result ≡ (sum lengths.now == bytes) }
{
    let mut left = bytes;
    let mut others = lengths;
    while let [first, rest @ ..] = others {
        if *first > left {
            return false;
        }
        left -= *first;
        others = rest;
    }
    left == 0
}

/// The texts with these lengths. Out of memory is the only error.
pub(crate) fn texts_in<'a>(
    alloc: Global,
    bytes: &'a [u8],
    lengths: &[usize],
) -> Result<Vec<&'a [u8]>, AllocError>
    requires { sum lengths.now ≡ length bytes.now }
    ensures { IfOk result (λ texts.
        sources_of texts.items ≡ texts_in bytes.now lengths.now) }
{
    let mut texts = Vec::new(alloc);
    let mut left = bytes;
    let mut others = lengths;
    while let [first, rest @ ..] = others {
        let (text, behind) = left.split_at(*first);
        texts.push(text)?;
        left = behind;
        others = rest;
    }
    Ok(texts)
}
