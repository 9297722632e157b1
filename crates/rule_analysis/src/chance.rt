//! Bits of fields by chance, at the limits of their comparisons.

use crate::fields::{Field, number};
use lc_model::Term;
use std::alloc::{AllocError, Global};

/// The next random number after another (a linear congruence: each run picks the same).
fn next_random(random: u32) -> u32 {
    random.wrapping_mul(1_664_525).wrapping_add(1_013_904_223)
}

/// The number of a comparison, or the next one on either side: which of the three a random number picks. At one of them the outcome of
/// the comparison changes.
fn bits_at_limit(term: &Term, random: u32) -> u32 {
    let value = match random >> 16 & 3 {
        0 => term.value.saturating_sub(1),
        1 => term.value.saturating_add(1),
        _ => term.value,
    };
    (value & 0xFFFF_FFFF) as u32 & term.mask
}

/// The number of the field that each of the terms reads.
pub(crate) fn numbers_of(
    alloc: Global,
    terms: &[Term],
    fields: &[Field],
) -> Result<Vec<usize>, AllocError> {
    let mut numbers = Vec::new(alloc);
    for term in terms {
        numbers.push(number(fields, term))?;
    }
    Ok(numbers)
}

/// The first term from this place on that reads the field with this number.
fn reader_from<'t>(
    terms: &'t [Term],
    numbers: &[usize],
    field: usize,
    start: usize,
) -> Option<&'t Term> {
    for place in start..numbers.len() {
        if numbers[place] == field {
            return terms.get(place);
        }
    }
    None
}

/// Bits for the field with this number, of one of the comparisons that read it.
fn bits_of_field(terms: &[Term], numbers: &[usize], field: usize, random: u32) -> u32 {
    let start = (random >> 20) as usize;
    let start = start.checked_rem(numbers.len()).unwrap_or(0);
    let found = match reader_from(terms, numbers, field, start) {
        Some(term) => Some(term),
        None => reader_from(terms, numbers, field, 0),
    };
    match found {
        Some(term) => bits_at_limit(term, random),
        None => 0,
    }
}

/// Bits for all fields.
pub(crate) fn pick_bits(
    alloc: Global,
    terms: &[Term],
    numbers: &[usize],
    fields: usize,
    random: &mut u32,
) -> Result<Vec<u32>, AllocError> {
    let mut bits = Vec::new(alloc);
    for field in 0..fields {
        *random = next_random(*random);
        bits.push(bits_of_field(terms, numbers, field, *random))?;
    }
    Ok(bits)
}

/// Gives each field that the terms read bits at one of their limits.
pub(crate) fn pick_own_bits(bits: &mut [u32], terms: &[Term], numbers: &[usize], random: &mut u32) {
    for number in numbers {
        *random = next_random(*random);
        if let Some(place) = bits.get_mut(*number) {
            *place = bits_of_field(terms, numbers, *number, *random);
        }
    }
}
