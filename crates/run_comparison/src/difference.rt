//! In what a record's requests, or its events, differ.

use crate::meaning::{Meaning, Sort, meanings_of};
use crate::met::MetRecord;
use crate::order::{are_same, only_in};
use std::alloc::{AllocError, Global};

/// The requests, or the events, of a record in both runs: all of them, those of one run alone, and whether the others come in another
/// order.
#[derive(Drop)]
pub struct Difference<'r> {
    pub old: Vec<Meaning<'r>>,
    pub new: Vec<Meaning<'r>>,
    pub only_old: Vec<Meaning<'r>>,
    pub only_new: Vec<Meaning<'r>>,
    pub is_reordered: bool,
}

/// In what the requests, or the events, among the packets of a record differ. Out of memory is the only error.
pub fn difference_in<'r>(
    alloc: Global,
    met: &'r MetRecord,
    sort: Sort,
) -> Result<Difference<'r>, AllocError> {
    let old = meanings_of(alloc, met.old.as_slice(), sort)?;
    let new = meanings_of(alloc, met.new.as_slice(), sort)?;
    let only_old = only_in(alloc, old.as_slice(), new.as_slice())?;
    let only_new = only_in(alloc, new.as_slice(), old.as_slice())?;
    let common_old = only_in(alloc, old.as_slice(), only_old.as_slice())?;
    let common_new = only_in(alloc, new.as_slice(), only_new.as_slice())?;
    let is_reordered = !are_same(common_old.as_slice(), common_new.as_slice());
    Ok(Difference {
        old,
        new,
        only_old,
        only_new,
        is_reordered,
    })
}
