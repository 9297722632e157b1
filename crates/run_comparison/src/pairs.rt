//! Requests that one run has alone, and which of them moved.

use crate::difference::difference_in;
use crate::meaning::{Meaning, Sort};
use crate::met::MetRecord;
use std::alloc::{AllocError, Global};

/// A request that came of one run alone: its sequence, and the place of its record among those that are kept.
#[derive(Clone, Copy, Debug, PartialEq, Eq)]
pub struct Lone {
    pub place: usize,
    pub sequence: u16,
}

/// The requests that each run has alone, in order.
#[derive(Drop)]
pub struct LoneRequests {
    pub old: Vec<Lone>,
    pub new: Vec<Lone>,
}

/// Adds the requests among these, which are of the record at this place.
fn push_lone(
    all: &mut Vec<Lone>,
    place: usize,
    requests: &[Meaning<'_>],
) -> Result<(), AllocError> {
    for request in requests {
        if let Meaning::Request(sequence) = *request {
            all.push(Lone { place, sequence })?;
        }
    }
    Ok(())
}

/// The requests that each run has alone among these records. Out of memory is the only error.
pub fn lone_requests(alloc: Global, records: &[MetRecord]) -> Result<LoneRequests, AllocError> {
    let mut lone = LoneRequests {
        old: Vec::new(alloc),
        new: Vec::new(alloc),
    };
    for (place, met) in records.iter().enumerate() {
        if met.do_requests_differ {
            let differ = difference_in(alloc, met, Sort::Requests)?;
            push_lone(&mut lone.old, place, differ.only_old.as_slice())?;
            push_lone(&mut lone.new, place, differ.only_new.as_slice())?;
        }
    }
    Ok(lone)
}

/// How many requests of this sequence are in front of the one at this place.
fn rank_of(all: &[Lone], sequence: u16, place: usize) -> usize {
    let mut rank = 0usize;
    for number in 0..place.min(all.len()) {
        if all[number].sequence == sequence {
            rank = rank.saturating_add(1);
        }
    }
    rank
}

/// The place of the request of this sequence with `rank` requests of its sequence before it.
fn place_with(all: &[Lone], sequence: u16, rank: usize) -> Option<usize> {
    let mut left = rank;
    for number in 0..all.len() {
        if all[number].sequence == sequence {
            if left == 0 {
                return Some(number);
            }
            left = left.saturating_sub(1);
        }
    }
    None
}

/// The request of the other run that is this one moved: the n-th of a sequence that one run has alone moved to the n-th of the sequence
/// that the other has alone.
pub fn moved_to(these: &[Lone], those: &[Lone], place: usize) -> Option<Lone> {
    let one = *these.get(place)?;
    let other = place_with(those, one.sequence, rank_of(these, one.sequence, place))?;
    Some(*those.get(other)?)
}
