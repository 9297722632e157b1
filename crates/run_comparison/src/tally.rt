//! How many requests and events both runs have, and one run alone.

use crate::comparison::Comparison;
use crate::difference::difference_in;
use crate::meaning::Sort;
use crate::pairs::{LoneRequests, moved_to};
use std::alloc::{AllocError, Global};

/// How many requests, or events, came of each text alone, of both at the same record, and in how many records their order differs. Of
/// requests those that moved are counted apart. All counts go up to 2^64 - 1.
#[derive(Clone, Copy, Debug, PartialEq, Eq)]
pub struct SortCounts {
    pub old: u64,
    pub new: u64,
    pub moved: u64,
    pub both: u64,
    pub reordered: u64,
}

/// The number of requests that moved.
fn moved_count(lone: &LoneRequests) -> u64 {
    let mut count = 0u64;
    for place in 0..lone.old.len() {
        if moved_to(lone.old.as_slice(), lone.new.as_slice(), place).is_some() {
            count = count.saturating_add(1);
        }
    }
    count
}

/// The counts of requests, or of events, of which the old run has `total`, without those that moved.
fn tally_of(
    alloc: Global,
    found: &Comparison<'_>,
    sort: Sort,
    total: u64,
) -> Result<SortCounts, AllocError> {
    let (mut old, mut new, mut reordered) = (0u64, 0u64, 0u64);
    for met in &found.records {
        let differ = difference_in(alloc, met, sort)?;
        old = old.saturating_add(differ.only_old.len() as u64);
        new = new.saturating_add(differ.only_new.len() as u64);
        reordered = reordered.saturating_add(u64::from(differ.is_reordered));
    }
    Ok(SortCounts {
        old,
        new,
        moved: 0,
        both: total.saturating_sub(old),
        reordered,
    })
}

/// The counts of requests. Out of memory is the only error.
pub fn request_tally(
    alloc: Global,
    found: &Comparison<'_>,
    lone: &LoneRequests,
) -> Result<SortCounts, AllocError> {
    let tally = tally_of(
        alloc,
        found,
        Sort::Requests,
        found.asked.by_old.len() as u64,
    )?;
    let moved = moved_count(lone);
    Ok(SortCounts {
        old: tally.old.saturating_sub(moved),
        new: tally.new.saturating_sub(moved),
        moved,
        both: tally.both,
        reordered: tally.reordered,
    })
}

/// The counts of events. Out of memory is the only error.
pub fn event_tally(alloc: Global, found: &Comparison<'_>) -> Result<SortCounts, AllocError> {
    tally_of(alloc, found, Sort::Events, found.old.events)
}
