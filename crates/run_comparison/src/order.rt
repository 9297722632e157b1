//! Lists of meanings: whether they are the same, and what one has and the other hasn't.

ghost use Rattle.std.specs.Prelude.{◌≡◌, ◌<◌, length, IfOk, IfSome};
ghost use Rattle.run_comparison.specs.Meaning.{all_held, event_held, of_held};
ghost use Rattle.run_comparison.specs.Order.{are_same, is_same, only_in, place_of};

use crate::meaning::{EventMeaning, Meaning};
use std::alloc::{AllocError, Global};

/// Whether two events mean the same.
fn is_same_event(one: &EventMeaning<'_>, other: &EventMeaning<'_>) -> bool
    ensures { result ≡ is_same (event_held one.now) (event_held other.now) }
{
    one.id == other.id
        && one.kind.code() == other.kind.code()
        && one.sender == other.sender
        && one.before == other.before
        && one.after == other.after
}

/// Whether two requests or events mean the same.
fn is_same(one: &Meaning<'_>, other: &Meaning<'_>) -> bool
    ensures { result ≡ is_same (of_held one.now) (of_held other.now) }
{
    match (one, other) {
        (Meaning::Request(sequence), Meaning::Request(asked)) => *sequence == *asked,
        (Meaning::Event(event), Meaning::Event(sent)) => is_same_event(event, sent),
        _ => false,
    }
}

/// Whether two lists mean the same, in the same order.
pub fn are_same(these: &[Meaning<'_>], those: &[Meaning<'_>]) -> bool
    ensures { result ≡ are_same (all_held these.now) (all_held those.now) }
{
    if these.len() != those.len() {
        return false;
    }
    for at in 0..these.len() {
        if !is_same(&these[at], &those[at]) {
            return false;
        }
    }
    true
}

/// The place of the first meaning that is this one.
fn place_of(one: &Meaning<'_>, all: &[Meaning<'_>]) -> Option<usize>
    ensures place { result ≡ place_of one.now all.now }
    ensures inside { IfSome result (λ place. place < length all.now) }
{
    all.iter().position(|other| is_same(one, other))
}

/// The meanings of these, in order, that are not among those: each of those counts for one of these. Out of memory is the only error.
pub fn only_in<'a>(
    alloc: Global,
    these: &[Meaning<'a>],
    those: &[Meaning<'a>],
) -> Result<Vec<Meaning<'a>>, AllocError>
    ensures { IfOk result (λ only. only.items ≡ only_in these.now those.now) }
{
    let mut left = Vec::from_slice(alloc, those)?;
    let mut only = Vec::new(alloc);
    for one in these {
        match place_of(one, left.as_slice()) {
            Some(place) => {
                let _met = left.remove(place);
            }
            None => only.push(*one)?,
        }
    }
    Ok(only)
}
