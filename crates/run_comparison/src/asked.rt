//! Which sequences both runs have requested so far, and whether one was requested more often by the new text.

ghost use Rattle.std.specs.Prelude.{◌≡◌, ◌||◌, ◌++◌, ◌∷◌, [], ℕ, List, length, map, IfOk, OnOk};
ghost use Rattle.run_comparison.specs.Asked.{HasAsked, count_of, is_ahead, sequence_of, sequences_in};
ghost use Rattle.run_comparison.specs.Meaning.{all_held, of_held};

use crate::meaning::{Meaning, Sort, meanings_of};
use std::alloc::{AllocError, Global};

/// What makes a comparison fail.
#[derive(Clone, Copy, Debug, PartialEq, Eq)]
pub enum FailOn {
    /// At some record the new text has requested a sequence more often so far than the old one.
    NewRequests,
    /// The requests differ.
    Requests,
    /// The requests or the events differ.
    Differences,
}

/// The sequences that were requested so far in each run, in order, and whether at some record one had been requested more often by the
/// new text.
#[derive(Drop)]
pub struct Asked {
    pub by_old: Vec<u16>,
    pub by_new: Vec<u16>,
    pub is_new: bool,
}

/// How often a sequence is in a list.
fn count_of(sequence: u16, all: &[u16]) -> usize
    ensures { result ≡ count_of sequence all.now }
{
    all.iter().filter(|other| **other == sequence).count()
}

/// Whether one of these sequences is more often in the second list than in the first.
fn is_ahead(sequences: &[u16], old: &[u16], new: &[u16]) -> bool
    ensures { result ≡ is_ahead sequences.now old.now new.now }
{
    sequences.iter().any(|sequence| count_of(*sequence, old) < count_of(*sequence, new))
}

/// Whether it was so before, or one of these sequences is more often in the second list than in the first.
fn was_ahead(was: bool, sequences: &[u16], old: &[u16], new: &[u16]) -> bool
    ensures { result ≡ (was || is_ahead sequences.now old.now new.now) }
{
    was || is_ahead(sequences, old, new)
}

/// The sequence of a request; 0 for an event.
fn sequence_of(meaning: &Meaning<'_>) -> u16
    ensures { result ≡ sequence_of (of_held meaning.now) }
{
    match meaning {
        Meaning::Request(sequence) => *sequence,
        Meaning::Event(_) => 0,
    }
}

/// The sequences of requests, in order. Out of memory is the only error.
fn sequences_in(alloc: Global, requests: &[Meaning<'_>]) -> Result<Vec<u16>, AllocError>
    ensures { IfOk result (λ sequences. sequences.items ≡ map sequence_of (all_held requests.now)) }
{
    let mut sequences = Vec::new(alloc);
    for request in requests {
        sequences.push(sequence_of(request))?;
    }
    Ok(sequences)
}

/// The sequences that are requested by packets that follow one another, in order. Out of memory is the only error.
fn sequences_of(alloc: Global, packets: &[u8]) -> Result<Vec<u16>, AllocError>
    ensures { IfOk result (λ sequences. sequences.items ≡ sequences_in packets.now) }
{
    if packets.is_empty() {
        return Ok(Vec::new(alloc));
    }
    let requests = meanings_of(alloc, packets, Sort::Requests)?;
    sequences_in(alloc, requests.as_slice())
}

impl Asked {
    /// Nothing was requested.
    pub fn nothing(alloc: Global) -> Asked
        ensures { HasAsked result [] [] }
    {
        Asked {
            by_old: Vec::new(alloc),
            by_new: Vec::new(alloc),
            is_new: false,
        }
    }

    /// Takes the packets of one more record in each run. Out of memory is the only error.
    pub fn take(&mut self, alloc: Global, old: &[u8], new: &[u8]) -> Result<(), AllocError>
        ensures { (olds news : List (List ℕ)) → length news ≡ length olds → HasAsked self.old olds news →
            OnOk result (HasAsked self.new (olds ++ old.now ∷ []) (news ++ new.now ∷ [])) }
    {
        let olds = sequences_of(alloc, old)?;
        let news = sequences_of(alloc, new)?;
        self.by_old.extend_from_slice(olds.as_slice())?;
        self.by_new.extend_from_slice(news.as_slice())?;
        self.is_new = was_ahead(
            self.is_new,
            news.as_slice(),
            self.by_old.as_slice(),
            self.by_new.as_slice(),
        );
        Ok(())
    }
}
