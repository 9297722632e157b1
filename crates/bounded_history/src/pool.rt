//! All lists together, which share a limited number of entries.

ghost use Rattle.std.specs.Prelude.{◌≡◌, ◌<◌, ◌-◌, ◌^◌, ◌++◌, ◌∷◌, [], List, OnOk, length};
ghost use Rattle.bounded_history.specs.declared.entry.Entry.{Entry as Told};
ghost use Rattle.bounded_history.specs.Telling.{HaveWidthsOf, IsLongest, IsReduced, MakesRoom, NearlyTells, PoolTells, count_at, lists_of, most_of, told_to};

use crate::changes::Changes;
use crate::entry::Entry;
use std::alloc::{AllocError, Global};

/// All lists of changes, with a limit on their entries together.
#[derive(Drop)]
pub struct Pool {
    alloc: Global,
    lists: Vec<Changes>,
    count: usize,
    most: usize,
}

impl Pool {
    /// Creates a pool without lists that may have `most` entries. Two entries a list are kept even above that limit.
    pub fn new(alloc: Global, most: usize) -> Pool
        requires { most < 2 ^ 64 - 1 }
        ensures told { PoolTells result [] }
        ensures most { most_of result ≡ most }
    {
        Pool {
            alloc,
            lists: Vec::new(alloc),
            count: 0,
            most,
        }
    }

    /// Adds an empty list. The error is a lack of memory.
    pub fn push(&mut self) -> Result<(), AllocError>
        ensures told { (told : List (List Told)) → PoolTells self.old told →
            OnOk result (PoolTells self.new (told ++ [] ∷ [])) }
        ensures same { OnOk result (HaveWidthsOf (lists_of self.old) (lists_of self.new)) }
        ensures most { most_of self.new ≡ most_of self.old }
    {
        self.lists.push(Changes::new(self.alloc))?;
        Ok(())
    }

    /// Returns the lists in the order of their addition.
    pub fn lists(&self) -> &[Changes]
        ensures { result.now ≡ lists_of self.now }
    {
        self.lists.as_slice()
    }

    /// The number of the longest list, the first of equal ones, and the number of its entries.
    fn longest(&self) -> (usize, usize)
        ensures longest { IsLongest result.0 (lists_of self.now) }
        ensures count { result.1 ≡ count_at result.0 (lists_of self.now) }
    {
        let mut longest = 0;
        let mut most = 0;
        for number in 0..self.lists.len() {
            let count = self.lists[number].count();
            if count > most {
                longest = number;
                most = count;
            }
        }
        (longest, most)
    }

    /// Reduces the longest list if there are too many entries.
    fn reduce(&mut self) -> Result<(), AllocError>
        ensures reduced { (told : List (List Told)) → NearlyTells self.old told →
            OnOk result (PoolTells self.new told ×
            IsReduced (most_of self.old) told (lists_of self.old) (lists_of self.new)) }
        ensures most { most_of self.new ≡ most_of self.old }
    {
        if self.count <= self.most {
            return Ok(());
        }
        let (number, before) = self.longest();
        if before <= 2 || number >= self.lists.len() {
            return Ok(());
        }
        self.lists[number].halve(self.alloc)?;
        let after = self.lists[number].count();
        self.count = self.count.saturating_sub(before).saturating_add(after);
        Ok(())
    }

    /// Adds an entry to a list, whatever the number of entries.
    fn add_to_list(&mut self, number: usize, entry: Entry) -> Result<(), AllocError>
        ensures told { (told : List (List Told)) → PoolTells self.old told →
            OnOk result (NearlyTells self.new (told_to number entry told)) }
        ensures same { OnOk result (HaveWidthsOf (lists_of self.old) (lists_of self.new)) }
        ensures most { most_of self.new ≡ most_of self.old }
    {
        if number >= self.lists.len() {
            return Ok(());
        }
        let before = self.lists[number].count();
        self.lists[number].add(entry)?;
        let after = self.lists[number].count();
        self.count = self.count.saturating_sub(before).saturating_add(after);
        Ok(())
    }

    /// Adds an entry to the list `number`, counted from 0, unless it repeats the last one; without such a list does
    /// nothing. Then reduces the longest list if there are too many entries. The error is a lack of memory.
    pub fn add(&mut self, number: usize, entry: Entry) -> Result<(), AllocError>
        ensures told { (told : List (List Told)) → PoolTells self.old told →
            OnOk result (PoolTells self.new (told_to number entry told)) }
        ensures room { (told : List (List Told)) → PoolTells self.old told →
            OnOk result (MakesRoom (most_of self.old) (told_to number entry told)
            (lists_of self.old) (lists_of self.new)) }
        ensures most { most_of self.new ≡ most_of self.old }
    {
        self.add_to_list(number, entry)?;
        self.reduce()
    }
}
