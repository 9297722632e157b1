//! The changes of one rule or one field.

ghost use Rattle.std.specs.Prelude.{◌≡◌, ◌<◌, ◌≤◌, ◌+◌, ◌/◌, ◌^◌, ◌++◌, ◌∷◌, [], List, OnOk, IfOk, length, max};
ghost use Rattle.bounded_history.specs.declared.entry.Entry.{Entry as Told};
ghost use Rattle.bounded_history.specs.Changes.{changes, is_said_last, reduced};
ghost use Rattle.bounded_history.specs.Telling.{IsLeast, Tells, doublings_of, entry_count, width_of};

use crate::columns::place;
use crate::entry::Entry;
use std::alloc::{AllocError, Global};

/// One list of changes, reduced by columns of `2 ^ doublings` records each.
#[derive(Drop)]
pub struct Changes {
    doublings: u32,
    entries: Vec<Entry>,
}

/// Whether the last of these entries has the same content as `entry`.
fn is_said(entries: &[Entry], entry: Entry) -> bool
    ensures { result ≡ is_said_last entries.now entry }
{
    match entries.last() {
        Some(last) => last.told.is_said_by(entry.told),
        None => false,
    }
}

/// The entries, reduced by columns of `2 ^ doublings` records each.
fn wider_entries(alloc: Global, doublings: u32, entries: &[Entry]) -> Result<Vec<Entry>, AllocError>
    ensures entries { IfOk result (λ wide. wide.items ≡ reduced (2 ^ doublings) entries.now) }
    ensures few { 64 ≤ doublings → IfOk result (λ wide. length wide.items ≤ 2) }
{
    let mut wide = Vec::new(alloc);
    for entry in entries {
        place(doublings, &mut wide, *entry)?;
    }
    Ok(wide)
}

impl Changes {
    /// Creates an empty list with columns of one record.
    pub fn new(alloc: Global) -> Changes
        ensures told { Tells result [] }
        ensures doublings { doublings_of result ≡ 0 }
    {
        Changes {
            doublings: 0,
            entries: Vec::new(alloc),
        }
    }

    /// Returns the number of entries.
    pub fn count(&self) -> usize
        ensures { result ≡ entry_count self.now }
    {
        self.entries.len()
    }

    /// Returns the changes, reduced by the present columns, in the records' order.
    pub fn entries(&self) -> &[Entry]
        ensures { (told : List Told) → Tells self.now told →
            result.now ≡ reduced (width_of self.now) (changes told) }
    {
        self.entries.as_slice()
    }

    /// Adds an entry that holds from its record on, unless the last entry has the same content. The error is
    /// a lack of memory.
    pub fn add(&mut self, entry: Entry) -> Result<(), AllocError>
        ensures told { (told : List Told) → Tells self.old told →
            OnOk result (Tells self.new (told ++ entry ∷ [])) }
        ensures count { OnOk result (entry_count self.new ≤ entry_count self.old + 1) }
        ensures doublings { OnOk result (doublings_of self.new ≡ doublings_of self.old) }
    {
        if is_said(self.entries.as_slice(), entry) {
            return Ok(());
        }
        place(self.doublings, &mut self.entries, entry)
    }

    /// Doubles the width of the columns.
    fn widen(&mut self, alloc: Global) -> Result<(), AllocError>
        requires { self.old.doublings < 64 }
        ensures told { (told : List Told) → Tells self.old told →
            OnOk result (Tells self.new told) }
        ensures doublings { OnOk result (self.new.doublings ≡ self.old.doublings + 1) }
    {
        let doublings = self.doublings + 1;
        self.entries = wider_entries(alloc, doublings, self.entries.as_slice())?;
        self.doublings = doublings;
        Ok(())
    }

    /// Widens the columns until at most half of the entries are left, or two. The error is a lack of memory.
    pub fn halve(&mut self, alloc: Global) -> Result<(), AllocError>
        ensures told { (told : List Told) → Tells self.old told →
            OnOk result (Tells self.new told) }
        ensures least { (told : List Told) → Tells self.old told →
            OnOk result (IsLeast (changes told) (max (entry_count self.old / 2) 2)
            (doublings_of self.old) (doublings_of self.new)) }
    {
        let most = (self.entries.len() / 2).max(2);
        for _doublings in self.doublings..64 {
            if self.entries.len() <= most {
                return Ok(());
            }
            self.widen(alloc)?;
        }
        Ok(())
    }
}
