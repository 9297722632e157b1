//! Columns of records, and how entries are placed in them.

ghost use Rattle.std.specs.Prelude.{◌≡◌, ◌≤◌, ◌+◌, ◌-◌, ◌/◌, ◌^◌, ◌++◌, ◌∷◌, [], List, OnOk, IsTrue, length};
ghost use Rattle.bounded_history.specs.Changes.{is_one_column as in_one_column, is_third as third_of, reduced};
ghost use Rattle.bounded_history.specs.declared.entry.Entry.{Entry as Told};

use crate::entry::Entry;
use std::alloc::AllocError;

/// The column of a record, counted from 0, for columns of `2 ^ doublings` records; records count from 1.
fn column(doublings: u32, number: u64) -> u64
    ensures column { result ≡ (number - 1) / 2 ^ doublings }
    ensures one { 64 ≤ doublings → result ≡ 0 }
{
    if doublings >= 64 {
        return 0;
    }
    number.saturating_sub(1) >> doublings
}

/// Whether two records lie in one column.
fn is_one_column(doublings: u32, one: u64, other: u64) -> bool
    ensures column { result ≡ in_one_column (2 ^ doublings) one other }
    ensures all { 64 ≤ doublings → IsTrue result }
{
    column(doublings, one) == column(doublings, other)
}

/// Whether an entry begins in the same column as the two before it.
fn is_third(doublings: u32, one: Entry, other: Entry, entry: Entry) -> bool
    ensures third { result ≡ third_of (2 ^ doublings) one other entry }
    ensures all { 64 ≤ doublings → IsTrue result }
{
    is_one_column(doublings, one.from, entry.from)
        && is_one_column(doublings, other.from, entry.from)
}

/// Adds two entries at the end.
fn push_both(entries: &mut Vec<Entry>, one: Entry, other: Entry) -> Result<(), AllocError>
    ensures { OnOk result (entries.new.items ≡ (entries.old.items ++ one ∷ []) ++ other ∷ []) }
{
    entries.push(one)?;
    entries.push(other)?;
    Ok(())
}

/// Adds an entry at the end. If it is the third of its column, the first two become one. The error is a lack of memory.
pub fn place(doublings: u32, entries: &mut Vec<Entry>, entry: Entry) -> Result<(), AllocError>
    ensures reduced { (told : List Told) → entries.old.items ≡ reduced (2 ^ doublings) told →
        OnOk result (entries.new.items ≡ reduced (2 ^ doublings) (told ++ entry ∷ [])) }
    ensures count { OnOk result (length entries.new.items ≤ length entries.old.items + 1) }
    ensures few { 64 ≤ doublings → length entries.old.items ≤ 2 →
        OnOk result (length entries.new.items ≤ 2) }
{
    let Some(other) = entries.pop() else {
        entries.push(entry)?;
        return Ok(());
    };
    let Some(one) = entries.pop() else {
        return push_both(entries, other, entry);
    };
    if is_third(doublings, one, other, entry) {
        return push_both(entries, one.join(other), entry);
    }
    entries.push(one)?;
    push_both(entries, other, entry)
}
