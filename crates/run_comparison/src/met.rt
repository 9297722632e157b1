//! The records in which two runs differ.

ghost use Rattle.std.specs.Prelude.{◌≡◌, ◌&&◌, ◌||◌, not, length, nat_lt, option_map, IfOk};
ghost use Rattle.run_stepper.specs.Stepping.{written_by};
ghost use Rattle.run_comparison.specs.Meaning.{meanings_in};
ghost use Rattle.run_comparison.specs.Met.{kept, shown_by, shown_of};
ghost use Rattle.run_comparison.specs.Order.{are_same};

use crate::forces::Forces;
use crate::meaning::{Sort, meanings_of};
use crate::order::are_same;
use run_stepper::Stepping;
use std::alloc::{AllocError, Global};

/// A record, and the packets that it led to in each run.
#[derive(Drop)]
pub struct MetRecord {
    /// The number of the record, from 1.
    pub number: u64,
    /// The bytes of the record, header and body.
    pub record: Vec<u8>,
    /// The packets that it led to in the run of the old text, one after the other.
    pub old: Vec<u8>,
    /// The packets that it led to in the run of the new text.
    pub new: Vec<u8>,
    /// Whether the requests among them differ, in order.
    pub do_requests_differ: bool,
    /// Whether the events among them differ, in order.
    pub do_events_differ: bool,
    /// The texts in force before the record.
    pub forces: Forces,
}

/// Whether the requests, or the events, among these packets differ from those among the others, in order.
fn do_differ(alloc: Global, old: &[u8], new: &[u8], sort: Sort) -> Result<bool, AllocError>
    ensures { IfOk result (λ is. is ≡ not (are_same (meanings_in sort old.now)
        (meanings_in sort new.now))) }
{
    // Most records lead to the same packets in both runs.
    if old == new {
        return Ok(false);
    }
    let olds = meanings_of(alloc, old, sort)?;
    let news = meanings_of(alloc, new, sort)?;
    Ok(!are_same(olds.as_slice(), news.as_slice()))
}

/// Whether a record is kept: if the runs differ in it; or if all records are kept and it led to packets.
fn is_kept(differs: bool, keeps_all: bool, old: &[u8], new: &[u8]) -> bool
    ensures { result ≡ (differs || (keeps_all && (nat_lt 0 (length old.now) || nat_lt 0 (length new.now)))) }
{
    differs || keeps_all && (0 < old.len() || 0 < new.len())
}

/// The record of this number that both runs handled last, if it is kept. `forces` has the texts in force before it.
pub fn met_record(
    alloc: Global,
    number: u64,
    old: &Stepping,
    new: &Stepping,
    keeps_all: bool,
    forces: Forces,
) -> Result<Option<MetRecord>, AllocError>
    ensures { IfOk result (λ met. option_map shown_of met ≡ kept keeps_all (shown_by (record {
      number = number;
      old = written_by old.now;
      new = written_by new.now;
    }))) }
{
    // Most records lead to no packets.
    if old.packets().is_empty() && new.packets().is_empty() {
        return Ok(None);
    }
    let do_requests_differ = do_differ(alloc, old.packets(), new.packets(), Sort::Requests)?;
    let do_events_differ = do_differ(alloc, old.packets(), new.packets(), Sort::Events)?;
    let differs = do_requests_differ || do_events_differ;
    if !is_kept(differs, keeps_all, old.packets(), new.packets()) {
        return Ok(None);
    }
    Ok(Some(MetRecord {
        number,
        record: Vec::from_slice(alloc, old.last_record())?,
        old: Vec::from_slice(alloc, old.packets())?,
        new: Vec::from_slice(alloc, new.packets())?,
        do_requests_differ,
        do_events_differ,
        forces,
    }))
}
