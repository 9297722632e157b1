//! A comparison as lines for a person.

use crate::comparison::Comparison;
use crate::difference::{Difference, difference_in};
use crate::error::ComparisonError;
use crate::meaning::{Meaning, Sort};
use crate::met::MetRecord;
use crate::notes::RenamedRules;
use crate::packet_words::{OrderWords, PacketWords};
use crate::pairs::{Lone, LoneRequests, lone_requests, moved_to};
use crate::places::{RecordPlace, Seconds, time_of};
use crate::stop::Stop;
use crate::tally::{SortCounts, event_tally, request_tally};
use crate::texts::{BothWords, Sides};
use packet_listing::TextRules;
use std::alloc::Global;
use std::io::{self, Write};

/// What is written: two runs, the texts' names and words, and the requests that one run has alone.
#[derive(Clone, Copy)]
struct Listing<'l, 's, 't> {
    alloc: Global,
    sides: Sides<'l, 't>,
    found: &'l Comparison<'s>,
    words: &'l BothWords<'t>,
    lone: &'l LoneRequests,
}

/// A record in which the runs differ, with the command that it brings.
#[derive(Clone, Copy)]
struct MetPlace<'r, 'c> {
    met: &'r MetRecord,
    command: Option<&'c [u8]>,
}

/// Writes where a record stands, and the command that it brings in parentheses.
fn write_place<W: Write>(at: MetPlace<'_, '_>, out: &mut W) -> io::Result<()> {
    write!(out, "{}", RecordPlace { met: at.met })?;
    if let Some(words) = at.command {
        out.write_all(b" (")?;
        out.write_all(words)?;
        out.write_all(b")")?;
    }
    Ok(())
}

/// Writes a request or an event of a record with these packets, by the names of these rules.
fn write_words<'x, W: Write>(
    meaning: Meaning<'x>,
    packets: &'x [u8],
    rules: &'x [TextRules<'x>],
    out: &mut W,
) -> io::Result<()> {
    let words = PacketWords {
        meaning,
        packets,
        rules,
    };
    write!(out, "{words}")
}

/// Writes a line for each of these requests or events of one run alone.
fn write_alone<'x, W: Write>(
    at: MetPlace<'_, '_>,
    name: &str,
    only: &[Meaning<'x>],
    packets: &'x [u8],
    rules: &'x [TextRules<'x>],
    out: &mut W,
) -> io::Result<()> {
    for meaning in only {
        write_place(at, out)?;
        write!(out, ": only {name}: ")?;
        write_words(*meaning, packets, rules, out)?;
        out.write_all(b"\n")?;
    }
    Ok(())
}

/// Writes that requests, or events, came in another order.
fn write_order<W: Write>(
    at: MetPlace<'_, '_>,
    sides: Sides<'_, '_>,
    differ: &Difference<'_>,
    out: &mut W,
) -> io::Result<()> {
    if !differ.is_reordered {
        return Ok(());
    }
    write_place(at, out)?;
    let old = OrderWords {
        all: differ.old.as_slice(),
    };
    let new = OrderWords {
        all: differ.new.as_slice(),
    };
    let (old_name, new_name) = (sides.old.name, sides.new.name);
    writeln!(out, ": order differs: {old_name} {old}; {new_name} {new}")
}

/// One of the two runs in a listing: its text's name, its lone requests and those of the other run.
#[derive(Clone, Copy)]
struct RunListing<'l> {
    is_old: bool,
    name: &'l str,
    lone: &'l [Lone],
    others: &'l [Lone],
}

/// What one run led to at a record: its packets, and the rules of the text in force.
#[derive(Clone, Copy)]
struct OneRun<'r> {
    packets: &'r [u8],
    rules: &'r [TextRules<'r>],
}

impl<'l, 's, 't> Listing<'l, 's, 't> {
    /// The old run.
    fn old(&self) -> RunListing<'l> {
        RunListing {
            is_old: true,
            name: self.sides.old.name,
            lone: self.lone.old.as_slice(),
            others: self.lone.new.as_slice(),
        }
    }

    /// The new run.
    fn new(&self) -> RunListing<'l> {
        RunListing {
            is_old: false,
            name: self.sides.new.name,
            lone: self.lone.new.as_slice(),
            others: self.lone.old.as_slice(),
        }
    }

    /// Writes where a request that moved came in both runs. `is_old` says whether it is of the old run at this record.
    fn write_moved<W: Write>(
        &self,
        at: MetPlace<'_, '_>,
        is_old: bool,
        other: &MetRecord,
        out: &mut W,
    ) -> io::Result<()> {
        let here = RecordPlace { met: at.met };
        let there = RecordPlace { met: other };
        let apart = Seconds(time_of(at.met).abs_diff(time_of(other)));
        let name = self.sides.new.name;
        if is_old {
            writeln!(
                out,
                ": {apart} s later with {name} (at {there} instead of {here})"
            )
        } else {
            writeln!(
                out,
                ": {apart} s earlier with {name} (at {here} instead of {there})"
            )
        }
    }

    /// Writes a line for the request at this place of those that a run has alone, which is of this record. One that moved has its line
    /// at the earlier record.
    fn write_lone<W: Write>(
        &self,
        at: MetPlace<'_, '_>,
        run: RunListing<'_>,
        one: OneRun<'_>,
        place: usize,
        out: &mut W,
    ) -> io::Result<()> {
        let Some(lone) = run.lone.get(place) else {
            return Ok(());
        };
        let moved = moved_to(run.lone, run.others, place);
        if let Some(other) = moved {
            if other.place < lone.place {
                return Ok(());
            }
        }
        write_place(at, out)?;
        if moved.is_none() {
            write!(out, ": only {}", run.name)?;
        }
        out.write_all(b": ")?;
        write_words(Meaning::Request(lone.sequence), one.packets, one.rules, out)?;
        let Some(other) = moved else {
            return out.write_all(b"\n");
        };
        match self.found.records.as_slice().get(other.place) {
            Some(met) => self.write_moved(at, run.is_old, met, out),
            None => Ok(()),
        }
    }

    /// Writes the lines of the requests that a run has alone at the record at this place, from the one at `next`. Returns the place after
    /// them.
    fn write_requests<W: Write>(
        &self,
        at: MetPlace<'_, '_>,
        run: RunListing<'_>,
        one: OneRun<'_>,
        place: usize,
        next: usize,
        out: &mut W,
    ) -> io::Result<usize> {
        let mut next = next;
        for _ in 0..run.lone.len() {
            match run.lone.get(next) {
                Some(lone) if lone.place == place => {
                    self.write_lone(at, run, one, next, out)?;
                    next = next.saturating_add(1);
                }
                _ => return Ok(next),
            }
        }
        Ok(next)
    }

    /// Writes the lines of the events of a record that differ.
    fn write_events<W: Write>(
        &self,
        at: MetPlace<'_, '_>,
        out: &mut W,
    ) -> Result<(), ComparisonError> {
        if !at.met.do_events_differ {
            return Ok(());
        }
        let differ = difference_in(self.alloc, at.met, Sort::Events)?;
        let (old, new) = (self.sides.old.name, self.sides.new.name);
        let rules = self.words.old.rules(at.met.forces.old);
        write_alone(
            at,
            old,
            differ.only_old.as_slice(),
            at.met.old.as_slice(),
            rules,
            out,
        )?;
        let rules = self.words.new.rules(at.met.forces.new);
        write_alone(
            at,
            new,
            differ.only_new.as_slice(),
            at.met.new.as_slice(),
            rules,
            out,
        )?;
        write_order(at, self.sides, &differ, out)?;
        Ok(())
    }

    /// Writes the lines of the requests of the record at this place that differ. `next` has the places of the next lone requests.
    fn write_request_lines<W: Write>(
        &self,
        at: MetPlace<'_, '_>,
        place: usize,
        next: (usize, usize),
        out: &mut W,
    ) -> Result<(usize, usize), ComparisonError> {
        if !at.met.do_requests_differ {
            return Ok(next);
        }
        let old = OneRun {
            packets: at.met.old.as_slice(),
            rules: self.words.old.rules(at.met.forces.old),
        };
        let new = OneRun {
            packets: at.met.new.as_slice(),
            rules: self.words.new.rules(at.met.forces.new),
        };
        let next_old = self.write_requests(at, self.old(), old, place, next.0, out)?;
        let next_new = self.write_requests(at, self.new(), new, place, next.1, out)?;
        let differ = difference_in(self.alloc, at.met, Sort::Requests)?;
        write_order(at, self.sides, &differ, out)?;
        Ok((next_old, next_new))
    }

    /// Writes the lines of the record at this place, if the runs differ in it.
    fn write_record<W: Write>(
        &self,
        met: &MetRecord,
        place: usize,
        next: (usize, usize),
        out: &mut W,
    ) -> Result<(usize, usize), ComparisonError> {
        if !met.do_requests_differ && !met.do_events_differ {
            return Ok(next);
        }
        let words = self
            .words
            .command_words(self.alloc, met.record.as_slice(), met.forces)?;
        let command = match &words {
            Some(words) => Some(words.as_slice()),
            None => None,
        };
        let at = MetPlace { met, command };
        let after = self.write_request_lines(at, place, next, out)?;
        self.write_events(at, out)?;
        Ok(after)
    }

    /// Writes the lines of all records in which the runs differ.
    fn write_records<W: Write>(&self, out: &mut W) -> Result<(), ComparisonError> {
        let mut next = (0usize, 0usize);
        for (place, met) in self.found.records.iter().enumerate() {
            next = self.write_record(met, place, next, out)?;
        }
        Ok(())
    }

    /// Writes a note for each sequence that rules of both texts request under other names.
    fn write_notes<W: Write>(&self, out: &mut W) -> io::Result<()> {
        let Some(old) = self.words.old.rules(Some(0)).first() else {
            return Ok(());
        };
        let Some(new) = self.words.new.rules(Some(0)).first() else {
            return Ok(());
        };
        for (number, rule) in old.rules.iter().enumerate() {
            let note = RenamedRules {
                sequence: rule.sequence,
                old,
                new,
                old_name: self.sides.old.name,
                new_name: self.sides.new.name,
            };
            if note.is_first(number) && note.are_renamed() {
                writeln!(out, "note: {note}")?;
            }
        }
        Ok(())
    }
}

/// Writes how many requests, or events, came of each text alone, and of both.
fn write_tally<W: Write>(
    of: &'static str,
    sides: Sides<'_, '_>,
    tally: SortCounts,
    out: &mut W,
) -> io::Result<()> {
    let (old, new) = (sides.old.name, sides.new.name);
    write!(
        out,
        "{of}: {old} alone: {}; {new} alone: {}",
        tally.old, tally.new
    )?;
    if tally.moved > 0 {
        write!(out, "; moved: {}", tally.moved)?;
    }
    write!(out, "; both: {}", tally.both)?;
    if tally.reordered > 0 {
        write!(out, "; records with another order: {}", tally.reordered)?;
    }
    out.write_all(b"\n")
}

/// Writes a line for each request and each event in which two runs of these texts differ: its record's time and number, the command that
/// it brings, which text it is, and what came. A request that moved is one line, at the earlier of its records. Rules have the names that
/// the text in force before the record, in each run, gives them. After these lines come notes on rules with other names, why both runs
/// ended before the stream did, how many requests and events came of each text alone and of both, and what was looked at.
///
/// Errors: `Memory`; `Write` if the writer fails.
pub fn write_lines<W: Write>(
    alloc: Global,
    sides: Sides<'_, '_>,
    found: &Comparison<'_>,
    stop: Option<Stop>,
    out: &mut W,
) -> Result<(), ComparisonError> {
    let words = BothWords::new(alloc, sides)?;
    let lone = lone_requests(alloc, found.records.as_slice())?;
    let listing = Listing {
        alloc,
        sides,
        found,
        words: &words,
        lone: &lone,
    };
    listing.write_records(out)?;
    listing.write_notes(out)?;
    if let Some(stop) = stop {
        writeln!(out, "both runs end here: {stop}")?;
    }
    write_tally("requests", sides, request_tally(alloc, found, &lone)?, out)?;
    write_tally("events", sides, event_tally(alloc, found)?, out)?;
    let (old, new) = (&found.old.account, &found.new.account);
    writeln!(
        out,
        "records: {}; samples with {}: {}, with {}: {}; housekeeping is not compared",
        old.records(),
        sides.old.name,
        old.samples(),
        sides.new.name,
        new.samples()
    )?;
    Ok(())
}
