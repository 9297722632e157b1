//! A comparison as one JSON object for a program.

use crate::comparison::Comparison;
use crate::difference::difference_in;
use crate::error::ComparisonError;
use crate::json::{JsonText, JsonTextOrNull};
use crate::meaning::{Meaning, Sort, meanings_of};
use crate::members::{EventMembers, PlaceMembers, RequestMembers};
use crate::met::MetRecord;
use crate::notes::RenamedRules;
use crate::pairs::{Lone, LoneRequests, lone_requests, moved_to};
use crate::requesters::RequestWords;
use crate::stop::Stop;
use crate::tally::{SortCounts, event_tally, request_tally};
use crate::texts::{BothWords, Sides};
use packet_listing::TextRules;
use run_account::AccountJson;
use std::alloc::Global;
use std::fmt::{self, Display, Formatter, Write as FmtWrite};
use std::io::{self, Write};

/// One of the two runs at a record.
#[derive(Clone, Copy)]
struct RunAt<'r> {
    run: &'static str,
    met: &'r MetRecord,
    packets: &'r [u8],
    rules: &'r [TextRules<'r>],
}

/// Writes the members of a request or an event of a record with these packets, by the names of these rules.
fn write_members<'x, W: Write>(
    meaning: Meaning<'x>,
    packets: &'x [u8],
    rules: &'x [TextRules<'x>],
    out: &mut W,
) -> io::Result<()> {
    match meaning {
        Meaning::Request(sequence) => {
            let request = RequestWords {
                sequence,
                packets,
                rules,
            };
            write!(out, "{}", RequestMembers(request))
        }
        Meaning::Event(event) => write!(out, "{}", EventMembers { event, rules }),
    }
}

/// Writes an object for each of these requests or events of one run, with `front` before its members and `sign` before the first object.
fn write_packets<'x, W: Write>(
    at: RunAt<'x>,
    front: &str,
    all: &[Meaning<'x>],
    sign: &'static str,
    out: &mut W,
) -> io::Result<&'static str> {
    let mut sign = sign;
    for meaning in all {
        write!(
            out,
            "{sign}\n{{{front}\"run\":\"{}\",{},",
            at.run,
            PlaceMembers(at.met)
        )?;
        write_members(*meaning, at.packets, at.rules, out)?;
        out.write_all(b"}")?;
        sign = ",";
    }
    Ok(sign)
}

/// The output, with its state.
#[derive(Clone, Copy)]
struct Listing<'l, 's, 't> {
    alloc: Global,
    sides: Sides<'l, 't>,
    found: &'l Comparison<'s>,
    words: &'l BothWords<'t>,
    lone: &'l LoneRequests,
}

impl Listing<'_, '_, '_> {
    /// The old run at a record.
    fn old<'r>(&'r self, met: &'r MetRecord) -> RunAt<'r> {
        RunAt {
            run: "old",
            met,
            packets: met.old.as_slice(),
            rules: self.words.old.rules(met.forces.old),
        }
    }

    /// The new run at a record.
    fn new<'r>(&'r self, met: &'r MetRecord) -> RunAt<'r> {
        RunAt {
            run: "new",
            met,
            packets: met.new.as_slice(),
            rules: self.words.new.rules(met.forces.new),
        }
    }

    /// Writes all requests, or all events, of both runs, as objects of a list.
    fn write_all<W: Write>(&self, sort: Sort, out: &mut W) -> Result<(), ComparisonError> {
        let mut sign = "";
        for met in &self.found.records {
            let old = meanings_of(self.alloc, met.old.as_slice(), sort)?;
            sign = write_packets(self.old(met), "", old.as_slice(), sign, out)?;
            let new = meanings_of(self.alloc, met.new.as_slice(), sort)?;
            sign = write_packets(self.new(met), "", new.as_slice(), sign, out)?;
        }
        Ok(())
    }

    /// The members before those of a difference: its kind, and the command that its record brings.
    fn write_front(&self, kind: &str, met: &MetRecord) -> Result<String, ComparisonError> {
        let words = self
            .words
            .command_words(self.alloc, met.record.as_slice(), met.forces)?;
        let command = match &words {
            Some(words) => Some(words.as_slice()),
            None => None,
        };
        let command = JsonTextOrNull(command);
        Ok(format!(in self.alloc; "\"kind\":\"{kind}\",\"command\":{command},")?)
    }

    /// Writes the requests or events that one run has alone at a record, and whether the order differs.
    fn write_alone<'r, W: Write>(
        &'r self,
        met: &'r MetRecord,
        sort: Sort,
        sign: &'static str,
        out: &mut W,
    ) -> Result<&'static str, ComparisonError> {
        let differ = difference_in(self.alloc, met, sort)?;
        let (kind, of) = match sort {
            Sort::Requests => ("request", "requests"),
            Sort::Events => ("event", "events"),
        };
        let front = self.write_front(kind, met)?;
        let front = front.as_str();
        let mut sign = sign;
        if sort == Sort::Events {
            sign = write_packets(self.old(met), front, differ.only_old.as_slice(), sign, out)?;
            sign = write_packets(self.new(met), front, differ.only_new.as_slice(), sign, out)?;
        }
        if differ.is_reordered {
            let order = self.write_front("order", met)?;
            write!(
                out,
                "{sign}\n{{{order}\"of\":\"{of}\",{}}}",
                PlaceMembers(met)
            )?;
            sign = ",";
        }
        Ok(sign)
    }

    /// Writes a request that one run has alone, or that moved; nothing for the new run's part of one that moved.
    fn write_lone<W: Write>(
        &self,
        at: RunAt<'_>,
        lone: Lone,
        other: Option<Lone>,
        sign: &'static str,
        out: &mut W,
    ) -> Result<&'static str, ComparisonError> {
        let Some(other) = other else {
            let front = self.write_front("request", at.met)?;
            let only = [Meaning::Request(lone.sequence)];
            return Ok(write_packets(at, front.as_str(), &only, sign, out)?);
        };
        let Some(there) = self.found.records.as_slice().get(other.place) else {
            return Ok(sign);
        };
        if at.run == "new" {
            return Ok(sign);
        }
        let request = RequestWords {
            sequence: lone.sequence,
            packets: at.packets,
            rules: at.rules,
        };
        write!(
            out,
            "{sign}\n{{\"kind\":\"moved\",{},\"old\":{{{}}},\"new\":{{{}}}}}",
            RequestMembers(request),
            PlaceMembers(at.met),
            PlaceMembers(there)
        )?;
        Ok(",")
    }

    /// Writes the requests that one run has alone, and those that moved.
    fn write_requests<W: Write>(
        &self,
        is_old: bool,
        sign: &'static str,
        out: &mut W,
    ) -> Result<&'static str, ComparisonError> {
        let (these, those) = if is_old {
            (self.lone.old.as_slice(), self.lone.new.as_slice())
        } else {
            (self.lone.new.as_slice(), self.lone.old.as_slice())
        };
        let mut sign = sign;
        for (place, lone) in these.iter().enumerate() {
            if let Some(met) = self.found.records.as_slice().get(lone.place) {
                let at = if is_old { self.old(met) } else { self.new(met) };
                let other = moved_to(these, those, place);
                sign = self.write_lone(at, *lone, other, sign, out)?;
            }
        }
        Ok(sign)
    }

    /// Writes what one run has alone of a record, and what came in another order, of its requests or of its events, if they differ.
    fn write_if<W: Write>(
        &self,
        differs: bool,
        met: &MetRecord,
        which: Sort,
        sign: &'static str,
        out: &mut W,
    ) -> Result<&'static str, ComparisonError> {
        if !differs {
            return Ok(sign);
        }
        self.write_alone(met, which, sign, out)
    }

    /// Writes the differences of a record.
    fn write_met<W: Write>(
        &self,
        met: &MetRecord,
        sign: &'static str,
        out: &mut W,
    ) -> Result<&'static str, ComparisonError> {
        let requests = met.do_requests_differ;
        let sign = self.write_if(requests, met, Sort::Requests, sign, out)?;
        self.write_if(met.do_events_differ, met, Sort::Events, sign, out)
    }

    /// Writes all differences, as objects of a list.
    fn write_differences<W: Write>(&self, out: &mut W) -> Result<(), ComparisonError> {
        let mut sign = self.write_requests(true, "", out)?;
        sign = self.write_requests(false, sign, out)?;
        for met in &self.found.records {
            sign = self.write_met(met, sign, out)?;
        }
        Ok(())
    }

    /// Writes the notes on rules with other names, as strings of a list.
    fn write_notes<W: Write>(&self, out: &mut W) -> Result<(), ComparisonError> {
        let Some(old) = self.words.old.rules(Some(0)).first() else {
            return Ok(());
        };
        let Some(new) = self.words.new.rules(Some(0)).first() else {
            return Ok(());
        };
        let mut sign = "";
        for (number, rule) in old.rules.iter().enumerate() {
            let note = RenamedRules {
                sequence: rule.sequence,
                old,
                new,
                old_name: self.sides.old.name,
                new_name: self.sides.new.name,
            };
            if note.is_first(number) && note.are_renamed() {
                let text = format!(in self.alloc; "{note}")?;
                write!(out, "{sign}{}", JsonText(text.as_bytes()))?;
                sign = ",";
            }
        }
        Ok(())
    }
}

/// The counts of requests or events as an object.
#[derive(Clone, Copy)]
struct TallyObject(SortCounts);

impl Display for TallyObject {
    fn fmt<W: FmtWrite>(&self, f: &mut Formatter<W>) -> fmt::Result {
        let SortCounts {
            old,
            new,
            moved,
            both,
            reordered,
        } = self.0;
        write!(
            f,
            "{{\"old\":{old},\"new\":{new},\"moved\":{moved},\"both\":{both},\"reordered\":{reordered}}}"
        )
    }
}

impl Listing<'_, '_, '_> {
    /// Writes the first members: the names of both texts, and all requests and events that were kept.
    fn write_runs<W: Write>(&self, out: &mut W) -> Result<(), ComparisonError> {
        let (old, new) = (
            JsonText(self.sides.old.name.as_bytes()),
            JsonText(self.sides.new.name.as_bytes()),
        );
        write!(out, "{{\"old\":{old},\"new\":{new},\"requests\":[")?;
        self.write_all(Sort::Requests, out)?;
        out.write_all(b"],\n\"events\":[")?;
        self.write_all(Sort::Events, out)
    }

    /// Writes the differences and the notes.
    fn write_findings<W: Write>(&self, out: &mut W) -> Result<(), ComparisonError> {
        out.write_all(b"],\n\"differences\":[")?;
        self.write_differences(out)?;
        out.write_all(b"],\n\"notes\":[")?;
        self.write_notes(out)
    }

    /// Writes the counts of requests and of events.
    fn write_counts<W: Write>(&self, out: &mut W) -> Result<(), ComparisonError> {
        let requests = TallyObject(request_tally(self.alloc, self.found, self.lone)?);
        let events = TallyObject(event_tally(self.alloc, self.found)?);
        write!(
            out,
            "],\n\"counts\":{{\"requests\":{requests},\"events\":{events}}},\n"
        )?;
        Ok(())
    }

    /// Writes the whole object. `stop` is why both runs ended before the stream did.
    fn write_whole<W: Write>(
        &self,
        stop: Option<Stop>,
        out: &mut W,
    ) -> Result<(), ComparisonError> {
        self.write_runs(out)?;
        self.write_findings(out)?;
        self.write_counts(out)?;
        write_end(self.alloc, self.sides, self.found, stop, out)
    }
}

/// Writes two runs of these texts as one JSON object: all requests and events of both runs, if all records were kept; the differences; the
/// counts; why both runs ended before the stream did; and what both looked at.
///
/// Errors: `Memory`; `Write` if the writer fails.
pub fn write_object<W: Write>(
    alloc: Global,
    sides: Sides<'_, '_>,
    found: &Comparison<'_>,
    stop: Option<Stop>,
    out: &mut W,
) -> Result<(), ComparisonError> {
    let words = BothWords::new(alloc, sides)?;
    let lone = lone_requests(alloc, found.records.as_slice())?;
    let listing = Listing {
        alloc,
        sides,
        found,
        words: &words,
        lone: &lone,
    };
    listing.write_whole(stop, out)
}

/// Writes the last members: whether there are new requests, why both runs ended early, and what both looked at.
fn write_end<W: Write>(
    alloc: Global,
    sides: Sides<'_, '_>,
    found: &Comparison<'_>,
    stop: Option<Stop>,
    out: &mut W,
) -> Result<(), ComparisonError> {
    let why = match stop {
        Some(stop) => Some(format!(in alloc; "{stop}")?),
        None => None,
    };
    let why = JsonTextOrNull(why.as_ref().map(|text| text.as_str().as_bytes()));
    let old = AccountJson {
        account: &found.old.account,
        texts: sides.old.texts,
    };
    let new = AccountJson {
        account: &found.new.account,
        texts: sides.new.texts,
    };
    let is_new = found.has_new_requests();
    write!(
        out,
        "\"new_requests\":{is_new},\"stop\":{why},\n\"account\":{{\"old\":{old},\n\"new\":{new}}}}}\n"
    )?;
    Ok(())
}
