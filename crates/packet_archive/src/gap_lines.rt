//! The lines of a report about gaps in sequence counts.

ghost use Rattle.std.specs.Prelude.{Some, flat_map};
ghost use Rattle.packet_archive.specs.Said.{gap_line, gap_lines, more_gaps_line};

use crate::tally::{NAMED, SequenceGap, Tally};
use crate::texts::IdText;
use std::fmt::{self, Display, Formatter, Write};

/// The line of a gap; empty for `None`.
#[derive(Clone, Copy)]
struct GapLine<'a> {
    name: &'a str,
    gap: Option<SequenceGap>,
}

impl Display for GapLine<'_> {
    ghost output = { λ l. Some (gap_line l.name.now l.gap) };

    fn fmt<W: Write>(&self, f: &mut Formatter<W>) -> fmt::Result {
        let name = self.name;
        match self.gap {
            Some(gap) => {
                let at = gap.at;
                let id = IdText(gap.mid);
                let count = gap.count;
                let last = gap.last;
                write!(
                    f,
                    "{name}: byte {at}: a gap in the sequence counts of {id}: {count} comes after {last}\n"
                )
            }
            None => Ok(()),
        }
    }
}

/// The lines of the first gaps.
#[derive(Clone, Copy)]
struct FirstGaps<'a> {
    name: &'a str,
    first: &'a [Option<SequenceGap>],
}

impl Display for FirstGaps<'_> {
    ghost output = { λ l. Some (flat_map (gap_line l.name.now) l.first.now) };

    fn fmt<W: Write>(&self, f: &mut Formatter<W>) -> fmt::Result {
        for gap in self.first {
            let line = GapLine {
                name: self.name,
                gap: *gap,
            };
            write!(f, "{line}")?;
        }
        Ok(())
    }
}

/// The line with the number of gaps that aren't named.
#[derive(Clone, Copy)]
struct MoreGapsLine<'a> {
    name: &'a str,
    gaps: u64,
}

impl Display for MoreGapsLine<'_> {
    ghost output = { λ l. Some (more_gaps_line l.name.now l.gaps) };

    fn fmt<W: Write>(&self, f: &mut Formatter<W>) -> fmt::Result {
        let name = self.name;
        if self.gaps > NAMED as u64 {
            let more = self.gaps - NAMED as u64;
            write!(f, "{name}: and {more} more gaps in sequence counts\n")
        } else {
            Ok(())
        }
    }
}

/// The lines about gaps in sequence counts.
#[derive(Clone, Copy)]
pub(crate) struct GapLines<'a> {
    pub(crate) name: &'a str,
    pub(crate) tally: &'a Tally,
}

impl Display for GapLines<'_> {
    ghost output = { λ l. Some (gap_lines l.name.now l.tally.now) };

    fn fmt<W: Write>(&self, f: &mut Formatter<W>) -> fmt::Result {
        let name = self.name;
        let tally = self.tally;
        let first = FirstGaps {
            name,
            first: &tally.first_gaps,
        };
        let more = MoreGapsLine {
            name,
            gaps: tally.gaps,
        };
        write!(f, "{first}{more}")
    }
}
