//! The lines of a report about breaks in time.

ghost use Rattle.std.specs.Prelude.{Some, flat_map};
ghost use Rattle.packet_archive.specs.Said.{break_line, break_lines, break_words, more_breaks_line};

use crate::tally::{Break, NAMED, Tally};
use crate::texts::MomentText;
use std::fmt::{self, Display, Formatter, Write};

/// How time goes at a break.
#[derive(Clone, Copy)]
struct BreakWords {
    is_back: bool,
    is_first: bool,
}

impl Display for BreakWords {
    ghost output = { λ words. Some (break_words words.is_back words.is_first) };

    fn fmt<W: Write>(&self, f: &mut Formatter<W>) -> fmt::Result {
        match (self.is_back, self.is_first) {
            (true, true) => write!(
                f,
                "this archive begins before the end of the one before it: time steps back"
            ),
            (true, false) => write!(f, "time steps back"),
            (false, _) => write!(
                f,
                "over 86,400 ticks would come before this packet: time leaps"
            ),
        }
    }
}

/// The line of a break in time; empty for `None`.
#[derive(Clone, Copy)]
struct BreakLine<'a> {
    name: &'a str,
    found: Option<Break>,
}

impl Display for BreakLine<'_> {
    ghost output = { λ l. Some (break_line l.name.now l.found) };

    fn fmt<W: Write>(&self, f: &mut Formatter<W>) -> fmt::Result {
        let name = self.name;
        match self.found {
            Some(found) => {
                let at = found.at;
                let words = BreakWords {
                    is_back: found.times.is_back(),
                    is_first: found.is_first,
                };
                let from = MomentText(found.times.from);
                let to = MomentText(found.times.to);
                write!(f, "{name}: byte {at}: {words} from {from} to {to}\n")
            }
            None => Ok(()),
        }
    }
}

/// The lines of the first breaks in time.
#[derive(Clone, Copy)]
struct FirstBreaks<'a> {
    name: &'a str,
    first: &'a [Option<Break>],
}

impl Display for FirstBreaks<'_> {
    ghost output = { λ l. Some (flat_map (break_line l.name.now) l.first.now) };

    fn fmt<W: Write>(&self, f: &mut Formatter<W>) -> fmt::Result {
        for found in self.first {
            let line = BreakLine {
                name: self.name,
                found: *found,
            };
            write!(f, "{line}")?;
        }
        Ok(())
    }
}

/// The line with the number of breaks in time that aren't named.
#[derive(Clone, Copy)]
struct MoreBreaksLine<'a> {
    name: &'a str,
    breaks: u64,
}

impl Display for MoreBreaksLine<'_> {
    ghost output = { λ l. Some (more_breaks_line l.name.now l.breaks) };

    fn fmt<W: Write>(&self, f: &mut Formatter<W>) -> fmt::Result {
        let name = self.name;
        if self.breaks > NAMED as u64 {
            let more = self.breaks - NAMED as u64;
            write!(f, "{name}: and {more} more such steps and leaps of time\n")
        } else {
            Ok(())
        }
    }
}

/// The lines about breaks in time.
#[derive(Clone, Copy)]
pub(crate) struct BreakLines<'a> {
    pub(crate) name: &'a str,
    pub(crate) tally: &'a Tally,
}

impl Display for BreakLines<'_> {
    ghost output = { λ l. Some (break_lines l.name.now l.tally.now) };

    fn fmt<W: Write>(&self, f: &mut Formatter<W>) -> fmt::Result {
        let name = self.name;
        let tally = self.tally;
        let first = FirstBreaks {
            name,
            first: &tally.first_breaks,
        };
        let more = MoreBreaksLine {
            name,
            breaks: tally.breaks,
        };
        write!(f, "{first}{more}")
    }
}
