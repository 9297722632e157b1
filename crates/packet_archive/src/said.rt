//! The report of an import, in lines.

ghost use Rattle.std.specs.Prelude.{Some, flat_map};
ghost use Rattle.packet_archive.specs.Said.{end_line, fault_line, fault_words, left_out_words, more_line, more_parts_line, order_lines, packet_lines, part_line, report_lines, skipped_lines, taken_line, zeros_line};

use crate::break_lines::BreakLines;
use crate::front::ArchiveFront;
use crate::gap_lines::GapLines;
use crate::import::Met;
use crate::tally::{Faulty, NAMED, SkippedPart, Tally};
use std::fmt::{self, Display, Formatter, Write};

/// What is wrong with a packet by its fault's number.
#[derive(Clone, Copy)]
struct Why(u8);

impl Display for Why {
    ghost output = { λ why. Some (fault_words why.0) };

    fn fmt<W: Write>(&self, f: &mut Formatter<W>) -> fmt::Result {
        match self.0 {
            1 => write!(f, "it is shorter than its headers"),
            2 => write!(f, "it has another version than 0"),
            3 => write!(f, "it has no secondary header"),
            4 => write!(f, "it is a part of another packet"),
            5 => write!(f, "it has another length than its header says"),
            6 => write!(f, "it has over 2,048 bytes"),
            7 => write!(f, "its message id is the host's own"),
            number => write!(f, "fault {number}"),
        }
    }
}

/// How many packets were left out, for each reason.
#[derive(Clone, Copy)]
struct LeftOut {
    idle: u64,
    other: u64,
    faulty: u64,
}

impl Display for LeftOut {
    ghost output = { λ l. Some (left_out_words l.idle l.other l.faulty) };

    fn fmt<W: Write>(&self, f: &mut Formatter<W>) -> fmt::Result {
        let LeftOut {
            idle,
            other,
            faulty,
        } = *self;
        write!(
            f,
            "{idle} idle, {other} not asked for, {faulty} with a fault"
        )
    }
}

/// How much of an archive was taken, and how much was left out.
#[derive(Clone, Copy)]
struct TakenLine<'a> {
    name: &'a str,
    taken: u64,
    left: LeftOut,
}

impl Display for TakenLine<'_> {
    ghost output = { λ l. Some (taken_line l.name.now l.taken
        (left_out_words l.left.idle l.left.other l.left.faulty)) };

    fn fmt<W: Write>(&self, f: &mut Formatter<W>) -> fmt::Result {
        let name = self.name;
        let taken = self.taken;
        let left = self.left;
        write!(f, "{name}: {taken} packets taken; left out: {left}\n")
    }
}

/// The line of a packet with a fault; empty for `None`.
#[derive(Clone, Copy)]
struct FaultLine<'a> {
    name: &'a str,
    faulty: Option<Faulty>,
}

impl Display for FaultLine<'_> {
    ghost output = { λ l. Some (fault_line l.name.now l.faulty) };

    fn fmt<W: Write>(&self, f: &mut Formatter<W>) -> fmt::Result {
        let name = self.name;
        match self.faulty {
            Some(faulty) => {
                let at = faulty.at;
                let why = Why(faulty.fault);
                write!(f, "{name}: byte {at}: a packet is left out: {why}\n")
            }
            None => Ok(()),
        }
    }
}

/// The lines of the first packets with a fault.
#[derive(Clone, Copy)]
struct FaultLines<'a> {
    name: &'a str,
    first: &'a [Option<Faulty>],
}

impl Display for FaultLines<'_> {
    ghost output = { λ l. Some (flat_map (fault_line l.name.now) l.first.now) };

    fn fmt<W: Write>(&self, f: &mut Formatter<W>) -> fmt::Result {
        for faulty in self.first {
            let line = FaultLine {
                name: self.name,
                faulty: *faulty,
            };
            write!(f, "{line}")?;
        }
        Ok(())
    }
}

/// The line with the number of faulty packets that aren't named.
#[derive(Clone, Copy)]
struct MoreLine<'a> {
    name: &'a str,
    faulty: u64,
}

impl Display for MoreLine<'_> {
    ghost output = { λ l. Some (more_line l.name.now l.faulty) };

    fn fmt<W: Write>(&self, f: &mut Formatter<W>) -> fmt::Result {
        let name = self.name;
        if self.faulty > NAMED as u64 {
            let more = self.faulty - NAMED as u64;
            write!(f, "{name}: and {more} more\n")
        } else {
            Ok(())
        }
    }
}

/// The line of a part that was skipped; empty for `None`.
#[derive(Clone, Copy)]
struct PartLine<'a> {
    name: &'a str,
    part: Option<SkippedPart>,
}

impl Display for PartLine<'_> {
    ghost output = { λ l. Some (part_line l.name.now l.part) };

    fn fmt<W: Write>(&self, f: &mut Formatter<W>) -> fmt::Result {
        let name = self.name;
        match self.part {
            Some(part) => {
                let at = part.at;
                let size = part.size;
                write!(
                    f,
                    "{name}: byte {at}: no plausible packet begins here; bytes skipped: {size}\n"
                )
            }
            None => Ok(()),
        }
    }
}

/// The lines of the first parts that were skipped.
#[derive(Clone, Copy)]
struct PartLines<'a> {
    name: &'a str,
    first: &'a [Option<SkippedPart>],
}

impl Display for PartLines<'_> {
    ghost output = { λ l. Some (flat_map (part_line l.name.now) l.first.now) };

    fn fmt<W: Write>(&self, f: &mut Formatter<W>) -> fmt::Result {
        for part in self.first {
            let line = PartLine {
                name: self.name,
                part: *part,
            };
            write!(f, "{line}")?;
        }
        Ok(())
    }
}

/// The line with the number of skipped parts that aren't named.
#[derive(Clone, Copy)]
struct MorePartsLine<'a> {
    name: &'a str,
    parts: u64,
    skipped: u64,
}

impl Display for MorePartsLine<'_> {
    ghost output = { λ l. Some (more_parts_line l.name.now l.parts l.skipped) };

    fn fmt<W: Write>(&self, f: &mut Formatter<W>) -> fmt::Result {
        let name = self.name;
        let skipped = self.skipped;
        if self.parts > NAMED as u64 {
            let more = self.parts - NAMED as u64;
            write!(
                f,
                "{name}: and {more} more such parts; bytes skipped in all: {skipped}\n"
            )
        } else {
            Ok(())
        }
    }
}

/// The lines about what was skipped.
#[derive(Clone, Copy)]
struct SkippedLines<'a> {
    name: &'a str,
    tally: &'a Tally,
}

impl Display for SkippedLines<'_> {
    ghost output = { λ l. Some (skipped_lines l.name.now l.tally.now) };

    fn fmt<W: Write>(&self, f: &mut Formatter<W>) -> fmt::Result {
        let name = self.name;
        let tally = self.tally;
        let parts = PartLines {
            name,
            first: &tally.first_parts,
        };
        let more = MorePartsLine {
            name,
            parts: tally.parts,
            skipped: tally.skipped,
        };
        write!(f, "{parts}{more}")
    }
}

/// The zero bytes between packets.
#[derive(Clone, Copy)]
struct ZerosLine<'a> {
    name: &'a str,
    first: Option<u64>,
    zeros: u64,
}

impl Display for ZerosLine<'_> {
    ghost output = { λ l. Some (zeros_line l.name.now l.first l.zeros) };

    fn fmt<W: Write>(&self, f: &mut Formatter<W>) -> fmt::Result {
        let name = self.name;
        let zeros = self.zeros;
        match self.first {
            Some(at) => write!(
                f,
                "{name}: byte {at}: zeros where a packet would begin, {zeros} in all\n"
            ),
            None => Ok(()),
        }
    }
}

/// The line that says why an archive ends early; empty if it doesn't.
#[derive(Clone, Copy)]
struct EndLine<'a> {
    name: &'a str,
    at: u64,
    left: usize,
    met: Met,
}

impl Display for EndLine<'_> {
    ghost output = { λ l. Some (end_line l.name.now l.at l.left l.met) };

    fn fmt<W: Write>(&self, f: &mut Formatter<W>) -> fmt::Result {
        let name = self.name;
        let at = self.at;
        let left = self.left;
        match self.met {
            Met::Stands(ArchiveFront::Cut) => write!(
                f,
                "{name}: byte {at}: the last packet is cut, {left} bytes of it are there\n"
            ),
            Met::Stands(ArchiveFront::Foreign) => write!(
                f,
                "{name}: byte {at}: no packet of version 0 begins here; what follows is not read\n"
            ),
            Met::Stands(ArchiveFront::Unmarked) => write!(
                f,
                "{name}: byte {at}: no marker 1ACFFC1D stands here; what follows is not read\n"
            ),
            _ => Ok(()),
        }
    }
}

/// The lines about packets: totals, the first faults, and how many more there are.
#[derive(Clone, Copy)]
struct PacketLines<'a> {
    name: &'a str,
    tally: &'a Tally,
}

impl Display for PacketLines<'_> {
    ghost output = { λ l. Some (packet_lines l.name.now l.tally.now) };

    fn fmt<W: Write>(&self, f: &mut Formatter<W>) -> fmt::Result {
        let name = self.name;
        let tally = self.tally;
        let taken = TakenLine {
            name,
            taken: tally.taken,
            left: LeftOut {
                idle: tally.idle,
                other: tally.other,
                faulty: tally.faulty,
            },
        };
        let faults = FaultLines {
            name,
            first: &tally.first,
        };
        let more = MoreLine {
            name,
            faulty: tally.faulty,
        };
        write!(f, "{taken}{faults}{more}")
    }
}

/// The lines about the order of packets: breaks in time, and gaps in sequence counts.
#[derive(Clone, Copy)]
struct OrderLines<'a> {
    name: &'a str,
    tally: &'a Tally,
}

impl Display for OrderLines<'_> {
    ghost output = { λ l. Some (order_lines l.name.now l.tally.now) };

    fn fmt<W: Write>(&self, f: &mut Formatter<W>) -> fmt::Result {
        let name = self.name;
        let tally = self.tally;
        let breaks = BreakLines { name, tally };
        let gaps = GapLines { name, tally };
        write!(f, "{breaks}{gaps}")
    }
}

/// The report of an import. It displays as lines: how many packets were taken and left out, the first packets with a fault, the first
/// breaks in time and gaps in sequence counts, what was skipped, the first zero bytes, and where the archive ends early.
#[derive(Drop)]
pub struct Report<'a> {
    /// The archive's name.
    pub name: &'a str,
    /// The counts of the import.
    pub tally: &'a Tally,
    /// What the import met where it stopped.
    pub met: Met,
    /// The number of bytes that are left there.
    pub left: usize,
}

impl Display for Report<'_> {
    ghost output = { λ r. Some (report_lines r.name.now r.tally.now r.met r.left) };

    fn fmt<W: Write>(&self, f: &mut Formatter<W>) -> fmt::Result {
        let name = self.name;
        let tally = self.tally;
        let packets = PacketLines { name, tally };
        let order = OrderLines { name, tally };
        let skipped = SkippedLines { name, tally };
        let zeros = ZerosLine {
            name,
            first: tally.first_zero,
            zeros: tally.zeros,
        };
        let end = EndLine {
            name,
            at: tally.bytes,
            left: self.left,
            met: self.met,
        };
        write!(f, "{packets}{order}{skipped}{zeros}{end}")
    }
}
