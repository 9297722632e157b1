//! What an import counts.

ghost use Rattle.std.specs.Prelude.{◌≡◌};
ghost use Rattle.packet_archive.specs.Tally.{break_noted, bytes_noted, count_noted, counted, ends_skipped, fault_noted, front_noted, gap_noted, has_warning, is_counted, is_next, joins, last_count, left_out_noted, met_noted, noted, nothing_met, part_with, parts_before, sequence_noted, skipped_noted, taken_noted, zeros_noted};

use crate::choice::{Fate, IDLE, is_command_id};
use crate::clock::TimeBreak;
use crate::front::ArchiveFront;
use crate::import::Met;
use lc_model::packet::COUNT_END;

/// The most packets with a fault that are named in the report, and the most breaks in time, gaps in sequence counts, and skipped parts.
pub const NAMED: usize = 10;

/// The number of application ids.
pub const APPLICATIONS: usize = 2_048;

/// A packet with a fault.
#[derive(Clone, Copy, Debug, PartialEq, Eq)]
pub struct Faulty {
    /// The byte of the archive at which the packet begins, after its marker; counted from 0.
    pub at: u64,
    /// The number of its fault (1 to 7).
    pub fault: u8,
}

/// A break in the times of an archive's packets.
#[derive(Clone, Copy, Debug, PartialEq, Eq)]
pub struct Break {
    /// The byte of the archive at which the packet after the break begins, after its marker; counted from 0.
    pub at: u64,
    /// Whether this packet is the first that was taken of the archive.
    pub is_first: bool,
    /// The times on both sides of the break.
    pub times: TimeBreak,
}

/// A gap in the sequence counts of a message id: packets are missing, or the count began again.
#[derive(Clone, Copy, Debug, PartialEq, Eq)]
pub struct SequenceGap {
    /// The byte of the archive at which the packet after the gap begins, after its marker; counted from 0.
    pub at: u64,
    /// The message id of this packet.
    pub mid: u16,
    /// The sequence count of the packet before the gap.
    pub last: u16,
    /// The sequence count of the packet after it.
    pub count: u16,
}

/// Bytes of an archive that were skipped, one after the other.
#[derive(Clone, Copy, Debug, PartialEq, Eq)]
pub struct SkippedPart {
    /// The first of these bytes, counted from 0.
    pub at: u64,
    /// The number of these bytes.
    pub size: u64,
}

/// Whether sequence counts of a message id are looked at: those of telemetry that isn't idle.
fn is_counted(mid: u16) -> bool
    ensures { result ≡ is_counted mid }
{
    !is_command_id(mid) && mid % 2_048 != IDLE
}

/// Whether a sequence count is the next one after the last.
fn is_next(last: u16, count: u16) -> bool
    ensures { result ≡ is_next last count }
{
    u32::from(count) == (u32::from(last) + 1) % u32::from(COUNT_END)
}

impl SkippedPart {
    /// The byte after the last of them.
    fn end(self) -> u64
        ensures { result ≡ counted self.at self.size }
    {
        self.at.saturating_add(self.size)
    }
}

/// The counts of an import so far. They stop at 2^64 - 1.
#[derive(Clone, Copy, Debug, PartialEq, Eq)]
pub struct Tally {
    /// Bytes of the archive that the import has passed.
    pub bytes: u64,
    /// Packets that became records.
    pub taken: u64,
    /// Idle packets that were left out.
    pub idle: u64,
    /// Packets that were left out because their message id wasn't asked for.
    pub other: u64,
    /// Packets with a fault that were left out.
    pub faulty: u64,
    /// The first of these packets, in order.
    pub first: [Option<Faulty>; NAMED],
    /// Breaks in time.
    pub breaks: u64,
    /// The first of these breaks, in order.
    pub first_breaks: [Option<Break>; NAMED],
    /// Gaps in sequence counts.
    pub gaps: u64,
    /// The first of these gaps, in order.
    pub first_gaps: [Option<SequenceGap>; NAMED],
    /// For each application id the sequence count of the last packet that was taken.
    pub counts: [Option<u16>; APPLICATIONS],
    /// Zero bytes between packets.
    pub zeros: u64,
    /// The byte of the archive with the first of them, counted from 0.
    pub first_zero: Option<u64>,
    /// Bytes that were skipped.
    pub skipped: u64,
    /// Parts of the archive that were skipped.
    pub parts: u64,
    /// The first of these parts, in order.
    pub first_parts: [Option<SkippedPart>; NAMED],
    /// The last of these parts, if no packet came after it.
    pub last_part: Option<SkippedPart>,
}

impl Tally {
    /// The counts before an import: all zero.
    pub fn new() -> Tally
        ensures { result ≡ nothing_met }
    {
        Tally {
            bytes: 0,
            taken: 0,
            idle: 0,
            other: 0,
            faulty: 0,
            first: [None; NAMED],
            breaks: 0,
            first_breaks: [None; NAMED],
            gaps: 0,
            first_gaps: [None; NAMED],
            counts: [None; APPLICATIONS],
            zeros: 0,
            first_zero: None,
            skipped: 0,
            parts: 0,
            first_parts: [None; NAMED],
            last_part: None,
        }
    }

    /// The byte at which the packet in front begins, after `before` bytes of its marker.
    fn packet_at(&self, before: usize) -> u64
        ensures { result ≡ counted self.now.bytes before }
    {
        self.bytes.saturating_add(before as u64)
    }

    /// Counts a packet with a fault, after `before` bytes of its marker.
    fn note_fault(&mut self, before: usize, fault: u8)
        ensures { self.new ≡ fault_noted before fault self.old }
    {
        let place = self.faulty;
        if place < NAMED as u64 {
            self.first[place as usize] = Some(Faulty {
                at: self.packet_at(before),
                fault,
            });
        }
        self.faulty = self.faulty.saturating_add(1);
    }

    /// Counts the break in time before a packet, if there is one, after `before` bytes of its marker.
    fn note_break(&mut self, before: usize, time_break: Option<TimeBreak>)
        ensures { self.new ≡ break_noted before time_break self.old }
    {
        if let Some(times) = time_break {
            let number = self.breaks;
            if number < NAMED as u64 {
                self.first_breaks[number as usize] = Some(Break {
                    at: self.packet_at(before),
                    is_first: self.taken == 0,
                    times,
                });
            }
            self.breaks = self.breaks.saturating_add(1);
        }
    }

    /// Counts the gap before a packet, if its sequence count is not the next one after the last, after `before` bytes of its marker.
    fn note_gap(&mut self, before: usize, mid: u16, count: u16, last: Option<u16>)
        ensures { self.new ≡ gap_noted before mid count last self.old }
    {
        match last {
            Some(last) if !is_next(last, count) => {
                let number = self.gaps;
                if number < NAMED as u64 {
                    self.first_gaps[number as usize] = Some(SequenceGap {
                        at: self.packet_at(before),
                        mid,
                        last,
                        count,
                    });
                }
                self.gaps = self.gaps.saturating_add(1);
            }
            _ => {}
        }
    }

    /// The sequence count of the last packet of this message id's application that was taken.
    fn last_count(&self, mid: u16) -> Option<u16>
        ensures { result ≡ last_count mid self.now }
    {
        self.counts[usize::from(mid) % APPLICATIONS]
    }

    /// Notes a sequence count as the last one of a message id's application.
    fn note_count(&mut self, mid: u16, count: u16)
        ensures { self.new ≡ count_noted mid count self.old }
    {
        self.counts[usize::from(mid) % APPLICATIONS] = Some(count);
    }

    /// Counts a packet's sequence count, with the gap before it; the packet is after `before` bytes of its marker.
    fn note_sequence(&mut self, before: usize, mid: u16, count: u16)
        ensures { self.new ≡ sequence_noted before mid count self.old }
    {
        if is_counted(mid) {
            let last = self.last_count(mid);
            self.note_gap(before, mid, count, last);
            self.note_count(mid, count);
        }
    }

    /// Counts a packet that became a record.
    fn note_taken(&mut self)
        ensures { self.new ≡ taken_noted self.old }
    {
        self.last_part = None;
        self.taken = self.taken.saturating_add(1);
    }

    /// Counts a packet that is left out, after `before` bytes of its marker.
    fn note_left_out(&mut self, before: usize, fate: Fate)
        ensures { self.new ≡ left_out_noted before fate self.old }
    {
        match fate {
            Fate::Idle => self.idle = self.idle.saturating_add(1),
            Fate::Faulty(fault) => self.note_fault(before, fault),
            Fate::Kept | Fate::Other => self.other = self.other.saturating_add(1),
        }
    }

    /// Counts zero bytes, `size` of them.
    fn note_zeros(&mut self, size: usize)
        ensures { self.new ≡ zeros_noted size self.old }
    {
        self.first_zero = match self.first_zero {
            Some(first) => Some(first),
            None => Some(self.bytes),
        };
        self.zeros = self.zeros.saturating_add(size as u64);
    }

    /// Whether there is a warning: time breaks in the archive, or at its begin, or there is a gap in sequence counts.
    pub fn has_warning(&self) -> bool
        ensures exact { result ≡ has_warning self.now }
    {
        self.breaks > 0 || self.gaps > 0
    }

    /// Whether bytes were skipped behind the last packet.
    pub fn ends_skipped(&self) -> bool
        ensures exact { result ≡ ends_skipped self.now }
    {
        self.last_part.is_some()
    }

    /// Whether the bytes in front join the last skipped part.
    fn joins_part(&self) -> bool
        ensures { result ≡ joins self.now.bytes self.now.last_part }
    {
        match self.last_part {
            Some(part) => part.end() == self.bytes,
            None => false,
        }
    }

    /// The skipped part with so many bytes in front.
    fn part_with(&self, size: u64) -> SkippedPart
        ensures { result ≡ part_with self.now.bytes size self.now.last_part }
    {
        let at = self.bytes;
        match self.last_part {
            Some(part) if part.end() == at => SkippedPart {
                at: part.at,
                size: part.size.saturating_add(size),
            },
            _ => SkippedPart { at, size },
        }
    }

    /// The number of skipped parts before the one with the bytes in front.
    fn parts_before(&self) -> u64
        ensures { result ≡ parts_before self.now }
    {
        if self.joins_part() {
            self.parts.saturating_sub(1)
        } else {
            self.parts
        }
    }

    /// Counts skipped bytes, which join the part that ends before them, or begin one.
    fn note_skipped(&mut self, size: u64)
        ensures { self.new ≡ skipped_noted size self.old }
    {
        let part = self.part_with(size);
        let number = self.parts_before();
        if number < NAMED as u64 {
            self.first_parts[number as usize] = Some(part);
        }
        self.skipped = self.skipped.saturating_add(size);
        self.parts = number.saturating_add(1);
        self.last_part = Some(part);
    }

    /// Counts a front that isn't a packet; only a gap and a skipped byte count. A gap right behind skipped bytes is skipped, too.
    fn note_front(&mut self, front: ArchiveFront)
        ensures { self.new ≡ front_noted front self.old }
    {
        match front {
            ArchiveFront::Gap { size } if self.joins_part() => self.note_skipped(size as u64),
            ArchiveFront::Gap { size } => self.note_zeros(size),
            ArchiveFront::Stray => self.note_skipped(1),
            ArchiveFront::Over
            | ArchiveFront::Cut
            | ArchiveFront::Foreign
            | ArchiveFront::Unmarked => {}
            ArchiveFront::Packet { .. } => {}
        }
    }

    /// Counts what was met, without its bytes.
    fn note_met(&mut self, met: Met)
        ensures { self.new ≡ met_noted met self.old }
    {
        match met {
            Met::Taken {
                before,
                mid,
                count,
                time_break,
                ..
            } => {
                self.note_break(before, time_break);
                self.note_sequence(before, mid, count);
                self.note_taken();
            }
            Met::LeftOut { before, fate, .. } => {
                self.last_part = None;
                self.note_left_out(before, fate);
            }
            Met::Stands(front) => self.note_front(front),
        }
    }

    /// Counts passed bytes.
    fn note_bytes(&mut self, size: Option<usize>)
        ensures { self.new ≡ bytes_noted size self.old }
    {
        if let Some(size) = size {
            self.bytes = self.bytes.saturating_add(size as u64);
        }
    }

    /// Counts what a step of the import met, and the bytes that it passed.
    pub fn note(&mut self, met: Met)
        ensures { self.new ≡ noted met self.old }
    {
        self.note_met(met);
        self.note_bytes(met.size_behind());
    }
}
