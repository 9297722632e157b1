//! The records that the packets of an archive become.

ghost use Rattle.std.specs.Prelude.{◌≡◌, ◌≤◌, ◌++◌, Some, length, IfOk, IfSome};
ghost use Rattle.lc_model.specs.Host.Stream.{max_body};
ghost use Rattle.lc_model.specs.Packet.{primary_header_size};
ghost use Rattle.packet_archive.specs.Clock.{moment_by, ticks_due, IsNextTick};
ghost use Rattle.packet_archive.specs.Import.{kept_at, imported, next_step, passed, sequence_count, ticks, ticks_before};
ghost use Rattle.packet_archive.specs.Tally.{tallied};

use crate::choice::{Choice, Fate};
use crate::clock::{Clock, TimeBreak, Times, next_count, next_tick, tick_before};
use crate::front::{ArchiveFront, Resync, front_by};
use crate::record::push_record;
use crate::tally::Tally;
use lc_model::packet::{COUNT_END, message_id};
use lc_model::{Moment, u16_at};
use std::alloc::AllocError;
use std::marker::Model;

/// The kind of a record that brings a packet.
const PACKET: u8 = 1;

/// The kind of a tick.
const TICK: u8 = 2;

impl Met {
    /// The number of bytes that the step passed; `None` if the import stops here.
    pub fn size_behind(self) -> Option<usize>
        ensures { result ≡ passed self }
    {
        match self {
            Met::Taken { size, .. } | Met::LeftOut { size, .. } => Some(size),
            Met::Stands(ArchiveFront::Gap { size }) => Some(size),
            Met::Stands(ArchiveFront::Stray) => Some(1),
            Met::Stands(_) => None,
        }
    }
}

/// Appends the records of the ticks from second `first` up to `second`, one every `period` seconds. The only error is a lack of
/// memory.
fn push_ticks(out: &mut Vec<u8>, period: u32, first: u64, second: u32) -> Result<(), AllocError>
    requires { IsNextTick period (Some first) }
    ensures ticks { IfOk result (λ _. out.new.items ≡
        out.old.items ++ ticks (ticks_due period (Some first) second) period first) }
{
    let mut next = first;
    while next <= u64::from(second) {
        let moment = Moment {
            seconds: next as u32,
            subseconds: 0,
        };
        push_record(out, TICK, moment, &[])?;
        next += u64::from(period);
    }
    Ok(())
}

/// The options of an import.
#[derive(Drop)]
pub struct ImportOptions<'a> {
    /// Whether a marker stands before each packet.
    pub marked: bool,
    /// What it does where no packet is in front.
    pub resync: Resync,
    /// Which packets become records.
    pub choice: Choice<'a>,
    /// The source of the packets' times.
    pub times: Times,
}

impl<'a> Model for ImportOptions<'a> {
    ghost use Rattle.packet_archive.specs.Import.{Asking};

    ghost Value = { Asking };

    ghost view = { λ a. record { marked = a.marked; resync = a.resync; chosen = a.choice; times = a.times } };
}

/// What one step of an import met at the front of the rest of an archive.
#[derive(Clone, Copy, Debug, PartialEq, Eq)]
pub enum Met {
    /// A packet that became a record: its size in bytes with its marker, the size of its marker, its message id and sequence count, and
    /// the break in time before it.
    Taken {
        size: usize,
        before: usize,
        mid: u16,
        count: u16,
        time_break: Option<TimeBreak>,
    },
    /// A packet that was left out: its size in bytes with its marker, the size of its marker, and why.
    LeftOut {
        size: usize,
        before: usize,
        fate: Fate,
    },
    /// Not a whole packet: what is there instead.
    Stands(ArchiveFront),
}

/// The sequence count of a packet that has its primary header.
fn sequence_count(packet: &[u8]) -> u16
    requires { primary_header_size ≤ length packet.now }
    ensures { result ≡ sequence_count packet.now }
{
    u16_at(packet, 2) % COUNT_END
}

/// Appends the records of the ticks that are due up to this second, if the next one is at `next`. The only error is a lack of memory.
fn push_due(
    out: &mut Vec<u8>,
    period: u32,
    next: Option<u64>,
    second: u32,
) -> Result<(), AllocError>
    requires { IsNextTick period next }
    ensures { IfOk result (λ _. out.new.items ≡
        out.old.items ++ ticks_before period next second) }
{
    match next {
        Some(next) => push_ticks(out, period, next, second),
        None => Ok(()),
    }
}

/// Appends the ticks that are due by a packet, and the packet's record, which is after `before` bytes of its marker; `size` is the
/// packet's size with its marker. The only error is a lack of memory.
fn keep(
    out: &mut Vec<u8>,
    clock: &mut Clock,
    times: Times,
    before: usize,
    size: usize,
    packet: &[u8],
) -> Result<Met, AllocError>
    requires header { primary_header_size ≤ length packet.now }
    requires fits { length packet.now ≤ max_body }
    ensures met { let moment = moment_by times clock.old packet.now in
        IfOk result (λ met. met ≡ (kept_at before size clock.old moment packet.now).met) }
    ensures written { let moment = moment_by times clock.old packet.now in
        IfOk result (λ _. out.new.items ≡
        out.old.items ++ (kept_at before size clock.old moment packet.now).written) }
    ensures clock { let moment = moment_by times clock.old packet.now in
        IfOk result (λ _. clock.new ≡ (kept_at before size clock.old moment packet.now).clock) }
{
    let moment = times.moment_of(clock, packet);
    let time_break = clock.break_at(moment);
    let tick = tick_before(clock.period, clock.next, moment.seconds);
    push_due(out, clock.period, tick, moment.seconds)?;
    push_record(out, PACKET, moment, packet)?;
    clock.next = next_tick(clock.period, tick, moment.seconds);
    clock.last = moment;
    clock.count = next_count(clock.count);
    Ok(Met::Taken {
        size,
        before,
        mid: message_id(packet),
        count: sequence_count(packet),
        time_break,
    })
}

/// Makes one step of an import at the front of the rest of an archive: appends records to `out`, advances the clock, and returns what
/// it met. The only error is a lack of memory.
pub fn import_next(
    out: &mut Vec<u8>,
    clock: &mut Clock,
    asked: &ImportOptions<'_>,
    bytes: &[u8],
) -> Result<Met, AllocError>
    ensures met { IfOk result
        (λ met. met ≡ (next_step asked.now clock.old bytes.now).met) }
    ensures written { IfOk result (λ _. out.new.items ≡
        out.old.items ++ (next_step asked.now clock.old bytes.now).written) }
    ensures clock { IfOk result
        (λ _. clock.new ≡ (next_step asked.now clock.old bytes.now).clock) }
    ensures inside { IfOk result (λ met. IfSome (passed met) (λ size. size ≤ length bytes.now)) }
{
    match front_by(asked.resync, asked.marked, bytes) {
        ArchiveFront::Packet { before, size } => {
            let (_, behind) = bytes.split_at(before);
            let (packet, _) = behind.split_at(size);
            match asked.choice.fate(packet) {
                Fate::Kept => {
                    let met = keep(out, clock, asked.times, before, before + size, packet)?;
                    Ok(met)
                }
                fate => Ok(Met::LeftOut {
                    size: before + size,
                    before,
                    fate,
                }),
            }
        }
        front => Ok(Met::Stands(front)),
    }
}

/// Imports packet after packet from these bytes until a step passes no bytes (`size_behind`): at the end, a packet cut short, or bytes
/// that aren't a packet and aren't skipped. Returns the bytes that are left and what was met there. The only error is a lack of memory.
pub fn import_held<'a>(
    out: &mut Vec<u8>,
    clock: &mut Clock,
    tally: &mut Tally,
    asked: &ImportOptions<'_>,
    bytes: &'a [u8],
) -> Result<(&'a [u8], Met), AllocError>
    ensures written { IfOk result (λ _. out.new.items ≡
        out.old.items ++ (imported asked.now clock.old bytes.now).written) }
    ensures clock { IfOk result
        (λ _. clock.new ≡ (imported asked.now clock.old bytes.now).clock) }
    ensures left { IfOk result
        (λ end. end.0.now ≡ (imported asked.now clock.old bytes.now).left) }
    ensures met { IfOk result
        (λ end. end.1 ≡ (imported asked.now clock.old bytes.now).met) }
    ensures counted { IfOk result
        (λ _. tally.new ≡ tallied asked.now clock.old bytes.now tally.old) }
{
    let mut left = bytes;
    for _ in 0..bytes.len() + 1 {
        let met = import_next(out, clock, asked, left)?;
        tally.note(met);
        match met.size_behind() {
            Some(size) => {
                let (_, behind) = left.split_at(size);
                left = behind;
            }
            None => return Ok((left, met)),
        }
    }
    Ok((left, Met::Stands(ArchiveFront::Over)))
}
