//! The lines that list one entry each.

ghost use Rattle.std.specs.Prelude.{Some, [], ◌≡◌};
ghost use Rattle.table_listing.specs.Formula.{formula_of};
ghost use Rattle.table_listing.specs.Lines as line;

use crate::equation::Equation;
use crate::shown::Shown;
use lc_model::{ApMode, EventKind, ReportMaxima, Term};
use std::fmt::{self, Display, Formatter, Write};

/// The line of a watchpoint; it displays as `w0: u16be at 12 mask 0xFFFF of 0x0883 < 2400 stale 2`.
#[derive(Clone, Copy)]
pub struct WatchpointLine {
    /// The watchpoint's number, counted from 0.
    pub number: u16,
    /// The watchpoint as its entry defines it.
    pub term: Term,
}

impl Display for WatchpointLine {
    ghost output = { λ w. Some (line.watchpoint_line w.number w.term) };

    fn fmt<W: Write>(&self, f: &mut Formatter<W>) -> fmt::Result {
        let number = self.number;
        let Term {
            kind,
            mid,
            offset,
            mask,
            stale,
            op,
            value,
        } = self.term;
        let (kind, sign) = (kind.word(), op.sign());
        write!(
            f,
            "w{number}: {kind} at {offset} mask 0x{mask:X} of 0x{mid:04X} {sign} {value} stale {stale}"
        )
    }
}

/// The line of an actionpoint, as `a0: active fails 2 sequence 7 event error 1001 "low volts" report 0 0 0 when w0`.
/// Its fields are those of the entry (docs/FORMATS.md).
#[derive(Clone, Copy)]
pub struct ActionpointLine<'a> {
    /// The actionpoint's number, counted from 0.
    pub number: u16,
    /// The state in which it begins.
    pub mode: ApMode,
    /// The number of fails in a row after which it requests its sequence.
    pub fails: u16,
    /// The number of the sequence that it requests.
    pub sequence: u16,
    /// The type of its event.
    pub event_kind: EventKind,
    /// The id of its event.
    pub event_id: u16,
    /// The event's text without the zeros after it.
    pub text: &'a [u8],
    /// How many events of each kind it sends at most.
    pub report: ReportMaxima,
    /// The condition that the entry's words spell.
    pub condition: &'a Equation,
}

impl Display for ActionpointLine<'_> {
    ghost output = { λ a. Some (line.actionpoint_line a.number (record {
      mode = a.mode;
      report = a.report;
      sequence = a.sequence;
      fails = a.fails;
      event_kind = a.event_kind;
      event_id = a.event_id;
      text = a.text.now;
      words = [];
    }) (formula_of a.condition.now)) };

    fn fmt<W: Write>(&self, f: &mut Formatter<W>) -> fmt::Result {
        let ActionpointLine {
            number,
            mode,
            fails,
            sequence,
            event_kind,
            event_id,
            text,
            report,
            condition,
        } = *self;
        let (state, level, text) = (mode.word(), event_kind.word(), Shown(text));
        let ReportMaxima {
            passive,
            pass_to_fail,
            fail_to_pass,
        } = report;
        write!(
            f,
            "a{number}: {state} fails {fails} sequence {sequence} event {level} {event_id} \"{text}\" report {passive} {pass_to_fail} {fail_to_pass} when {condition}"
        )
    }
}
