//! Watchpoints: the last result of each, and how it ages (cFS Limit Checker user's guide, watchpoint results).

ghost use Rattle.std.specs.Prelude.{◌≡◌, ◌<◌, ◌≤◌, length, map, fold, All, IsTrue};
ghost use Rattle.std.specs.List.{list_any};
ghost use Rattle.lc_model.specs.Field.{is_in_type};
ghost use Rattle.lc_model.specs.Kept.Next.{unseen_result, aged_result};
ghost use Rattle.limit_engine.specs.Grouped.{IsFit, watch_for, watch_seen, lacks_field, counted_bits, judged_by};

use crate::field::{self, Range};
use lc_model::{FieldType, Term, Truth};
use std::marker::Model;

/// A watchpoint's last result, and after how many more agings it is stale. A countdown of 0 stays.
#[derive(Clone, Copy, Debug)]
pub(crate) struct WatchResult {
    truth: Truth,
    countdown: u32,
}

impl Model for WatchResult {
    ghost use Rattle.lc_model.specs.Kept.Summary.{WatchResult as Kept};

    ghost Value = { Kept };

    ghost view = { λ r. record { truth = r.truth; countdown = r.countdown } };

    ghost inverse = { λ r. record { truth = r.truth; countdown = r.countdown } };
}

impl WatchResult {
    /// The result before the first packet: stale.
    pub(crate) fn at_start() -> WatchResult
        ensures { result ≡ unseen_result }
    {
        WatchResult {
            truth: Truth::Stale,
            countdown: 0,
        }
    }

    pub(crate) fn truth(&self) -> Truth
        ensures { result ≡ self.now.truth }
    {
        self.truth
    }

    /// Ages the result: a countdown that comes to 0 makes it stale.
    fn age(&mut self)
        ensures { self.new ≡ aged_result self.old }
    {
        if self.countdown == 1 {
            self.truth = Truth::Stale;
        }
        self.countdown = self.countdown.saturating_sub(1);
    }
}

/// A watchpoint in the group of its message id, with values that are computed at adoption.
#[derive(Clone, Copy, Debug)]
pub(crate) struct Watch {
    /// Its number in the table.
    pub(crate) number: usize,
    pub(crate) kind: FieldType,
    /// The offset of its field in bytes, and the least length of a packet that has the whole field.
    pub(crate) start: usize,
    pub(crate) need: usize,
    /// Whether its field is read as the low end of the four bytes that end where the field ends.
    pub(crate) by_four: bool,
    pub(crate) mask: u32,
    pub(crate) sign: u32,
    pub(crate) range: Range,
    pub(crate) stale: u32,
}

impl Watch {
    pub(crate) fn of(number: usize, term: &Term) -> Watch
        requires { IsTrue (is_in_type term.now.kind term.now.value) }
        ensures { result ≡ watch_for number term.now }
    {
        let start = term.offset as usize;
        let need = start + term.kind.width();
        Watch {
            number,
            kind: term.kind,
            start,
            need,
            by_four: field::is_by_four(term.kind, need),
            mask: term.mask,
            sign: term.kind.sign_weight(),
            range: Range::of(term.kind, term.op, term.value),
            stale: term.stale,
        }
    }

    /// The masked bits of its field, in a packet that has the field.
    fn counted_bits(&self, packet: &[u8]) -> u32
        requires fit { IsFit self.now }
        requires there { self.now.need ≤ length packet.now }
        ensures { result ≡ counted_bits packet.now self.now }
    {
        if self.by_four {
            return field::four_bytes(&packet[self.need - 4..self.need]) & self.mask;
        }
        self.kind.bits_in(&packet[self.start..self.need]) & self.mask
    }

    /// The watchpoint's truth by a packet of its message id: an error if the packet is too short for the field.
    fn truth_in(&self, packet: &[u8]) -> Truth
        requires { IsFit self.now }
        ensures truth { result ≡ judged_by packet.now self.now }
    {
        if packet.len() < self.need {
            return Truth::Error;
        }
        if self.range.holds(self.counted_bits(packet) ^ self.sign) {
            Truth::True
        } else {
            Truth::False
        }
    }
}

/// Compares the watchpoints of the packet's message id, which are the group, and stores their results. Returns whether the
/// packet is too short for one of their fields.
pub(crate) fn see_group(group: &[Watch], results: &mut [WatchResult], packet: &[u8]) -> bool
    requires numbers { All (λ w. w.number < length results.old) group.now }
    requires fit { All IsFit group.now }
    ensures results { results.new ≡ fold (watch_seen packet.now) results.old group.now }
    ensures short { result ≡ list_any (lacks_field packet.now) group.now }
{
    let mut short = false;
    for watch in group {
        results[watch.number] = WatchResult {
            truth: watch.truth_in(packet),
            countdown: watch.stale,
        };
        short |= packet.len() < watch.need;
    }
    short
}

/// Ages all watchpoints.
pub(crate) fn age_all(results: &mut [WatchResult])
    ensures { results.new ≡ map aged_result results.old }
{
    for result in results.iter_mut() {
        result.age();
    }
}
