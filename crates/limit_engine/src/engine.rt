//! The engine: its tables, the results of watchpoints, and the states and counts of rules (cFS Limit Checker user's guide).

ghost use Rattle.std.specs.Prelude.{◌≡◌, ◌<◌, ◌≤◌, [], length, vec_capacity, option_map, slice_get, Some, IfOk};
ghost use Rattle.lc_model.specs.Codes.{rule_text_size};
ghost use Rattle.lc_model.specs.Rule.{Actionpoint};
ghost use Rattle.lc_model.specs.LimitChecker.Steps.{is_disabled as disabled, one_set, standing, states_set, turned_permanently_off};
ghost use Rattle.lc_model.specs.Refusal.{found, no_such_state};
ghost use Rattle.lc_model.specs.Command.{mode_numbered};
ghost use Rattle.lc_model.specs.declared.kind.Kind.TheVariants.{Wdt, Adt};
ghost use Rattle.lc_model.specs.Tables.Half.{IsMatch};
ghost use Rattle.lc_model.specs.Tables.InForce.{layouts};
ghost use Rattle.lc_model.specs.Tables.Spelled.{spelled_terms, spelled_rules};
ghost use Rattle.limit_engine.specs.Capacities.{engine_capacities};
ghost use Rattle.limit_engine.specs.Engine as engine;
ghost use Rattle.limit_engine.specs.Engine.{after_telemetry, points_sampled, tells_short, with_tables, without_tables};
ghost use Rattle.limit_engine.specs.Reactions.{requests_in, AreInOrder};
ghost use Rattle.limit_engine.specs.States.{answered, outcome, unless_refused};
ghost use Rattle.limit_engine.specs.Tables.{most_probes, most_steps};

use crate::actionpoint::{Point, RuleEntry};
use crate::capacities::EngineCapacities;
use crate::groups::Watchpoints;
use crate::plan::Plan;
use crate::reaction::Asked;
use crate::states::{self, StateRefusal};
use crate::watchpoint::{self, WatchResult};
use crate::{layout, sampling};
use lc_model::packet::padded_message_id;
use lc_model::{ApMode, ApResult, EventKind, LcMode, SampleRequest, TABLE_ENTRIES, Term};
use std::alloc::{AllocError, Global};
use std::marker::Model;
use table_validator::ValidImage;

/// The most words of all equations: 32 for each rule, as in a table of version 2.
pub(crate) const TABLE_WORDS: usize = 32 * TABLE_ENTRIES;

/// The engine of a Limit Checker, with the tables in force.
///
/// Watchpoints are in groups by message id, actionpoints and words in flat tables in the order of their image. `new` allocates
/// all memory. Contracts see its mode, watchpoints and rules, each watchpoint's last result, each rule's state and counts, and
/// its effort: the words evaluated and the message ids compared last.
#[derive(Debug, Drop)]
pub struct Engine {
    mode: LcMode,
    watchpoints: Watchpoints,
    watch: Vec<WatchResult>,
    entries: Vec<RuleEntry>,
    points: Vec<Point>,
    words: Vec<u16>,
    plan: Plan,
    /// The words that the last sample evaluated, and the message ids that the last packet's was compared with.
    steps: usize,
    probes: usize,
}

impl Model for Engine {
    ghost use Rattle.std.specs.Prelude.{length, vec_capacity};
    ghost use Rattle.std.specs.Coded.{codes};
    ghost use Rattle.lc_model.specs.Condition.Coding.{coded_condition};
    ghost use Rattle.lc_model.specs.Kept.Summary.{LcOwn};
    ghost use Rattle.limit_engine.specs.Plan.{IsPlanned};
    ghost use Rattle.limit_engine.specs.Tables.{own_of, AreTables, HasRoom, IsFewEffort};

    ghost Value = { LcOwn };

    ghost coded = { Prim.hlevel (codes, coded_condition) };

    ghost view = { λ s. own_of s.mode s.watchpoints s.watch.items s.entries.items s.points.items
        s.words.items s.steps s.probes };

    ghost invariant = { λ s. AreTables s.watchpoints s.watch.items s.entries.items s.points.items
        s.words.items
        × HasRoom (vec_capacity s.watch) (vec_capacity s.entries) (vec_capacity s.points)
        (vec_capacity s.words)
        × IsFewEffort s.steps s.probes
        × IsPlanned (length s.watchpoints) s.words.items s.entries.items s.plan.steps
        s.plan.roots };
}

/// A rule's state and last result.
#[derive(Clone, Copy, Debug, PartialEq, Eq)]
pub struct Standing {
    /// Active, passive, disabled, or off for good.
    pub state: ApMode,
    /// None before the first sample since adoption.
    pub last: Option<ApResult>,
}

/// A rule's own event, and the sequence that the rule requests.
#[derive(Clone, Copy, Debug)]
pub struct RuleEvent<'a> {
    /// The number of the requested command sequence.
    pub sequence: u16,
    /// The type of the event.
    pub kind: EventKind,
    /// The event id.
    pub id: u16,
    /// The event's text as the table has it, at most 31 bytes.
    pub text: &'a [u8],
}

impl Engine {
    /// Creates an active Limit Checker without tables. It takes all the memory that the engine ever needs; the only error is
    /// out of memory.
    pub fn new(alloc: Global) -> Result<Engine, AllocError>
        ensures { IfOk result (λ lc. lc ≡ without_tables) }
    {
        Ok(Engine {
            mode: LcMode::Active,
            watchpoints: Watchpoints::new(alloc)?,
            watch: Vec::with_capacity(alloc, TABLE_ENTRIES)?,
            entries: Vec::with_capacity(alloc, TABLE_ENTRIES)?,
            points: Vec::with_capacity(alloc, TABLE_ENTRIES)?,
            words: Vec::with_capacity(alloc, TABLE_WORDS)?,
            plan: Plan::new(alloc)?,
            steps: 0,
            probes: 0,
        })
    }

    /// The capacities of all lists. No call changes them.
    pub fn capacities(&self) -> EngineCapacities
        ensures { result ≡ engine_capacities }
    {
        EngineCapacities {
            watchpoints: self.watchpoints.capacities(),
            watch: self.watch.capacity(),
            entries: self.entries.capacity(),
            points: self.points.capacity(),
            words: self.words.capacity(),
            plan: self.plan.capacities(),
        }
    }

    /// Returns to the state after `new`: active, without tables, with 0 steps and 0 probes.
    pub fn reset(&mut self)
        ensures { self.new ≡ without_tables }
    {
        self.mode = LcMode::Active;
        self.watchpoints.clear();
        self.watch.clear();
        self.entries.clear();
        self.points.clear();
        self.words.clear();
        self.plan.clear();
        self.steps = 0;
        self.probes = 0;
    }

    /// Puts these tables in force: no packet seen, no rule sampled, each rule in its default state. The mode, `steps` and
    /// `probes` stay. The images are a table of watchpoints and one of actionpoints, of either version, with equal hashes and
    /// equal numbers of watchpoints. It takes no memory.
    pub fn adopt(&mut self, wdt: &ValidImage<'_>, adt: &ValidImage<'_>)
        requires wdt { wdt.now.kind ≡ Wdt }
        requires adt { adt.now.kind ≡ Adt }
        requires matching { IsMatch wdt.now.bytes adt.now.bytes }
        ensures { self.new ≡ with_tables (spelled_terms wdt.now.bytes)
            (spelled_rules layouts wdt.now.bytes adt.now.bytes) self.old }
    {
        self.watchpoints.set(wdt);
        layout::lay_out_results(self.watchpoints.terms().len(), &mut self.watch);
        layout::lay_out_rules(adt, &mut self.entries, &mut self.points, &mut self.words);
        self.plan.set(
            self.entries.as_slice(),
            self.words.as_slice(),
            self.watch.len(),
        );
    }

    /// The number of rules in force, at most `TABLE_ENTRIES`.
    pub fn rule_count(&self) -> usize
        ensures count { result ≡ length self.now.rules }
        ensures points { result ≡ length self.now.points }
        ensures few { result ≤ TABLE_ENTRIES }
    {
        self.entries.len()
    }

    /// The watchpoints in force, in the order of their table: at most `TABLE_ENTRIES`.
    pub fn watchpoints(&self) -> &[Term]
        ensures watchpoints { result.now ≡ self.now.terms }
        ensures few { length result.now ≤ TABLE_ENTRIES }
    {
        self.watchpoints.terms()
    }

    /// The Limit Checker's own mode.
    pub fn mode(&self) -> LcMode
        ensures { result ≡ self.now.mode }
    {
        self.mode
    }

    /// The number of words, EQUAL included, of the equations that the last sample evaluated: at most 32 for each of 176 rules.
    pub fn steps(&self) -> usize
        ensures steps { result ≡ self.now.effort.steps }
        ensures few { result ≤ most_steps }
    {
        self.steps
    }

    /// How many watched message ids the last telemetry packet's id was compared with: 1 if its id is watched, at most 8 if not,
    /// and 0 if the Limit Checker is disabled. A comparison gives less, equal or greater.
    pub fn probes(&self) -> usize
        ensures probes { result ≡ self.now.effort.probes }
        ensures few { result ≤ most_probes }
    {
        self.probes
    }

    /// The own event and the sequence of the rule with this number.
    pub fn rule_event(&self, index: usize) -> RuleEvent<'_>
        requires { index < length self.now.rules }
        ensures sequence { (rule : Actionpoint) → slice_get self.now.rules index ≡ Some rule →
            result.sequence ≡ rule.sequence }
        ensures kind { (rule : Actionpoint) → slice_get self.now.rules index ≡ Some rule →
            result.kind ≡ rule.event_kind }
        ensures id { (rule : Actionpoint) → slice_get self.now.rules index ≡ Some rule →
            result.id ≡ rule.event_id }
        ensures text { (rule : Actionpoint) → slice_get self.now.rules index ≡ Some rule →
            result.text.now ≡ rule.text }
        ensures short { length result.text.now < rule_text_size }
    {
        let entry = &self.entries[index];
        RuleEvent {
            sequence: entry.sequence,
            kind: entry.event_kind,
            id: entry.event_id,
            text: entry.text.as_slice(),
        }
    }

    /// The state and the last result of the rule with this number.
    pub fn standing(&self, index: usize) -> Standing
        requires { index < length self.now.points }
        ensures state { option_map (λ point. point.state) (slice_get self.now.points index) ≡
            Some result.state }
        ensures last { option_map (λ point. point.past.last) (slice_get self.now.points index) ≡
            Some result.last }
    {
        let point = &self.points[index];
        Standing {
            state: point.state(),
            last: point.last(),
        }
    }

    /// The failures in a row, up to the newest result, of the rule with this number: at most 65,535.
    pub fn fails_in_a_row(&self, index: usize) -> u16
        requires { index < length self.now.points }
        ensures { option_map (λ point. point.past.run) (slice_get self.now.points index) ≡
            Some result }
    {
        self.points[index].run()
    }

    /// The samples of the rule with this number, while it was passive, that had enough failures in a row to request its sequence:
    /// at most 65,535.
    pub fn quiet_samples(&self, index: usize) -> u16
        requires { index < length self.now.points }
        ensures { option_map (λ point. point.past.quiet) (slice_get self.now.points index) ≡
            Some result }
    {
        self.points[index].quiet()
    }

    /// Compares all watchpoints of the packet's message id. Returns whether the packet is too short for one of their fields. A
    /// disabled Limit Checker compares nothing and returns false.
    pub fn telemetry(&mut self, packet: &[u8]) -> bool
        ensures after { self.new ≡ after_telemetry packet.now self.old }
        ensures short { result ≡ tells_short packet.now self.old }
    {
        if is_disabled(self.mode) {
            self.probes = 0;
            return false;
        }
        let found = self.watchpoints.find(padded_message_id(packet));
        self.probes = found.probes;
        watchpoint::see_group(found.group, self.watch.as_mut_slice(), packet)
    }

    /// Samples the active and passive rules that the request takes, in order; then ages all watchpoints, if the request asks
    /// for it. Each rule that leads to a request or an event adds one item to `asked`, in the order of the rules. `asked` is
    /// empty before, with room for `TABLE_ENTRIES` items. A disabled Limit Checker samples and ages nothing.
    pub fn sample(&mut self, request: &SampleRequest, asked: &mut Vec<Asked>)
        requires none { asked.old.items ≡ [] }
        requires room { TABLE_ENTRIES ≤ vec_capacity asked.old }
        ensures after { self.new ≡ engine.after_sample request.now self.old }
        ensures asked { requests_in self.old.rules asked.new.items ≡
            (points_sampled request.now self.old).1 }
        ensures order { AreInOrder 0 (length self.old.rules) asked.new.items }
        ensures capacity { vec_capacity asked.new ≡ vec_capacity asked.old }
    {
        if is_disabled(self.mode) {
            self.steps = 0;
            return;
        }
        self.plan.evaluate(request, self.watch.as_slice());
        self.steps = sampling::sample_rules(
            request,
            self.mode,
            self.entries.as_slice(),
            &self.plan,
            self.points.as_mut_slice(),
            asked,
        );
        if request.ages {
            watchpoint::age_all(self.watch.as_mut_slice());
        }
    }

    /// Sets the mode of the Limit Checker: active (1), passive (2) or disabled (3). Any other number is `BadMode`.
    pub fn set_mode(&mut self, number: u16) -> Result<(), StateRefusal>
        ensures answer { answered result ≡ outcome (found (mode_numbered number) no_such_state) }
        ensures mode { self.new ≡
            record self.old {
              mode = unless_refused (found (mode_numbered number) no_such_state)
                  self.old.mode;
            } }
    {
        let Some(mode) = LcMode::from_code(number) else {
            return Err(StateRefusal::BadMode);
        };
        self.mode = mode;
        Ok(())
    }

    /// Sets the state of the rule with this number, or of all rules (0xFFFF): active (1), passive (2) or disabled (3). Counts
    /// stay. A rule that is off for good stays so: a command for that rule alone is refused, one for all rules passes it over.
    pub fn set_state(&mut self, index: u16, number: u16) -> Result<(), StateRefusal>
        ensures answer { answered result ≡ outcome (states_set index number self.old.points) }
        ensures points { self.new ≡
            record self.old {
              points = unless_refused (states_set index number self.old.points)
                  self.old.points;
            } }
    {
        states::set_state(self.points.as_mut_slice(), index, number)
    }

    /// Turns the rule with this number off for good. A rule that is not disabled is refused with `NotSettable`.
    pub fn turn_permanently_off(&mut self, index: u16) -> Result<(), StateRefusal>
        ensures answer { answered result ≡
            outcome (one_set index turned_permanently_off self.old.points) }
        ensures points { self.new ≡
            record self.old {
              points = unless_refused
                  (one_set index turned_permanently_off self.old.points) self.old.points;
            } }
    {
        states::turn_permanently_off(self.points.as_mut_slice(), index)
    }
}

fn is_disabled(mode: LcMode) -> bool
    ensures { result ≡ disabled mode }
{
    match mode {
        LcMode::Active | LcMode::Passive => false,
        LcMode::Disabled => true,
    }
}
