//! The account of a run up to its newest record.

ghost use Rattle.std.specs.Prelude.{◌≡◌, ◌+◌, ◌++◌, ◌<◌, ◌∷◌, [], List, length, option_map, slice_get, true, IfOk};
ghost use Rattle.flight_core.specs.Records.{most_counted};
ghost use Rattle.flight_profile.specs.Checkers.{engine_among};
ghost use Rattle.run_stepper.specs.Stepping.{IsAtRest, host_in};
ghost use Rattle.run_stepper.specs.Steps.{Step};
ghost use Rattle.run_stepper.specs.Watching.{step_shown};
ghost use Rattle.run_account.specs.Account.{HasCounted, HasPacket, HasSampled, HasSettled, IsAccountOf, clock_of, force_of, lanes_of, packets_of, records_of, requests_after, rows_of, samples_of, schedule_of, steps_back_of, ungiven_of, unsampled_of};
ghost use Rattle.run_account.specs.Lanes.{two_cycles};
ghost use Rattle.run_account.specs.Packets.{brings};
ghost use Rattle.run_account.specs.Samples.{requests_of};

use crate::clock::{RunClock, more_if};
use crate::counts::{RuleRow, count_rows};
use crate::force::KnownText;
use crate::lanes::{Lane, count_lanes, lanes_of, two_cycles};
use crate::packets::{PacketCount, count_packet, mid_in};
use crate::repeats::Repeats;
use crate::requests::{Requests, is_sampled, requests_in};
use crate::results::{no_results, shown_results, take_results};
use crate::texts::{most_rules, packets_of, rows_of};
use lc_model::ApResult;
use limit_engine::Engine;
use rpn_compiler::RuleText;
use run_stepper::Stepping;
use schedules::Schedule;
use std::alloc::{AllocError, Global};

/// What a run looked at, up to its newest record. All counts stop at 2^64 - 1.
#[derive(Drop)]
pub struct RunAccount<'s> {
    schedule: &'s Schedule,
    slot: Option<usize>,
    /// The text in force, by its number among the run's.
    force: KnownText,
    clock: RunClock,
    records: u64,
    steps_back: u64,
    samples: u64,
    ungiven: u64,
    rows: Vec<RuleRow>,
    lanes: Vec<Lane>,
    /// The results of the newest record by rule number, one for each lane, if `has_results`; else old ones.
    results: Vec<Option<ApResult>>,
    has_results: bool,
    packets: Vec<PacketCount>,
    /// The samples that had these results and are not yet counted in `rows` and `lanes`.
    repeats: Repeats,
}

impl<'s> RunAccount<'s> {
    /// The account of a run of these texts under this schedule before its first record. The only error is a lack of memory.
    pub fn new(
        alloc: Global,
        texts: &[RuleText<'_>],
        schedule: &'s Schedule,
    ) -> Result<RunAccount<'s>, AllocError>
        ensures account { IfOk result (λ it. IsAccountOf it []) }
        ensures schedule { IfOk result (λ it. schedule_of it ≡ schedule.now) }
    {
        Ok(RunAccount {
            schedule,
            slot: None,
            force: KnownText::first(),
            clock: RunClock::new(),
            records: 0,
            steps_back: 0,
            samples: 0,
            ungiven: 0,
            rows: rows_of(alloc, texts)?,
            lanes: lanes_of(alloc, schedule, most_rules(texts))?,
            results: no_results(alloc, most_rules(texts))?,
            has_results: false,
            packets: packets_of(alloc, texts)?,
            repeats: Repeats::none(),
        })
    }

    /// Counts a record of which the time is taken already: its packet.
    fn add_packet(&mut self, bytes: &[u8])
        ensures { HasPacket (brings bytes.now) self.old self.new }
    {
        if let Some(mid) = mid_in(bytes) {
            count_packet(self.packets.as_mut_slice(), mid);
        }
    }

    /// Counts the samples that were noted.
    fn settle(&mut self)
        ensures { HasSettled self.old self.new }
    {
        let repeats = self.repeats;
        repeats.count_rows(self.results.as_slice(), self.rows.as_mut_slice());
        repeats.count_lanes(self.results.as_slice(), self.lanes.as_mut_slice());
        self.repeats = Repeats::none();
    }

    /// Notes a sample that repeats those before it.
    fn note_repeat(&mut self)
        requires { self.old.repeats.count < most_counted }
        ensures { self.new ≡ record self.old {
          has_results = true;
          repeats = record {
            count = self.old.repeats.count + 1;
            force = self.old.force.number;
            last = self.old.clock.passed;
            allowed = two_cycles (length self.old.schedule.now) self.old.clock.tick;
          };
        } }
    {
        let allowed = two_cycles(self.schedule, self.clock.tick);
        self.repeats = self.repeats.with(self.force.number, &self.clock, allowed);
        self.has_results = true;
    }

    /// Counts a sample of which the results are in the engine, where none is noted.
    fn count_sample(&mut self, requests: &Requests<'_>, engine: Option<&Engine>)
        ensures { HasCounted self.old self.new (requests_of requests.now)
            (option_map (λ engine. engine.now) engine.entry) }
    {
        let force = self.force.number;
        let results = self.results.as_mut_slice();
        self.has_results = take_results(results, requests, engine);
        let results = shown_results(results, self.has_results);
        count_rows(self.rows.as_mut_slice(), results, requests, engine, force);
        count_lanes(
            self.lanes.as_mut_slice(),
            results,
            requests,
            engine,
            self.schedule,
            &self.clock,
        );
    }

    /// Counts the samples that these requests led to.
    fn add_samples(&mut self, requests: &Requests<'_>, stepping: &Stepping)
        requires { IsAtRest stepping.now }
        ensures { HasSampled self.old self.new (requests_of requests.now)
            (engine_among (host_in stepping.now).host.seats) self.old.force.number }
    {
        self.has_results = false;
        if requests.is_nothing() {
            return;
        }
        let engine = stepping.checker();
        if !is_sampled(requests, engine) {
            return;
        }
        self.samples = self.samples.saturating_add(1);
        let force = self.force.number;
        self.ungiven = more_if(force.is_none(), self.ungiven);
        if self.repeats.is_repeat(
            self.results.as_slice(),
            self.lanes.as_slice(),
            requests,
            engine,
            force,
            &self.clock,
        ) {
            self.note_repeat();
            return;
        }
        self.settle();
        self.count_sample(requests, engine);
    }

    /// Takes the record that was handled last. Returns the requests for samples that it brought.
    pub fn add(&mut self, stepping: &Stepping) -> Requests<'s>
        requires { IsAtRest stepping.now }
        ensures requests { requests_of result ≡
            requests_after self.old (host_in stepping.now).held.last }
        ensures account { (steps : List Step) → IsAccountOf self.old steps →
            IsAccountOf self.new (steps ++ step_shown stepping.now ∷ []) }
        ensures schedule { schedule_of self.new ≡ schedule_of self.old }
    {
        let bytes = stepping.last_record();
        let requests = requests_in(self.schedule, self.slot, bytes);
        self.records = self.records.saturating_add(1);
        let is_back = self.clock.take(bytes);
        self.steps_back = more_if(is_back, self.steps_back);
        self.force = self.force.after(stepping);
        self.add_packet(bytes);
        self.add_samples(&requests, stepping);
        self.slot = stepping.next_slot();
        requests
    }

    /// The number, from 0, of the run's text in force after the last record. None if the tables in force are of none of the run's texts.
    pub fn text_in_force(&self) -> Option<usize>
        ensures { result ≡ force_of self.now }
    {
        self.force.number
    }

    /// The time that has passed over the records.
    pub fn clock(&self) -> &RunClock
        ensures { result.now ≡ clock_of self.now }
    {
        &self.clock
    }

    /// The number of records.
    pub fn records(&self) -> u64
        ensures { result ≡ records_of self.now }
    {
        self.records
    }

    /// The number of records that are earlier than the record before them.
    pub fn steps_back(&self) -> u64
        ensures { result ≡ steps_back_of self.now }
    {
        self.steps_back
    }

    /// The number of records in which a rule was sampled.
    pub fn samples(&self) -> u64
        ensures { result ≡ samples_of self.now }
    {
        self.samples
    }

    /// The number of records in which a rule was sampled while the tables in force were of none of the run's texts.
    pub fn ungiven(&self) -> u64
        ensures { result ≡ ungiven_of self.now }
    {
        self.ungiven
    }

    /// The number of rules of all texts.
    pub fn row_count(&self) -> usize
        ensures { result ≡ length (rows_of self.now) }
    {
        self.rows.len()
    }

    /// A rule of the texts, which are numbered text by text from 0, with its results while its text was in force.
    pub fn row(&self, number: usize) -> Option<RuleRow>
        ensures { result ≡ slice_get (rows_of self.now) number }
    {
        match self.rows.as_slice().get(number) {
            Some(row) => Some(self.repeats.row(self.results.as_slice(), *row)),
            None => None,
        }
    }

    /// The samples of the rules with this number.
    fn lane(&self, rule: usize) -> Option<Lane>
        ensures { result ≡ slice_get (lanes_of self.now) rule }
    {
        match self.lanes.as_slice().get(rule) {
            Some(lane) => Some(self.repeats.lane(self.results.as_slice(), *lane)),
            None => None,
        }
    }

    /// The results of the newest record by rule number, `None` for a rule that was not sampled. Empty if the record sampled nothing.
    pub fn results(&self) -> &[Option<ApResult>] {
        shown_results(self.results.as_slice(), self.has_results)
    }

    /// The packets that came, for each message id that the texts name.
    pub fn packets(&self) -> &[PacketCount]
        ensures { result.now ≡ packets_of self.now }
    {
        self.packets.as_slice()
    }

    /// The time, in 1/65,536 s, in which the rules with this number were not sampled though the schedule asks for it: that of all gaps
    /// between samples, at the run's begin and at its end too, that last longer than two cycles of the schedule.
    pub fn unsampled(&self, rule: usize) -> u64
        ensures { result ≡ unsampled_of rule self.now }
    {
        match self.lane(rule) {
            Some(lane) if lane.is_scheduled => lane.unsampled_until(&self.clock),
            _ => 0,
        }
    }
}
