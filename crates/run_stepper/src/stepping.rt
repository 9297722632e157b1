//! A run record by record: after each one the caller can inspect the Limit Checker.

ghost use Rattle.std.specs.Prelude.{◌≡◌, ◌≤◌, length, option_map, IfErr, IfOk, Some};
ghost use Rattle.app_host.specs.Delivered.{executive_in};
ghost use Rattle.flight_core.specs.Compiled.{IsNotCompiled, sources_of};
ghost use Rattle.flight_core.specs.Feeding.{fed_with};
ghost use Rattle.flight_core.specs.Records.{most_held, taken_of};
ghost use Rattle.run_stepper.specs.declared.error.CourseError.TheVariants.{Memory};
ghost use Rattle.run_stepper.specs.Events.{is_type_of_checker_on};
ghost use Rattle.flight_profile.specs.Force.{text_in_force};
ghost use Rattle.flight_profile.specs.Members.{OwnWasClosed};
ghost use Rattle.flight_profile.specs.Checkers.{engine_among, slot_among};
ghost use Rattle.run_stepper.specs.Stepping.{BeginsWith, GoesOn, HandlesAlone, HasHandled, IsAtRest, IsRefusal, host_in, refusal_of, written_by};
ghost use Rattle.run_stepper.specs.Trace.{engine_in, standing_in};
ghost use Rattle.run_stepper.specs.Watching.{IsNew};

use crate::error::CourseError;
use crate::handled::Handled;
use crate::standing::{RuleStanding, standing_in};
use flight_core::{FedHost, Halt, RunError};
use flight_profile::{Member, engine_on, own_stock, slot_on, text_in_force};
use lc_model::{ByteSink, DeviceFault, EventKind};
use limit_engine::Engine;
use rpn_compiler::TablePair;
use schedules::Schedule;
use std::alloc::Global;

/// Collects in memory the packets that one record leads to. A write fails only if memory runs out.
#[derive(Drop)]
struct Written {
    bytes: Vec<u8>,
    failed: bool,
    retried: bool,
}

impl ByteSink for Written {
    ghost sink = { λ it.
        record { gained = Some it.bytes.items; failed = it.failed; retried = it.retried } };

    fn write(&mut self, bytes: &[u8]) -> Result<usize, DeviceFault> {
        self.retried |= self.failed;
        if self.bytes.extend_from_slice(bytes).is_err() {
            self.failed = true;
            return Err(DeviceFault);
        }
        Ok(bytes.len())
    }

    fn failed(&self) -> bool {
        self.failed
    }
}

/// A run record by record, with this profile's applications. The caller feeds the stream, and has to `close` the run.
pub struct Stepping {
    fed: FedHost<Box<Member>>,
    written: Written,
}

/// The error of a run that did not begin.
fn course_error(error: RunError) -> CourseError
    ensures { result ≡ refusal_of error }
{
    match error {
        RunError::Compile { text, error } => CourseError::Rules { text, error },
        _other => CourseError::Memory,
    }
}

impl Stepping {
    /// Compiles the rule texts and creates a host that has not received anything yet.
    ///
    /// Errors: `Rules` with the first text that doesn't compile; `Memory`.
    pub fn new(alloc: Global, texts: &[&[u8]], schedule: &Schedule) -> Result<Stepping, CourseError>
        ensures ready { IfOk result IsAtRest }
        ensures begun { IfOk result
            (λ it. BeginsWith (sources_of texts.now) schedule.now (host_in it)) }
        ensures new { IfOk result (λ it. IsNew (host_in it)) }
        ensures refused { IfErr result (IsRefusal (sources_of texts.now)) }
    {
        let stock = own_stock(alloc, schedule)?;
        match FedHost::new(alloc, texts, stock) {
            Ok(fed) => Ok(Stepping {
                fed,
                written: Written {
                    bytes: Vec::new(alloc),
                    failed: false,
                    retried: false,
                },
            }),
            Err(error) => Err(course_error(error)),
        }
    }

    /// Takes a piece of the stream, and returns how many of its bytes it took: as many as leave at most 73,739 bytes held. After
    /// an invalid record it takes nothing.
    pub fn feed(&mut self, piece: &[u8]) -> usize
        requires ready { IsAtRest self.old }
        ensures ready { IsAtRest self.new }
        ensures taken { result ≡ length (taken_of (host_in self.old).held piece.now) }
        ensures fed { host_in self.new ≡ fed_with piece.now (host_in self.old) }
    {
        self.fed.feed(piece)
    }

    /// Handles the next record, if a whole one is held. `packets` has what it leads to until the next call. The only error is
    /// `Memory`.
    pub fn handle(&mut self) -> Result<Handled, CourseError>
        requires ready { IsAtRest self.old }
        ensures ready { IsAtRest self.new }
        ensures handled { HasHandled (host_in self.old) (host_in self.new) (written_by self.new)
            result }
        ensures alone { GoesOn (host_in self.old) → IfOk result
            (HandlesAlone (host_in self.old) (host_in self.new) (written_by self.new)) }
        ensures memory { IfErr result (λ error. error ≡ Memory) }
    {
        self.written.bytes.clear();
        match self.fed.handle(&mut self.written) {
            Ok(Some(_)) => Ok(Handled::Whole),
            Ok(None) => Ok(Handled::Part),
            Err(Halt::NoRecord) => Ok(Handled::NoRecord),
            Err(_) => Err(CourseError::Memory),
        }
    }

    /// The bytes of the record that was handled last, header and body. Valid until the next `feed`.
    pub fn last_record(&self) -> &[u8]
        ensures { result.now ≡ (host_in self.now).held.last }
    {
        self.fed.last_record()
    }

    /// How many bytes of the stream are held and not handled yet, at most 73,739.
    pub fn held_size(&self) -> usize
        ensures held { result ≡ length (host_in self.now).held.bytes }
        ensures few { length (host_in self.now).held.bytes ≤ most_held }
    {
        self.fed.held_size()
    }

    /// The packets that the last call of `handle` wrote, one after the other; none if it handled no record.
    pub fn packets(&self) -> &[u8]
        ensures { result.now ≡ written_by self.now }
    {
        self.written.bytes.as_slice()
    }

    /// The engine of the running Limit Checker; of several the one on the lowest seat. None if none runs.
    pub fn checker(&self) -> Option<&Engine>
        requires { IsAtRest self.now }
        ensures { option_map (λ engine. engine.now) result ≡
            engine_among (host_in self.now).host.seats }
    {
        engine_on(self.fed.host())
    }

    /// The state and last result of the rule with this number, from 0.
    pub fn rule_standing(&self, rule: usize) -> RuleStanding
        requires { IsAtRest self.now }
        ensures { result ≡ standing_in
            (engine_in (executive_in (host_in self.now).host).seats) rule }
    {
        standing_in(self.checker(), rule)
    }

    /// The number, from 0, of the rule text in force among those that these table files are of: the first whose images are the
    /// active ones of both tables. None if there is no such text.
    pub fn text_in_force(&self, pairs: &[TablePair]) -> Option<usize>
        ensures { result ≡ text_in_force pairs.now (executive_in (host_in self.now).host) }
    {
        text_in_force(self.fed.host(), pairs)
    }

    /// The table files of the rule texts, in order.
    pub fn files(&self) -> &[TablePair]
        ensures { result.now ≡ (host_in self.now).files }
    {
        self.fed.files()
    }

    /// The number, from 0, of the rule text in force among the run's own texts: the first whose images are the active ones of both
    /// tables. None if the tables in force are of none of them.
    pub fn own_text_in_force(&self) -> Option<usize>
        ensures { result ≡ text_in_force (host_in self.now).files
            (executive_in (host_in self.now).host) }
    {
        text_in_force(self.fed.host(), self.fed.files())
    }

    /// The slot of the schedule, from 0, that the next tick publishes. None if no scheduler runs.
    pub fn next_slot(&self) -> Option<usize>
        requires { IsAtRest self.now }
        ensures { result ≡ slot_among (host_in self.now).host.seats }
    {
        slot_on(self.fed.host())
    }

    /// Whether events of this type are on for the Limit Checker; false if none is registered.
    pub fn is_type_on(&self, kind: EventKind) -> bool
        ensures { result ≡ is_type_of_checker_on kind (executive_in (host_in self.now).host) }
    {
        self.fed.host().is_type_on(b"LC", kind)
    }

    /// Ends the run: all running applications are retired, and all applications dropped.
    pub fn close(self)
        requires { IsAtRest self }
        ensures closed { OwnWasClosed (host_in self).host }
    {
        let Stepping { fed, written: _ } = self;
        fed.close();
    }
}
