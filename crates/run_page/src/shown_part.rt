//! The part of a run that a page shows, up to its newest record.

ghost use Rattle.run_stepper.specs.Stepping.{IsAtRest};

use crate::clock::ticks_in;
use crate::part::{Part, Phase};
use crate::telling::Telling;
use rpn_compiler::RuleText;
use run_account::{Requests, RunAccount};
use run_stepper::Stepping;
use schedules::Schedule;
use std::alloc::{AllocError, Global};

/// Where the part of a run that is shown begins.
#[derive(Clone, Copy)]
pub struct PartStart {
    /// The number of records before it.
    pub records: u64,
    /// The number of packets that the run wrote before it.
    pub packets: u64,
    /// The time of its first record, in 1/65,536 s; 0 if it has none.
    pub ticks: u64,
}

/// The beginning of a run.
const AT_ONCE: PartStart = PartStart {
    records: 0,
    packets: 0,
    ticks: 0,
};

/// The data of a page about a part of a run, up to the newest record of the run.
#[derive(Drop)]
pub struct ShownPart<'a, 's> {
    alloc: Global,
    part: Part,
    phase: Phase,
    pub(crate) start: PartStart,
    pub(crate) telling: Telling<'a, 's>,
}

impl<'a, 's> ShownPart<'a, 's> {
    /// The data before the first record of a run of these texts under this schedule.
    pub(crate) fn new(
        alloc: Global,
        texts: Vec<RuleText<'a>>,
        schedule: &'s Schedule,
        part: Part,
    ) -> Result<ShownPart<'a, 's>, AllocError> {
        let telling = Telling::new(alloc, texts, schedule)?;
        Ok(ShownPart {
            alloc,
            part,
            phase: Phase::Before,
            start: AT_ONCE,
            telling,
        })
    }

    /// Comes to this phase, before the record with this time, after this number of records. The only error is a lack of memory.
    fn come_to(&mut self, phase: Phase, ticks: u64, records: u64) -> Result<(), AllocError> {
        if !self.phase.is_left_for(phase) {
            self.phase = phase;
            return Ok(());
        }
        self.telling.begin_anew(self.alloc)?;
        self.start = PartStart {
            records,
            packets: self.telling.account.figures.packets,
            ticks: if phase.is_after() { 0 } else { ticks },
        };
        self.phase = phase;
        Ok(())
    }

    /// Takes a record that was handled, which requested these samples, unless it comes after the part. `run` is the account of the run up to
    /// this record. The only error is a lack of memory.
    pub(crate) fn add(
        &mut self,
        stepping: &Stepping,
        record: &[u8],
        requests: Requests<'_>,
        run: &RunAccount<'_>,
    ) -> Result<(), AllocError>
        requires { IsAtRest stepping.now }
    {
        let ticks = ticks_in(record);
        let phase = self.part.phase_after(self.phase, ticks);
        self.come_to(phase, ticks, run.records().saturating_sub(1))?;
        if phase.is_after() {
            return Ok(());
        }
        self.telling.take(stepping, record, requests, run)
    }

    /// Ends with this number of records: a part that didn't begin is empty. The only error is a lack of memory.
    pub(crate) fn finish(&mut self, records: u64) -> Result<(), AllocError> {
        if !self.phase.is_before() {
            return Ok(());
        }
        self.come_to(Phase::After, 0, records)
    }
}
