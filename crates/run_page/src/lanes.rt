//! When the rules of each lane were sampled, and the gaps in which a sample was due and none came.

use lc_model::ApResult;
use page_json::{Gap, LaneSamples};
use run_account::{Lane as Due, RunClock};
use run_summary::Place;
use schedules::Schedule;
use std::alloc::{AllocError, Global};

/// The most gaps of all lanes together; each lane has as many of them, but two at least.
const GAPS: usize = 512;

/// The samples of a lane.
#[derive(Drop)]
struct Lane {
    due: Due,
    samples: LaneSamples,
    /// Where the present gap began, if there is one.
    open: Option<Place>,
}

/// The samples of all lanes.
#[derive(Drop)]
pub struct Lanes {
    lanes: Vec<Lane>,
    /// The number of records in which a rule was sampled.
    samples: u64,
    /// The most gaps of a lane.
    most: usize,
    /// The passed time at which a sample of a lane without a gap is due, if that is known.
    next: u64,
}

/// The passed time up to which the next sample of a lane isn't late.
fn due_of(lane: Due) -> u64 {
    lane.last.saturating_add(lane.allowed)
}

impl Lane {
    /// The time by which its next sample is late at a clock; 0 if it isn't, or in a gap.
    fn late(&self, clock: &RunClock) -> u64 {
        if self.due.is_scheduled && self.open.is_none() {
            return clock.passed.saturating_sub(due_of(self.due));
        }
        0
    }

    /// Ends the present gap, if there is one. The only error is a lack of memory.
    fn end_gap(&mut self, most: usize, place: Place) -> Result<(), AllocError> {
        let Some(from) = self.open else {
            return Ok(());
        };
        self.open = None;
        let gap = Gap {
            from,
            to: place,
            count: 1,
        };
        let gaps = &mut self.samples.gaps;
        if gaps.len() < most {
            gaps.push(gap)?;
            return Ok(());
        }
        if let Some(last) = gaps.pop() {
            gaps.push(last.join(gap))?;
        }
        Ok(())
    }
}

/// Where a gap begins that is found at `place`, this much too late; `before` is the place of the record before it.
fn gap_start(late: u64, before: Place, place: Place) -> Place {
    let back = i64::try_from(late).unwrap_or(i64::MAX);
    Place {
        record: before.record,
        time: place.time.saturating_sub(back).max(before.time),
    }
}

impl Lanes {
    /// Lanes before the first record of a run under this schedule. The only error is a lack of memory.
    pub fn new(alloc: Global, schedule: &Schedule, count: usize) -> Result<Lanes, AllocError> {
        let mut lanes = Vec::new(alloc);
        for rule in 0..count {
            let due = Due::new(schedule, rule);
            lanes.push(Lane {
                due,
                samples: LaneSamples {
                    is_due: due.is_scheduled,
                    records: 0,
                    gaps: Vec::new(alloc),
                },
                open: None,
            })?;
        }
        Ok(Lanes {
            lanes,
            samples: 0,
            most: (GAPS / count.max(1)).max(2),
            next: 0,
        })
    }

    /// The number of records in which a rule was sampled.
    pub fn samples(&self) -> u64 {
        self.samples
    }

    /// The samples of each lane, in order; `end` is the place after the last record. The only error is a lack of memory.
    pub fn into_samples(self, alloc: Global, end: Place) -> Result<Vec<LaneSamples>, AllocError> {
        let most = self.most;
        let mut all = Vec::new(alloc);
        for lane in self.lanes {
            let mut lane = lane;
            lane.end_gap(most, end)?;
            all.push(lane.samples)?;
        }
        Ok(all)
    }

    /// Begins gaps where a sample was due before this record. `before` is the place of the record before it.
    fn begin_gaps(&mut self, clock: &RunClock, before: Place, place: Place) {
        if clock.passed <= self.next {
            return;
        }
        let mut next = u64::MAX;
        for lane in self.lanes.iter_mut() {
            let late = lane.late(clock);
            if late > 0 {
                lane.open = Some(gap_start(late, before, place));
            } else if lane.open.is_none() && lane.due.is_scheduled {
                next = next.min(due_of(lane.due));
            }
        }
        self.next = next;
    }

    /// Takes a record that led to these results of the rules, by their numbers; none if it sampled nothing. `before` is the place of the
    /// record before it. The only error is a lack of memory.
    pub fn take(
        &mut self,
        schedule: &Schedule,
        results: &[Option<ApResult>],
        clock: &RunClock,
        before: Place,
        place: Place,
    ) -> Result<(), AllocError> {
        self.begin_gaps(clock, before, place);
        if results.is_empty() {
            return Ok(());
        }
        let mut is_one = false;
        for (rule, lane) in self.lanes.iter_mut().enumerate() {
            if let Some(Some(_)) = results.get(rule) {
                is_one = true;
                lane.end_gap(self.most, place)?;
                lane.samples.records = lane.samples.records.saturating_add(1);
                lane.due.take(schedule, clock);
                self.next = self.next.min(due_of(lane.due));
            }
        }
        if is_one {
            self.samples = self.samples.saturating_add(1);
        }
        Ok(())
    }

    /// Begins the part of a run that is shown, at this place.
    pub fn begin_anew(&mut self, place: Place) {
        self.samples = 0;
        for lane in self.lanes.iter_mut() {
            lane.samples.records = 0;
            lane.samples.gaps.clear();
            if lane.open.is_some() {
                lane.open = Some(place);
            }
        }
    }
}
