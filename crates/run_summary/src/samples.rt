//! The samples that count for a request: those in which a rule failed in a row.

use crate::place::{Place, Stand};
use crate::plans::Part;
use crate::seen::{Met, Seen, met_of};
use std::alloc::{AllocError, Global};

/// What a rule's comparisons met in a sample in which it failed.
#[derive(Drop)]
pub struct Sample {
    place: Place,
    met: Vec<Met>,
}

impl Sample {
    /// The place of the sample.
    pub fn place(&self) -> Place {
        self.place
    }

    /// What the rule's comparisons met, from left to right.
    pub fn comparisons(&self) -> &[Met] {
        self.met.as_slice()
    }

    /// A copy of the sample. The only error is a lack of memory.
    pub(crate) fn same(&self, alloc: Global) -> Result<Sample, AllocError> {
        let met = Vec::from_slice(alloc, self.met.as_slice())?;
        Ok(Sample {
            place: self.place,
            met,
        })
    }

    /// The sample's memory, cleared for another sample.
    fn into_room(self) -> Vec<Met> {
        let mut met = self.met;
        met.clear();
        met
    }
}

/// How often a rule failed in a row, and the first three and the last three samples of that row.
#[derive(Drop)]
pub(crate) struct FailRun {
    fails: u16,
    samples: Vec<Sample>,
    /// Whether the row ended in the newest record, after a request.
    is_over: bool,
}

/// The number of first samples of a row that are kept, and the number of all that are.
const FRONT: usize = 3;

const ALL: usize = 6;

/// What these comparisons meet. The only error is a lack of memory.
fn meet(room: Vec<Met>, parts: &[Part], all: &[Seen<'_>]) -> Result<Vec<Met>, AllocError> {
    let mut met = room;
    for part in parts {
        met.push(met_of(all, part.field))?;
    }
    Ok(met)
}

/// Makes room for one sample more, and returns empty memory for what it meets.
fn make_room(alloc: Global, samples: &mut Vec<Sample>) -> Vec<Met> {
    if samples.len() < ALL {
        return Vec::new(alloc);
    }
    samples.remove(FRONT).into_room()
}

/// Adds a sample with what these comparisons meet. The only error is a lack of memory.
fn add_sample(
    alloc: Global,
    samples: &mut Vec<Sample>,
    place: Place,
    parts: &[Part],
    all: &[Seen<'_>],
) -> Result<(), AllocError> {
    let room = make_room(alloc, samples);
    let met = meet(room, parts, all)?;
    samples.push(Sample { place, met })?;
    Ok(())
}

/// Clears the samples if a new row of failures begins.
fn begin_row(samples: &mut Vec<Sample>, fails: u16, before: u16) {
    if fails < before || fails == 1 {
        samples.clear();
    }
}

impl FailRun {
    pub(crate) fn new(alloc: Global) -> FailRun {
        FailRun {
            fails: 0,
            samples: Vec::new(alloc),
            is_over: false,
        }
    }

    pub(crate) fn samples(&self) -> &[Sample] {
        self.samples.as_slice()
    }

    /// Takes the rule after a record. If it failed once more, or made a request before it passed in the same record (`is_asked`), keeps
    /// what its comparisons met. The only error is a lack of memory.
    pub(crate) fn take(
        &mut self,
        alloc: Global,
        place: Place,
        stand: Stand,
        is_asked: bool,
        parts: &[Part],
        all: &[Seen<'_>],
    ) -> Result<(), AllocError> {
        if self.is_over {
            self.samples.clear();
            self.is_over = false;
        }
        if is_asked && stand.fails <= self.fails {
            self.fails = stand.fails;
            self.is_over = true;
            return add_sample(alloc, &mut self.samples, place, parts, all);
        }
        if stand.fails == self.fails {
            return Ok(());
        }
        if stand.fails == 0 {
            self.fails = 0;
            self.samples.clear();
            return Ok(());
        }
        begin_row(&mut self.samples, stand.fails, self.fails);
        self.fails = stand.fails;
        add_sample(alloc, &mut self.samples, place, parts, all)
    }
}

/// The word for the result of a comparison: `stale` if there is no packet, `error` if the packet ended before the field, else `true` or
/// `false`.
pub fn verdict(part: Part, met: Met) -> &'static str {
    match met.place {
        None => "stale",
        Some(_) => match met.value {
            None => "error",
            Some(value) => if part.op.holds(value, part.number) {
                "true"
            } else {
                "false"
            },
        },
    }
}
