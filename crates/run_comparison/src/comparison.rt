//! From two rule texts and a stream to the records in which their runs differ.

ghost use Rattle.std.specs.Prelude.{◌≡◌, ℕ, List, [], length, IfOk};
ghost use Rattle.flight_core.specs.Compiled.{sources_of};
ghost use Rattle.run_stepper.specs.Stepping.{BeginsWith, IsAtRest, host_in};
ghost use Rattle.run_stepper.specs.Watching.{IsNew};
ghost use Rattle.run_comparison.specs.Comparing.{HasFound, IsComparison, sources_in};
ghost use Rattle.run_comparison.specs.Failing.{do_events_differ, do_requests_differ, fails_on};

use crate::asked::{Asked, FailOn};
use crate::beside::RunBeside;
use crate::comparing::{Comparing, Found, RunSoFar};
use crate::error::{ComparisonError, Which};
use crate::met::MetRecord;
use crate::texts::{Sides, bytes_of};
use lc_model::ByteSource;
use run_stepper::laws::steps_are_a_run;
use run_stepper::{Ending, Stepping, watch};
use schedules::Schedule;
use std::alloc::Global;

/// Two runs over one stream.
#[derive(Drop)]
pub struct Comparison<'s> {
    /// The records in which the runs differ, in order; or all that led to packets.
    pub records: Vec<MetRecord>,
    /// The sequences that were requested.
    pub asked: Asked,
    pub old: RunSoFar<'s>,
    pub new: RunSoFar<'s>,
    /// How the stream ended, for both runs.
    pub ending: Ending,
}

impl Comparison<'_> {
    /// Whether the requests differ in some record.
    pub fn do_requests_differ(&self) -> bool
        ensures { result ≡ do_requests_differ self.now }
    {
        self.records.iter().any(|met| met.do_requests_differ)
    }

    /// Whether at some record the new text had requested a sequence more often than the old one.
    pub fn has_new_requests(&self) -> bool
        ensures { result ≡ self.now.asked.is_new }
    {
        self.asked.is_new
    }

    /// Whether the comparison fails, if this makes it fail.
    pub fn fails_on(&self, what: FailOn) -> bool
        ensures { result ≡ fails_on what self.now }
    {
        match what {
            FailOn::NewRequests => self.has_new_requests(),
            FailOn::Requests => self.do_requests_differ(),
            FailOn::Differences => self.do_requests_differ() || self.do_events_differ(),
        }
    }

    /// Whether in both runs a rule was sampled.
    pub fn is_sampled(&self) -> bool {
        self.old.account.samples() > 0 && self.new.account.samples() > 0
    }

    /// Whether the events differ in some record.
    pub fn do_events_differ(&self) -> bool
        ensures { result ≡ do_events_differ self.now }
    {
        self.records.iter().any(|met| met.do_events_differ)
    }
}

/// A run of these texts, to which nothing has come.
fn stepping_of(
    alloc: Global,
    texts: &[&[u8]],
    schedule: &Schedule,
    which: Which,
) -> Result<Stepping, ComparisonError>
    ensures rest { IfOk result IsAtRest }
    ensures begun { IfOk result
        (λ it. BeginsWith (sources_of texts.now) schedule.now (host_in it)) }
{
    match Stepping::new(alloc, texts, schedule) {
        Ok(stepping) => Ok(stepping),
        Err(error) => Err(ComparisonError::of(which, error)),
    }
}

/// What was found of two runs, and how their stream ended.
fn comparison_of<'s>(found: Found<'s>, ending: Ending) -> Comparison<'s>
    ensures records { result.records ≡ found.entry.records }
    ensures asked { result.asked ≡ found.entry.asked }
    ensures ending { result.ending ≡ ending }
{
    Comparison {
        records: found.records,
        asked: found.asked,
        old: found.old_run,
        new: found.new_run,
        ending,
    }
}

/// Watches the old text's run with the new text's run beside it. Nothing has come to either.
fn watch_both<'s, R: ByteSource>(
    alloc: Global,
    texts: &[&[u8]],
    schedule: &'s Schedule,
    keeps_all: bool,
    old: &mut Stepping,
    new: RunBeside,
    found: Found<'s>,
    reader: &mut R,
) -> Result<Comparison<'s>, ComparisonError>
    requires rest { IsAtRest old.old }
    requires begun { BeginsWith (sources_of texts.now) schedule.now (host_in new) }
    requires found { HasFound found [] [] }
    requires keeps { found.keeps_all ≡ keeps_all }
    requires first { IsNew (host_in old.old) }
    ensures rest { IsAtRest old.new }
    ensures compared { (olds : List (List ℕ)) → length olds ≡ length (sources_of texts.now) → BeginsWith olds schedule.now (host_in old.old) →
        IfOk result (IsComparison olds (sources_of texts.now) schedule.now keeps_all
        (R.source reader.old).rest (R.source reader.new).rest) }
{
    steps_are_a_run();
    let mut comparing = Comparing::new(new, found);
    let watched = watch(alloc, old, reader, &mut comparing);
    let found = comparing.end();
    match watched {
        Ok(ending) => Ok(comparison_of(found, ending)),
        Err(error) => Err(ComparisonError::from(error)),
    }
}

/// Runs the new text beside the old one, to whose run nothing has come.
fn compare_beside<'s, R: ByteSource>(
    alloc: Global,
    schedule: &'s Schedule,
    old: &mut Stepping,
    texts: &[&[u8]],
    keeps_all: bool,
    found: Found<'s>,
    reader: &mut R,
) -> Result<Comparison<'s>, ComparisonError>
    requires rest { IsAtRest old.old }
    requires found { HasFound found [] [] }
    requires keeps { found.keeps_all ≡ keeps_all }
    requires first { IsNew (host_in old.old) }
    ensures rest { IsAtRest old.new }
    ensures compared { (olds : List (List ℕ)) → length olds ≡ length (sources_of texts.now) → BeginsWith olds schedule.now (host_in old.old) →
        IfOk result (IsComparison olds (sources_of texts.now) schedule.now keeps_all
        (R.source reader.old).rest (R.source reader.new).rest) }
{
    let new = RunBeside::new(stepping_of(alloc, texts, schedule, Which::New)?);
    watch_both(alloc, texts, schedule, keeps_all, old, new, found, reader)
}

/// Runs each of two rule texts over a stream, and compares what each record led to in both runs. The record's requests are compared by
/// sequence, its events by sender, id, type and text without the numbers of rules, both in order; housekeeping is not compared. If
/// `keeps_all`, records in which nothing differs are kept too if they led to packets.
///
/// The stream is read once, in pieces of at most 8,192 bytes. Only the kept records grow with it.
///
/// Errors: `Rules` with the first text that doesn't compile, before anything is read; `Memory`; `Read` if a read fails; `Bound` if there
/// are more records than 64 bits count; `Uneven` if the runs don't have as many texts.
pub fn compare<'s, R: ByteSource>(
    alloc: Global,
    schedule: &'s Schedule,
    sides: Sides<'_, '_>,
    keeps_all: bool,
    reader: &mut R,
) -> Result<Comparison<'s>, ComparisonError>
    ensures { IfOk result (IsComparison (sources_in sides.entry.old.texts.now) (sources_in sides.entry.new.texts.now)
        schedule.now keeps_all (R.source reader.old).rest (R.source reader.new).rest) }
{
    let olds = bytes_of(alloc, sides.old.texts)?;
    let news = bytes_of(alloc, sides.new.texts)?;
    if olds.len() != news.len() {
        return Err(ComparisonError::Uneven);
    }
    let found = Found::new(alloc, sides, schedule, keeps_all)?;
    let mut old = stepping_of(alloc, olds.as_slice(), schedule, Which::Old)?;
    let compared = compare_beside(
        alloc,
        schedule,
        &mut old,
        news.as_slice(),
        keeps_all,
        found,
        reader,
    );
    old.close();
    compared
}
