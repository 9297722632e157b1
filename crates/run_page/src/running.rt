//! Runs a stream and collects what its page shows.

ghost use Rattle.std.specs.Prelude.{IfOk, List, ℕ};
ghost use Rattle.flight_core.specs.Compiled.{sources_of};
ghost use Rattle.lc_model.specs.Host.Schedule.{Schedule as Plan};
ghost use Rattle.run_stepper.specs.Stepping.{BeginsWith, IsAtRest, host_in};
ghost use Rattle.run_stepper.specs.Watching.{IsNew};
ghost use Rattle.run_page.specs.Reading.{IsMeasured, IsShown};

use crate::error::ReportError;
use crate::intake::{Intake, Taken};
use crate::observer::PageObserver;
use crate::part::Part;
use crate::progress::Progress;
use crate::shown_part::ShownPart;
use lc_model::ByteSource;
use run_account::RunAccount;
use run_stepper::{Ending, Stepping, read_texts, watch};
use schedules::Schedule;
use std::alloc::Global;

/// What a run over a stream gives for its page.
#[derive(Drop)]
pub struct PageRun<'a, 's> {
    /// The data of the part that is shown.
    pub page: ShownPart<'a, 's>,
    /// What the whole run looked at.
    pub account: RunAccount<'s>,
    /// The size and the hash of the stream.
    pub taken: Taken,
    /// How the run ended.
    pub ending: Ending,
}

/// Takes a whole stream with a new host of these texts under this schedule.
fn watch_new<'a, 's, R: ByteSource, P: Progress>(
    alloc: Global,
    schedule: &'s Schedule,
    texts: &[&'a [u8]],
    part: Part,
    stepping: &mut Stepping,
    reader: &mut R,
    progress: &mut P,
) -> Result<PageRun<'a, 's>, ReportError>
    requires rest { IsAtRest stepping.old }
    requires new { IsNew (host_in stepping.old) }
    ensures rest { IsAtRest stepping.new }
    ensures measured { IfOk result (λ run. IsMeasured (R.source reader.old).rest
        (R.source reader.new).rest run.taken.bytes run.taken.digest) }
    ensures shown { (sources : List (List ℕ)) (schedule : Plan) →
        BeginsWith sources schedule (host_in stepping.old) →
        IfOk result (λ run. IsShown sources schedule (R.source reader.old).rest run.account
        run.ending) }
{
    let texts = read_texts(alloc, texts)?;
    let account = RunAccount::new(alloc, texts.as_slice(), schedule)?;
    let page = ShownPart::new(alloc, texts, schedule, part)?;
    let mut observer = PageObserver {
        page,
        account,
        intake: Intake::new(),
        handled: 0,
        progress,
    };
    let ending = watch(alloc, stepping, reader, &mut observer)?;
    let PageObserver {
        mut page,
        account,
        mut intake,
        ..
    } = observer;
    intake.finish(alloc, ending, reader)?;
    page.finish(account.records())?;
    Ok(PageRun {
        page,
        account,
        taken: intake.into_taken(),
        ending,
    })
}

/// Runs rule texts under a schedule over a stream, record by record, and reads the stream to its end, in pieces of at most 8,192 bytes.
/// Returns the data of the page that shows this part of the run, the account of the whole run, and the stream's size and SHA-256. At most
/// 73,739 bytes of the stream are held.
///
/// Errors: `Rules` with the first text that doesn't compile, numbered from 0; `Memory`; `Read` if a read fails; `Bound` if there are more
/// records, or reads after them, than 64 bits can count.
pub fn watch_run<'a, 's, R: ByteSource, P: Progress>(
    alloc: Global,
    schedule: &'s Schedule,
    texts: &[&'a [u8]],
    part: Part,
    reader: &mut R,
    progress: &mut P,
) -> Result<PageRun<'a, 's>, ReportError>
    ensures measured { IfOk result (λ run. IsMeasured (R.source reader.old).rest
        (R.source reader.new).rest run.taken.bytes run.taken.digest) }
    ensures shown { IfOk result (λ run. IsShown (sources_of texts.now) schedule.now
        (R.source reader.old).rest run.account run.ending) }
{
    let mut stepping = Stepping::new(alloc, texts, schedule)?;
    let run = watch_new(
        alloc,
        schedule,
        texts,
        part,
        &mut stepping,
        reader,
        progress,
    );
    stepping.close();
    run
}
