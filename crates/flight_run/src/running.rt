//! `run --schedule S --stream IN --out OUT RULES..`

ghost use Rattle.std.specs.Prelude.{◌≡◌, [], ◌∷◌, List, ℕ, Ok, Some, None, false, length, map, IfErr, IfOk};
ghost use Rattle.lc_model.specs.Host.Outcome.{devices};
ghost use Rattle.lc_model.specs.Host.ScheduleText.{schedule_in};
ghost use Rattle.flight_profile.specs.Stock.{own_mission};
ghost use Rattle.flight_run.specs.Commands.{IsEnded, IsRunDone};
ghost use Rattle.flight_run.specs.Dispatch.{IsFlown, IsRunStopped};
ghost use Rattle.flight_run.specs.Flown.{Flies};
ghost use Rattle.flight_run.specs.Stops.{StopsIn};
ghost use Rattle.program_io.specs.FileCall.{Reads, followed_by};

use crate::done::Done;
use crate::fault::Fault;
use flight_profile::launch;
use lc_model::{ByteSink, ByteSource};
use program_io::{Disk, check_apart, read_texts, read_whole_text};
use schedules::{Schedule, parse_schedule};
use std::alloc::{AllocError, Global};

/// The schedule in a file.
fn schedule_in<'a, D: Disk>(
    alloc: Global,
    disk: &mut D,
    name: &'a str,
) -> Result<Schedule, Fault<'a>>
    ensures said { IfOk result (λ schedule. (text : List ℕ) ×
        (schedule_in text ≡ Ok schedule) ×
        (D.calls disk.new ≡ followed_by (D.calls disk.old)
        (Reads name.entry.now (Some text) ∷ []))) }
    ensures stops { IfErr result
        (StopsIn (Reads name.entry.now None ∷ []) (D.calls disk.old) (D.calls disk.new)) }
{
    let text = read_whole_text(disk, name)?;
    let schedule = parse_schedule(alloc, text.as_slice())?;
    Ok(schedule)
}

/// Lends the texts as slices.
fn slices_of<'a>(alloc: Global, texts: &'a [Vec<u8>]) -> Result<Vec<&'a [u8]>, AllocError>
    ensures { IfOk result
        (λ slices. map (λ slice. slice.now) slices.items ≡ map (λ text. text.items) texts.now) }
{
    let mut slices = Vec::new(alloc);
    for text in texts {
        slices.push(text.as_slice())?;
    }
    Ok(slices)
}

/// All that the program does between its files and its exit, over any reader and any device, which is returned: the host runs
/// with four Limit Checkers, two schedulers and two counters in stock. The program prints the result by its `Display`, and
/// exits with its status. Conditions: nothing was read or failed yet.
pub fn run_devices<'a, R: ByteSource, W: ByteSink + Drop>(
    alloc: Global,
    texts: &[&[u8]],
    plan: &Schedule,
    reader: &mut R,
    device: W,
) -> (Result<Done, Fault<'a>>, W)
    requires unread { (R.source reader.old).reads ≡ 0 }
    requires readable { (R.source reader.old).failed ≡ false }
    requires writable { (W.sink device).failed ≡ false }
    ensures flies { let before_and_after = devices (R.source reader.old) (R.source reader.new)
        (W.sink device) (W.sink result.1) in
        Flies (own_mission texts.now plan.now) before_and_after result.0 }
    ensures flown { IfOk result.0 IsFlown }
{
    let (answer, device) = launch(alloc, texts, plan, reader, device);
    match answer {
        Ok(report) => (Ok(Done::Flown(report)), device),
        Err(error) => (Err(Fault::from(error)), device),
    }
}

/// Closes the output, and returns what came of the run. If nothing was run, since a text is refused or memory ran out, the output stays
/// as it was. Error: `File` if the run went well, but wrote nothing, and the output's old bytes can't be removed.
fn end_output<'a, D: Disk>(
    disk: &mut D,
    out: &'a str,
    device: D::Device,
    ran: Result<Done, Fault<'a>>,
) -> Result<Done, Fault<'a>>
    ensures { IsEnded out.entry.now (D.Device.sink device) (D.calls disk.old) (D.calls disk.new)
        ran.entry result }
{
    match ran {
        Ok(done) => match disk.close(device) {
            Ok(()) => Ok(done),
            Err(_) => Err(Fault::File(out)),
        },
        Err(fault) => {
            match fault {
                Fault::Text(_) | Fault::Memory => disk.leave(device),
                Fault::Schedule(_) | Fault::Words(_) | Fault::File(_) | Fault::Run(_) => {
                    let _ = disk.close(device);
                }
            }
            Err(fault)
        }
    }
}

/// Opens the files in this order: the schedule, the rule texts, the stream, and the output, which must be none of the others. Then
/// the texts are compiled, and the host runs from the stream's file to the output's; each byte of the output is given to the device
/// once. If a text is refused, the output stays as it was.
pub fn run_files<'a, D: Disk>(
    alloc: Global,
    disk: &mut D,
    schedule: &'a str,
    stream: &'a str,
    out: &'a str,
    rules: &[&'a str],
) -> Result<Done, Fault<'a>>
    ensures done { IfOk result (λ done. IsRunDone schedule.entry.now stream.entry.now
        out.entry.now (map (λ name. name.now) rules.now)
        (D.calls disk.old) (D.calls disk.new) (Ok done)) }
    ensures stops { IfErr result (IsRunStopped schedule.entry.now stream.entry.now out.entry.now
        (map (λ name. name.now) rules.now) (D.calls disk.old) (D.calls disk.new)) }
{
    let plan = schedule_in(alloc, disk, schedule)?;
    let texts = read_texts(alloc, disk, rules)?;
    let slices = slices_of(alloc, texts.as_slice())?;
    let Ok(mut reader) = disk.open(stream) else {
        return Err(Fault::File(stream));
    };
    check_apart(disk, out, &[schedule, stream])?;
    check_apart(disk, out, rules)?;
    let Ok(device) = disk.create(out) else {
        return Err(Fault::File(out));
    };
    let (ran, device) = run_devices(alloc, slices.as_slice(), &plan, &mut reader, device);
    end_output(disk, out, device, ran)
}
