//! A run from memory to memory.

ghost use Rattle.std.specs.Prelude.{◌≡◌, ◌≢◌, ◌≤◌, length, None, IfSome};
ghost use Rattle.flight_core.specs.Compiled.{sources_of};
ghost use Rattle.std.specs.List.{sum};
ghost use Rattle.c_interface.specs.Refusing.{unfit};
ghost use Rattle.c_interface.specs.Running.{IsKeptBehind, IsNotRun, IsUnfit, IsUnscheduled, RunsInMemory, RunsOf};
ghost use Rattle.c_interface.specs.Said.{no_sentence};
ghost use Rattle.c_interface.specs.Texts.{texts_in};

use crate::ending::{UNFIT, end_sentence, ending_in_numbers, no_schedule, not_run};
use crate::error_sentences::{of_lengths, of_no_memory, of_schedule};
use crate::refusal::{NO_MEMORY, Refusal};
use crate::room::{Room, Size};
use crate::sentence::Sentence;
use crate::stream::Stream;
use crate::texts::{are_lengths, texts_in};
use flight_core::{Report, RunError};
use flight_profile::launch;
use schedules::{Schedule, parse_schedule};
use std::alloc::Global;
use std::marker::Brand;

/// The result of a run, as C sees it.
#[repr(C)]
#[derive(Clone, Copy)]
pub struct Run {
    /// How the run ended, in numbers; code 0 at the end of the stream.
    pub ending: Refusal,
    /// How many bytes of the output were written.
    pub written: u64,
    /// The error that ended the run, for people; empty at the end of the stream.
    pub sentence: Sentence,
}

/// Runs into a room, which has as many bytes as the output, and copies what was written to the output's front. Returns how the
/// run ended, and how many bytes were written.
fn run_into<S: Size>(
    alloc: Global,
    texts: &[&[u8]],
    schedule: &Schedule,
    stream: &[u8],
    room: &mut [u8],
    output: &mut [u8],
) -> (Result<Report, RunError>, usize)
    requires room { length room.old ≡ S.size }
    requires output { length output.old ≡ S.size }
    ensures run { RunsInMemory (sources_of texts.now) schedule.now stream.now output.new result.1
        result.0 }
    ensures within { result.1 ≤ length output.new }
    ensures behind { IsKeptBehind result.1 output.old output.new }
{
    let mut reader = Stream::new(stream);
    let writer = Room::<S>::new(room);
    let (answer, writer) = launch(alloc, texts, schedule, &mut reader, writer);
    let bytes = writer.bytes();
    let written = bytes.len();
    output[..written].copy_from_slice(bytes);
    (answer, written)
}

/// Runs, and returns how the run ended and how many bytes were written; `None` if there is no memory for what is written.
fn run_in_memory(
    alloc: Global,
    texts: &[&[u8]],
    schedule: &Schedule,
    stream: &[u8],
    output: &mut [u8],
) -> Option<(Result<Report, RunError>, usize)>
    ensures run { IfSome result (λ told. RunsInMemory (sources_of texts.now) schedule.now
        stream.now output.new told.1 told.0) }
    ensures within { IfSome result (λ told. told.1 ≤ length output.new) }
    ensures behind { IfSome result (λ told. IsKeptBehind told.1 output.old output.new) }
    ensures untouched { result ≡ None → output.new ≡ output.old }
{
    let size = output.len();
    let Ok(mut room) = Vec::from_elem(alloc, 0u8, size) else {
        return None;
    };
    let place = room.as_mut_slice();
    Some(run_into::<Brand>(alloc, texts, schedule, stream, place, output))
}

/// The result where nothing was run.
fn unrun(ending: Refusal, sentence: Sentence) -> Run
    ensures ending { result.ending ≡ ending }
    ensures written { result.written ≡ 0 }
    ensures sentence { result.sentence ≡ sentence }
{
    Run {
        ending,
        written: 0,
        sentence,
    }
}

/// Runs a schedule's text over a stream, with these rule texts.
#[tactic(auto, using(crate::proofs::Memory::full_where_told, crate::proofs::NotRun::not_run, crate::proofs::NotRun::without_memory, crate::proofs::Silent::silent_where_done))]
fn run_scheduled(
    alloc: Global,
    texts: &[&[u8]],
    schedule: &[u8],
    stream: &[u8],
    output: &mut [u8],
) -> Run
    ensures within { result.written ≤ length output.new }
    ensures run { result.ending.of ≢ 4 → RunsOf (sources_of texts.now) schedule.now stream.now
        output.new result.written result.ending result.sentence }
    ensures unrun { result.ending.of ≡ 4 →
        IsUnscheduled schedule.now result.ending result.sentence }
    ensures fit { result.ending.code ≢ unfit }
    ensures behind { IsKeptBehind result.written output.old output.new }
    ensures unwritten { result.ending.of ≡ 4 → result.written ≡ 0 }
    ensures silent { result.ending.code ≡ 0 → result.sentence ≡ no_sentence }
{
    match parse_schedule(alloc, schedule) {
        Ok(slots) => match run_in_memory(alloc, texts, &slots, stream, output) {
            Some((answer, written)) => Run {
                ending: ending_in_numbers(answer),
                written: written as u64,
                sentence: end_sentence(answer),
            },
            None => unrun(not_run(NO_MEMORY, 0), of_no_memory()),
        },
        Err(error) => unrun(no_schedule(error), of_schedule(error)),
    }
}

/// Runs rule texts, which lie one after the other and have these lengths, over a stream with the schedule that a text says.
/// The packets that are sent are written to the front of the output.
#[tactic(auto, using(crate::proofs::NotRun::of_these, crate::proofs::NotRun::out_of_memory_for_texts, crate::proofs::NotRun::unfit_lengths, crate::proofs::NotRun::unscheduled))]
pub fn run_texts(
    alloc: Global,
    texts: &[u8],
    lengths: &[usize],
    schedule: &[u8],
    stream: &[u8],
    output: &mut [u8],
) -> Run
    ensures within { result.written ≤ length output.new }
    ensures run { result.ending.of ≢ 4 → RunsOf (texts_in texts.now lengths.now) schedule.now
        stream.now output.new result.written result.ending result.sentence }
    ensures unrun { result.ending.of ≡ 4 →
        IsNotRun texts.now lengths.now schedule.now result.ending result.sentence }
    ensures unfit { sum lengths.now ≢ length texts.now → IsUnfit result.ending result.sentence }
    ensures fit { result.ending.code ≡ unfit → sum lengths.now ≢ length texts.now }
    ensures behind { IsKeptBehind result.written output.old output.new }
    ensures unwritten { result.ending.of ≡ 4 → result.written ≡ 0 }
    ensures silent { result.ending.code ≡ 0 → result.sentence ≡ no_sentence }
{
    if !are_lengths(lengths, texts.len()) {
        return unrun(not_run(UNFIT, 0), of_lengths());
    }
    match texts_in(alloc, texts, lengths) {
        Ok(texts) => run_scheduled(alloc, texts.as_slice(), schedule, stream, output),
        Err(_) => unrun(not_run(NO_MEMORY, 0), of_no_memory()),
    }
}
