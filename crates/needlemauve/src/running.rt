//! A run from memory to memory.

ghost use Rattle.std.specs.Prelude.{◌≡◌, ◌≢◌, ◌≤◌, length};
ghost use Rattle.std.specs.List.{sum};
ghost use Rattle.c_interface.specs.Refusing.{unfit};
ghost use Rattle.c_interface.specs.Running.{IsKeptBehind, IsNotRun, IsUnfit, RunsOf};
ghost use Rattle.c_interface.specs.Said.{no_sentence};
ghost use Rattle.c_interface.specs.Texts.{texts_in};

use c_interface::{Run, run_texts};
use std::alloc::Global;

/// Runs rule texts, which lie one after the other, over a stream, and returns 0 or the number of what ended the run.
#[unsafe(no_mangle)]
pub extern "C" fn needlemauve_run(
    alloc: Global,
    texts: &[u8],
    lengths: &[usize],
    schedule: &[u8],
    stream: &[u8],
    output: &mut [u8],
    told: &mut Run,
) -> u32
    ensures answered { result ≡ told.new.ending.code }
    ensures within { told.new.written ≤ length output.new }
    ensures run { told.new.ending.of ≢ 4 → RunsOf (texts_in texts.now lengths.now) schedule.now
        stream.now output.new told.new.written told.new.ending told.new.sentence }
    ensures unrun { told.new.ending.of ≡ 4 →
        IsNotRun texts.now lengths.now schedule.now told.new.ending told.new.sentence }
    ensures unfit { sum lengths.now ≢ length texts.now →
        IsUnfit told.new.ending told.new.sentence }
    ensures fit { result ≡ unfit → sum lengths.now ≢ length texts.now }
    ensures behind { IsKeptBehind told.new.written output.old output.new }
    ensures unwritten { told.new.ending.of ≡ 4 → told.new.written ≡ 0 }
    ensures silent { told.new.ending.code ≡ 0 → told.new.sentence ≡ no_sentence }
{
    *told = run_texts(alloc, texts, lengths, schedule, stream, output);
    told.ending.code
}
