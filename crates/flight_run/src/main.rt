//! The program: rule texts are compiled to table files, or a host runs over a stream of records. Without words it runs the
//! low-volts rule in memory.
#![tactic(auto)]

ghost use Rattle.std.specs.Prelude.{◌≡◌, ◌<◌, length, map, IfErr, IfOk, IsOk};
ghost use Rattle.flight_run_args.specs.Words.{GiveAPlan};
ghost use Rattle.flight_run.specs.Answer.{status_by};
ghost use Rattle.flight_run.specs.Dispatch.{IsAskedFor, IsStoppedFor};

mod answering;
mod compiling;
mod done;
mod fault;
mod lines;
mod place;
mod running;
mod stored;

use crate::answering::{print_result, status_by};
use crate::done::Done;
use crate::fault::Fault;
use flight_run_args::{Plan, read_words};
use program_io::{Disk, Shell, arguments_of, lend_words};
use std::alloc::Global;
use std::fs::Files;
use std::io::{Eprint, Print};
use std::process::ExitCode;

/// Does what the words say, the program's name first, and returns the exit status. It prints what was done on standard output;
/// what ends the program with another status than 0, in a line on standard error.
pub fn main_on<R: Files + Print + Eprint + AllocGlobal>(rt: &R, words: &[&str]) -> u8 {
    let mut shell = Shell::new(rt);
    match obey(rt.alloc(), &mut shell, words) {
        Ok(done) => tell(rt, &print_result(print!(rt; "{done}"))),
        Err(fault) => tell(rt, &Err(fault)),
    }
}

/// Does what the words say.
fn obey<'a, D: Disk>(alloc: Global, disk: &mut D, words: &'a [&'a str]) -> Result<Done, Fault<'a>>
    ensures done { IfOk result (IsAskedFor (map (λ word. word.now) words.entry.now)
        (D.calls disk.old) (D.calls disk.new)) }
    ensures stops { IfErr result (IsStoppedFor (map (λ word. word.now) words.entry.now)
        (D.calls disk.old) (D.calls disk.new)) }
    ensures given { 1 < length words.entry.now → IsOk result →
        GiveAPlan (map (λ word. word.now) words.entry.now) }
{
    match read_words(alloc, words)? {
        Plan::Stored => stored::run_stored(alloc),
        Plan::Compile { rules, wdt, adt } => compiling::compile_files(alloc, disk, rules, wdt, adt),
        Plan::Run {
            schedule,
            stream,
            out,
            rules,
        } => running::run_files(alloc, disk, schedule, stream, out, rules.as_slice()),
    }
}

/// Prints the fault on standard error, if there is one, and returns the status.
fn tell<R: Eprint>(rt: &R, answer: &Result<(), Fault<'_>>) -> u8
    ensures { result ≡ status_by answer.now }
{
    if let Err(fault) = answer {
        let _said = eprintln!(rt; "{fault}");
    }
    status_by(answer)
}

/// Does what the words of the command line say, and returns the exit status.
fn main(rt: HostRuntime) -> ExitCode {
    let own = match arguments_of(&rt) {
        Ok(own) => own,
        Err(error) => return ExitCode::from(tell(&rt, &Err(Fault::from(error)))),
    };
    match lend_words(rt.alloc(), own.as_slice()) {
        Ok(words) => ExitCode::from(main_on(&rt, words.as_slice())),
        Err(_) => ExitCode::from(tell(&rt, &Err(Fault::Memory))),
    }
}
