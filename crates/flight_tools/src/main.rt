//! The second program, for a flight team: lists tables, streams, packets and runs as text, writes streams from scripts, checks rules, and
//! runs streams as they come.
#![tactic(auto)]

ghost use Rattle.std.specs.Prelude.{◌≡◌};
ghost use Rattle.flight_tools.specs.Words.{fault_of_words};
ghost use Rattle.tool_faults.specs.Status.{status_by};

mod serving;

use check_command::{CheckOptions, check, compare_texts, explain, told};
use flight_tools_args::{CommandPlan, WordsError, read_words};
use program_io::{Lasting, STANDARD, arguments_of, lend_words};
use run_commands::{CompareOptions, ComparedFiles, PageTimes};
use std::fs::Files;
use std::io::{self, BufWriter, Eprint, Input, IsTerminal, Print, Read, Write};
use std::process::ExitCode;
use tool_faults::Fault;

/// Does what the words ask for, with the program's name first, and returns the exit status (docs/TOOLS.md).
/// Listings, help and live packets go to standard output, all else to standard error; so does progress if
/// `is_watched`. Output that fails is not tried again.
pub fn main_on<R: Files + Input + Print + Eprint + AllocGlobal>(
    rt: &R,
    words: &[&str],
    is_watched: bool,
) -> u8 {
    let Ok(mut out) = BufWriter::new(rt.alloc(), io::writer(rt)) else {
        return tell(rt, &Err(Fault::Memory));
    };
    let answer = match obey(rt, words, rt.reader(), &mut out, is_watched) {
        Ok(()) => Ok(()),
        Err(fault) => Err(told(rt, fault)),
    };
    let (_output, _unwritten) = out.into_parts();
    tell(rt, &answer)
}

/// The fault for words that are no command.
fn words_fault(error: WordsError) -> Fault<'static>
    ensures { result ≡ fault_of_words error }
{
    match error {
        WordsError::Refused(error) => Fault::Words(error),
        WordsError::Replaced(option, advice) => Fault::Replaced(option, advice),
        WordsError::Memory => Fault::Memory,
    }
}

/// Whether a command passes on what comes, so that it ends where nobody takes what it prints.
fn passes_on(plan: &CommandPlan<'_>) -> bool {
    match plan {
        CommandPlan::Live { .. } | CommandPlan::LanguageServer => true,
        CommandPlan::Import { out, .. } => *out == STANDARD,
        _ => false,
    }
}

/// Does what the words ask for. What reads standard input reads `input` in its place; listings and packets go to
/// `out` in place of standard output; where that has lost its reader, commands that pass nothing on go on to the end of what they judge.
/// The error is the command's fault, which `tell` prints.
fn obey<'a, R: Files + Eprint + AllocGlobal, I: Read + Drop, W: Write>(
    rt: &R,
    words: &'a [&'a str],
    input: I,
    out: &mut W,
    is_watched: bool,
) -> Result<(), Fault<'a>> {
    let plan = read_words(rt.alloc(), words).map_err(words_fault)?;
    let out = &mut Lasting::new(out, !passes_on(&plan));
    match plan {
        CommandPlan::Said(text) => file_commands::write_help(&text, out),
        CommandPlan::Table { file, watchpoints } => file_commands::table(
            rt,
            file,
            watchpoints,
            out,
        ),
        CommandPlan::Stream {
            stream,
            rules,
            whole,
            rows,
        } => file_commands::stream(rt, stream, rules.as_slice(), whole, rows, out),
        CommandPlan::Packets {
            packets,
            rules,
            rows,
        } => file_commands::packets(rt, packets, rules.as_slice(), rows, out),
        CommandPlan::Scenario {
            script,
            out: stream,
            rules,
        } => run_commands::make_stream(rt, script, stream, rules),
        CommandPlan::Report {
            schedule,
            stream,
            out: page,
            rules,
            how,
        } => {
            let rules = rules.as_slice();
            let times = PageTimes {
                epoch: how.epoch,
                from: how.from,
                until: how.until,
            };
            run_commands::make_page(rt, schedule, stream, page, rules, times, is_watched)
        }
        CommandPlan::Check {
            schedule,
            rules,
            all,
            strict,
            json,
        } => {
            let asked = CheckOptions {
                is_all: all,
                is_strict: strict,
                is_json: json,
            };
            check(rt, schedule, rules.as_slice(), asked, out)
        }
        CommandPlan::Explain { name } => explain(rt.alloc(), name, out),
        CommandPlan::Import {
            raw,
            out: stream,
            how,
        } => file_commands::import(rt, raw.as_slice(), stream, how, input, out),
        CommandPlan::Format { rules, check } => {
            file_commands::format(rt, rules.as_slice(), check, input, out)
        }
        CommandPlan::LanguageServer => serving::serve(rt.alloc(), input, out),
        CommandPlan::Export { stream, out: raw } => file_commands::export(rt, stream, raw),
        CommandPlan::Changes { old, new } => compare_texts(rt, old, new, out),
        CommandPlan::Compare {
            schedule,
            stream,
            old,
            new,
            further,
            json,
            fail_on,
        } => {
            let files = ComparedFiles {
                schedule,
                stream,
                old,
                new,
                further: further.as_slice(),
            };
            let how = CompareOptions {
                is_json: json,
                fail_on,
            };
            run_commands::compare(rt, files, how, out)
        }
        CommandPlan::Try {
            scripts,
            schedule,
            rules,
            strict,
        } => {
            let scripts = scripts.as_slice();
            run_commands::try_out(rt, scripts, schedule, rules.as_slice(), strict, out)
        }
        CommandPlan::Live { schedule, rules } => run_commands::run(
            rt,
            schedule,
            rules.as_slice(),
            input,
            out,
        ),
    }
}

/// Prints the fault on standard error, if there is one, and returns the exit status, 0 without a fault.
fn tell<R: Eprint>(rt: &R, answer: &Result<(), Fault<'_>>) -> u8
    ensures { result ≡ status_by answer.now }
{
    match answer {
        Ok(()) => 0,
        Err(fault) => {
            let _said = eprint!(rt; "{fault}");
            fault.status()
        }
    }
}

/// Does what the words of the command line say, and returns the exit status.
fn main(rt: HostRuntime) -> ExitCode {
    let own = match arguments_of(&rt) {
        Ok(own) => own,
        Err(error) => return ExitCode::from(tell(&rt, &Err(Fault::from(error)))),
    };
    let is_watched = rt.stderr().is_terminal();
    match lend_words(rt.alloc(), own.as_slice()) {
        Ok(words) => ExitCode::from(main_on(&rt, words.as_slice(), is_watched)),
        Err(_) => ExitCode::from(tell(&rt, &Err(Fault::Memory))),
    }
}
