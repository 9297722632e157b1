//! Whole runs as data: each folder of `data/` is a row, which the program plays and compares with what the row expects. A row's
//! `row.txt` says what its run is made of, a line each, where a FILE is a path from `data/`:
//!
//! - `schedule FILE`;
//! - `rules FILE`, for each rule text, in the order of their numbers;
//! - `scenario FILE`, the script that says the stream, or `stream FILE`, the stream itself;
//! - `cut N`, after these, if the stream ends after its first N bytes;
//! - `effort`, where the engine's own count of its work is expected, too.
//!
//! Its `expected.txt` says how the run ends, the SHA-256 of what it writes, that effort, and a line for each packet. The
//! folder `texts` has the rule texts and schedules of many rows, and is not a row. `data/README.md` says how to write a row.
//!
//! A line is printed for each row, in the order of their names, and the gate compares these lines with `stdout`: a row that
//! isn't as expected, one whose files can't be used, one that is new and one that is gone each make a difference there.
//!
//! With words it measures how fast calls are: lexer, checker and compiler over a file's rule text, and the engine over a
//! file's packets of 16 bytes each; `tools/dev/measure` makes the files. It prints the amount of one measurement and its least
//! time in nanoseconds.
#![tactic(auto)]

mod effort;
mod engine;
mod engine_speed;
mod files;
mod folders;
mod judging;
mod measuring;
mod outcome;
mod row;
mod text_speed;

use crate::engine_speed::{measure_samples, measure_telemetry};
use crate::files::read;
use crate::folders::row_names;
use crate::judging::{TextVerdict, judge, line};
use crate::outcome::outcome;
use crate::row::Row;
use crate::text_speed::{measure_checker, measure_compiler, measure_lexer};
use std::{env, fs};

/// What a row's run gives, in the form of what is expected.
fn play(rt: &HostRuntime, name: &str) -> anyhow::Result<Vec<u8>> {
    let row = Row::read(rt, name)?;
    outcome(rt.alloc(), &row)
}

/// Plays a row, and prints whether it is as expected, or the first line that isn't.
fn show(rt: &HostRuntime, name: &str) -> anyhow::Result<()> {
    let found = play(rt, name)?;
    let expected = read(rt, name, "expected.txt")?;
    match judge(found.as_slice(), expected.as_slice()) {
        TextVerdict::AsExpected => println!(rt; "{name}: as expected")?,
        TextVerdict::Differs(number) => {
            let found = line(found.as_slice(), number);
            let expected = line(expected.as_slice(), number);
            println!(rt; "{name}: line {number} is `{found}` and not `{expected}`")?;
        }
    }
    Ok(())
}

/// Plays all rows.
fn show_all(rt: &HostRuntime) -> anyhow::Result<()> {
    for name in &row_names(rt)? {
        if let Err(error) = show(rt, name.as_str()) {
            println!(rt; "{name}: {error}")?;
        }
    }
    Ok(())
}

/// Measures the call that the word names; for another word, prints the usage.
fn measure(rt: &HostRuntime, what: &str, text: &[u8], packets: &[u8]) -> anyhow::Result<()> {
    match what {
        "lexer" => measure_lexer(rt, text),
        "checker" => measure_checker(rt, text),
        "compiler" => measure_compiler(rt, text),
        "telemetry" => measure_telemetry(rt, text, packets),
        "samples" => measure_samples(rt, text, packets),
        _ => print_usage(rt),
    }
}

/// Prints the usage.
fn print_usage(rt: &HostRuntime) -> anyhow::Result<()> {
    println!(rt; "usage: run_rows [lexer|checker|compiler|telemetry|samples RULES PACKETS]")?;
    Ok(())
}

/// Measures over the files with these names.
fn measure_files(rt: &HostRuntime, what: &str, rules: &str, packets: &str) -> anyhow::Result<()> {
    let text = fs::read(rt, rules)?;
    let packets = fs::read(rt, packets)?;
    measure(rt, what, text.as_slice(), packets.as_slice())
}

/// Without a word plays all rows; with words measures a call.
fn main(rt: HostRuntime) -> anyhow::Result<()> {
    let mut words = env::args(&rt)?.skip(1);
    match (words.next(), words.next(), words.next()) {
        (None, _, _) => show_all(&rt),
        (Some(what), Some(rules), Some(packets)) => measure_files(
            &rt,
            what.as_str(),
            rules.as_str(),
            packets.as_str(),
        ),
        _ => print_usage(&rt),
    }
}
