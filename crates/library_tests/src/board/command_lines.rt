//! The words of a command line: what their plan holds, and some words that are no command.

use crate::shared::same;
use flight_run_args::{Plan, WordsError, read_words};
use std::process::Abort;

/// The files of a plan, in the order in which the program uses them, after the name of its command.
fn plan_files<'a, R: Abort + AllocGlobal>(
    rt: &R,
    words: &'a [&'a str],
) -> Result<Vec<&'a str>, WordsError> {
    let mut told = Vec::new(rt.alloc());
    match read_words(rt.alloc(), words)? {
        Plan::Stored => told.push("stored").expect(rt, "memory"),
        Plan::Compile { rules, wdt, adt } => told
            .extend_from_slice(&["compile", rules, wdt, adt])
            .expect(rt, "memory"),
        Plan::Run {
            schedule,
            stream,
            out,
            rules,
        } => {
            told.extend_from_slice(&["run", schedule, stream, out])
                .expect(rt, "memory");
            told.extend_from_slice(rules.as_slice())
                .expect(rt, "memory");
        }
    }
    Ok(told)
}

/// Words, and the name and the files of their plan; nothing if the words are refused.
const ROWS: &[(&[&str], &[&str])] = &[
    (&["flight_run"], &["stored"]),
    (
        &["flight_run", "compile", "--", "-a", "--", "help"],
        &["compile", "-a", "--", "help"],
    ),
    (
        &[
            "flight_run",
            "run",
            "one",
            "--out=o=u",
            "--stream",
            "in",
            "two",
            "--schedule=s",
        ],
        &["run", "s", "in", "o=u", "one", "two"],
    ),
    (&["flight_run", "--help"], &[]),
    (&["flight_run", "compile", "a.rules", "w.tbl"], &[]),
];

#[test]
fn plans_and_none(rt: HostRuntime) {
    for (words, expected) in ROWS {
        match plan_files(&rt, words) {
            Ok(found) => same(&rt, *words, found.as_slice(), *expected),
            Err(error) => same(&rt, *words, (error, expected.len()), (WordsError::Usage, 0)),
        }
    }
}
