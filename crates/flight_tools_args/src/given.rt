//! The plan of a command that was found.

ghost use Rattle.std.specs.Prelude.{◌≡◌, codes, option_map, IfOk, IfSome, IsSomeAnd, None, Some};
ghost use Rattle.clap.specs.Words.{first_of, found_of, rows_of, subcommand_rows_of};
ghost use Rattle.flight_tools_args.specs.Words.{HasWords, HoldsForm, HoldsImport, HoldsPage, HoldsRows, HoldsWords, word_of};

use crate::found::{file_of, flag, option_value, option_values, words_of};
use crate::kind::{CommandKind, kind_of};
use crate::plan::{CommandPlan, ImportWords, PageWords, RowWords};
use clap::ArgMatches;
use std::alloc::{AllocError, Global};

/// The plan of the command that `clap` found; `None` if a word of it is missing. The only error is a lack of memory.
pub fn given_plan<'a>(
    alloc: Global,
    matches: &ArgMatches<'a>,
) -> Result<Option<CommandPlan<'a>>, AllocError>
    ensures { IfOk result (λ plan. IfSome plan
        (λ plan. IsSomeAnd (subcommand_rows_of matches.now) (λ command. HoldsRows command plan))) }
{
    match matches.subcommand() {
        Some((word, found)) => match kind_of(word) {
            Some(kind) => plan_by(alloc, kind, found),
            None => Ok(None),
        },
        None => Ok(None),
    }
}

/// The plan of a command of this kind.
fn plan_by<'a>(
    alloc: Global,
    kind: CommandKind,
    found: &ArgMatches<'a>,
) -> Result<Option<CommandPlan<'a>>, AllocError>
    ensures { IfOk result (λ plan. IfSome plan
        (HoldsRows (word_of kind, rows_of (found_of found.now)))) }
{
    match kind {
        CommandKind::Table => Ok(table_plan(found)),
        CommandKind::Stream => stream_plan(alloc, found),
        CommandKind::Packets => packets_plan(alloc, found),
        CommandKind::Scenario => Ok(scenario_plan(found)),
        CommandKind::Import => import_plan(alloc, found),
        CommandKind::Export => Ok(export_plan(found)),
        CommandKind::Report => report_plan(alloc, found),
        CommandKind::Check => check_plan(alloc, found),
        CommandKind::Changes => Ok(changes_plan(found)),
        CommandKind::Compare => compare_plan(alloc, found),
        CommandKind::Try => try_plan(alloc, found),
        CommandKind::Live => live_plan(alloc, found),
        CommandKind::Format => format_plan(alloc, found),
        CommandKind::LanguageServer => Ok(Some(CommandPlan::LanguageServer)),
    }
}

fn table_plan<'a>(found: &ArgMatches<'a>) -> Option<CommandPlan<'a>>
    ensures { IfSome result (HoldsRows (codes "table", rows_of (found_of found.now))) }
{
    Some(CommandPlan::Table {
        file: file_of(found, "FILE")?,
        watchpoints: option_value(found, "watchpoints"),
    })
}

/// The form of rows.
fn row_words<'a>(found: &ArgMatches<'a>) -> RowWords<'a>
    ensures { HoldsForm (rows_of (found_of found.now)) result }
{
    RowWords {
        csv: flag(found, "csv"),
        json: flag(found, "json"),
        epoch: option_value(found, "epoch"),
    }
}

/// The plan of a stream that is listed with the names of these rule texts.
fn stream_of<'a>(found: &ArgMatches<'a>, rules: Vec<&'a str>) -> Option<CommandPlan<'a>>
    requires { HoldsWords (codes "RULES") (rows_of (found_of found.now)) rules.items }
    ensures { IfSome result (HoldsRows (codes "stream", rows_of (found_of found.now))) }
{
    Some(CommandPlan::Stream {
        stream: file_of(found, "stream")?,
        rules,
        whole: flag(found, "whole"),
        rows: row_words(found),
    })
}

fn stream_plan<'a>(
    alloc: Global,
    found: &ArgMatches<'a>,
) -> Result<Option<CommandPlan<'a>>, AllocError>
    ensures { IfOk result (λ plan. IfSome plan
        (HoldsRows (codes "stream", rows_of (found_of found.now)))) }
{
    let rules = option_values(alloc, found, "RULES")?;
    Ok(stream_of(found, rules))
}

/// The plan of packets that are listed with the names of these rule texts.
fn packets_of<'a>(found: &ArgMatches<'a>, rules: Vec<&'a str>) -> Option<CommandPlan<'a>>
    requires { HoldsWords (codes "RULES") (rows_of (found_of found.now)) rules.items }
    ensures { IfSome result (HoldsRows (codes "packets", rows_of (found_of found.now))) }
{
    Some(CommandPlan::Packets {
        packets: file_of(found, "PACKETS")?,
        rules,
        rows: row_words(found),
    })
}

fn packets_plan<'a>(
    alloc: Global,
    found: &ArgMatches<'a>,
) -> Result<Option<CommandPlan<'a>>, AllocError>
    ensures { IfOk result (λ plan. IfSome plan
        (HoldsRows (codes "packets", rows_of (found_of found.now)))) }
{
    let rules = option_values(alloc, found, "RULES")?;
    Ok(packets_of(found, rules))
}

fn scenario_plan<'a>(found: &ArgMatches<'a>) -> Option<CommandPlan<'a>>
    ensures { IfSome result (HoldsRows (codes "scenario", rows_of (found_of found.now))) }
{
    Some(CommandPlan::Scenario {
        script: file_of(found, "script")?,
        out: file_of(found, "out")?,
        rules: option_value(found, "RULES"),
    })
}

/// The options of an import.
fn import_words<'a>(found: &ArgMatches<'a>) -> ImportWords<'a>
    ensures { HoldsImport (rows_of (found_of found.now)) result }
{
    let is_strict = flag(found, "strict");
    ImportWords {
        marked: flag(found, "marked"),
        resync: flag(found, "resync"),
        keep_idle: flag(found, "keep-idle"),
        keep_faulty: flag(found, "keep-faulty"),
        only: option_value(found, "only"),
        time_at: option_value(found, "time-at"),
        subtract: option_value(found, "subtract"),
        step: option_value(found, "step"),
        tick: option_value(found, "tick"),
        start: option_value(found, "start"),
        strict: is_strict,
    }
}

/// The plan of an import of these archives.
fn import_of<'a>(found: &ArgMatches<'a>, raw: Vec<&'a str>) -> Option<CommandPlan<'a>>
    requires { HasWords (codes "RAW") (rows_of (found_of found.now)) raw.items }
    ensures { IfSome result (HoldsRows (codes "import", rows_of (found_of found.now))) }
{
    Some(CommandPlan::Import {
        raw,
        out: file_of(found, "out")?,
        how: import_words(found),
    })
}

fn import_plan<'a>(
    alloc: Global,
    found: &ArgMatches<'a>,
) -> Result<Option<CommandPlan<'a>>, AllocError>
    ensures { IfOk result (λ plan. IfSome plan
        (HoldsRows (codes "import", rows_of (found_of found.now)))) }
{
    match words_of(alloc, found, "RAW")? {
        Some(raw) => Ok(import_of(found, raw)),
        None => Ok(None),
    }
}

fn export_plan<'a>(found: &ArgMatches<'a>) -> Option<CommandPlan<'a>>
    ensures { IfSome result (HoldsRows (codes "export", rows_of (found_of found.now))) }
{
    Some(CommandPlan::Export {
        stream: file_of(found, "stream")?,
        out: file_of(found, "out")?,
    })
}

/// The options of a page.
fn page_words<'a>(found: &ArgMatches<'a>) -> PageWords<'a>
    ensures { HoldsPage (rows_of (found_of found.now)) result }
{
    PageWords {
        epoch: option_value(found, "epoch"),
        from: option_value(found, "from"),
        until: option_value(found, "until"),
    }
}

/// The plan of a report of these rule texts.
fn report_of<'a>(found: &ArgMatches<'a>, rules: Vec<&'a str>) -> Option<CommandPlan<'a>>
    requires { HasWords (codes "RULES") (rows_of (found_of found.now)) rules.items }
    ensures { IfSome result (HoldsRows (codes "report", rows_of (found_of found.now))) }
{
    let page = file_of(found, "out")?;
    Some(CommandPlan::Report {
        schedule: file_of(found, "schedule")?,
        stream: file_of(found, "stream")?,
        out: page,
        rules,
        how: page_words(found),
    })
}

fn report_plan<'a>(
    alloc: Global,
    found: &ArgMatches<'a>,
) -> Result<Option<CommandPlan<'a>>, AllocError>
    ensures { IfOk result (λ plan. IfSome plan
        (HoldsRows (codes "report", rows_of (found_of found.now)))) }
{
    match words_of(alloc, found, "RULES")? {
        Some(rules) => Ok(report_of(found, rules)),
        None => Ok(None),
    }
}

/// The plan of a check of these rule texts.
fn check_of<'a>(found: &ArgMatches<'a>, rules: Vec<&'a str>) -> CommandPlan<'a>
    requires rules { HasWords (codes "RULES") (rows_of (found_of found.now)) rules.items }
    requires explain { first_of (codes "explain") (rows_of (found_of found.now)) ≡ None }
    ensures { HoldsRows (codes "check", rows_of (found_of found.now)) result }
{
    CommandPlan::Check {
        schedule: option_value(found, "schedule"),
        rules,
        all: flag(found, "all"),
        strict: flag(found, "strict"),
        json: flag(found, "json"),
    }
}

fn check_plan<'a>(
    alloc: Global,
    found: &ArgMatches<'a>,
) -> Result<Option<CommandPlan<'a>>, AllocError>
    ensures { IfOk result (λ plan. IfSome plan
        (HoldsRows (codes "check", rows_of (found_of found.now)))) }
{
    if let Some(name) = option_value(found, "explain") {
        return Ok(Some(CommandPlan::Explain { name }));
    }
    match words_of(alloc, found, "RULES")? {
        Some(rules) => Ok(Some(check_of(found, rules))),
        None => Ok(None),
    }
}

fn changes_plan<'a>(found: &ArgMatches<'a>) -> Option<CommandPlan<'a>>
    ensures { IfSome result (HoldsRows (codes "changes", rows_of (found_of found.now))) }
{
    let old = file_of(found, "OLD")?;
    let new = file_of(found, "NEW")?;
    Some(CommandPlan::Changes { old, new })
}

/// The plan of a comparison with these further rule texts.
fn compare_of<'a>(found: &ArgMatches<'a>, further: Vec<&'a str>) -> Option<CommandPlan<'a>>
    requires { HoldsWords (codes "with") (rows_of (found_of found.now)) further.items }
    ensures { IfSome result (HoldsRows (codes "compare", rows_of (found_of found.now))) }
{
    let json = flag(found, "json");
    let fail_on = option_value(found, "fail-on");
    Some(CommandPlan::Compare {
        schedule: file_of(found, "schedule")?,
        stream: file_of(found, "stream")?,
        old: file_of(found, "OLD")?,
        new: file_of(found, "NEW")?,
        further,
        json,
        fail_on,
    })
}

fn compare_plan<'a>(
    alloc: Global,
    found: &ArgMatches<'a>,
) -> Result<Option<CommandPlan<'a>>, AllocError>
    ensures { IfOk result (λ plan. IfSome plan
        (HoldsRows (codes "compare", rows_of (found_of found.now)))) }
{
    let further = option_values(alloc, found, "with")?;
    Ok(compare_of(found, further))
}

/// The plan of trying these scripts with these rule texts.
fn try_of<'a>(
    found: &ArgMatches<'a>,
    scripts: Vec<&'a str>,
    rules: Vec<&'a str>,
) -> Option<CommandPlan<'a>>
    requires scripts { HasWords (codes "script") (rows_of (found_of found.now)) scripts.items }
    requires rules { HasWords (codes "RULES") (rows_of (found_of found.now)) rules.items }
    ensures { IfSome result (HoldsRows (codes "try", rows_of (found_of found.now))) }
{
    let strict = flag(found, "strict");
    Some(CommandPlan::Try {
        scripts,
        schedule: file_of(found, "schedule")?,
        rules,
        strict,
    })
}

/// The plan of trying these scripts.
fn try_scripts<'a>(
    alloc: Global,
    found: &ArgMatches<'a>,
    scripts: Vec<&'a str>,
) -> Result<Option<CommandPlan<'a>>, AllocError>
    requires { HasWords (codes "script") (rows_of (found_of found.now)) scripts.items }
    ensures { IfOk result (λ plan. IfSome plan
        (HoldsRows (codes "try", rows_of (found_of found.now)))) }
{
    match words_of(alloc, found, "RULES")? {
        Some(rules) => Ok(try_of(found, scripts, rules)),
        None => Ok(None),
    }
}

fn try_plan<'a>(
    alloc: Global,
    found: &ArgMatches<'a>,
) -> Result<Option<CommandPlan<'a>>, AllocError>
    ensures { IfOk result (λ plan. IfSome plan
        (HoldsRows (codes "try", rows_of (found_of found.now)))) }
{
    match words_of(alloc, found, "script")? {
        Some(scripts) => try_scripts(alloc, found, scripts),
        None => Ok(None),
    }
}

/// The plan of a live run of these rule texts.
fn live_of<'a>(found: &ArgMatches<'a>, rules: Vec<&'a str>) -> Option<CommandPlan<'a>>
    requires { HasWords (codes "RULES") (rows_of (found_of found.now)) rules.items }
    ensures { IfSome result (HoldsRows (codes "live", rows_of (found_of found.now))) }
{
    Some(CommandPlan::Live {
        schedule: file_of(found, "schedule")?,
        rules,
    })
}

fn live_plan<'a>(
    alloc: Global,
    found: &ArgMatches<'a>,
) -> Result<Option<CommandPlan<'a>>, AllocError>
    ensures { IfOk result (λ plan. IfSome plan
        (HoldsRows (codes "live", rows_of (found_of found.now)))) }
{
    match words_of(alloc, found, "RULES")? {
        Some(rules) => Ok(live_of(found, rules)),
        None => Ok(None),
    }
}

fn format_plan<'a>(
    alloc: Global,
    found: &ArgMatches<'a>,
) -> Result<Option<CommandPlan<'a>>, AllocError>
    ensures { IfOk result (λ plan. IfSome plan
        (HoldsRows (codes "format", rows_of (found_of found.now)))) }
{
    match words_of(alloc, found, "RULES")? {
        Some(rules) => Ok(Some(CommandPlan::Format {
            rules,
            check: flag(found, "check"),
        })),
        None => Ok(None),
    }
}
