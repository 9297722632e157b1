//! Checks rule texts, and writes their faults and warnings.

ghost use Rattle.std.specs.Prelude.{◌≡◌, None};
ghost use Rattle.lc_model.specs.Tables.Compiling.{limit_refusal};
ghost use Rattle.lc_model.specs.Tables.InForce.{limits};
ghost use Rattle.rpn_compiler.specs.TextParts.{IsRuleText};

use crate::outcomes::{write_line, write_outcomes};
use crate::totals::{CheckOptions, CheckResult, Totals};
use diagnostics::Many;
use rpn_compiler::{CompileError, RuleText};
use rule_errors::messages;
use rule_lints::{Warnings, warnings};
use schedules::Schedule;
use script_errors::{Refusal, read_schedule};
use std::alloc::{AllocError, Global};
use std::fs::Files;
use std::io::Write;
use tool_faults::{
    Fault, MOST_WARNINGS, alone, listing_result, read_text, read_whole_text, write_messages,
    write_warnings,
};

/// Writes the number of a text's rules and of its warnings.
fn write_counts<'a, W: Write>(
    name: &'a str,
    rules: usize,
    warnings: usize,
    out: &mut W,
) -> Result<(), Fault<'a>> {
    let shown = if warnings > MOST_WARNINGS {
        ", the first 100 shown"
    } else {
        ""
    };
    let (rules, told) = (Many(rules, "rule"), Many(warnings, "warning"));
    listing_result(writeln!(out, "{name}: {rules}, {told}{shown}"))
}

/// Writes what was not looked at to the end, if there is any.
fn write_unsettled<'a, W: Write>(
    alloc: Global,
    name: &'a str,
    told: &Warnings,
    is_json: bool,
    out: &mut W,
) -> Result<(), Fault<'a>> {
    match told.undecided_line(alloc)? {
        Some(line) => write_line(alloc, name, line.as_bytes(), is_json, out),
        None => Ok(()),
    }
}

/// Writes the warnings of a valid rule text, and returns their number.
fn judge<'a, W: Write>(
    alloc: Global,
    name: &'a str,
    text: &RuleText<'_>,
    plan: &Option<Schedule>,
    asked: CheckOptions,
    out: &mut W,
) -> Result<usize, Fault<'a>>
    requires reads { IsRuleText text.now }
    requires within { limit_refusal limits text.now.rules.rules ≡ None }
{
    let told = warnings(alloc, text, plan.as_ref())?;
    let messages = told.messages.as_slice();
    write_warnings(alloc, name, text.bytes, messages, asked.is_json, out)?;
    if asked.is_all {
        write_outcomes(alloc, name, text, asked.is_json, out)?;
    }
    if !asked.is_json {
        write_counts(name, text.rules.rules.as_slice().len(), messages.len(), out)?;
    }
    write_unsettled(alloc, name, &told, asked.is_json, out)?;
    listing_result(out.flush())?;
    Ok(messages.len())
}

/// Writes the faults or warnings of the rule text in a file, and returns the result.
fn check_text<'a, R: Files + AllocGlobal, W: Write>(
    rt: &R,
    name: &'a str,
    plan: &Option<Schedule>,
    asked: CheckOptions,
    out: &mut W,
) -> Result<CheckResult, Fault<'a>> {
    let text = read_text(rt, name)?;
    let text = text.as_slice();
    match RuleText::read_valid(rt.alloc(), text) {
        Ok(text) => {
            let warnings = judge(rt.alloc(), name, &text, plan, asked, out)?;
            Ok(CheckResult::Warnings(warnings))
        }
        Err(CompileError::Memory) => Err(Fault::Memory),
        Err(_) => {
            let told = messages(rt.alloc(), text)?;
            write_messages(rt.alloc(), name, text, told.as_slice(), asked.is_json, out)?;
            Ok(CheckResult::Refused)
        }
    }
}

/// The schedule in a file; `None` if it is refused, and then its fault is written.
fn plan_in<'a, R: Files + AllocGlobal, W: Write>(
    rt: &R,
    name: &'a str,
    asked: CheckOptions,
    out: &mut W,
) -> Result<Option<Schedule>, Fault<'a>> {
    let text = read_whole_text(rt, name)?;
    let text = text.as_slice();
    match read_schedule(rt.alloc(), text) {
        Ok(schedule) => Ok(Some(schedule)),
        Err(Refusal::Told(message)) => {
            let told = alone(rt.alloc(), message)?;
            write_messages(rt.alloc(), name, text, told.as_slice(), asked.is_json, out)?;
            Ok(None)
        }
        Err(Refusal::Memory) => Err(Fault::Memory),
    }
}

/// Checks a schedule, if one is named, and the rule texts in these files. Writes the faults of each text that doesn't compile, and the
/// warnings of each other text; with `is_all` also the values with which each rule fails and passes. Errors: `Refused` for a text or
/// schedule with a fault, `Warned` for a warning if `is_strict`; others are of files, output and memory.
pub fn check<'a, R: Files + AllocGlobal, W: Write>(
    rt: &R,
    schedule: Option<&'a str>,
    rules: &[&'a str],
    asked: CheckOptions,
    out: &mut W,
) -> Result<(), Fault<'a>> {
    let plan = match schedule {
        Some(name) => plan_in(rt, name, asked, out)?,
        None => None,
    };
    let mut totals = Totals {
        is_refused: schedule.is_some() && plan.is_none(),
        is_warned: false,
    };
    for name in rules {
        totals = totals.with(check_text(rt, name, &plan, asked, out)?);
    }
    totals.answer(asked.is_strict)
}
