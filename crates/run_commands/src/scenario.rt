//! `scenario --script SCRIPT --out STREAM [RULES]`

use crate::line_error::line_error_fault;
use diagnostics::warnings_page_of;
use program_io::{begin, check_stream_place, discard, fault_of, keep};
use rpn_compiler::RuleText;
use scenario_errors::read_scenario;
use scenarios::declared_in;
use script_errors::script_warnings;
use std::alloc::Global;
use std::fs::Files;
use std::io::{Eprint, Write};
use tool_faults::{Fault, LONGEST_WHOLE, check_apart, fault_at, read, read_text, rule_text_of};

/// The stream of the scenario in a file with this name, which may use the names of these rule texts.
fn stream_of<'a>(
    alloc: Global,
    name: &'a str,
    scenario: &[u8],
    texts: &[RuleText<'_>],
) -> Result<Vec<u8>, Fault<'a>> {
    let declared = declared_in(alloc, texts)?;
    match read_scenario(alloc, scenario, &declared) {
        Ok(stream) => Ok(stream),
        Err(error) => Err(line_error_fault(alloc, name, scenario, texts, error)),
    }
}

/// The stream of the scenario in a file with this name, which may use the names of the rule text in the file `rules`.
fn stream_by_rules<'a, R: Files + AllocGlobal>(
    rt: &R,
    name: &'a str,
    scenario: &[u8],
    rules: &'a str,
) -> Result<Vec<u8>, Fault<'a>> {
    let text = read_text(rt, rules)?;
    let text = rule_text_of(rt.alloc(), rules, text.as_slice())?;
    stream_of(rt.alloc(), name, scenario, &[text])
}

/// Writes the warnings about the script in a file with this name to standard error.
fn warn<R: Eprint + AllocGlobal>(rt: &R, script: &str, text: &[u8]) -> Result<(), Fault<'static>> {
    let told = script_warnings(rt.alloc(), text)?;
    let page = warnings_page_of(rt.alloc(), script, text, told.as_slice())?;
    let _said = eprint!(rt; "{page}");
    Ok(())
}

/// Reads a script and writes its stream to a draft file, which replaces the old stream at the end. Warnings go to standard error.
/// Errors: `Lines` for a refused script, `Rules` for a refused rule text, `File`, also for an old file that is no stream, `Memory`; the
/// old file then stays.
pub fn make_stream<'a, R: Files + Eprint + AllocGlobal>(
    rt: &R,
    script: &'a str,
    stream: &'a str,
    rules: Option<&'a str>,
) -> Result<(), Fault<'a>> {
    let text = read(rt, script, LONGEST_WHOLE)?;
    check_apart(rt, stream, &[script])?;
    if let Some(rules) = rules {
        check_apart(rt, stream, &[rules])?;
    }
    check_stream_place(rt, stream)?;
    let bytes = match rules {
        Some(rules) => stream_by_rules(rt, script, text.as_slice(), rules)?,
        None => stream_of(rt.alloc(), script, text.as_slice(), &[])?,
    };
    warn(rt, script, text.as_slice())?;
    let mut draft = begin(rt, stream).map_err(|fault| fault_at(stream, fault))?;
    match draft.file.write_all(bytes.as_slice()) {
        Ok(()) => keep(rt, draft).map_err(|fault| fault_at(stream, fault)),
        Err(error) => {
            discard(rt, draft);
            Err(fault_at(stream, fault_of(&error)))
        }
    }
}
