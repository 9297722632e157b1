//! The report of a rule text that another command refuses: the same as that of `check`.

ghost use Rattle.std.specs.Prelude.{◌≡◌};
ghost use Rattle.check_command.specs.Refused.{IsToldAs};

use diagnostics::page_of;
use lc_model::LONGEST_TEXT;
use rule_errors::messages;
use std::alloc::{AllocError, Global};
use std::fs::Files;
use tool_faults::{Fault, read_text};

/// The messages for a text in a file of this name; `None` if there are none.
fn page(alloc: Global, name: &str, text: &[u8]) -> Result<Option<String>, AllocError> {
    let told = messages(alloc, text)?;
    if told.is_empty() {
        return Ok(None);
    }
    Ok(Some(page_of(alloc, name, text, told.as_slice())?))
}

/// The messages for the text that the file has now; `None` if it can't be read, is too long, or there is no memory.
fn page_of_file<R: Files + AllocGlobal>(rt: &R, name: &str) -> Option<String> {
    let text = read_text(rt, name).ok()?;
    if text.len() > LONGEST_TEXT {
        return None;
    }
    page(rt.alloc(), name, text.as_slice()).ok()?
}

/// The fault to report: for a refused rule text all messages of `check`, if its file can be read again; any other fault unchanged.
pub fn told<'a, R: Files + AllocGlobal>(rt: &R, fault: Fault<'a>) -> Fault<'a>
    ensures { IsToldAs fault.entry result }
{
    match fault {
        Fault::Rules(name, error) => match page_of_file(rt, name) {
            Some(page) => Fault::Lines(page),
            None => Fault::Rules(name, error),
        },
        other => other,
    }
}
