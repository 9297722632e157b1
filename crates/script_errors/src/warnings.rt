//! Warnings about lines of a script that are valid and probably mistakes.

use crate::word::nth_word;
use diagnostics::{Mark, Message, nearest, quote};
use lc_model::mids;
use std::alloc::{AllocError, Global};
use std::str;

/// The most warnings of a script.
const MOST: usize = 100;

/// The name of the warning about a message id.
const NAME: &str = "message-id";

/// The name of the warning about an application that this profile doesn't have.
const NO_APPLICATION: &str = "unknown-application";

/// The name of the warning about a table that this profile doesn't have.
const NO_TABLE: &str = "unknown-table";

/// The name of the warning about a block that is repeated 0 times.
const LEFT_OUT: &str = "left-out";

/// The applications of this profile.
const APPLICATIONS: &[&[u8]] = &[b"LC", b"SCH", b"COUNTER"];

/// The senders of events.
const SENDERS: &[&[u8]] = &[b"LC", b"SCH", b"COUNTER", b"HOST"];

/// The tables of this profile.
const TABLES: &[&[u8]] = &[b"LC.LC_WDT", b"LC.LC_ADT"];

/// The number of digits of a message id.
const ID_DIGITS: usize = 4;

/// The message id that a word writes.
fn id_in(word: &[u8]) -> Option<u16> {
    if word.len() != ID_DIGITS {
        return None;
    }
    let digits = str::from_utf8(word).ok()?;
    u16::from_str_radix(digits, 16).ok()
}

/// Whether a message id has the type of a command and a secondary header (CCSDS 133.0-B, primary header).
fn is_command(id: u16) -> bool {
    (0x1800..=0x1FFF).contains(&id)
}

/// Why a message id doesn't fit this statement, and which ids do; none if it fits.
fn not_fitting(verb: &[u8], id: u16) -> Option<(&'static str, &'static str)> {
    match verb {
        b"fields" | b"telemetry" if !mids::is_telemetry(id) => {
            Some(("not one of telemetry", "telemetry has 0800 to 0FFF"))
        }
        b"command" if !is_command(id) => Some((
            "not one of a command",
            "commands have 1800 to 1FFF",
        )),
        _ => None,
    }
}

/// The names that a statement takes, and the warning about any other.
#[derive(Clone, Copy)]
struct KnownNames {
    /// The name of the warning.
    warning: &'static str,
    /// What the names are of.
    what: &'static str,
    names: &'static [&'static [u8]],
    advice: &'static str,
}

/// The names that may follow this verb, if it takes one of the profile's names.
fn names_behind(verb: &[u8]) -> Option<KnownNames> {
    match verb {
        b"start" | b"stop" | b"restart" | b"reload" => Some(KnownNames {
            warning: NO_APPLICATION,
            what: "application",
            names: APPLICATIONS,
            advice: "there are `LC`, `SCH` and `COUNTER`",
        }),
        b"filter" => Some(KnownNames {
            warning: NO_APPLICATION,
            what: "application",
            names: SENDERS,
            advice: "there are `LC`, `SCH`, `COUNTER` and `HOST`",
        }),
        b"validate" | b"activate" | b"abort" => Some(KnownNames {
            warning: NO_TABLE,
            what: "table",
            names: TABLES,
            advice: "there are `LC.LC_WDT` and `LC.LC_ADT`",
        }),
        _ => None,
    }
}

/// The warning about a line that names an unknown application or table. `begin` is the line's place in the text.
fn name_warning(alloc: Global, line: &[u8], begin: usize) -> Result<Option<Message>, AllocError> {
    let word = nth_word(line, 1);
    let Some(known) = names_behind(nth_word(line, 0).text) else {
        return Ok(None);
    };
    if word.is_end() || known.names.iter().any(|name| *name == word.text) {
        return Ok(None);
    }
    let what = known.what;
    let shown = word.quote(alloc)?;
    let head = format!(in alloc; "no {what} has the name {shown}")?;
    let label = match nearest(alloc, word.text, known.names)? {
        Some(meant) => {
            let meant = quote(alloc, meant)?;
            format!(in alloc; "did you mean {meant}?")?
        }
        None => String::from_str(alloc, known.advice)?,
    };
    let mark = Mark {
        at: begin.saturating_add(word.at),
        size: word.text.len(),
        label,
    };
    Ok(Some(Message::warning(alloc, known.warning, head, mark)))
}

/// The warning about a line whose message id doesn't fit its statement. `begin` is the line's place in the text.
fn id_warning(alloc: Global, line: &[u8], begin: usize) -> Result<Option<Message>, AllocError> {
    let (verb, word) = (nth_word(line, 0), nth_word(line, 1));
    let Some(id) = id_in(word.text) else {
        return Ok(None);
    };
    let Some((what, label)) = not_fitting(verb.text, id) else {
        return Ok(None);
    };
    let shown = quote(alloc, word.text)?;
    let head = format!(in alloc; "the message id {shown} is {what}")?;
    let mark = Mark {
        at: begin.saturating_add(word.at),
        size: word.text.len(),
        label: String::from_str(alloc, label)?,
    };
    Ok(Some(Message::warning(alloc, NAME, head, mark)))
}

/// The warning about a line that begins a block of a valid script, if it is repeated 0 times. `begin` is the line's place in the text.
fn block_warning(alloc: Global, line: &[u8], begin: usize) -> Result<Option<Message>, AllocError> {
    let (verb, number) = (nth_word(line, 0), nth_word(line, 1));
    let is_zero = number.text.iter().all(|byte| matches!(*byte, b'0' | b'x'));
    if !matches!(verb.text, b"repeat") || !is_zero {
        return Ok(None);
    }
    let head = "the lines of this block are left out, and so are their expectations";
    let mark = Mark {
        at: begin.saturating_add(number.at),
        size: number.text.len(),
        label: String::from_str(alloc, "repeated 0 times")?,
    };
    Ok(Some(Message::warning(alloc, LEFT_OUT, String::from_str(alloc, head)?, mark)))
}

/// The warning about a line, if there is one. `begin` is the line's place in the text.
fn line_warning(alloc: Global, line: &[u8], begin: usize) -> Result<Option<Message>, AllocError> {
    if let Some(warning) = name_warning(alloc, line, begin)? {
        return Ok(Some(warning));
    }
    if let Some(warning) = id_warning(alloc, line, begin)? {
        return Ok(Some(warning));
    }
    block_warning(alloc, line, begin)
}

/// The warnings about a valid script, at most one for each line: telemetry whose message id isn't one of telemetry, commands whose id isn't
/// one of a command, unknown applications and tables, and blocks that are repeated 0 times. After a hundred warnings the rest is left out.
///
/// Error: out of memory.
pub fn script_warnings(alloc: Global, text: &[u8]) -> Result<Vec<Message>, AllocError> {
    let mut told = Vec::new(alloc);
    let mut begin = 0usize;
    for line in text.split(|byte| *byte == b'\n') {
        if told.len() >= MOST {
            break;
        }
        if let Some(warning) = line_warning(alloc, line, begin)? {
            told.push(warning)?;
        }
        begin = begin.saturating_add(line.len()).saturating_add(1);
    }
    Ok(told)
}
