//! Formatting as changes of blanks and line ends.

ghost use Rattle.std.specs.Prelude.{IfOk};
ghost use Rattle.editor_text.specs.Changes.{applied, changes_of};
ghost use Rattle.rule_layout.specs.Formatting.{IsFormatted};

use crate::document::{Document, Language};
use crate::failure::{ErrorKind, Failure};
use crate::json_text::JsonText;
use crate::shapes::{range_in, write_edit};
use editor_text::{Replacement, Walk, replacements_between};
use rule_layout::{FormatError, format};
use serde_json::Value;
use std::alloc::Global;

/// The failure of a change whose text is not UTF-8.
const NO_TEXT: Failure = Failure::Told(ErrorKind::Refused, "the text is not UTF-8");

/// The changes that give a rule text the one layout.
fn layout_changes(alloc: Global, text: &[u8]) -> Result<Vec<Replacement>, FormatError>
    ensures { IfOk result (λ list. IsFormatted text.now (applied (changes_of list.items) text.now)) }
{
    let new = format(alloc, text)?;
    Ok(replacements_between(alloc, text, new.as_slice())?)
}

/// The failure of a text that is not formatted.
fn format_failure(error: FormatError) -> Failure {
    match error {
        FormatError::Lex(_) | FormatError::Parse(_) => Failure::Told(
            ErrorKind::Refused,
            "the text has an error, so it is not formatted",
        ),
        FormatError::TooLong => Failure::Told(
            ErrorKind::Refused,
            "the text would have over 65,536 bytes, so it is not formatted",
        ),
        FormatError::Memory => Failure::Memory,
    }
}

/// Writes the change as text edit. Its text is UTF-8, as the document is.
fn write_change(
    json: &mut JsonText,
    walk: &mut Walk<'_>,
    change: &Replacement,
) -> Result<(), Failure> {
    let text = std::str::from_utf8(change.text.as_slice()).map_err(|_| NO_TEXT)?;
    write_edit(json, walk, change.from, change.to, text);
    Ok(())
}

/// Writes the changes that give a rule text the one layout: all, or those within a range. Null for other documents.
pub fn write_format(
    alloc: Global,
    json: &mut JsonText,
    document: &Document,
    range: Option<&Value>,
) -> Result<(), Failure> {
    if document.language != Language::Rules {
        json.null();
        return Ok(());
    }
    let text = document.text.as_slice();
    let (from, to) = range
        .and_then(|range| range_in(text, range))
        .unwrap_or((0, text.len()));
    let changes = layout_changes(alloc, text).map_err(format_failure)?;
    let mut walk = Walk::new(text);
    json.begin_array();
    for change in &changes {
        if from <= change.from && change.to <= to {
            write_change(json, &mut walk, change)?;
        }
    }
    json.end_array();
    Ok(())
}
