//! The ground commands, files and halves of rule texts of a page's data, in words.

use crate::json::{Item, Json};
use crate::requests::put_left;
use rpn_compiler::RuleText;
use run_summary::{Account, Place, Uplink};
use scenarios::{DeclaredItems, declared_in, record_in_words};
use std::alloc::{AllocError, Global};
use std::fmt::Write;

/// A ground command, a file or a half of a rule text in words.
#[derive(Drop)]
pub struct CommandLine {
    place: Place,
    says: Vec<u8>,
}

/// The text with this number, alone; none if there is no such text.
fn text_at<'t, 'a>(texts: &'t [RuleText<'a>], text: usize) -> &'t [RuleText<'a>] {
    let (_, from) = texts.split_at(text.min(texts.len()));
    from.split_at(1usize.min(from.len())).0
}

/// The text in force, alone; none if it isn't known.
fn in_force<'t, 'a>(texts: &'t [RuleText<'a>], text: Option<usize>) -> &'t [RuleText<'a>] {
    match text {
        None => &[],
        Some(text) => text_at(texts, text),
    }
}

/// The words of a record, with these names. The only error is a lack of memory.
fn words_of(
    alloc: Global,
    names: &DeclaredItems<'_>,
    uplink: &Uplink,
) -> Result<Vec<u8>, AllocError> {
    match record_in_words(alloc, uplink.bytes.as_slice(), names)? {
        Some(words) => Ok(words),
        None => Vec::from_slice(alloc, uplink.listed.as_slice()),
    }
}

/// A record in words, with the names of the text in force when it came. The only error is a lack of memory.
fn line_of(
    alloc: Global,
    texts: &[RuleText<'_>],
    uplink: &Uplink,
) -> Result<CommandLine, AllocError> {
    let names = declared_in(alloc, in_force(texts, uplink.text))?;
    let says = words_of(alloc, &names, uplink)?;
    Ok(CommandLine {
        place: uplink.place,
        says,
    })
}

/// Adds records in words. The only error is a lack of memory.
fn add_lines(
    alloc: Global,
    texts: &[RuleText<'_>],
    uplinks: &[Uplink],
    lines: &mut Vec<CommandLine>,
) -> Result<(), AllocError> {
    for uplink in uplinks {
        lines.push(line_of(alloc, texts, uplink)?)?;
    }
    Ok(())
}

/// The ground commands, files and halves that an account keeps, in order and in words. The only error is a lack of memory.
pub fn command_lines(alloc: Global, account: &Account<'_>) -> Result<Vec<CommandLine>, AllocError> {
    let texts = account.texts.as_slice();
    let (from, before) = account.uplinks.last();
    let mut lines = Vec::new(alloc);
    add_lines(alloc, texts, account.uplinks.first(), &mut lines)?;
    add_lines(alloc, texts, from, &mut lines)?;
    add_lines(alloc, texts, before, &mut lines)?;
    Ok(lines)
}

const COMMAND: &[&str] = &["[", ",", ",\"", "\"]"];

/// Commands in words, in order, with how many are left out.
pub fn put_commands<W: Write>(
    json: &mut Json<'_, W>,
    account: &Account<'_>,
    commands: &[CommandLine],
) {
    json.open(",\"commands\":[");
    for line in commands {
        let items = [
            Item::Natural(line.place.record),
            Item::Time(line.place.time),
            Item::Text(line.says.as_slice()),
        ];
        json.member(COMMAND, &items);
    }
    json.text("],\"commands_left_out\":");
    put_left(json, account.uplinks.omission())
}
