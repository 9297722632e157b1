//! What a person wrote, in a sentence.

ghost use Rattle.std.specs.Prelude.{◌≡◌, ◌++◌, codes, encode_utf8_all, string_bytes, IfOk, OnOk};
ghost use Rattle.diagnostics.specs.Character.{shown};

use crate::columns::shown_columns;
use std::alloc::{AllocError, Global};

/// Adds bytes as they can be shown.
fn push_bytes(alloc: Global, text: &mut String, bytes: &[u8]) -> Result<(), AllocError>
    ensures { OnOk result (string_bytes text.new ≡
        string_bytes text.old ++ encode_utf8_all (shown bytes.now)) }
{
    let columns = shown_columns(alloc, bytes)?;
    for column in &columns {
        text.push(*column)?;
    }
    Ok(())
}

/// What a person wrote, as it can be shown.
pub fn printable(alloc: Global, bytes: &[u8]) -> Result<String, AllocError>
    ensures { IfOk result (λ text. string_bytes text ≡ encode_utf8_all (shown bytes.now)) }
{
    let mut text = String::new(alloc);
    push_bytes(alloc, &mut text, bytes)?;
    Ok(text)
}

/// Adds what a person wrote, as it can be shown, between backticks.
pub fn push_quoted(alloc: Global, text: &mut String, bytes: &[u8]) -> Result<(), AllocError>
    ensures { OnOk result (string_bytes text.new ≡ string_bytes text.old ++
        (codes "`" ++ encode_utf8_all (shown bytes.now) ++ codes "`")) }
{
    text.push_str("`")?;
    push_bytes(alloc, text, bytes)?;
    text.push_str("`")
}

/// What a person wrote, as it can be shown, between backticks.
pub fn quote(alloc: Global, bytes: &[u8]) -> Result<String, AllocError>
    ensures { IfOk result (λ text. string_bytes text ≡
        codes "`" ++ encode_utf8_all (shown bytes.now) ++ codes "`") }
{
    let mut text = String::new(alloc);
    push_quoted(alloc, &mut text, bytes)?;
    Ok(text)
}

/// What a person wrote, as it can be shown, between backticks, with a text before it and one after it.
pub fn around(
    alloc: Global,
    before: &str,
    bytes: &[u8],
    behind: &str,
) -> Result<String, AllocError> {
    let mut text = String::from_str(alloc, before)?;
    push_quoted(alloc, &mut text, bytes)?;
    text.push_str(behind)?;
    Ok(text)
}

/// The words, each between backticks, as a choice in a sentence: `a`, `b` or `c`. Error: out of memory.
pub fn choice_of(alloc: Global, words: &[&[u8]]) -> Result<String, AllocError> {
    let mut text = String::new(alloc);
    for (number, word) in words.iter().enumerate() {
        if number > 0 {
            let is_last = number == words.len() - 1;
            text.push_str(if is_last { " or " } else { ", " })?;
        }
        push_quoted(alloc, &mut text, *word)?;
    }
    Ok(text)
}
