//! Words of a scenario's lines.

ghost use Rattle.std.specs.Prelude.{◌≡◌, ◌++◌, bytes_eq, IfOk};
ghost use Rattle.text_lines.specs.Lines.{texts_of};
ghost use Rattle.scenarios.specs.Words.{before_comment, is_app_word, is_comment, is_plain, is_record_word, is_request_word, is_table_word, words_behind, words_in};

use std::alloc::{AllocError, Global};
use text_lines::words;

/// Whether a word is this one.
pub(crate) fn is(word: &[u8], other: &[u8]) -> bool
    ensures { result ≡ bytes_eq word.now other.now }
{
    word == other
}

/// Whether a word begins a comment.
fn is_comment(word: &[u8]) -> bool
    ensures { result ≡ is_comment word.now }
{
    matches!(word, [b'#', ..])
}

/// The words before a comment.
fn before_comment<'a>(alloc: Global, words: &[&'a [u8]]) -> Result<Vec<&'a [u8]>, AllocError>
    ensures { IfOk result
        (λ before. texts_of before.items ≡ before_comment (texts_of words.now)) }
{
    let mut before = Vec::new(alloc);
    for word in words {
        if is_comment(word) {
            return Ok(before);
        }
        before.push(*word)?;
    }
    Ok(before)
}

/// The words of a line, up to the first that begins with `#`. The only error is a lack of memory.
pub(crate) fn words_in(alloc: Global, line: &[u8]) -> Result<Vec<&[u8]>, AllocError>
    ensures { IfOk result (λ words. texts_of words.items ≡ words_in line.now) }
{
    let all = words(alloc, line)?;
    before_comment(alloc, all.as_slice())
}

/// Whether the word begins lines of moments and records.
fn is_record_word(word: &[u8]) -> bool
    ensures { result ≡ is_record_word word.now }
{
    is(word, b"at")
        || is(word, b"after")
        || is(word, b"fields")
        || is(word, b"telemetry")
        || is(word, b"command")
        || is(word, b"packet")
        || is(word, b"record")
}

/// Whether the word begins lines of requests or expectations.
fn is_request_word(word: &[u8]) -> bool
    ensures { result ≡ is_request_word word.now }
{
    is(word, b"tick") || is(word, b"sample") || is(word, b"housekeeping") || is(word, b"expect")
}

/// Whether the word begins lines of commands to the executive services.
fn is_app_word(word: &[u8]) -> bool
    ensures { result ≡ is_app_word word.now }
{
    is(word, b"start") || is(word, b"stop") || is(word, b"restart") || is(word, b"reload")
}

/// Whether the word begins lines of commands to the table services, or of files.
fn is_table_word(word: &[u8]) -> bool
    ensures { result ≡ is_table_word word.now }
{
    is(word, b"load")
        || is(word, b"validate")
        || is(word, b"activate")
        || is(word, b"abort")
        || is(word, b"wdt")
        || is(word, b"adt")
        || is(word, b"file")
}

/// Whether the word begins a line of a plain script or an expectation. Such a line keeps its meaning, whatever rule texts declare.
pub(crate) fn is_plain(word: &[u8]) -> bool
    ensures { result ≡ is_plain word.now }
{
    is_record_word(word) || is_request_word(word) || is_app_word(word) || is_table_word(word)
}

/// A text with these words after it, each after a space.
fn with_words(text: Vec<u8>, words: &[&[u8]]) -> Result<Vec<u8>, AllocError>
    ensures { IfOk result
        (λ after. after.items ≡ text.items ++ words_behind (texts_of words.now)) }
{
    let mut text = text;
    for word in words {
        text.extend_from_slice(b" ")?;
        text.extend_from_slice(word)?;
    }
    Ok(text)
}

/// A line of these words.
pub(crate) fn line_of(alloc: Global, verb: &[u8], words: &[&[u8]]) -> Result<Vec<u8>, AllocError>
    ensures { IfOk result
        (λ line. line.items ≡ verb.now ++ words_behind (texts_of words.now)) }
{
    let text = Vec::from_slice(alloc, verb)?;
    with_words(text, words)
}
