//! Words of a line.

ghost use Rattle.std.specs.Prelude.{◌≡◌, ◌≤◌, length, IfOk};
ghost use Rattle.std.specs.List.{position_or_len, prefix_len};
ghost use Rattle.lc_model.specs.Host.ScheduleText.{is_silent, words_of};
ghost use Rattle.text_lines.specs.Lines.{is_blank, texts_of, words_by};

use std::alloc::{AllocError, Global};

/// Whether a byte separates words: space, tab and carriage return do.
pub fn is_blank(byte: u8) -> bool
    ensures { result ≡ is_blank byte }
{
    byte == b' ' || byte == b'\t' || byte == b'\r'
}

/// The number of blanks at the front.
pub fn blank_count(line: &[u8]) -> usize
    ensures count { result ≡ prefix_len is_blank line.now }
    ensures inside { result ≤ length line.now }
{
    line.iter().take_while(|byte| is_blank(**byte)).count()
}

/// The number of other bytes at the front.
fn word_length(line: &[u8]) -> usize
    ensures place { result ≡ position_or_len is_blank line.now }
    ensures inside { result ≤ length line.now }
{
    line.iter().take_while(|byte| !is_blank(**byte)).count()
}

/// The first word, and what follows it; `None` if the line has no word.
pub fn first_word(line: &[u8]) -> Option<(&[u8], &[u8])>
    ensures { words_of line.now ≡ words_by result }
{
    let (_, from) = line.split_at(blank_count(line));
    if from.is_empty() {
        return None;
    }
    Some(from.split_at(word_length(from)))
}

/// The words of a line. Out of memory is the only error.
pub fn words(alloc: Global, line: &[u8]) -> Result<Vec<&[u8]>, AllocError>
    ensures { IfOk result (λ words. texts_of words.items ≡ words_of line.now) }
{
    let mut words = Vec::new(alloc);
    let mut left = line;
    while let Some((word, rest)) = first_word(left) {
        words.push(word)?;
        left = rest;
    }
    Ok(words)
}

/// Whether a line says nothing: it has no word, or the first begins with `#`.
pub fn is_silent(line: &[u8]) -> bool
    ensures { result ≡ is_silent (words_of line.now) }
{
    match first_word(line) {
        None => true,
        Some((word, _)) => !word.is_empty() && word[0] == b'#',
    }
}
