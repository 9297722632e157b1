//! Whether a text is the expected one.

ghost use Rattle.std.specs.Prelude.{◌≡◌, ◌↔◌};
ghost use Rattle.run_rows.specs.declared.judging.TextVerdict.TheVariants.{AsExpected};

use std::str;

/// Whether a text is the expected one, or else the first line that isn't, from 1.
#[derive(Clone, Copy)]
pub enum TextVerdict {
    /// Both texts have the same bytes.
    AsExpected,
    /// This line is the first one that differs, from 1.
    Differs(usize),
}

/// Compares two texts by their bytes.
pub fn judge(found: &[u8], expected: &[u8]) -> TextVerdict
    ensures same { result ≡ AsExpected ↔ found.now ≡ expected.now }
{
    if found == expected {
        return TextVerdict::AsExpected;
    }
    let lines = found
        .iter()
        .zip(expected)
        .take_while(|(a, b)| *a == *b)
        .filter(|(a, _)| **a == b'\n')
        .count();
    TextVerdict::Differs(lines.saturating_add(1))
}

/// The line with this number, from 1; empty if there is no such line.
pub fn line(text: &[u8], number: usize) -> &str {
    let line = text
        .split(|byte| *byte == b'\n')
        .nth(number.saturating_sub(1));
    str::from_utf8(line.unwrap_or(b"")).unwrap_or("no text")
}
