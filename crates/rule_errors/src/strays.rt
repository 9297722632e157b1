//! Characters that begin no token, and what to do about them.

ghost use Rattle.std.specs.Prelude.{◌≡◌, IfOk};
ghost use Rattle.diagnostics.specs.Message.{IsAt};

use crate::advice::{Advice, ByteSpan};
use crate::bytes::{character, is_word_byte, last_word};
use diagnostics::{Mark, Message, around, behind, front};
use std::alloc::{AllocError, Global};

/// Whether a token begins here that ends a run of one character: `!=`, or a negative number.
fn begins_token(rest: &[u8]) -> bool {
    match rest {
        [b'!', b'=', ..] => true,
        [b'-', digit, ..] => digit.is_ascii_digit(),
        _ => false,
    }
}

/// The size in bytes of the run of one character in front.
pub fn run_size(rest: &[u8]) -> usize {
    let (_, size) = character(rest);
    let one = front(rest, size);
    let mut run = size;
    for _ in 0..rest.len() {
        let next = behind(rest, run);
        if !next.starts_with(one) || begins_token(next) {
            break;
        }
        run = run.saturating_add(size);
    }
    run.min(rest.len())
}

/// Blanks that aren't ASCII: the first and the last of each range.
const OTHER_BLANKS: &[(u32, u32)] = &[
    (0xA0, 0xA0),
    (0x1680, 0x1680),
    (0x2000, 0x200A),
    (0x2028, 0x2029),
    (0x202F, 0x202F),
    (0x205F, 0x205F),
    (0x3000, 0x3000),
];

/// Byte order marks, and other characters without a width: the first and the last of each range.
const WITHOUT_WIDTH: &[(u32, u32)] = &[
    (0xAD, 0xAD),
    (0x200B, 0x200D),
    (0x2060, 0x2060),
    (0xFEFF, 0xFEFF),
];

/// Single quotes, slanted quotes and angle quotes: the first and the last of each range.
const OTHER_QUOTES: &[(u32, u32)] = &[
    (0x27, 0x27),
    (0x60, 0x60),
    (0xAB, 0xAB),
    (0xB4, 0xB4),
    (0xBB, 0xBB),
    (0x2018, 0x201F),
    (0x2039, 0x203A),
];

/// Whether one of the ranges has the character.
fn is_among(character: char, rows: &[(u32, u32)]) -> bool {
    let code = character as u32;
    rows.iter().any(|row| row.0 <= code && code <= row.1)
}

/// Hyphens, dashes and minus signs, each of three bytes: the first and the last of each range.
const DASHES: &[(u32, u32)] = &[
    (0x2010, 0x2015),
    (0x2212, 0x2212),
    (0xFE63, 0xFE63),
    (0xFF0D, 0xFF0D),
];

const DASH_SIZE: usize = 3;

/// Words for signs of other languages, and of mathematics.
const WORDS: &[(char, &[u8])] = &[
    ('&', b"and"),
    ('\u{2227}', b"and"),
    ('|', b"or"),
    ('\u{2228}', b"or"),
    ('!', b"not"),
    ('~', b"not"),
    ('\u{AC}', b"not"),
    ('^', b"xor"),
    ('\u{2295}', b"xor"),
];

/// Signs for those of other languages, and of mathematics.
const SIGNS: &[(char, &[u8])] = &[
    ('[', b"("),
    ('{', b"("),
    (']', b")"),
    ('}', b")"),
    ('\u{2264}', b"<="),
    ('\u{2265}', b">="),
    ('\u{2260}', b"!="),
];

/// What stands for a character in these rows.
fn meant_by(character: char, rows: &[(char, &'static [u8])]) -> Option<&'static [u8]> {
    match rows.iter().find(|row| row.0 == character) {
        Some(row) => Some(row.1),
        None => None,
    }
}

/// A run of one character that begins no token.
#[derive(Clone, Copy)]
struct Stray<'a> {
    text: &'a [u8],
    /// Bytes of the text before it.
    at: usize,
    /// How many bytes it has.
    size: usize,
    character: char,
}

impl<'a> Stray<'a> {
    /// Its bytes.
    fn span(self) -> ByteSpan {
        ByteSpan::new(self.at, self.size)
    }

    /// What stands after it.
    fn rest(self) -> &'a [u8] {
        behind(self.text, self.at.saturating_add(self.size))
    }

    /// What to do about a minus. The edit takes away the blanks before a number.
    fn minus_advice(self, alloc: Global) -> Result<Advice, AllocError> {
        let label = "`-` stands directly before a number";
        let number = self.rest().trim_ascii_start();
        match number {
            [digit, ..] if digit.is_ascii_digit() => {
                let end = self.text.len().saturating_sub(number.len());
                let whole = ByteSpan {
                    from: self.at,
                    to: end,
                };
                Advice::change(alloc, whole, b"-", label)
            }
            _ => Advice::plain(alloc, label),
        }
    }

    /// What to do about another minus, as a document writes it.
    fn dash_advice(self, alloc: Global) -> Result<Advice, AllocError> {
        if self.size == DASH_SIZE {
            return Advice::meant(alloc, self.span(), b"-");
        }
        Advice::plain(alloc, "`-` stands directly before a number")
    }

    /// What to do about a slash.
    fn slash_advice(self, alloc: Global) -> Result<Advice, AllocError> {
        if self.size == 2 {
            return Advice::instead(alloc, self.span(), "a comment begins with ", b"#", "");
        }
        Advice::plain(alloc, "a comment begins with `#`")
    }

    /// The bytes up to the next quote, if they can stand in a quoted text, and the end of that quote.
    fn quoted(self) -> Option<(&'a [u8], usize)> {
        let rest = self.rest();
        let size = rest
            .iter()
            .take_while(|byte| {
                matches!(**byte, b' '..=b'~') && **byte != b'"' && !self.is_begun_by(**byte)
            })
            .count();
        let (next, width) = character(behind(rest, size));
        if width == 0 || !(next == '"' || is_among(next, OTHER_QUOTES)) {
            return None;
        }
        let end = self.span().to.saturating_add(size).saturating_add(width);
        Some((front(rest, size), end))
    }

    /// Whether it is this byte.
    fn is_begun_by(self, byte: u8) -> bool {
        self.character == char::from(byte)
    }

    /// What to do about another quote. The edit writes both quotes.
    fn quote_advice(self, alloc: Global) -> Result<Advice, AllocError> {
        let label = "write `\"` around a quoted text";
        let Some((inner, end)) = self.quoted() else {
            return Advice::plain(alloc, label);
        };
        let mut new = Vec::from_slice(alloc, b"\"")?;
        new.extend_from_slice(inner)?;
        new.push(b'"')?;
        let whole = ByteSpan {
            from: self.at,
            to: end,
        };
        Advice::change(alloc, whole, new.as_slice(), label)
    }

    /// What to do about a point. The edit takes away a name and the point before another one.
    fn point_advice(self, alloc: Global) -> Result<Advice, AllocError> {
        let before = last_word(front(self.text, self.at));
        match before {
            [first, ..] if first.is_ascii_digit() => Advice::plain(
                alloc,
                "numbers are whole: write the raw value of the telemetry",
            ),
            [_, ..] => {
                let label = "a field is named alone, without its packet";
                if !matches!(self.rest(), [next, ..] if is_word_byte(*next)) {
                    return Advice::plain(alloc, label);
                }
                let whole = ByteSpan {
                    from: self.at.saturating_sub(before.len()),
                    to: self.span().to,
                };
                Advice::change(alloc, whole, b"", label)
            }
            [] => self.other_advice(alloc),
        }
    }

    /// Whether it stands inside a number, which would be another one without it.
    fn parts_number(self) -> bool {
        let before = last_word(front(self.text, self.at));
        matches!(before, [first, ..] if first.is_ascii_digit())
            && self.span().parts_words(self.text)
    }

    /// What to do about a character that no language has in its place.
    fn other_advice(self, alloc: Global) -> Result<Advice, AllocError> {
        let unseen = "this can't be seen: leave it out";
        if is_among(self.character, OTHER_BLANKS) {
            let blank: &[u8] = b" ";
            let new = if self.span().parts_words(self.text) {
                blank
            } else {
                &[]
            };
            return Advice::change(alloc, self.span(), new, unseen);
        }
        if is_among(self.character, WITHOUT_WIDTH) {
            return Advice::change(alloc, self.span(), b"", unseen);
        }
        if self.parts_number() {
            return Advice::plain(alloc, "a number is whole, and has digits alone");
        }
        Advice::change(alloc, self.span(), b"", "leave it out")
    }

    /// What to do about a character that begins no token, by the character.
    fn sign_advice(self, alloc: Global) -> Result<Advice, AllocError> {
        match self.character {
            '-' => self.minus_advice(alloc),
            '/' => self.slash_advice(alloc),
            '.' => self.point_advice(alloc),
            sign if is_among(sign, OTHER_QUOTES) => self.quote_advice(alloc),
            sign if is_among(sign, DASHES) => self.dash_advice(alloc),
            _ => self.other_advice(alloc),
        }
    }

    /// What to do about a character that begins no token.
    fn advice(self, alloc: Global) -> Result<Advice, AllocError> {
        if let Some(word) = meant_by(self.character, WORDS) {
            let old = self.span();
            return Advice::word_instead(alloc, self.text, old, "did you mean ", word, "?");
        }
        match meant_by(self.character, SIGNS) {
            Some(sign) => Advice::meant(alloc, self.span(), sign),
            None => self.sign_advice(alloc),
        }
    }
}

/// The message for a character that begins no token.
pub fn bad_byte(alloc: Global, text: &[u8], at: usize) -> Result<Message, AllocError>
    ensures { IfOk result (IsAt 1 at) }
{
    let rest = behind(text, at);
    let size = run_size(rest);
    let (first, _) = character(rest);
    let stray = Stray {
        text,
        at,
        size,
        character: first,
    };
    let head = around(
        alloc,
        "",
        front(rest, size),
        " has no meaning in this language",
    )?;
    let Advice { label, edit } = stray.advice(alloc)?;
    Ok(Message::at(alloc, 1, head, Mark { at, size, label }).with_edit(edit))
}
