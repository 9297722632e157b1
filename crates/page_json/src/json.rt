//! Writes JSON (RFC 8259) for the data of a page: without blanks, and only ASCII.

ghost use Rattle.std.specs.Prelude.{◌≡◌, ◌≤◌, ◌==◌, false, None};

use std::fmt::{self, Display, Write};

/// The escape for a byte of a text that needs one. A plain `<` could end the page's script.
fn replacement(byte: u8) -> Option<&'static str>
    ensures printable { result ≡ None → 32 ≤ byte × byte ≤ 126 }
    ensures quote { result ≡ None → (byte == 34) ≡ false }
    ensures backslash { result ≡ None → (byte == 92) ≡ false }
    ensures tag { result ≡ None → (byte == 60) ≡ false }
{
    match byte {
        b'"' => Some("\\\""),
        b'\\' => Some("\\\\"),
        b'<' => Some("\\u003c"),
        0x20..=0x7E => None,
        _ => Some("."),
    }
}

/// Writes a text for between quotes. A byte that isn't printable ASCII becomes `.`.
fn put_text<W: Write>(out: &mut W, text: &[u8]) -> fmt::Result {
    for byte in text {
        match replacement(*byte) {
            Some(text) => out.write_str(text)?,
            None => out.write_char(char::from(*byte))?,
        }
    }
    Ok(())
}

/// A digest, in small hexadecimal digits.
fn put_digest<W: Write>(out: &mut W, digest: &[u8]) -> fmt::Result {
    for byte in digest {
        write!(out, "{byte:02x}")?;
    }
    Ok(())
}

/// A value in a row; `None` is written as null.
#[derive(Clone, Copy)]
pub enum Item<'a> {
    /// A word, written as it is.
    Word(&'static str),
    /// A text; the row has the quotes.
    Text(&'a [u8]),
    /// Bytes in hexadecimal; the row has the quotes.
    Digest(&'a [u8]),
    /// A number that isn't negative.
    Natural(u64),
    /// A number.
    Number(i64),
    /// A time, counted from the first record of the run. It is written counted from the first record of the page.
    Time(i64),
    /// A number that isn't negative, if there is one.
    NaturalIf(Option<u64>),
    /// A number, if there is one.
    NumberIf(Option<i64>),
    /// The number of a rule in its text, if there is one.
    RuleIf(Option<usize>),
    /// The number of a rule text, if there is one.
    TextIf(Option<usize>),
}

/// Writes an item; `shift` is the time of the page's first record, counted from the run's first.
fn put_item<W: Write>(out: &mut W, item: Item<'_>, shift: i64) -> fmt::Result {
    match item {
        Item::Word(word) => out.write_str(word),
        Item::Text(text) => put_text(out, text),
        Item::Digest(digest) => put_digest(out, digest),
        Item::Natural(number) | Item::NaturalIf(Some(number)) => write!(out, "{number}"),
        Item::Number(number) | Item::NumberIf(Some(number)) => write!(out, "{number}"),
        Item::Time(time) => write!(out, "{}", time.saturating_sub(shift)),
        Item::RuleIf(Some(number)) => write!(out, "{number}"),
        Item::TextIf(Some(number)) => write!(out, "{number}"),
        _ => out.write_str("null"),
    }
}

/// Writes a row: each text is followed by its item, if there is one.
fn put_row<W: Write>(
    out: &mut W,
    texts: &[&'static str],
    items: &[Item<'_>],
    shift: i64,
) -> fmt::Result {
    for (number, text) in texts.iter().enumerate() {
        out.write_str(text)?;
        if let Some(item) = items.get(number) {
            put_item(out, *item, shift)?;
        }
    }
    Ok(())
}

/// A writer of JSON. It writes the commas between the members of a list, and nothing more after a write that failed.
#[derive(Drop)]
pub struct Json<'o, W: Write> {
    out: &'o mut W,
    result: fmt::Result,
    /// The time of the page's first record, counted from the run's first.
    shift: i64,
    /// Whether the next member is the first of its list.
    is_first: bool,
}

impl<'o, W: Write> Json<'o, W> {
    /// A writer to `out` that has written nothing. `shift` is the time of the page's first record, counted from the run's first.
    pub fn new(out: &'o mut W, shift: i64) -> Json<'o, W> {
        Json {
            out,
            result: Ok(()),
            shift,
            is_first: true,
        }
    }

    /// Writes a part that is neither a member nor the opening of a list.
    pub fn text(&mut self, text: &'static str) {
        if self.result.is_ok() {
            self.result = self.out.write_str(text);
        }
        self.is_first = false;
    }

    /// Writes the comma before a member, unless it is the first of its list.
    fn comma(&mut self) {
        if self.is_first {
            self.is_first = false;
        } else {
            self.text(",");
        }
    }

    /// Writes a part that opens a list.
    pub fn open(&mut self, text: &'static str) {
        self.text(text);
        self.is_first = true;
    }

    /// Writes a member that opens a list at its end.
    pub fn list(&mut self, text: &'static str) {
        self.comma();
        self.open(text);
    }

    /// Writes a text for between quotes.
    pub fn quote(&mut self, text: &[u8]) {
        if self.result.is_ok() {
            self.result = put_text(self.out, text);
        }
    }

    /// Writes a value of JSON that writes itself.
    pub fn value<A: Display>(&mut self, value: &A) {
        if self.result.is_ok() {
            self.result = write!(self.out, "{value}");
        }
    }

    /// Writes a row: each text is followed by its item. There is at least one text for each item.
    pub fn row(&mut self, texts: &[&'static str], items: &[Item<'_>]) {
        if self.result.is_ok() {
            self.result = put_row(self.out, texts, items, self.shift);
        }
    }

    /// Writes a row as a member of a list.
    pub fn member(&mut self, texts: &[&'static str], items: &[Item<'_>]) {
        self.comma();
        self.row(texts, items);
    }

    /// Returns the first error of the writer, if there was one.
    pub fn end(self) -> fmt::Result {
        self.result
    }
}
