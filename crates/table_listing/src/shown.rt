//! Bytes as printable text.

ghost use Rattle.std.specs.Prelude.{Some};
ghost use Rattle.table_listing.specs.Shown.{in_hex, named, named_byte, shown, shown_byte};

use std::fmt::{self, Display, Formatter, Write};

/// A byte that displays as itself if it is printable ASCII, else as `\x` and two hexadecimal digits.
#[derive(Clone, Copy)]
struct ShownByte(u8);

impl Display for ShownByte {
    ghost output = { λ byte. Some (shown_byte byte.0) };

    fn fmt<W: Write>(&self, f: &mut Formatter<W>) -> fmt::Result {
        let byte = self.0;
        if (0x20..=0x7E).contains(&byte) {
            let letter = char::from(byte);
            write!(f, "{letter}")
        } else {
            write!(f, "\\x{byte:02x}")
        }
    }
}

/// An event's text. An unprintable byte displays as `\x` and two digits; a backslash stays as it is, as in rule texts.
#[derive(Clone, Copy)]
pub struct Shown<'a>(pub &'a [u8]);

impl Display for Shown<'_> {
    ghost output = { λ bytes. Some (shown bytes.0.now) };

    fn fmt<W: Write>(&self, f: &mut Formatter<W>) -> fmt::Result {
        for byte in self.0 {
            let byte = ShownByte(*byte);
            write!(f, "{byte}")?;
        }
        Ok(())
    }
}

/// A byte of a name: a quote or a backslash displays as `\x` and two digits, other bytes as `ShownByte`.
#[derive(Clone, Copy)]
struct NamedByte(u8);

impl Display for NamedByte {
    ghost output = { λ byte. Some (named_byte byte.0) };

    fn fmt<W: Write>(&self, f: &mut Formatter<W>) -> fmt::Result {
        let byte = self.0;
        if byte == b'"' || byte == b'\\' {
            write!(f, "\\x{byte:02x}")
        } else {
            let byte = ShownByte(byte);
            write!(f, "{byte}")
        }
    }
}

/// A name for between quotes. Each unprintable byte, quote and backslash displays as `\x` and two digits, so the name
/// ends at the closing quote.
#[derive(Clone, Copy)]
pub struct QuotedName<'a>(pub &'a [u8]);

impl Display for QuotedName<'_> {
    ghost output = { λ bytes. Some (named bytes.0.now) };

    fn fmt<W: Write>(&self, f: &mut Formatter<W>) -> fmt::Result {
        for byte in self.0 {
            let byte = NamedByte(*byte);
            write!(f, "{byte}")?;
        }
        Ok(())
    }
}

/// Bytes that display as hexadecimal, two small digits each.
#[derive(Clone, Copy)]
pub struct InHex<'a>(pub &'a [u8]);

impl Display for InHex<'_> {
    ghost output = { λ bytes. Some (in_hex bytes.0.now) };

    fn fmt<W: Write>(&self, f: &mut Formatter<W>) -> fmt::Result {
        for byte in self.0 {
            write!(f, "{byte:02x}")?;
        }
        Ok(())
    }
}
