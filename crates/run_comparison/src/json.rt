//! Texts in JSON (RFC 8259).

use std::fmt::{self, Display, Formatter, Write};

/// A text; it displays as a JSON string. A byte that isn't printable ASCII becomes `.`.
#[derive(Clone, Copy)]
pub struct JsonText<'a>(pub &'a [u8]);

/// A text that may be missing; it displays as a JSON string or `null`.
#[derive(Clone, Copy)]
pub struct JsonTextOrNull<'a>(pub Option<&'a [u8]>);

impl Display for JsonText<'_> {
    fn fmt<W: Write>(&self, f: &mut Formatter<W>) -> fmt::Result {
        f.write_char('"')?;
        for byte in self.0 {
            match *byte {
                b'"' => f.write_str("\\\"")?,
                b'\\' => f.write_str("\\\\")?,
                0x20..=0x7E => f.write_char(char::from(*byte))?,
                _ => f.write_char('.')?,
            }
        }
        f.write_char('"')
    }
}

impl Display for JsonTextOrNull<'_> {
    fn fmt<W: Write>(&self, f: &mut Formatter<W>) -> fmt::Result {
        match self.0 {
            Some(text) => write!(f, "{}", JsonText(text)),
            None => f.write_str("null"),
        }
    }
}
