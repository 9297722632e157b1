//! Bytes of texts.

ghost use Rattle.std.specs.Prelude.{◌≡◌};
ghost use Rattle.lc_model.specs.Text.Token.{is_text_byte};

/// What may stand between quotes, and in an event's text: 0x20 to 0x7E, but no quote.
pub fn is_text_byte(byte: u8) -> bool
    ensures { result ≡ is_text_byte byte }
{
    (0x20..=0x7E).contains(&byte) && byte != b'"'
}
