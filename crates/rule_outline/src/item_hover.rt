//! What is said of a packet, a field or a rule, in Markdown, as far as its tokens are there.

use crate::item_parts::{
    ItemTokens, TokenBytes, number_in, packet_in, tokens_before, type_in, value_in,
};
use diagnostics::{Many, Signed, behind};
use lc_model::FieldType;
use rule_errors::{Declaration, NameKind, Source, TokenRange};
use rule_lexer::TokenKind;
use std::fmt::{self, Display, Formatter, Write};

/// The most fields of a packet that are named.
const MOST_FIELDS: usize = 20;

/// An item that declares a name; it displays as what is said of it.
#[derive(Clone, Copy)]
pub struct ItemHover<'s, 'a> {
    /// The text.
    pub source: &'s Source<'a>,
    /// What the item declares.
    pub kind: NameKind,
    /// The declared name.
    pub name: &'a [u8],
    /// The item's tokens.
    pub part: TokenRange,
}

impl<'s, 'a> ItemHover<'s, 'a> {
    /// Writes the item's tokens after its name, up to a condition.
    fn write_tokens<W: Write>(&self, f: &mut Formatter<W>) -> fmt::Result {
        let tokens = behind(self.source.tokens_of(self.part), 2);
        let tokens = ItemTokens(tokens_before(tokens, TokenKind::When));
        write!(f, "\n\n```lcrules\n{tokens}\n```")
    }

    /// Whether a declared name is that of a field of this packet.
    fn has_field(&self, name: &Declaration<'_>) -> bool {
        match self.source.parts.get(name.part) {
            Some(part) => name.kind == Some(NameKind::Field)
                && packet_in(self.source, *part) == Some(self.name),
            None => false,
        }
    }

    /// Writes the names of a packet's fields.
    fn write_fields<W: Write>(&self, f: &mut Formatter<W>) -> fmt::Result {
        let mut count = 0usize;
        for field in self
            .source
            .names
            .iter()
            .filter(|name| self.has_field(*name))
        {
            if count < MOST_FIELDS {
                let before = if count == 0 { "\n\nfields" } else { "," };
                let name = TokenBytes(field.text);
                write!(f, "{before} `{name}`")?;
            }
            count = count.saturating_add(1);
        }
        if count > MOST_FIELDS {
            let more = count - MOST_FIELDS;
            write!(f, " and {more} more")?;
        }
        Ok(())
    }

    /// Writes the packet of a field, with its message id.
    fn write_packet<W: Write>(&self, f: &mut Formatter<W>) -> fmt::Result {
        let Some(packet) = packet_in(self.source, self.part) else {
            return Ok(());
        };
        let name = TokenBytes(packet);
        write!(f, " of packet `{name}`")?;
        match self.mid_of(packet) {
            Some(mid) => write!(f, " ({mid})"),
            None => Ok(()),
        }
    }

    /// The message id of the packet of this name.
    fn mid_of(&self, packet: &[u8]) -> Option<TokenBytes<'a>> {
        let packet = self.source.find_declaration(NameKind::Packet, packet)?;
        let part = self.source.parts.get(packet.part)?;
        number_in(self.source, *part, TokenKind::Mid)
    }

    /// The bits of a field that count; `None` if its mask isn't valid.
    fn mask(&self, kind: FieldType) -> Option<u32> {
        if self.source.first_of(self.part, TokenKind::Mask).is_none() {
            return Some(kind.full_mask());
        }
        let mask = u32::try_from(value_in(self.source, self.part, TokenKind::Mask)?).ok()?;
        if 0 < mask && mask <= kind.full_mask() {
            Some(mask)
        } else {
            None
        }
    }

    /// Writes the type of a field, its place, its mask and its least and greatest number: the sign's bit alone, if the mask has it, and all
    /// other bits of the mask.
    fn write_type<W: Write>(&self, kind: FieldType, f: &mut Formatter<W>) -> fmt::Result {
        let word = kind.word();
        write!(f, "\n\n`{word}`")?;
        if let Some(at) = number_in(self.source, self.part, TokenKind::At) {
            write!(f, " at {at}")?;
        }
        if let Some(mask) = self.mask(kind) {
            let sign = mask & kind.sign_weight();
            let least = Signed(-i64::from(sign));
            let greatest = Signed(i64::from(mask & !sign));
            write!(f, ", mask 0x{mask:X}, {least} to {greatest}")?;
        }
        Ok(())
    }

    /// Writes after how many agings a field is stale.
    fn write_age<W: Write>(&self, f: &mut Formatter<W>) -> fmt::Result {
        let age = match self.source.first_of(self.part, TokenKind::Stale) {
            Some(_) => value_in(self.source, self.part, TokenKind::Stale),
            None => Some(0),
        };
        match age {
            Some(0) => write!(f, ", never stale"),
            Some(age) if age > 0 => {
                let age = Many(age as usize, "aging");
                write!(f, ", stale after {age}")
            }
            _ => Ok(()),
        }
    }

    /// Writes what is said of a field behind its name.
    fn write_field<W: Write>(&self, f: &mut Formatter<W>) -> fmt::Result {
        self.write_packet(f)?;
        match type_in(self.source, self.part) {
            Some(kind) => {
                self.write_type(kind, f)?;
                self.write_age(f)
            }
            None => Ok(()),
        }
    }

    /// Writes what is said of a rule behind its name.
    fn write_rule<W: Write>(&self, f: &mut Formatter<W>) -> fmt::Result {
        if let Some(number) = number_in(self.source, self.part, TokenKind::Sequence) {
            write!(f, " that requests command sequence {number}")?;
        }
        self.write_tokens(f)
    }
}

impl Display for ItemHover<'_, '_> {
    fn fmt<W: Write>(&self, f: &mut Formatter<W>) -> fmt::Result {
        let name = TokenBytes(self.name);
        match self.kind {
            NameKind::Packet => {
                write!(f, "`{name}`: packet")?;
                self.write_tokens(f)?;
                self.write_fields(f)
            }
            NameKind::Field => {
                write!(f, "`{name}`: field")?;
                self.write_field(f)
            }
            NameKind::Rule => {
                write!(f, "`{name}`: rule")?;
                self.write_rule(f)
            }
        }
    }
}
