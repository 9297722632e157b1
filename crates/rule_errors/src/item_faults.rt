//! The faults of items that are whole.

use crate::fields::{packet_of, type_of};
use crate::marks::value_of;
use crate::naming::{declared_in, names};
use crate::source::{Declaration, NameKind, Source, TokenRange};
use diagnostics::{MOST_TOLD, behind};
use field_checker::{CheckError, RuleNumber};
use lc_model::{FieldType, mids, packet};
use rule_lexer::{Token, TokenKind};
use std::alloc::{AllocError, Global};

/// A packet's least and most bytes.
const SHORTEST_PACKET: i64 = 12;

const LONGEST_PACKET: i64 = packet::LONGEST_PACKET as i64;

/// The items of a text, with which of them are whole.
#[derive(Drop)]
pub struct Checked<'s, 'a> {
    source: &'s Source<'a>,
    /// For each item whether it is whole.
    whole: &'s [bool],
    /// Whether all packets, and all fields, are known: no declared name is lost, and no name is declared twice.
    knows_packets: bool,
    knows_fields: bool,
}

/// Whether the number is less than `least` or greater than `most`.
fn is_outside(value: i64, least: i64, most: i64) -> bool {
    value < least || most < value
}

/// Adds the fault of a message id, if it has one. The host's own message ids are telemetry, so it has at most one.
fn check_mid(mid: Token<'_>, found: &mut Vec<CheckError>) -> Result<(), AllocError> {
    let value = value_of(mid);
    let least = i64::from(mids::FIRST_TELEMETRY);
    let most = i64::from(mids::LAST_TELEMETRY);
    if is_outside(value, least, most) {
        found.push(CheckError::MidRange { at: mid.at })?;
    } else if value == i64::from(mids::EVENT) || value == i64::from(mids::LC_HOUSEKEEPING) {
        found.push(CheckError::ReservedMid { at: mid.at })?;
    }
    Ok(())
}

impl<'s, 'a> Checked<'s, 'a> {
    /// A text, which of its items are whole, and whether bad quoted texts may hide items.
    pub fn new(source: &'s Source<'a>, whole: &'s [bool], hides_items: bool) -> Checked<'s, 'a> {
        let mut checked = Checked {
            source,
            whole,
            knows_packets: true,
            knows_fields: true,
        };
        let is_lost = hides_items || checked.is_name_lost();
        checked.knows_packets = !is_lost && !checked.is_name_taken(NameKind::Packet);
        checked.knows_fields = !is_lost && !checked.is_name_taken(NameKind::Field);
        checked
    }

    /// Whether the item with this number is whole.
    fn is_whole_part(&self, number: usize) -> bool {
        self.whole.get(number).copied().unwrap_or(false)
    }

    /// Whether the item that declares a name is whole.
    fn is_whole(&self, name: Declaration<'a>) -> bool {
        self.is_whole_part(name.part)
    }

    /// Whether an item that isn't whole may declare the name: one of its first three tokens is that name.
    fn is_half_declared(&self, text: &[u8]) -> bool {
        for (number, part) in self.source.parts.iter().enumerate() {
            if self.is_whole_part(number) {
                continue;
            }
            let mut front = self.source.tokens_of(*part).iter().take(3);
            if front.any(|token| token.kind == TokenKind::Name && token.text == text) {
                return true;
            }
        }
        false
    }

    /// Whether a blank or `=` follows a name in the text, so that no bad byte has cut it.
    fn is_whole_word(&self, name: Token<'a>) -> bool {
        let after = behind(self.source.text, name.at.saturating_add(name.text.len()));
        matches!(after, [byte, ..] if byte.is_ascii_whitespace() || *byte == b'=')
    }

    /// Whether an item that isn't whole and may declare a packet or a field has no whole name before its `=`, so that its name is unknown.
    fn is_name_lost(&self) -> bool {
        for (number, part) in self.source.parts.iter().enumerate() {
            if self.is_whole_part(number) {
                continue;
            }
            match self.source.tokens_of(*part) {
                [first, ..] if first.kind == TokenKind::Rule => {}
                [_, name, sign, ..]
                    if name.kind == TokenKind::Name
                        && sign.kind == TokenKind::Equals
                        && self.is_whole_word(*name) => {}
                _ => return true,
            }
        }
        false
    }

    /// Whether a declaration is reliable: its item is whole, and its name isn't declared twice.
    fn is_right(&self, name: Declaration<'a>) -> bool {
        self.is_whole(name)
            && !self
                .source
                .names
                .iter()
                .any(|other| other.text == name.text && other.at != name.at)
    }

    /// Whether a declaration of this kind has a name that is declared twice, so that another name may have been meant.
    fn is_name_taken(&self, kind: NameKind) -> bool {
        for name in &self.source.names {
            if let Some(first) = self.source.first_declared(name.text) {
                if first.at != name.at && (name.kind == Some(kind) || first.kind == Some(kind)) {
                    return true;
                }
            }
        }
        false
    }

    /// Whether all names of this kind are known.
    fn knows(&self, kind: NameKind) -> bool {
        match kind {
            NameKind::Packet => self.knows_packets,
            _ => self.knows_fields,
        }
    }

    /// The length of this packet, if it is valid.
    fn right_length(&self, packet: Declaration<'a>) -> Option<i64> {
        let value = value_of(self.source.value_in(packet, TokenKind::Length)?);
        if is_outside(value, SHORTEST_PACKET, LONGEST_PACKET) {
            return None;
        }
        Some(value)
    }

    /// Whether an item surely declares the name: it is whole, or what follows the name is no second one.
    fn is_surely_declared(&self, name: Declaration<'a>) -> bool {
        let Some(part) = self.source.parts.get(name.part) else {
            return false;
        };
        self.is_whole(name)
            || !matches!(
                self.source.tokens_of(*part),
                [_, _, third, ..] if third.kind == TokenKind::Name
            )
    }

    /// The fault of a name that was declared before.
    fn check_name(&self, number: usize, found: &mut Vec<CheckError>) -> Result<(), AllocError> {
        let Some(name) = declared_in(self.source, number) else {
            return Ok(());
        };
        if let Some(first) = self.source.first_declared(name.text) {
            if first.at < name.at && self.is_surely_declared(first) {
                found.push(CheckError::DuplicateName { at: name.at })?;
            }
        }
        Ok(())
    }

    /// The faults of a packet.
    fn check_packet(
        &self,
        tokens: &[Token<'a>],
        found: &mut Vec<CheckError>,
    ) -> Result<(), AllocError> {
        let [_, _, _, _, mid, _, length, ..] = tokens else {
            return Ok(());
        };
        check_mid(*mid, found)?;
        if is_outside(value_of(*length), SHORTEST_PACKET, LONGEST_PACKET) {
            found.push(CheckError::LengthRange { at: length.at })?;
        }
        Ok(())
    }

    /// The fault of a field's place.
    fn check_place(
        &self,
        number: usize,
        width: i64,
        found: &mut Vec<CheckError>,
    ) -> Result<(), AllocError> {
        let Some(place) = self
            .source
            .first_number(self.source.part_of(number), TokenKind::At)
        else {
            return Ok(());
        };
        let Some(packet) = packet_of(self.source, number) else {
            return Ok(());
        };
        if !self.is_right(packet) {
            return Ok(());
        }
        let Some(length) = self.right_length(packet) else {
            return Ok(());
        };
        let value = value_of(place);
        if value < 0 || length < value.saturating_add(width) {
            found.push(CheckError::FieldOutside { at: place.at })?;
        }
        Ok(())
    }

    /// The fault of a mask, if there is one.
    fn check_mask(
        &self,
        token: Option<Token<'a>>,
        kind: FieldType,
        found: &mut Vec<CheckError>,
    ) -> Result<(), AllocError> {
        let Some(mask) = token else {
            return Ok(());
        };
        if is_outside(value_of(mask), 1, i64::from(kind.full_mask())) {
            found.push(CheckError::MaskRange { at: mask.at })?;
        }
        Ok(())
    }

    /// The faults of a field.
    fn check_field(&self, number: usize, found: &mut Vec<CheckError>) -> Result<(), AllocError> {
        let part = self.source.part_of(number);
        let Some(field) = declared_in(self.source, number) else {
            return Ok(());
        };
        let Some(typed) = type_of(self.source, field) else {
            return Ok(());
        };
        let kind = typed.kind;
        let Some(packet) = self.source.token(part.from.saturating_add(3)) else {
            return Ok(());
        };
        self.check_use(packet, NameKind::Packet, found)?;
        self.check_place(number, kind.width() as i64, found)?;
        self.check_mask(self.source.first_number(part, TokenKind::Mask), kind, found)?;
        let stale = self.source.first_number(part, TokenKind::Stale);
        self.check_behind(stale, RuleNumber::Stale, found)
    }

    /// The fault of a name that isn't declared, at its first use. It isn't reported if the declaration may be in an item that isn't whole,
    /// or may have another name by mistake.
    fn check_use(
        &self,
        token: Token<'a>,
        kind: NameKind,
        found: &mut Vec<CheckError>,
    ) -> Result<(), AllocError> {
        if self.source.find_declaration(kind, token.text).is_some()
            || self.is_half_declared(token.text)
        {
            return Ok(());
        }
        if !self.knows(kind) || !self.is_first_use(token, kind) {
            return Ok(());
        }
        found.push(CheckError::UnknownName { at: token.at })?;
        Ok(())
    }

    /// Whether no earlier whole item uses the name as one of this kind.
    fn is_first_use(&self, token: Token<'a>, kind: NameKind) -> bool {
        for (number, part) in self.source.parts.iter().enumerate() {
            if self.is_whole_part(number) && self.uses_before(*part, token, kind) {
                return false;
            }
        }
        true
    }

    /// Whether the item uses the token's name before it as a name of this kind.
    fn uses_before(&self, part: TokenRange, token: Token<'a>, kind: NameKind) -> bool {
        for (number, other) in self.source.tokens_of(part).iter().enumerate() {
            if other.at < token.at
                && other.kind == TokenKind::Name
                && other.text == token.text
                && names(self.source, number.saturating_add(part.from), kind)
            {
                return true;
            }
        }
        false
    }

    /// The fault of a number.
    fn check_number(
        &self,
        token: Token<'a>,
        number: RuleNumber,
        found: &mut Vec<CheckError>,
    ) -> Result<(), AllocError> {
        let least = i64::from(number.least());
        let most = i64::from(number.most());
        if is_outside(value_of(token), least, most) {
            found.push(CheckError::NumberRange { at: token.at })?;
        }
        Ok(())
    }

    /// The faults of a comparison.
    fn check_comparison(
        &self,
        name: Token<'a>,
        value: Token<'a>,
        found: &mut Vec<CheckError>,
    ) -> Result<(), AllocError> {
        let Some(field) = self.source.find_declaration(NameKind::Field, name.text) else {
            return self.check_use(name, NameKind::Field, found);
        };
        if !self.is_right(field) {
            return Ok(());
        }
        if let Some(typed) = type_of(self.source, field) {
            if !typed.kind.has(value_of(value)) {
                found.push(CheckError::ConstRange { at: value.at })?;
            }
        }
        Ok(())
    }

    /// Adds the fault of the number in this token; nothing without a token.
    fn check_behind(
        &self,
        token: Option<Token<'a>>,
        number: RuleNumber,
        found: &mut Vec<CheckError>,
    ) -> Result<(), AllocError> {
        match token {
            Some(token) => self.check_number(token, number, found),
            None => Ok(()),
        }
    }

    /// The faults of the numbers of a report.
    fn check_report(
        &self,
        part: TokenRange,
        found: &mut Vec<CheckError>,
    ) -> Result<(), AllocError> {
        let report = TokenKind::Report;
        let first = self.source.behind_first(part, report, 1);
        self.check_behind(first, RuleNumber::ReportPassive, found)?;
        let second = self.source.behind_first(part, report, 2);
        self.check_behind(second, RuleNumber::ReportPassToFail, found)?;
        let third = self.source.behind_first(part, report, 3);
        self.check_behind(third, RuleNumber::ReportFailToPass, found)
    }

    /// The faults of the other numbers of a rule.
    fn check_numbers(
        &self,
        part: TokenRange,
        found: &mut Vec<CheckError>,
    ) -> Result<(), AllocError> {
        let fails = self.source.first_number(part, TokenKind::Fails);
        self.check_behind(fails, RuleNumber::Fails, found)?;
        let sequence = self.source.first_number(part, TokenKind::Sequence);
        self.check_behind(sequence, RuleNumber::Sequence, found)?;
        let event = self.source.behind_first(part, TokenKind::Event, 2);
        self.check_behind(event, RuleNumber::EventId, found)
    }

    /// The faults of a rule.
    fn check_rule(&self, part: TokenRange, found: &mut Vec<CheckError>) -> Result<(), AllocError> {
        self.check_numbers(part, found)?;
        self.check_report(part, found)?;
        for (number, token) in self.source.tokens_of(part).iter().enumerate() {
            if !matches!(token.kind, TokenKind::Compare(_)) {
                continue;
            }
            let number = number.saturating_add(part.from);
            if let (Some(name), Some(value)) = (
                self.source.token(number.saturating_sub(1)),
                self.source.token(number.saturating_add(1)),
            ) {
                self.check_comparison(name, value, found)?;
            }
        }
        Ok(())
    }

    /// The faults of items, in the order of the text, until there are more than are counted.
    pub fn faults(&self, alloc: Global) -> Result<Vec<CheckError>, AllocError> {
        let mut found = Vec::new(alloc);
        for (number, part) in self.source.parts.iter().enumerate() {
            if found.len() > MOST_TOLD {
                break;
            }
            if !self.is_whole_part(number) {
                continue;
            }
            self.check_name(part.from, &mut found)?;
            match self.source.kind_of(*part) {
                Some(NameKind::Packet) => self.check_packet(
                    self.source.tokens_of(*part),
                    &mut found,
                )?,
                Some(NameKind::Field) => self.check_field(part.from, &mut found)?,
                Some(NameKind::Rule) => self.check_rule(*part, &mut found)?,
                None => {}
            }
        }
        Ok(found)
    }
}
