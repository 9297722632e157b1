//! Messages for tokens that don't continue an item.

ghost use Rattle.std.specs.Prelude.{◌≡◌, IfOk};
ghost use Rattle.diagnostics.specs.Message.{IsAt};

use crate::advice::{Advice, ByteSpan};
use crate::marks::{declared_mark, span, text_of, token_mark};
use crate::mistakes::mistake_advice;
use crate::source::{Declaration, NameKind, Source, TokenRange, begins_item};
use crate::wanted::{describe_found, describe_wanted, is_reserved, words_for};
use diagnostics::{Edit, Mark, Message, choice_of, nearest};
use lc_model::{CmpOp, TYPE_WORDS};
use rule_lexer::{Token, TokenKind};
use rule_parser::{Sign, What};
use std::alloc::{AllocError, Global};

/// A place at which the grammar expects something else than what is there.
#[derive(Drop)]
struct Stop<'s, 'a> {
    source: &'s Source<'a>,
    /// The number of the token at that place.
    number: usize,
    what: What,
}

/// The comparison with its sides exchanged.
fn mirrored_sign(op: CmpOp) -> &'static str {
    match op {
        CmpOp::Less => ">",
        CmpOp::LessOrEqual => ">=",
        CmpOp::NotEqual => "!=",
        CmpOp::Equal => "==",
        CmpOp::GreaterOrEqual => "<=",
        CmpOp::Greater => "<",
    }
}

/// A comparison whose number stands on the left, with the sign for its sides exchanged.
#[derive(Clone, Copy)]
struct Exchanged<'a> {
    name: Token<'a>,
    op: &'static str,
    value: Token<'a>,
}

/// What to do about a number on the left.
fn exchanged_advice(alloc: Global, found: Exchanged<'_>) -> Result<Advice, AllocError> {
    let mut meant = Vec::from_slice(alloc, found.name.text)?;
    meant.push(b' ')?;
    meant.extend_from_slice(found.op.as_bytes())?;
    meant.push(b' ')?;
    meant.extend_from_slice(found.value.text)?;
    let old = ByteSpan {
        from: found.value.at,
        to: span(found.name).to,
    };
    let before = "the field comes first: did you mean ";
    Advice::instead(alloc, old, before, meant.as_slice(), "?")
}

/// A place where something is missing, and the edit that writes it, if one does.
#[derive(Drop)]
struct Missing {
    mark: Mark,
    edit: Option<Edit>,
}

/// One of two edits, the first if there are both.
fn first_edit(first: Option<Edit>, second: Option<Edit>) -> Option<Edit> {
    match first {
        Some(edit) => Some(edit),
        None => second,
    }
}

impl<'a> Stop<'_, 'a> {
    /// The token at that place.
    fn token(&self) -> Option<Token<'a>> {
        self.source.token(self.number)
    }

    /// The token before that place.
    fn before(&self) -> Option<Token<'a>> {
        self.source.token_before(self.number)
    }

    /// The item that is read at that place: that of the token before it, unless that item has ended.
    fn part(&self) -> TokenRange {
        let before = self.number.saturating_sub(1);
        match self.source.token(before) {
            Some(token) if token.kind != TokenKind::Semicolon => self.source.part_of(before),
            _ => self.source.part_of(self.number),
        }
    }

    /// The text at that place, if it is a name or a word of the language.
    fn word(&self) -> Option<&'a [u8]> {
        let token = self.token()?;
        if token.kind == TokenKind::Name || is_reserved(token.kind) {
            Some(token.text)
        } else {
            None
        }
    }

    /// What stands before that place in its item.
    fn part_before(&self) -> TokenRange {
        let TokenRange { from, to } = self.part();
        TokenRange {
            from,
            to: to.min(self.number),
        }
    }

    /// A word that was meant.
    fn suggestion(&self, alloc: Global) -> Result<Option<&'static [u8]>, AllocError> {
        match self.word() {
            Some(word) => nearest(
                alloc,
                word,
                words_for(self.source, self.part_before(), self.what),
            ),
            None => Ok(None),
        }
    }

    /// The field, the sign and the number of a comparison whose number stands on the left.
    fn exchanged_sides(&self) -> Option<Exchanged<'a>> {
        let value = self.token()?;
        let op = self.source.token(self.number.saturating_add(1))?;
        let name = self.source.token(self.number.saturating_add(2))?;
        match (value.kind, op.kind, name.kind) {
            (TokenKind::Number(_), TokenKind::Compare(op), TokenKind::Name) => Some(Exchanged {
                name,
                op: mirrored_sign(op),
                value,
            }),
            _ => None,
        }
    }

    /// The field at the place of a comparison's number.
    fn compared_field(&self) -> Option<Declaration<'a>> {
        let token = self.token()?;
        if !matches!(self.before()?.kind, TokenKind::Compare(_)) || token.kind != TokenKind::Name {
            return None;
        }
        self.source.find_declaration(NameKind::Field, token.text)
    }

    /// The innermost parenthesis that is open.
    fn open(&self) -> Option<Token<'a>> {
        let mut closed = 0usize;
        for number in (self.source.part_of(self.number.saturating_sub(1)).from..self.number).rev() {
            let token = self.source.token(number)?;
            match token.kind {
                TokenKind::Close => closed = closed.saturating_add(1),
                TokenKind::Open if closed == 0 => return Some(token),
                TokenKind::Open => closed = closed.saturating_sub(1),
                _ => {}
            }
        }
        None
    }

    /// Whether the next item begins at that place, or the text ends.
    fn is_early(&self) -> bool {
        match self.token() {
            Some(token) => begins_item(token.kind),
            None => true,
        }
    }

    /// The place at which something missing is written: the end of the token before.
    fn end_before(&self) -> ByteSpan {
        match self.before() {
            Some(before) => ByteSpan::new(span(before).to, 0),
            None => ByteSpan::new(0, 0),
        }
    }

    /// The place at which a missing word is written: before the token at that place, unless another item begins with it.
    fn word_place(&self) -> ByteSpan {
        match self.token() {
            Some(token) if !self.is_early() => ByteSpan::new(token.at, 0),
            _ => self.end_before(),
        }
    }

    /// To write the word or the sign that is expected, with the words for the place; `None` if no single one is.
    fn missing_word(&self, alloc: Global, place: &str) -> Result<Option<Advice>, AllocError> {
        let write = "write ";
        let text = self.source.text;
        let advice = match self.what {
            What::Word(word) => {
                let word = format!(in alloc; "{word}")?;
                let old = self.word_place();
                Advice::word_instead(alloc, text, old, write, word.as_bytes(), place)?
            }
            What::Sign(Sign::Equals) => {
                Advice::word_instead(alloc, text, self.word_place(), write, b"=", place)?
            }
            What::Sign(sign) => {
                let sign = format!(in alloc; "{sign}")?;
                Advice::instead(alloc, self.end_before(), write, sign.as_bytes(), place)?
            }
            _ => return Ok(None),
        };
        Ok(Some(advice))
    }

    /// To write what is expected at that place.
    fn missing_advice(&self, alloc: Global) -> Result<Advice, AllocError> {
        match self.missing_word(alloc, " here")? {
            Some(advice) => Ok(advice),
            None => {
                let wanted = describe_wanted(alloc, self.what)?;
                Ok(Advice::words(format!(in alloc; "write {wanted} here")?))
            }
        }
    }

    /// What to do, if nothing more specific applies.
    fn plain_advice(&self, alloc: Global) -> Result<Advice, AllocError> {
        match self.missing_word(alloc, " before this")? {
            Some(advice) => Ok(advice),
            None => self.missing_advice(alloc),
        }
    }

    /// What to do, by the kind of the token at that place.
    fn kind_label(&self) -> Option<&'static str> {
        match self.token() {
            Some(token) if self.what == What::Name && is_reserved(token.kind) => {
                Some("this word belongs to the language: take another name")
            }
            Some(token) if begins_item(token.kind) => Some("the next item begins here"),
            Some(_) => None,
            None => Some("the file ends here"),
        }
    }

    /// What to do, by the class of token that is expected.
    fn class_label(&self) -> Option<&'static str> {
        match self.what {
            What::State => Some("write one of these three"),
            What::Level => Some("write one of these four"),
            _ => self.kind_label(),
        }
    }

    /// Whether the token at that place is `=`.
    fn is_equals(&self) -> bool {
        matches!(self.token(), Some(token) if token.kind == TokenKind::Equals)
    }

    /// What to do about a field at that place.
    fn own_label(&self) -> Option<&'static str> {
        if self.what == What::Number && self.compared_field().is_some() {
            Some("a field is compared with a number, not with a field")
        } else {
            self.class_label()
        }
    }

    /// What to do if no similar word is known, in words only.
    fn other_label(&self, alloc: Global) -> Result<Option<String>, AllocError> {
        if self.what == What::FieldKind {
            let types = choice_of(alloc, TYPE_WORDS)?;
            return Ok(Some(format!(in alloc; "a type is {types}")?));
        }
        match self.own_label() {
            Some(label) => Ok(Some(String::from_str(alloc, label)?)),
            None => Ok(None),
        }
    }

    /// Whether the text goes on as expected without the token at that place.
    fn is_too_many(&self) -> bool {
        let next = self.source.token(self.number.saturating_add(1));
        match (self.what, self.token(), next) {
            (_, Some(token), _) if begins_item(token.kind) => false,
            (What::Item, Some(token), _) if token.kind == TokenKind::Semicolon => true,
            (What::Item, Some(_), Some(next)) => begins_item(next.kind),
            (What::Word(word), Some(_), Some(next)) => next.kind == word.kind(),
            (What::Sign(sign), Some(_), Some(next)) => next.kind == sign.kind(),
            _ => false,
        }
    }

    /// Whether a number stands at that place, directly after another one.
    fn follows_number(&self) -> bool {
        let before = match self.number.checked_sub(1) {
            Some(number) => self.source.token(number),
            None => None,
        };
        match (before, self.token()) {
            (Some(before), Some(token)) => matches!(
                (before.kind, token.kind),
                (TokenKind::Number(_), TokenKind::Number(_))
            ),
            _ => false,
        }
    }

    /// What to do if no similar word is known.
    fn other_advice(&self, alloc: Global) -> Result<Advice, AllocError> {
        if self.is_too_many() && self.follows_number() {
            return Advice::plain(alloc, "leave it out, or write both numbers as one");
        }
        if self.is_too_many() {
            let text = self.source.text;
            return Advice::leave_out(alloc, text, self.span(), "leave it out");
        }
        match self.other_label(alloc)? {
            Some(label) => Ok(Advice::words(label)),
            None => self.plain_advice(alloc),
        }
    }

    /// What to do about signs at that place.
    fn sign_advice(&self, alloc: Global) -> Result<Advice, AllocError> {
        match (self.what, self.exchanged_sides()) {
            (What::Operand, Some(found)) => exchanged_advice(alloc, found),
            (What::Compare, _) if self.is_equals() => Advice::meant(alloc, self.span(), b"=="),
            _ => self.other_advice(alloc),
        }
    }

    /// The bytes of the token at that place.
    fn span(&self) -> ByteSpan {
        match self.token() {
            Some(token) => span(token),
            None => ByteSpan::new(self.source.text.len(), 0),
        }
    }

    /// What to do.
    fn advice(&self, alloc: Global) -> Result<Advice, AllocError> {
        if let Some(advice) = mistake_advice(alloc, self.source, self.number, self.what)? {
            return Ok(advice);
        }
        match self.suggestion(alloc)? {
            Some(word) => Advice::meant(alloc, self.span(), word),
            None => self.sign_advice(alloc),
        }
    }

    /// What is missing, if the next item begins too early or the text ends.
    fn missing(&self, alloc: Global) -> Result<Option<Missing>, AllocError> {
        if !self.is_early() || self.before().is_none() {
            return Ok(None);
        }
        let Advice { label, edit } = self.missing_advice(alloc)?;
        let at = self.end_before().from;
        let mark = Mark { at, size: 0, label };
        Ok(Some(Missing { mark, edit }))
    }

    /// A mark at the open parenthesis, or at the declaration of the field in the place of a number.
    fn other(&self, alloc: Global) -> Result<Option<Mark>, AllocError> {
        match self.what {
            What::Sign(Sign::Close) => token_mark(alloc, self.open(), "opened here"),
            What::Number => declared_mark(alloc, self.compared_field(), "declared here"),
            _ => Ok(None),
        }
    }

    /// The words for what is expected and what is there.
    fn head(&self, alloc: Global) -> Result<String, AllocError> {
        let wanted = describe_wanted(alloc, self.what)?;
        let found = describe_found(alloc, self.token())?;
        format!(in alloc; "expected {wanted}, found {found}")
    }
}

/// The message for a mark where something else was expected, with what is missing.
fn stop_message(
    alloc: Global,
    head: String,
    mark: Mark,
    edit: Option<Edit>,
    missing: Option<Missing>,
) -> Result<Message, AllocError>
    ensures { IfOk result (IsAt 11 mark.at) }
{
    let message = Message::at(alloc, 11, head, mark);
    match missing {
        Some(Missing { mark, edit: other }) => {
            message.with_edit(first_edit(edit, other)).with(Some(mark))
        }
        None => Ok(message.with_edit(edit)),
    }
}

/// The message for a place at which something else was expected.
pub fn expected_message(
    alloc: Global,
    source: &Source<'_>,
    at: usize,
    what: What,
) -> Result<Message, AllocError>
    ensures { IfOk result (IsAt 11 at) }
{
    let stop = Stop {
        source,
        number: source.number_at(at),
        what,
    };
    let head = stop.head(alloc)?;
    let Advice { label, edit } = stop.advice(alloc)?;
    let size = text_of(stop.token()).len();
    let mark = Mark { at, size, label };
    let message = stop_message(alloc, head, mark, edit, stop.missing(alloc)?)?;
    message.with(stop.other(alloc)?)
}

/// The message for the 65th nested token of a condition.
pub fn nested_message(alloc: Global, source: &Source<'_>, at: usize) -> Result<Message, AllocError>
    ensures { IfOk result (IsAt 12 at) }
{
    let number = source.number_at(at);
    let size = text_of(source.token(number)).len();
    let head = String::from_str(
        alloc,
        "a condition has over 64 of `(`, `not`, `and`, `xor` and `or`",
    )?;
    let label = String::from_str(alloc, "this is the 65th: split the rule in two")?;
    Message::at(alloc, 12, head, Mark { at, size, label }).with(begin_mark(alloc, source, number)?)
}

/// A mark at the `when` of the condition with the token of this number.
fn begin_mark(
    alloc: Global,
    source: &Source<'_>,
    number: usize,
) -> Result<Option<Mark>, AllocError> {
    let when = source.first_of(source.part_of(number), TokenKind::When);
    token_mark(alloc, when, "the condition begins here")
}
