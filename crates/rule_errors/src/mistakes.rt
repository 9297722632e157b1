//! Common mistakes of grammar: words and signs of other languages, clauses in another order or twice, a parenthesis too many.

use crate::advice::{Advice, ByteSpan};
use crate::marks::span;
use crate::source::{NameKind, Source, TokenRange};
use crate::wanted::OPERAND_WORDS;
use diagnostics::{around, behind, nearest, push_quoted};
use lc_model::CmpOp;
use rule_lexer::{Token, TokenKind};
use rule_parser::{Sign, What, Word};
use std::alloc::{AllocError, Global};

/// The beginnings of names of floating-point types in other languages, in small letters.
const FLOATING: &[&[u8]] = &[b"f32", b"f64", b"float", b"double", b"real"];

/// Whether a word names a floating-point type.
fn is_floating(word: &[u8]) -> bool {
    FLOATING.iter().any(|known| {
        word.len() >= known.len() && word[..known.len()].eq_ignore_ascii_case(*known)
    })
}

/// Whether a token follows another with nothing between them.
fn touches(before: Token<'_>, token: Token<'_>) -> bool {
    before.at.saturating_add(before.text.len()) == token.at
}

/// The sign that was meant by these two.
fn meant_sign(first: TokenKind, second: TokenKind) -> Option<&'static [u8]> {
    match (first, second) {
        (TokenKind::Equals, TokenKind::Compare(CmpOp::Greater)) => Some(b">="),
        (TokenKind::Equals, TokenKind::Compare(CmpOp::Less)) => Some(b"<="),
        (TokenKind::Compare(CmpOp::Less), TokenKind::Compare(CmpOp::Greater)) => Some(b"!="),
        _ => None,
    }
}

/// The order of two clauses, by their first words.
fn order_label(alloc: Global, first: &[u8], second: &[u8]) -> Result<String, AllocError> {
    let mut label = around(alloc, "", first, " goes before ")?;
    push_quoted(alloc, &mut label, second)?;
    Ok(label)
}

/// Whether a word of this kind begins a clause of a declaration.
fn begins_clause(kind: TokenKind) -> bool {
    match kind {
        TokenKind::Mid
        | TokenKind::Length
        | TokenKind::At
        | TokenKind::Mask
        | TokenKind::Stale
        | TokenKind::Fails
        | TokenKind::Sequence
        | TokenKind::Event
        | TokenKind::Report
        | TokenKind::When => true,
        _ => false,
    }
}

/// A place at which the grammar expects something, and what is there.
#[derive(Clone, Copy)]
struct Mistake<'s, 'a> {
    source: &'s Source<'a>,
    /// The number of the token.
    number: usize,
    token: Token<'a>,
    what: What,
}

impl<'s, 'a> Mistake<'s, 'a> {
    /// The token that is `back` tokens before that one.
    fn before(self, back: usize) -> Option<Token<'a>> {
        self.source.token(self.number.checked_sub(back)?)
    }

    /// The bytes from this token to that one, which stands after it.
    fn from_to(self, first: Token<'a>, last: Token<'a>) -> ByteSpan {
        ByteSpan {
            from: first.at,
            to: span(last).to,
        }
    }

    /// What to do about a sign of two characters that is read as two signs: `=>`, `=<` and `<>`.
    fn sign_advice(self, alloc: Global) -> Result<Option<Advice>, AllocError> {
        let Some((first, second)) = self.parts_of_sign() else {
            return Ok(None);
        };
        match meant_sign(first.kind, second.kind) {
            Some(sign) => Ok(Some(Advice::meant(alloc, self.from_to(first, second), sign)?)),
            None => Ok(None),
        }
    }

    /// The parts of a sign of two characters.
    fn parts_of_sign(self) -> Option<(Token<'a>, Token<'a>)> {
        let (first, second) = match self.what {
            What::Compare => (
                self.token,
                self.source.token(self.number.saturating_add(1))?,
            ),
            What::Number => (self.before(1)?, self.token),
            _ => return None,
        };
        if touches(first, second) {
            Some((first, second))
        } else {
            None
        }
    }

    /// What to do about a word of another language.
    fn foreign_advice(self, alloc: Global) -> Result<Option<Advice>, AllocError> {
        if self.token.kind != TokenKind::Name {
            return Ok(None);
        }
        match self.what {
            What::FieldKind if is_floating(self.token.text) => {
                let label = "floating-point fields are not supported";
                Ok(Some(Advice::plain(alloc, label)?))
            }
            What::Word(Word::When) if self.token.text.eq_ignore_ascii_case(b"if") => {
                Ok(Some(Advice::meant(alloc, span(self.token), b"when")?))
            }
            _ => Ok(None),
        }
    }

    /// What to do about parentheses that close none. All in a row are left out.
    fn parenthesis_advice(self, alloc: Global) -> Result<Option<Advice>, AllocError> {
        if self.what != What::Sign(Sign::Semicolon) || self.token.kind != TokenKind::Close {
            return Ok(None);
        }
        let tokens = self.source.tokens.as_slice();
        let row = behind(tokens, self.number)
            .iter()
            .take_while(|token| token.kind == TokenKind::Close)
            .count();
        let advice = self.left_out(alloc, row, "`)` closes nothing: leave it out")?;
        Ok(Some(advice))
    }

    /// To leave out this many tokens, from that one on.
    fn left_out(self, alloc: Global, count: usize, label: &str) -> Result<Advice, AllocError> {
        let last = self.number.saturating_add(count).saturating_sub(1);
        let last = self.source.token(last).unwrap_or(self.token);
        let old = self.from_to(self.token, last);
        Advice::leave_out(alloc, self.source.text, old, label)
    }

    /// How many tokens the clause has that begins with the token of this number.
    fn clause_size(self, number: usize) -> usize {
        let part = self.source.part_of(number);
        let rest = TokenRange {
            from: number.saturating_add(1),
            to: part.to,
        };
        let more = self
            .source
            .tokens_of(rest)
            .iter()
            .take_while(|token| {
                !begins_clause(token.kind) && token.kind != TokenKind::Semicolon
            })
            .count();
        more.saturating_add(1)
    }

    /// What to do about a clause that its item has already.
    fn repeated_advice(self, alloc: Global) -> Result<Option<Advice>, AllocError> {
        if !self.is_repeated() {
            return Ok(None);
        }
        let label = "this clause stands twice: leave one out";
        let size = match self.before(1) {
            Some(before) if before.kind == self.token.kind => 1,
            _ => self.clause_size(self.number),
        };
        Ok(Some(self.left_out(alloc, size, label)?))
    }

    /// Whether the token begins a clause that its item has already.
    fn is_repeated(self) -> bool {
        if !begins_clause(self.token.kind) {
            return false;
        }
        let part = self.source.part_of(self.number);
        match self.source.first_of(part, self.token.kind) {
            Some(first) => first.at < self.token.at,
            None => false,
        }
    }

    /// What to do about signs and words that aren't expected.
    fn plain_advice(self, alloc: Global) -> Result<Option<Advice>, AllocError> {
        if let Some(advice) = self.repeated_advice(alloc)? {
            return Ok(Some(advice));
        }
        if let Some(advice) = self.sign_advice(alloc)? {
            return Ok(Some(advice));
        }
        match self.foreign_advice(alloc)? {
            Some(advice) => Ok(Some(advice)),
            None => self.parenthesis_advice(alloc),
        }
    }

    /// The word that has to stand before this one, the beginning of another clause, in its item, and stands after it.
    fn later_word(self) -> Option<Token<'a>> {
        let What::Word(word) = self.what else {
            return None;
        };
        if !begins_clause(self.token.kind) {
            return None;
        }
        let part = self.source.part_of(self.number);
        let later = self.source.first_of(part, word.kind())?;
        if self.token.at < later.at {
            Some(later)
        } else {
            None
        }
    }

    /// The word before which this one has to stand in its item, and which stands before it.
    fn earlier_word(self) -> Option<Token<'a>> {
        if self.what != What::Sign(Sign::Semicolon) {
            return None;
        }
        let after = match self.token.kind {
            TokenKind::Mask => TokenKind::Stale,
            TokenKind::Report => TokenKind::When,
            _ => return None,
        };
        let part = self.source.part_of(self.number);
        let earlier = self.source.first_of(part, after)?;
        if earlier.at < self.token.at {
            Some(earlier)
        } else {
            None
        }
    }

    /// What to do about two clauses in the wrong order.
    fn order_advice(self, alloc: Global) -> Result<Option<Advice>, AllocError> {
        let (first, last) = match (self.later_word(), self.earlier_word()) {
            (Some(later), _) => (self.token, later),
            (None, Some(earlier)) => (earlier, self.token),
            (None, None) => return Ok(None),
        };
        Ok(Some(self.exchanged(alloc, first, last)?))
    }

    /// To move the clause that begins with the last word before the one that begins with the first.
    fn exchanged(
        self,
        alloc: Global,
        first: Token<'a>,
        last: Token<'a>,
    ) -> Result<Advice, AllocError> {
        let text = self.source.text;
        let number = self.source.number_at(last.at);
        let before = self.source.token_before(number).unwrap_or(first);
        let end = number
            .saturating_add(self.clause_size(number))
            .saturating_sub(1);
        let end = self.source.token(end).unwrap_or(last);
        let label = order_label(alloc, last.text, first.text)?;
        let (first, last) = (self.from_to(first, before), self.from_to(last, end));
        Advice::exchange(alloc, text, first, last, label)
    }

    /// The field of the comparison before a second sign.
    fn compared_field(self) -> Option<Token<'a>> {
        let (name, sign, value) = (self.before(3)?, self.before(2)?, self.before(1)?);
        match (name.kind, sign.kind, value.kind, self.token.kind) {
            (TokenKind::Name, TokenKind::Compare(_), TokenKind::Number(_), TokenKind::Compare(_)) =>
                Some(name),
            _ => None,
        }
    }

    /// What to do about a second sign in one comparison.
    fn chain_advice(self, alloc: Global) -> Result<Option<Advice>, AllocError> {
        let Some(name) = self.compared_field() else {
            return Ok(None);
        };
        let mut meant = Vec::from_slice(alloc, b"and ")?;
        meant.extend_from_slice(name.text)?;
        meant.push(b' ')?;
        meant.extend_from_slice(self.token.text)?;
        meant.push(b' ')?;
        self.completed(alloc, meant)
    }

    /// What to do about a second sign, by the comparison that was meant, up to its number.
    fn completed(self, alloc: Global, mut meant: Vec<u8>) -> Result<Option<Advice>, AllocError> {
        match self.source.token(self.number.saturating_add(1)) {
            Some(value) => {
                meant.extend_from_slice(value.text)?;
                let old = self.from_to(self.token, value);
                Ok(Some(Advice::meant(alloc, old, meant.as_slice())?))
            }
            None => {
                meant.extend_from_slice(b"..")?;
                let label = around(alloc, "did you mean ", meant.as_slice(), "?")?;
                Ok(Some(Advice::words(label)))
            }
        }
    }

    /// What to do about a misspelt `not`, which was read as a field's name.
    fn not_advice(self, alloc: Global) -> Result<Option<Advice>, AllocError> {
        let Some(before) = self.before(1) else {
            return Ok(None);
        };
        if self.what != What::Compare
            || before.kind != TokenKind::Name
            || self
                .source
                .find_declaration(NameKind::Field, before.text)
                .is_some()
        {
            return Ok(None);
        }
        let Some(word) = nearest(alloc, before.text, OPERAND_WORDS)? else {
            return Ok(None);
        };
        let after = around(alloc, " for ", before.text, "?")?;
        let old = span(before);
        let advice = Advice::instead(alloc, old, "did you mean ", word, after.as_str())?;
        Ok(Some(advice))
    }

    /// What to do about clauses and comparisons.
    fn clause_advice(self, alloc: Global) -> Result<Option<Advice>, AllocError> {
        if let Some(advice) = self.order_advice(alloc)? {
            return Ok(Some(advice));
        }
        if let Some(advice) = self.chain_advice(alloc)? {
            return Ok(Some(advice));
        }
        self.not_advice(alloc)
    }
}

/// What to do about the token with this number, where this was expected; `None` if it is no common mistake. Error: out of memory.
pub fn mistake_advice(
    alloc: Global,
    source: &Source<'_>,
    number: usize,
    what: What,
) -> Result<Option<Advice>, AllocError> {
    let Some(token) = source.token(number) else {
        return Ok(None);
    };
    let mistake = Mistake {
        source,
        number,
        token,
        what,
    };
    match mistake.plain_advice(alloc)? {
        Some(advice) => Ok(Some(advice)),
        None => mistake.clause_advice(alloc),
    }
}
