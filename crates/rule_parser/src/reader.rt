//! The reader: takes tokens from left to right and returns an error if the expected one doesn't come next.

ghost use Rattle.std.specs.Prelude.{◌≡◌, All, IsTrue, MatchResult, option_map, true};
ghost use Rattle.lc_model.specs.Text.Class as class;
ghost use Rattle.lc_model.specs.Text.Class.{Class, comparison, event_kind, field_type, state};
ghost use Rattle.rule_lexer.specs.Token.{tokens_of, token_of, HasItsKind};
ghost use Rattle.rule_parser.specs.declared.error.ParseError.TheVariants.{Expected};
ghost use Rattle.rule_parser.specs.What.{kind_of_sign, kind_of_word};
ghost use Rattle.rule_parser.specs.Syntax.{name_of, number_of, report_of};
ghost use Rattle.rule_parser.specs.Fault.{Refuses};
ghost use Rattle.rule_parser.specs.Front.{begins, class_of, is_empty, is_plain};
ghost use Rattle.rule_parser.specs.Condition.{NoRoom, Nested};
ghost use Rattle.rule_parser.specs.Left.{Reads, Takes, labelled_in, name_in, number_in, operand_name_in, option_in, place, report_in, reports_in, string_in, token_in, value_in};

use crate::cursor::Cursor;
use crate::error::ParseError;
use crate::syntax::{Name, Number, ReportItem};
use crate::what::{Sign, What, Word};
use lc_model::{ApMode, CmpOp, EventKind, FieldType};
use rule_lexer::{Token, TokenKind};
use std::marker::Model;

/// The tokens that aren't read yet, and the text's length for errors at its end. A step that returns an error may
/// have read a token; the parser stops there and reads no more.
#[derive(Drop)]
pub struct Reader<'t, 'a> {
    cursor: Cursor<'t, 'a>,
    /// The text's length in bytes.
    end: usize,
}

impl<'t, 'a> Model for Reader<'t, 'a> {
    ghost use Rattle.rule_parser.specs.Left.{Left};

    ghost Value = { Left };

    ghost view = { λ r. record { tokens = r.cursor; end = r.end } };
}

impl<'t, 'a> Reader<'t, 'a> {
    /// Creates a reader before the first token of a text of `end` bytes.
    pub fn new(tokens: &'t [Token<'a>], end: usize) -> Reader<'t, 'a>
        requires { All HasItsKind tokens.now }
        ensures { result ≡ record { tokens = tokens_of tokens.now; end = end } }
    {
        Reader {
            cursor: Cursor::new(tokens),
            end,
        }
    }

    /// Whether all tokens are read.
    pub fn is_at_end(&self) -> bool
        ensures { result ≡ is_empty self.now.tokens }
    {
        self.cursor.is_at_end()
    }

    /// Whether the next token is of this kind, which has no value: a reserved word, a sign, a name or a string.
    pub fn begins(&self, kind: TokenKind) -> bool
        requires { IsTrue (is_plain kind) }
        ensures { result ≡ begins (class_of kind) self.now.tokens }
    {
        self.cursor.begins(kind)
    }

    /// Reads the next token if it is of this kind, and returns whether it was. The kind has no value, as with `begins`.
    pub fn takes(&mut self, kind: TokenKind) -> bool
        requires { IsTrue (is_plain kind) }
        ensures { Takes (class_of kind) self.old self.new result }
    {
        if !self.begins(kind) {
            return false;
        }
        self.cursor.next();
        true
    }

    /// Reads the next token as one that nests in a condition and takes 1 from `room`, the number of such tokens that
    /// may still come. `TooNested` if `room` is 0.
    pub fn nest(&mut self, room: &mut usize) -> Result<(), ParseError>
        ensures { (wanted : Class) → begins wanted self.old.tokens ≡ true
            → MatchResult result (λ _. Nested wanted self.old self.new room.old room.new)
            (Refuses (NoRoom wanted self.old room.old)) }
    {
        if *room == 0 {
            return Err(ParseError::TooNested { at: self.place() });
        }
        *room -= 1;
        self.cursor.next();
        Ok(())
    }

    /// Returns the next token's place in the text, or the text's length if all tokens are read.
    pub fn place(&self) -> usize
        ensures { result ≡ place self.now }
    {
        self.cursor.place(self.end)
    }

    /// Returns the error that `what` is expected at the present place.
    pub fn error_expecting(&self, what: What) -> ParseError
        ensures { result ≡ Expected (place self.now) what }
    {
        ParseError::Expected {
            at: self.place(),
            what,
        }
    }

    /// Reads this reserved word.
    #[tactic(auto, unfolding(crate::specs::Left::token_in))]
    pub fn word(&mut self, word: Word) -> Result<Token<'a>, ParseError>
        ensures { Reads token_of self.new result
            (token_in (class_of (kind_of_word word)) self.old) }
    {
        let missing = self.error_expecting(What::Word(word));
        self.cursor.take(word.kind()).ok_or(missing)
    }

    /// Reads this sign.
    #[tactic(auto, unfolding(crate::specs::Left::token_in))]
    pub fn sign(&mut self, sign: Sign) -> Result<Token<'a>, ParseError>
        ensures { Reads token_of self.new result
            (token_in (class_of (kind_of_sign sign)) self.old) }
    {
        let missing = self.error_expecting(What::Sign(sign));
        self.cursor.take(sign.kind()).ok_or(missing)
    }

    /// Reads a name.
    #[tactic(auto, unfolding(crate::specs::Left::name_in))]
    pub fn name(&mut self) -> Result<Name<'a>, ParseError>
        ensures { Reads name_of self.new result (name_in self.old) }
    {
        let missing = self.error_expecting(What::Name);
        self.cursor.name().ok_or(missing)
    }

    /// Reads a name at the beginning of an operand; its error names `not` and `(` as well.
    #[tactic(auto, unfolding(crate::specs::Left::operand_name_in))]
    pub fn operand_name(&mut self) -> Result<Name<'a>, ParseError>
        ensures { Reads name_of self.new result (operand_name_in self.old) }
    {
        let missing = self.error_expecting(What::Operand);
        self.cursor.name().ok_or(missing)
    }

    /// Reads a number.
    #[tactic(auto, unfolding(crate::specs::Left::number_in))]
    pub fn number(&mut self) -> Result<Number, ParseError>
        ensures { Reads number_of self.new result (number_in self.old) }
    {
        let missing = self.error_expecting(What::Number);
        self.cursor.number().ok_or(missing)
    }

    /// Reads a string and returns the bytes between its quotes.
    #[tactic(auto, unfolding(crate::specs::Left::string_in))]
    pub fn string(&mut self) -> Result<&'a [u8], ParseError>
        ensures { Reads (λ text. text.now) self.new result (string_in self.old) }
    {
        let missing = self.error_expecting(What::Text);
        self.cursor.string().ok_or(missing)
    }

    /// Reads a field's type.
    #[tactic(auto, unfolding(crate::specs::Left::value_in))]
    pub fn field_type(&mut self) -> Result<FieldType, ParseError>
        ensures { Reads (λ kind. kind) self.new result
            (value_in class.FieldKind field_type self.old) }
    {
        let missing = self.error_expecting(What::FieldKind);
        self.cursor.field_type().ok_or(missing)
    }

    /// Reads a rule's state.
    #[tactic(auto, unfolding(crate::specs::Left::value_in))]
    pub fn state(&mut self) -> Result<ApMode, ParseError>
        ensures { Reads (λ mode. mode) self.new result (value_in class.State state self.old) }
    {
        let missing = self.error_expecting(What::State);
        self.cursor.state().ok_or(missing)
    }

    /// Reads an event's level.
    #[tactic(auto, unfolding(crate::specs::Left::value_in))]
    pub fn level(&mut self) -> Result<EventKind, ParseError>
        ensures { Reads (λ kind. kind) self.new result (value_in class.Level event_kind self.old) }
    {
        let missing = self.error_expecting(What::Level);
        self.cursor.level().ok_or(missing)
    }

    /// Reads a comparison sign.
    #[tactic(auto, unfolding(crate::specs::Left::value_in))]
    pub fn comparison(&mut self) -> Result<CmpOp, ParseError>
        ensures { Reads (λ op. op) self.new result (value_in class.Compare comparison self.old) }
    {
        let missing = self.error_expecting(What::Compare);
        self.cursor.comparison().ok_or(missing)
    }

    /// Reads a reserved word and the number after it.
    #[tactic(auto, unfolding(crate::specs::Left::labelled_in))]
    pub fn read_labelled(&mut self, word: Word) -> Result<Number, ParseError>
        ensures { Reads number_of self.new result
            (labelled_in (class_of (kind_of_word word)) self.old) }
    {
        self.word(word)?;
        self.number()
    }

    /// Reads a reserved word and the number after it; `None` if the word doesn't come next.
    #[tactic(auto, unfolding(crate::specs::Left::option_in, crate::specs::Left::some_in))]
    pub fn optional(&mut self, word: Word) -> Result<Option<Number>, ParseError>
        ensures { Reads (option_map number_of) self.new result
            (option_in (class_of (kind_of_word word)) self.old) }
    {
        if self.begins(word.kind()) {
            Ok(Some(self.read_labelled(word)?))
        } else {
            Ok(None)
        }
    }

    /// Reads `report` and the three numbers after it.
    #[tactic(auto, unfolding(crate::specs::Left::reports_in))]
    fn reports(&mut self) -> Result<Option<ReportItem>, ParseError>
        ensures { Reads (option_map report_of) self.new result (reports_in self.old) }
    {
        self.word(Word::Report)?;
        let passive = self.number()?;
        let pass_to_fail = self.number()?;
        let fail_to_pass = self.number()?;
        Ok(Some(ReportItem {
            passive,
            pass_to_fail,
            fail_to_pass,
        }))
    }

    /// Reads `report` and the three numbers after it; `None` if `report` doesn't come next.
    #[tactic(auto, unfolding(crate::specs::Left::report_in))]
    pub fn report(&mut self) -> Result<Option<ReportItem>, ParseError>
        ensures { Reads (option_map report_of) self.new result (report_in self.old) }
    {
        if self.begins(TokenKind::Report) {
            self.reports()
        } else {
            Ok(None)
        }
    }
}
