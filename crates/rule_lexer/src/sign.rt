//! Signs: comparisons, `=`, `;` and parentheses.

ghost use Rattle.std.specs.Prelude.{MatchOption};
ghost use Rattle.lc_model.specs.Text.Token.{is_sign};
ghost use Rattle.rule_lexer.specs.Front.{IsFrontSign, LacksSign};

use crate::lexeme::Lexeme;
use crate::token::TokenKind;
use lc_model::CmpOp;

/// Reads the longest sign at the start of `rest`, one or two bytes; `None` if no sign stands there.
pub fn sign(rest: &[u8]) -> Option<Lexeme>
    ensures { MatchOption result (LacksSign rest.now) (IsFrontSign rest.now) }
{
    let (length, kind) = match rest {
        [b'=', b'=', ..] => (2, TokenKind::Compare(CmpOp::Equal)),
        [b'!', b'=', ..] => (2, TokenKind::Compare(CmpOp::NotEqual)),
        [b'<', b'=', ..] => (2, TokenKind::Compare(CmpOp::LessOrEqual)),
        [b'>', b'=', ..] => (2, TokenKind::Compare(CmpOp::GreaterOrEqual)),
        [b'<', ..] => (1, TokenKind::Compare(CmpOp::Less)),
        [b'>', ..] => (1, TokenKind::Compare(CmpOp::Greater)),
        [b'=', ..] => (1, TokenKind::Equals),
        [b';', ..] => (1, TokenKind::Semicolon),
        [b'(', ..] => (1, TokenKind::Open),
        [b')', ..] => (1, TokenKind::Close),
        _ => return None,
    };
    Some(Lexeme { length, kind })
}
