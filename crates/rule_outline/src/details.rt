//! What lists say beside the name of a packet, a field or a rule: the tokens that tell most of it, as far as they are there.

use crate::item_parts::{ItemTokens, tokens_before};
use diagnostics::{behind, front};
use rule_errors::{NameKind, Source, TokenRange};
use rule_lexer::{Token, TokenKind};
use std::alloc::{AllocError, Global};

/// The tokens of an item that tell most of it: all after a packet's name; a field's packet, type and place; a rule's sequence.
fn main_tokens<'s, 'a>(tokens: &'s [Token<'a>], kind: NameKind) -> &'s [Token<'a>] {
    match kind {
        NameKind::Packet => behind(tokens, 2),
        NameKind::Field => tokens_before(
            tokens_before(behind(tokens, 2), TokenKind::Mask),
            TokenKind::Stale,
        ),
        NameKind::Rule => {
            let head = tokens_before(tokens, TokenKind::Sequence).len();
            front(behind(tokens, head), 2)
        }
    }
}

/// What lists say beside the name that an item of this kind declares.
pub fn detail_of(
    alloc: Global,
    source: &Source<'_>,
    part: TokenRange,
    kind: NameKind,
) -> Result<String, AllocError> {
    let tokens = ItemTokens(main_tokens(source.tokens_of(part), kind));
    format!(in alloc; "{tokens}")
}
