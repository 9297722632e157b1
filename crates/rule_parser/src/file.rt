//! Reads all items of a rule text from its tokens, from left to right.

ghost use Rattle.std.specs.Prelude.{All, IsFalse, [], MatchResult};
ghost use Rattle.lc_model.specs.Text.Class.{Fits, word};
ghost use Rattle.lc_model.specs.Text.Syntax as model;
ghost use Rattle.lc_model.specs.Text.Token as text;
ghost use Rattle.rule_lexer.specs.Token.{tokens_of, HasItsKind};
ghost use Rattle.rule_parser.specs.Fault.{Refuses};
ghost use Rattle.rule_parser.specs.Front.{is_empty};
ghost use Rattle.rule_parser.specs.File.{StopsAll, StopsAt, TookAll, TookItem, TookRule};
ghost use Rattle.rule_parser.specs.Stack.{rule_left};
ghost use Rattle.rule_parser.specs.Syntax.{item_of, items_of, rule_of};

use crate::condition::condition;
use crate::error::ParseError;
use crate::head::{field_item, packet_item, rule_head};
use crate::reader::Reader;
use crate::syntax::{Item, RuleItem};
use crate::what::{Sign, What};
use rule_lexer::{Token, TokenKind};
use std::alloc::Global;

/// Reads a rule whose word `rule` is already read.
fn rule_item<'a>(alloc: Global, tokens: &mut Reader<'_, 'a>) -> Result<RuleItem<'a>, ParseError>
    ensures { MatchResult result (λ found. (t : text.Token) → Fits (word "rule") t →
        TookRule t tokens.old tokens.new (model.Rule (rule_of found)))
        (Refuses (StopsAt rule_left tokens.old)) }
{
    let head = rule_head(tokens)?;
    let condition = condition(alloc, tokens)?;
    tokens.sign(Sign::Semicolon)?;
    Ok(RuleItem {
        name: head.name,
        mode: head.mode,
        fails: head.fails,
        sequence: head.sequence,
        event_kind: head.event_kind,
        event_id: head.event_id,
        text: head.text,
        report: head.report,
        condition,
    })
}

/// Reads the next item.
fn item<'a>(alloc: Global, tokens: &mut Reader<'_, 'a>) -> Result<Item<'a>, ParseError>
    requires { IsFalse (is_empty tokens.old.tokens) }
    ensures { MatchResult result (λ found. TookItem tokens.old tokens.new (item_of found))
        (Refuses (StopsAt [] tokens.old)) }
{
    if tokens.takes(TokenKind::Packet) {
        return Ok(Item::Packet(packet_item(tokens)?));
    }
    if tokens.takes(TokenKind::Field) {
        return Ok(Item::Field(field_item(tokens)?));
    }
    if tokens.takes(TokenKind::Rule) {
        return Ok(Item::Rule(rule_item(alloc, tokens)?));
    }
    Err(tokens.error_expecting(What::Item))
}

/// The number of tokens of the shortest item, a packet. The list starts with room for all items of a valid text.
const SHORTEST_ITEM: usize = 8;

/// Reads all items from the tokens of a text of `end` bytes. The error is the first fault, or `Memory`.
pub fn items<'a>(
    alloc: Global,
    tokens: &[Token<'a>],
    end: usize,
) -> Result<Vec<Item<'a>>, ParseError>
    requires { All HasItsKind tokens.now }
    ensures { MatchResult result
        (λ found. TookAll end (tokens_of tokens.now) (items_of found.items))
        (Refuses (StopsAll end (tokens_of tokens.now))) }
{
    let mut reader = Reader::new(tokens, end);
    let mut items = Vec::with_capacity(alloc, tokens.len() / SHORTEST_ITEM)?;
    while !reader.is_at_end() {
        items.push(item(alloc, &mut reader)?)?;
    }
    Ok(items)
}
