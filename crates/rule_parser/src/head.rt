//! Items without conditions, from their tokens: a packet, a field, and a rule up to its condition. Only the order of
//! the tokens is checked.

ghost use Rattle.std.specs.Prelude.{◌≡◌};
ghost use Rattle.rule_parser.specs.File.{head_of};
ghost use Rattle.rule_parser.specs.Head.{field_in, head_in, packet_in};
ghost use Rattle.rule_parser.specs.Left.{Reads};
ghost use Rattle.rule_parser.specs.Syntax.{field_of, packet_of};

use crate::error::ParseError;
use crate::reader::Reader;
use crate::syntax::{FieldItem, Name, Number, PacketItem, ReportItem};
use crate::what::{Sign, Word};
use lc_model::{ApMode, EventKind};

/// A rule's parts before its condition, as in `RuleItem`.
#[derive(Clone, Copy)]
pub struct RuleHead<'a> {
    /// The rule's name.
    pub name: Name<'a>,
    /// The state that the rule begins in.
    pub mode: ApMode,
    /// The failures in a row that lead to the sequence request.
    pub fails: Number,
    /// The number of the command sequence.
    pub sequence: Number,
    /// The type of the event.
    pub event_kind: EventKind,
    /// The event's id.
    pub event_id: Number,
    /// The event's text: the bytes between the quotes.
    pub text: &'a [u8],
    /// The most events of each kind; `None` if not written.
    pub report: Option<ReportItem>,
}

/// Reads `NAME = mid NUMBER length NUMBER ;`, after the word `packet`.
#[tactic(auto, unfolding(crate::specs::Head::packet_in))]
pub fn packet_item<'a>(tokens: &mut Reader<'_, 'a>) -> Result<PacketItem<'a>, ParseError>
    ensures { Reads packet_of tokens.new result (packet_in tokens.old) }
{
    let name = tokens.name()?;
    tokens.sign(Sign::Equals)?;
    let mid = tokens.read_labelled(Word::Mid)?;
    let length = tokens.read_labelled(Word::Length)?;
    tokens.sign(Sign::Semicolon)?;
    Ok(PacketItem { name, mid, length })
}

/// Reads `NAME = PACKET TYPE at NUMBER [mask NUMBER] [stale NUMBER] ;`, after the word `field`.
#[tactic(auto, unfolding(crate::specs::Head::field_in))]
pub fn field_item<'a>(tokens: &mut Reader<'_, 'a>) -> Result<FieldItem<'a>, ParseError>
    ensures { Reads field_of tokens.new result (field_in tokens.old) }
{
    let name = tokens.name()?;
    tokens.sign(Sign::Equals)?;
    let packet = tokens.name()?;
    let kind = tokens.field_type()?;
    let offset = tokens.read_labelled(Word::At)?;
    let mask = tokens.optional(Word::Mask)?;
    let stale = tokens.optional(Word::Stale)?;
    tokens.sign(Sign::Semicolon)?;
    Ok(FieldItem {
        name,
        packet,
        kind,
        offset,
        mask,
        stale,
    })
}

/// Reads `NAME STATE fails NUMBER sequence NUMBER event LEVEL NUMBER STRING [report NUMBER NUMBER NUMBER] when`, after
/// the word `rule`.
#[tactic(auto, unfolding(crate::specs::Head::head_in))]
pub fn rule_head<'a>(tokens: &mut Reader<'_, 'a>) -> Result<RuleHead<'a>, ParseError>
    ensures { Reads head_of tokens.new result (head_in tokens.old) }
{
    let name = tokens.name()?;
    let mode = tokens.state()?;
    let fails = tokens.read_labelled(Word::Fails)?;
    let sequence = tokens.read_labelled(Word::Sequence)?;
    tokens.word(Word::Event)?;
    let event_kind = tokens.level()?;
    let event_id = tokens.number()?;
    let text = tokens.string()?;
    let report = tokens.report()?;
    tokens.word(Word::When)?;
    Ok(RuleHead {
        name,
        mode,
        fails,
        sequence,
        event_kind,
        event_id,
        text,
        report,
    })
}
