//! The syntax tree of a rule text. Names still stand as written; a later crate resolves them.

ghost use Rattle.std.specs.Prelude.{◌^◌, ◌<◌, nat_abs};

use lc_model::{ApMode, CmpOp, EventKind, FieldType};

/// A name as it stands in the text.
#[derive(Clone, Copy, Debug)]
pub struct Name<'a> {
    /// The number of the text's bytes before the name.
    pub at: usize,
    /// The name's bytes.
    pub text: &'a [u8],
}

/// A number of the text, of magnitude below 2^32.
#[derive(Clone, Copy, Debug)]
pub struct Number {
    /// The number of the text's bytes before the number.
    pub at: usize,
    /// Its value; whether it is in range is checked later.
    pub value: i64,
    ghost of_32_bits: { nat_abs value < 2 ^ 32 },
}

/// A packet's declaration: `packet NAME = mid NUMBER length NUMBER ;`. The length is in bytes.
#[derive(Clone, Copy, Debug)]
pub struct PacketItem<'a> {
    /// The name that it declares.
    pub name: Name<'a>,
    /// The message id.
    pub mid: Number,
    /// The length in bytes.
    pub length: Number,
}

/// A field's declaration: `field NAME = PACKET TYPE at NUMBER [mask NUMBER] [stale NUMBER] ;`. `offset` counts bytes
/// from the packet's first byte; `stale` counts agings.
#[derive(Clone, Copy, Debug)]
pub struct FieldItem<'a> {
    /// The name that it declares.
    pub name: Name<'a>,
    /// The name of its packet.
    pub packet: Name<'a>,
    /// The field's type.
    pub kind: FieldType,
    /// Bytes before the field, from the packet's first byte.
    pub offset: Number,
    /// The field's bits that count; `None` if not written.
    pub mask: Option<Number>,
    /// Agings after which the field is stale; `None` if not written.
    pub stale: Option<Number>,
}

/// One comparison of a condition: `FIELD OPERATOR NUMBER`.
#[derive(Clone, Copy, Debug)]
pub struct Comparison<'a> {
    /// The name of the field.
    pub field: Name<'a>,
    /// The comparison, with the field on its left side.
    pub op: CmpOp,
    /// The number on its right side.
    pub value: Number,
}

/// How many events of each kind a rule may send: while passive, from pass to fail, and from fail to pass.
#[derive(Clone, Copy, Debug)]
pub struct ReportItem {
    /// The most events for failures while passive.
    pub passive: Number,
    /// The most events for turns from pass to fail.
    pub pass_to_fail: Number,
    /// The most events for turns from fail to pass.
    pub fail_to_pass: Number,
}

/// A condition over fields by name. The operands of `and`, `or` and `xor` share a box: one allocation each.
#[derive(Debug, Drop)]
pub enum Expression<'a> {
    /// One comparison.
    Compare(Comparison<'a>),
    /// `not` and its operand.
    Not(Box<Expression<'a>>),
    /// `and` between its operands.
    And(Box<(Expression<'a>, Expression<'a>)>),
    /// `or` between its operands.
    Or(Box<(Expression<'a>, Expression<'a>)>),
    /// `xor` between its operands.
    Xor(Box<(Expression<'a>, Expression<'a>)>),
}

/// A rule: `rule HEAD when CONDITION ;`, with this HEAD:
/// `NAME STATE fails NUMBER sequence NUMBER event LEVEL NUMBER STRING [report NUMBER NUMBER NUMBER]`.
#[derive(Debug, Drop)]
pub struct RuleItem<'a> {
    /// The rule's name.
    pub name: Name<'a>,
    /// The state that the rule begins in.
    pub mode: ApMode,
    /// The failures in a row that lead to the sequence request.
    pub fails: Number,
    /// The number of the command sequence.
    pub sequence: Number,
    /// The type of the event.
    pub event_kind: EventKind,
    /// The event's id.
    pub event_id: Number,
    /// The event's text: the bytes between the quotes.
    pub text: &'a [u8],
    /// The most events of each kind; `None` if not written.
    pub report: Option<ReportItem>,
    /// The condition: the rule fails if it is true.
    pub condition: Expression<'a>,
}

/// One item of a rule text: a packet, a field or a rule.
#[derive(Debug, Drop)]
pub enum Item<'a> {
    /// A packet's declaration.
    Packet(PacketItem<'a>),
    /// A field's declaration.
    Field(FieldItem<'a>),
    /// A rule.
    Rule(RuleItem<'a>),
}

/// The syntax tree of a rule text: its items in the text's order. Each name and number has its place in the text.
#[derive(Debug, Drop)]
pub struct RuleFile<'a> {
    /// The items, in the text's order.
    pub items: Vec<Item<'a>>,
}
