//! The words of a page's data.

use crate::json::Item;
use lc_model::{ApMode, CmpOp, EventKind, LcMode};
use rule_parser::Expression;
use run_summary::{Hold, How};

/// The word of an event type, as in rule texts.
pub fn level(kind: EventKind) -> Item<'static> {
    Item::Word(kind.word())
}

/// The word of the state in which a rule begins.
pub fn state(state: ApMode) -> Item<'static> {
    Item::Word(state.word())
}

/// The sign of a comparison, escaped so that it can't end a script in HTML.
pub fn operator(op: CmpOp) -> Item<'static> {
    Item::Word(match op {
        CmpOp::Less => "\\u003c",
        CmpOp::LessOrEqual => "\\u003c=",
        CmpOp::NotEqual => "!=",
        CmpOp::Equal => "==",
        CmpOp::GreaterOrEqual => ">=",
        CmpOp::Greater => ">",
    })
}

/// The word of the operator that joins or negates conditions.
pub fn joint(condition: &Expression<'_>) -> Item<'static> {
    Item::Word(match condition {
        Expression::Compare(_) => "",
        Expression::Not(_) => "\"not\"",
        Expression::And(_) => "\"and\"",
        Expression::Or(_) => "\"or\"",
        Expression::Xor(_) => "\"xor\"",
    })
}

/// How tables came into force; `untold` if it isn't known.
pub fn how(how: Option<How>) -> Item<'static> {
    Item::Word(match how {
        Some(How::None) => "none",
        Some(How::Started) => "started",
        Some(How::Adopted) => "adopted",
        None => "untold",
    })
}

/// What held back the event of a request; `null` if it came, or if that isn't known.
pub fn hold(hold: Option<Hold>) -> Item<'static> {
    Item::Word(match hold {
        None => "null",
        Some(Hold::TypeOff) => "\"type\"",
        Some(Hold::Filter) => "\"filter\"",
    })
}

/// The word of the Limit Checker's mode; `absent` if none runs, `untold` if it isn't known.
pub fn mode(mode: Option<Option<LcMode>>) -> Item<'static> {
    Item::Word(match mode {
        None => "untold",
        Some(None) => "absent",
        Some(Some(mode)) => mode.word(),
    })
}
