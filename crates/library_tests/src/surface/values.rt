//! The value types.

use crate::shared::same;
use lc_model::{
    ApMode, ApResult, Body, CmpOp, Cond, FieldType, LcMode, Moment, Record, Rule, RuleSet, Seat,
    Term, Truth,
};
use std::process::Abort;

/// Each type's width in bytes.
const WIDTHS: [(FieldType, usize); 10] = [
    (FieldType::U8, 1),
    (FieldType::I8, 1),
    (FieldType::U16Be, 2),
    (FieldType::U16Le, 2),
    (FieldType::I16Be, 2),
    (FieldType::I16Le, 2),
    (FieldType::U32Be, 4),
    (FieldType::U32Le, 4),
    (FieldType::I32Be, 4),
    (FieldType::I32Le, 4),
];

/// Each comparison, mode, state and result.
const COMPARISONS: [CmpOp; 6] = [
    CmpOp::Less,
    CmpOp::LessOrEqual,
    CmpOp::NotEqual,
    CmpOp::Equal,
    CmpOp::GreaterOrEqual,
    CmpOp::Greater,
];

const MODES: [LcMode; 3] = [LcMode::Active, LcMode::Passive, LcMode::Disabled];

const STATES: [ApMode; 4] = [
    ApMode::Active,
    ApMode::Passive,
    ApMode::Disabled,
    ApMode::PermOff,
];

const RESULTS: [ApResult; 4] = [
    ApResult::Pass,
    ApResult::Fail,
    ApResult::Stale,
    ApResult::Error,
];

#[test]
fn truths(rt: HostRuntime) {
    same(&rt, "and", Truth::Stale.and(Truth::Error), Truth::Error);
    same(&rt, "or", Truth::False.or(Truth::Stale), Truth::Stale);
    same(&rt, "xor", Truth::True.xor(Truth::False), Truth::True);
    same(&rt, "not", Truth::True.not(), Truth::False);
}

#[test]
fn widths(rt: HostRuntime) {
    for (kind, width) in WIDTHS.iter() {
        same(&rt, *kind, kind.width(), *width);
    }
    same(&rt, "names", (COMPARISONS.len(), MODES.len()), (6, 3));
    same(&rt, "names", (STATES.len(), RESULTS.len()), (4, 4));
}

/// A comparison by its seven parts.
fn low_volts() -> Term {
    Term {
        kind: FieldType::U16Be,
        mid: 0x0883,
        offset: 12,
        mask: 0xFFFF,
        stale: 2,
        op: CmpOp::Less,
        value: 2400,
    }
}

/// How many comparisons a condition has at its top.
fn comparisons(cond: &Cond) -> usize {
    match cond {
        Cond::Watch(_) | Cond::Not(_) => 1,
        Cond::And(_) | Cond::Or(_) | Cond::Xor(_) => 2,
    }
}

/// A rule's sequence and failures, where its parts are these.
fn request_of(rule: &Rule) -> Option<(u16, u16)> {
    let is_its = rule.name.as_slice() == b"LOW".as_slice()
        && rule.text.as_slice() == b"low volts".as_slice();
    let has = rule.mode == ApMode::Active && rule.event_id == 1001 && rule.report.passive == 0;
    if is_its && has && comparisons(&rule.cond) == 1 {
        Some((rule.sequence, rule.fails))
    } else {
        None
    }
}

/// The first rule's request.
pub fn first_request(rules: &RuleSet) -> Option<(u16, u16)> {
    request_of(rules.rules.as_slice().first()?)
}

#[test]
fn a_comparison(rt: HostRuntime) {
    same(&rt, "its parts", low_volts().value, 2400);
}

/// The seconds at which a record comes, and how many bytes it brings.
fn arrival(record: &Record<'_>) -> (u32, usize) {
    let size = match record.body {
        Body::Packet(bytes) => bytes.len(),
        Body::Tick => 0,
        Body::File { name: _, bytes } => bytes.len(),
    };
    (record.moment.seconds, size)
}

#[test]
fn records(rt: HostRuntime) {
    let moment = Moment {
        seconds: 100,
        subseconds: 0,
    };
    let file = Body::File {
        name: b"/cf/a",
        bytes: b"abc",
    };
    same(
        &rt,
        "file",
        arrival(&Record { moment, body: file }),
        (100, 3),
    );
    same(
        &rt,
        "tick",
        arrival(&Record {
            moment,
            body: Body::Tick,
        }),
        (100, 0),
    );
    same(&rt, "seat", Seat::new(7).index(), 7);
}
