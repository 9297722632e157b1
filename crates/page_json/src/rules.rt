//! The rule texts of a page's data.

use crate::json::{Item, Json};
use crate::value_names::{joint, level, operator, state};
use rpn_compiler::RuleText;
use rule_lexer::Token;
use rule_parser::{Expression, ReportItem, RuleItem};
use run_summary::{Account, Part, condition_tokens, rule_at, rule_count, token_bytes};
use std::fmt::Write;

/// A condition as in the text, with one blank in the place of blanks and comments.
fn put_condition<W: Write>(json: &mut Json<'_, W>, tokens: &[Token<'_>]) {
    let mut end = None;
    for token in tokens {
        match end {
            Some(end) if end != token.at => json.text(" "),
            _ => {}
        }
        json.quote(token.text);
        end = Some(token.at.saturating_add(token.text.len()));
    }
}

const NODE: &[&str] = &["", ""];

/// A condition in prefix order; comparisons are numbered from `next` on. Returns the next free number.
fn put_tree<W: Write>(json: &mut Json<'_, W>, condition: &Expression<'_>, next: u64) -> u64 {
    match condition {
        Expression::Compare(_) => {
            json.member(NODE, &[Item::Natural(next)]);
            next.saturating_add(1)
        }
        Expression::Not(operand) => {
            json.member(NODE, &[joint(condition)]);
            put_tree(json, operand, next)
        }
        Expression::And(both) | Expression::Or(both) | Expression::Xor(both) => {
            json.member(NODE, &[joint(condition)]);
            let behind = put_tree(json, &both.0, next);
            put_tree(json, &both.1, behind)
        }
    }
}

const COMPARISON: &[&str] = &["[", ",\"", "\",\"", "\"]"];

/// The comparisons of a rule.
fn put_comparisons<W: Write>(json: &mut Json<'_, W>, text: &RuleText<'_>, parts: &[Part]) {
    for part in parts {
        let items = [
            Item::Natural(part.field as u64),
            operator(part.op),
            Item::Text(token_bytes(text, part.at)),
        ];
        json.member(COMPARISON, &items);
    }
}

const REPORT: &[&str] = &["", ",", ",", "],\"condition\":\""];

/// The most events of a rule: for failures while passive, turns to fail, and turns to pass.
fn put_report<W: Write>(json: &mut Json<'_, W>, report: Option<ReportItem>) {
    match report {
        Some(report) => {
            let items = [
                Item::Number(report.passive.value),
                Item::Number(report.pass_to_fail.value),
                Item::Number(report.fail_to_pass.value),
            ];
            json.row(REPORT, &items)
        }
        None => json.text("0,0,0],\"condition\":\""),
    }
}

const HEAD: &[&str] = &[
    "{\"name\":\"",
    "\",\"state\":\"",
    "\",\"fails\":",
    ",\"sequence\":",
    ",\"level\":\"",
    "\",\"event\":",
    ",\"says\":\"",
    "\",\"report\":[",
];

/// A rule of a text, up to its condition.
fn put_head<W: Write>(json: &mut Json<'_, W>, rule: &RuleItem<'_>) {
    let items = [
        Item::Text(rule.name.text),
        state(rule.mode),
        Item::Number(rule.fails.value),
        Item::Number(rule.sequence.value),
        level(rule.event_kind),
        Item::Number(rule.event_id.value),
        Item::Text(rule.text),
    ];
    json.member(HEAD, &items);
    put_report(json, rule.report);
}

/// The tokens of the condition of a rule.
fn condition_of<'a, 't>(text: &'a RuleText<'t>, rule: &RuleItem<'_>) -> &'a [Token<'t>] {
    let (from, to) = condition_tokens(text, rule.name.at);
    text.tokens.as_slice().get(from..to).unwrap_or_default()
}

/// A rule of a text, with its comparisons.
fn put_rule<W: Write>(
    json: &mut Json<'_, W>,
    text: &RuleText<'_>,
    rule: &RuleItem<'_>,
    parts: &[Part],
) {
    put_head(json, rule);
    put_condition(json, condition_of(text, rule));
    json.open("\",\"comparisons\":[");
    put_comparisons(json, text, parts);
    json.open("],\"tree\":[");
    put_tree(json, &rule.condition, 0);
    json.text("]}");
}

/// The rules of the text of this number, from 0.
fn put_rules<W: Write>(
    json: &mut Json<'_, W>,
    account: &Account<'_>,
    text: &RuleText<'_>,
    number: Option<usize>,
) {
    for place in 0..rule_count(text) {
        if let Some(rule) = rule_at(text, place) {
            put_rule(json, text, rule, account.parts(number, place));
        }
    }
}

/// All texts.
pub fn put_texts<W: Write>(json: &mut Json<'_, W>, account: &Account<'_>) {
    for (number, text) in account.texts.iter().enumerate() {
        json.list("{\"rules\":[");
        put_rules(json, account, text, Some(number));
        json.text("]}");
    }
}
