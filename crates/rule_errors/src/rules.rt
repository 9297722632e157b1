//! The places at which a text exceeds the limits of the tables: its rules by number, and its first comparison too many.

ghost use Rattle.std.specs.Prelude.{◌≡◌, ◌+◌, ◌++◌, ◌&&◌, ◌==◌, IfOk, OnOk, length, option_map};
ghost use Rattle.lc_model.specs.Codes.{table_entries};
ghost use Rattle.lc_model.specs.Condition.{condition_of};
ghost use Rattle.lc_model.specs.Rule.{rules_of};
ghost use Rattle.lc_model.specs.Tables.Equation.{distinct, mentions};
ghost use Rattle.rule_parser.specs.Syntax.{expression_of, items_of};
ghost use Rattle.watch_sharing.specs.Numbering.{added, all_mentions};
ghost use Rattle.rpn_compiler.specs.TextParts.{IsRuleText};
ghost use Rattle.rule_errors.specs.Places.{IsBeyond, IsComparisonBeyond, IsRule, all_places, places, rule_place};

use indexmap::IndexSet;
use lc_model::{Cond, Rule, TABLE_ENTRIES, Term};
use rpn_compiler::RuleText;
use rule_parser::{Expression, Item, Name};
use std::alloc::{AllocError, Global};

/// The name of the rule with this number, counted from 0.
fn rule_among<'a>(items: &[Item<'a>], number: usize) -> Option<Name<'a>>
    ensures { option_map (λ name. name.at) result ≡ rule_place (items_of items.now) number }
{
    let mut left = number;
    for item in items {
        if let Item::Rule(rule) = item {
            if left == 0 {
                return Some(rule.name);
            }
            left -= 1;
        }
    }
    None
}

/// The name of a text's rule with this number, counted from 0. The text has to have that rule.
pub fn rule_name<'a>(text: &RuleText<'a>, number: usize) -> Result<Name<'a>, AllocError>
    requires { IsRuleText text.now }
    ensures { IfOk result (λ name. IsRule text.now.bytes.now number name.at) }
{
    match rule_among(text.file.items.as_slice(), number) {
        Some(name) => Ok(name),
        None => Err(AllocError),
    }
}

/// Adds the places of a condition's comparisons, from left to right.
fn add_places(condition: &Expression<'_>, found: &mut Vec<usize>) -> Result<(), AllocError>
    ensures { OnOk result
        (found.new.items ≡ found.old.items ++ places (expression_of condition.now)) }
{
    match condition {
        Expression::Compare(comparison) => Ok(found.push(comparison.field.at)?),
        Expression::Not(operand) => add_places(operand, found),
        Expression::And(operands) | Expression::Or(operands) | Expression::Xor(operands) => {
            add_places(&operands.0, found)?;
            add_places(&operands.1, found)
        }
    }
}

/// The places of the comparisons of all rules.
fn places_of(alloc: Global, items: &[Item<'_>]) -> Result<Vec<usize>, AllocError>
    ensures { IfOk result (λ found. found.items ≡ all_places (items_of items.now)) }
{
    let mut found = Vec::new(alloc);
    for item in items {
        if let Item::Rule(rule) = item {
            add_places(&rule.condition, &mut found)?;
        }
    }
    Ok(found)
}

/// Adds the watchpoints that a condition mentions, from left to right.
fn add_mentions(condition: &Cond, found: &mut Vec<Term>) -> Result<(), AllocError>
    ensures { OnOk result
        (found.new.items ≡ found.old.items ++ mentions (condition_of condition.now)) }
{
    match condition {
        Cond::Watch(term) => Ok(found.push(*term)?),
        Cond::Not(operand) => add_mentions(operand, found),
        Cond::And(operands) | Cond::Or(operands) | Cond::Xor(operands) => {
            add_mentions(&operands.0, found)?;
            add_mentions(&operands.1, found)
        }
    }
}

/// The watchpoints that rules mention, once for each mention.
fn mentions_of(alloc: Global, rules: &[Rule]) -> Result<Vec<Term>, AllocError>
    ensures { IfOk result (λ found. found.items ≡ all_mentions (rules_of rules.now)) }
{
    let mut found = Vec::new(alloc);
    for rule in rules {
        add_mentions(&rule.cond, &mut found)?;
    }
    Ok(found)
}

/// Adds a watchpoint to a set, and returns whether it is the first too many for a table.
fn is_beyond(different: &mut IndexSet<Term>, term: Term) -> Result<bool, AllocError>
    ensures added { OnOk result (different.new.keys ≡ added different.old.keys term) }
    ensures beyond { IfOk result (λ is. is ≡ (length different.old.keys == table_entries
        && length (added different.old.keys term) == table_entries + 1)) }
{
    let before = different.len();
    different.insert_full(term)?;
    Ok(before == TABLE_ENTRIES && different.len() == TABLE_ENTRIES + 1)
}

/// Counts of the watchpoints in mentions that need more entries than a table has.
#[derive(Clone, Copy)]
struct Different {
    /// The number of different watchpoints.
    count: usize,
    /// The number of the first mention that is too many.
    beyond: usize,
}

/// The number of different watchpoints, and the first mention that is too many.
fn count_different(alloc: Global, mentions: &[Term]) -> Result<Different, AllocError>
    ensures count { IfOk result (λ found. found.count ≡ length (distinct mentions.now)) }
    ensures beyond { IfOk result (λ found. IsBeyond mentions.now found.beyond) }
{
    let mut different = IndexSet::new(alloc);
    let mut beyond = None;
    for (number, term) in mentions.iter().enumerate() {
        if is_beyond(&mut different, *term)? {
            beyond = Some(number);
        }
    }
    match beyond {
        Some(beyond) => Ok(Different {
            count: different.len(),
            beyond,
        }),
        None => Err(AllocError),
    }
}

/// The comparisons of a text that needs more watchpoints than a table has entries.
#[derive(Clone, Copy)]
pub struct Excess {
    /// The number of different comparisons.
    pub count: usize,
    /// The place of the first comparison too many, in bytes from the text's first.
    pub at: usize,
}

/// Counts the comparisons of a text that needs too many watchpoints. The only error is a lack of memory.
pub fn comparisons(alloc: Global, text: &RuleText<'_>) -> Result<Excess, AllocError>
    requires { IsRuleText text.now }
    ensures { IfOk result (λ found. IsComparisonBeyond text.now.bytes.now found.at) }
{
    let mentions = mentions_of(alloc, text.rules.rules.as_slice())?;
    let found = count_different(alloc, mentions.as_slice())?;
    let places = places_of(alloc, text.file.items.as_slice())?;
    match places.get(found.beyond) {
        Some(at) => Ok(Excess {
            count: found.count,
            at: *at,
        }),
        None => Err(AllocError),
    }
}
