//! The warnings about judgements.

ghost use Rattle.std.specs.Prelude.{◌≡◌, ◌++◌, ◌==◌, ◌&&◌, Some, OnOk, IfOk, filter, flat_map, length, option_map, slice_get};
ghost use Rattle.std.specs.List.{list_any};
ghost use Rattle.lc_model.specs.Tables.Equation.{same_term};
ghost use Rattle.analysis_listing.specs.Said.{line_of};
ghost use Rattle.rule_parser.specs.Syntax.{expression_of, items_of, rule_of};
ghost use Rattle.rule_lints.specs.Judged.{comparisons_below, has_twin, is_constant, is_doubtful, is_same, is_told_constant, is_within, judged, lint_of, lint_of_relation, name_at, of_comparison, of_found, of_judged, of_pair, of_spare, of_unsampled, other_of, places, request_alike, rule_at, rules_below, spare_below, told_first, told_of, warn_at, warn_of};

use crate::declarations::warn_if;
use crate::groups::{is_open, is_same, leads};
use crate::lint::Lint;
use crate::warning::Warning;
use analysis_listing::{RuleFindings, said_of};
use lc_model::Term;
use rule_analysis::{
    ComparisonJudgement, Constancy, PairJudgement, Relation, RuleJudgement, SpareComparison,
};
use rule_parser::{Expression, Item, RuleItem};
use std::alloc::{AllocError, Global};

/// The judgements of a text's rules.
#[derive(Drop)]
pub(crate) struct Judged {
    pub rules: Vec<RuleJudgement>,
    pub pairs: Vec<PairJudgement>,
    /// The number of pairs that were not judged to the end.
    pub unsettled_pairs: usize,
    /// The groups of rules that fail alike: the first rule of each with each other one.
    pub groups: Vec<PairJudgement>,
    pub spare: Vec<SpareComparison>,
    /// The number of comparisons of which it was not judged to the end whether they are spare.
    pub unsettled_comparisons: usize,
    /// The rules that the schedule never samples, by their numbers.
    pub unsampled: Vec<usize>,
}

/// The rule with this number.
pub(crate) fn rule_at<'f, 'a>(items: &'f [Item<'a>], number: usize) -> Option<&'f RuleItem<'a>>
    ensures { option_map (λ r. rule_of r.now) result ≡ rule_at (items_of items.now) number }
{
    let mut left = number;
    for item in items {
        if let Item::Rule(rule) = item {
            if left == 0 {
                return Some(rule);
            }
            left -= 1;
        }
    }
    None
}

/// The place of the name of the rule with this number.
fn name_at(items: &[Item<'_>], number: usize) -> Option<usize>
    ensures { result ≡ name_at (items_of items.now) number }
{
    match rule_at(items, number) {
        Some(rule) => Some(rule.name.at),
        None => None,
    }
}

/// Adds the places of a condition's comparisons, from left to right.
fn add_places(condition: &Expression<'_>, found: &mut Vec<usize>) -> Result<(), AllocError>
    ensures { OnOk result (found.new.items ≡
        found.old.items ++ places (expression_of condition.now)) }
{
    match condition {
        Expression::Compare(comparison) => Ok(found.push(comparison.field.at)?),
        Expression::Not(operand) => add_places(operand, found),
        Expression::And(operands) | Expression::Or(operands) | Expression::Xor(operands) => {
            add_places(&operands.0, found)?;
            add_places(&operands.1, found)
        }
    }
}

/// The places of a condition's comparisons.
pub(crate) fn places_of(alloc: Global, condition: &Expression<'_>) -> Result<Vec<usize>, AllocError>
    ensures { IfOk result (λ found. found.items ≡ places (expression_of condition.now)) }
{
    let mut places = Vec::new(alloc);
    add_places(condition, &mut places)?;
    Ok(places)
}

/// Adds this warning, if there is one.
fn warn_of(
    found: &mut Vec<Warning>,
    lint: Option<Lint>,
    at: usize,
    about: usize,
) -> Result<(), AllocError>
    ensures { OnOk result (found.new.items ≡ found.old.items ++ warn_of lint at about) }
{
    if let Some(lint) = lint {
        found.push(Warning { lint, at, about })?;
    }
    Ok(())
}

/// Adds this warning, if there is such a place.
fn warn_at(
    found: &mut Vec<Warning>,
    at: Option<usize>,
    lint: Lint,
    about: usize,
) -> Result<(), AllocError>
    ensures { OnOk result (found.new.items ≡ found.old.items ++ warn_at at lint about) }
{
    if let Some(at) = at {
        found.push(Warning { lint, at, about })?;
    }
    Ok(())
}

/// The warning about a rule by itself, if there is one.
fn lint_of(judged: &RuleJudgement) -> Option<Lint>
    ensures { result ≡ lint_of (line_of judged.now.fails judged.now.passes) }
{
    match said_of(judged) {
        RuleFindings::FailsAndPasses { .. } => None,
        RuleFindings::NeverFails(_) => Some(Lint::NeverFails),
        RuleFindings::AlwaysFails(_) => Some(Lint::AlwaysFails),
        RuleFindings::NeverPasses => Some(Lint::NeverPasses),
        RuleFindings::FailsUnknown(_) | RuleFindings::PassesUnknown(_) => Some(Lint::NotKnown),
    }
}

/// Whether a comparison has the same outcome for all values.
fn is_constant(says: Constancy) -> bool
    ensures { result ≡ is_constant says }
{
    match says {
        Constancy::Always | Constancy::Never => true,
        Constancy::Varies => false,
    }
}

/// Adds the warning of the comparison with this number of a rule.
fn add_comparison(
    number: usize,
    places: &[usize],
    judged: &[ComparisonJudgement],
    n: usize,
    found: &mut Vec<Warning>,
) -> Result<(), AllocError>
    ensures { OnOk result (found.new.items ≡ found.old.items ++
        of_comparison number (slice_get places.now n) (slice_get judged.now n)) }
{
    match (places.get(n), judged.get(n)) {
        (Some(place), Some(judged)) => {
            let is_constant = is_constant(judged.says);
            warn_if(found, is_constant, Lint::ConstantComparison, *place, number)
        }
        _ => Ok(()),
    }
}

/// Adds the warnings of all comparisons of a rule.
fn add_comparisons(
    number: usize,
    places: &[usize],
    judged: &[ComparisonJudgement],
    found: &mut Vec<Warning>,
) -> Result<(), AllocError>
    ensures { OnOk result (found.new.items ≡
        found.old.items ++ comparisons_below number places.now judged.now (length judged.now)) }
{
    for n in 0..judged.len() {
        add_comparison(number, places, judged, n, found)?;
    }
    Ok(())
}

/// Adds the warnings of a rule by itself.
fn add_rule(
    alloc: Global,
    number: usize,
    rule: &RuleItem<'_>,
    judged: &RuleJudgement,
    found: &mut Vec<Warning>,
) -> Result<(), AllocError>
    ensures { OnOk result (found.new.items ≡
        found.old.items ++ of_judged number (rule_of rule.now) judged.now) }
{
    let places = places_of(alloc, &rule.condition)?;
    warn_of(found, lint_of(judged), rule.name.at, number)?;
    add_comparisons(number, &places, &judged.comparisons, found)
}

/// Adds the warnings of the rule with this number, by itself.
#[tactic(auto, using(crate::proofs::Nothing::no_rule, crate::proofs::Nothing::no_judgement))]
fn add_rule_at(
    alloc: Global,
    items: &[Item<'_>],
    rules: &[RuleJudgement],
    number: usize,
    found: &mut Vec<Warning>,
) -> Result<(), AllocError>
    ensures { OnOk result (found.new.items ≡ found.old.items ++
        of_found number (rule_at (items_of items.now) number) (slice_get rules.now number)) }
{
    match (rule_at(items, number), rules.get(number)) {
        (Some(rule), Some(judged)) => add_rule(alloc, number, rule, judged, found),
        _ => Ok(()),
    }
}

/// Adds the warnings of each rule by itself.
fn add_rules(
    alloc: Global,
    items: &[Item<'_>],
    rules: &[RuleJudgement],
    found: &mut Vec<Warning>,
) -> Result<(), AllocError>
    ensures { OnOk result (found.new.items ≡
        found.old.items ++ rules_below (items_of items.now) rules.now (length rules.now)) }
{
    for number in 0..rules.len() {
        add_rule_at(alloc, items, rules, number, found)?;
    }
    Ok(())
}

/// Whether a pair is reported at its first rule: if only the second follows.
fn told_first(relation: Relation) -> bool
    ensures { result ≡ told_first relation }
{
    matches!(relation, Relation::SecondFollows)
}

/// The rule at which a pair is reported.
fn told_of(pair: PairJudgement) -> usize
    ensures { result ≡ told_of pair }
{
    if told_first(pair.relation) {
        pair.first
    } else {
        pair.second
    }
}

/// The other rule of a pair.
fn other_of(pair: PairJudgement) -> usize
    ensures { result ≡ other_of pair }
{
    if told_first(pair.relation) {
        pair.second
    } else {
        pair.first
    }
}

/// The warning about a pair with this relation.
fn lint_of_relation(relation: Relation) -> Lint
    ensures { result ≡ lint_of_relation relation }
{
    match relation {
        Relation::Same => Lint::FailsAlike,
        Relation::FirstFollows | Relation::SecondFollows => Lint::FailsWherever,
    }
}

/// Whether the rules with these numbers request one sequence.
fn request_alike(items: &[Item<'_>], first: usize, second: usize) -> bool
    ensures { result ≡ request_alike (rule_at (items_of items.now) first)
        (rule_at (items_of items.now) second) }
{
    match (rule_at(items, first), rule_at(items, second)) {
        (Some(first), Some(second)) => first.sequence.value == second.sequence.value,
        (Some(_), None) | (None, _) => false,
    }
}

/// Whether an earlier rule always fails together with the second rule of a pair, which has this number, and requests its sequence.
fn is_twin(items: &[Item<'_>], pair: PairJudgement, number: usize) -> bool
    ensures { result ≡ (is_same pair.relation && (pair.second == number)
        && request_alike (rule_at (items_of items.now) pair.first)
        (rule_at (items_of items.now) pair.second)) }
{
    is_same(pair.relation) && pair.second == number && request_alike(items, pair.first, pair.second)
}

/// Whether an earlier rule always fails together with the rule with this number, and requests its sequence.
fn has_twin(items: &[Item<'_>], pairs: &[PairJudgement], number: usize) -> bool
    ensures { result ≡ has_twin (items_of items.now) pairs.now number }
{
    for pair in pairs {
        if is_twin(items, *pair, number) {
            return true;
        }
    }
    false
}

/// The pairs of rules that fail alike.
fn alike_among(alloc: Global, pairs: &[PairJudgement]) -> Result<Vec<PairJudgement>, AllocError>
    ensures { IfOk result (λ alike. alike.items ≡ filter (λ p. is_same p.relation) pairs.now) }
{
    let mut alike = Vec::new(alloc);
    for pair in pairs {
        if is_same(pair.relation) {
            alike.push(*pair)?;
        }
    }
    Ok(alike)
}

/// Whether an earlier rule always fails together with the rule with this number, and requests its sequence. Of all pairs, `alike` are
/// those of rules that fail alike.
fn has_twin_among(
    items: &[Item<'_>],
    pairs: &[PairJudgement],
    alike: &[PairJudgement],
    number: usize,
) -> bool
    requires { alike.now ≡ filter (λ p. is_same p.relation) pairs.now }
    ensures { result ≡ has_twin (items_of items.now) pairs.now number }
{
    has_twin(items, alike, number)
}

/// Whether one rule of a pair follows the other, both request one sequence, and neither has a twin before it. Of all pairs, `alike` are
/// those of rules that fail alike.
fn is_within(
    items: &[Item<'_>],
    pairs: &[PairJudgement],
    alike: &[PairJudgement],
    pair: PairJudgement,
) -> bool
    requires { alike.now ≡ filter (λ p. is_same p.relation) pairs.now }
    ensures { result ≡ is_within (items_of items.now) pairs.now pair }
{
    !is_same(pair.relation)
        && request_alike(items, pair.first, pair.second)
        && !has_twin_among(items, pairs, alike, pair.first)
        && !has_twin_among(items, pairs, alike, pair.second)
}

/// Whether a pair is worth a warning: the first two rules of a group that fail alike; rules of which one follows the other, if both
/// request one sequence.
fn is_doubtful(
    items: &[Item<'_>],
    pairs: &[PairJudgement],
    alike: &[PairJudgement],
    groups: &[PairJudgement],
    pair: PairJudgement,
) -> bool
    requires { alike.now ≡ filter (λ p. is_same p.relation) pairs.now }
    ensures { result ≡ is_doubtful (items_of items.now) pairs.now groups.now pair }
{
    is_same(pair.relation) && leads(groups, pair) || is_within(items, pairs, alike, pair)
}

/// Adds the warning of a pair of rules.
fn add_pair(
    items: &[Item<'_>],
    all: &Judged,
    alike: &[PairJudgement],
    pair: PairJudgement,
    found: &mut Vec<Warning>,
) -> Result<(), AllocError>
    requires { alike.now ≡ filter (λ p. is_same p.relation) all.now.pairs.items }
    ensures { OnOk result (found.new.items ≡ found.old.items ++
        of_pair (items_of items.now) all.now.rules.items all.now.pairs.items
        all.now.groups.items pair) }
{
    let is_open = is_open(&all.rules, pair.first) && is_open(&all.rules, pair.second);
    if !(is_open && is_doubtful(items, &all.pairs, alike, &all.groups, pair)) {
        return Ok(());
    }
    let place = name_at(items, told_of(pair));
    warn_at(
        found,
        place,
        lint_of_relation(pair.relation),
        other_of(pair),
    )
}

/// Adds the warnings of some pairs.
fn add_pairs(
    items: &[Item<'_>],
    all: &Judged,
    alike: &[PairJudgement],
    pairs: &[PairJudgement],
    found: &mut Vec<Warning>,
) -> Result<(), AllocError>
    requires { alike.now ≡ filter (λ p. is_same p.relation) all.now.pairs.items }
    ensures { OnOk result (found.new.items ≡ found.old.items ++
        flat_map (of_pair (items_of items.now) all.now.rules.items all.now.pairs.items
        all.now.groups.items) pairs.now) }
{
    for pair in pairs {
        add_pair(items, all, alike, *pair, found)?;
    }
    Ok(())
}

/// Whether the terms are equal.
fn are_one(one: &Term, other: &Term) -> bool
    ensures { result ≡ same_term one.now other.now }
{
    one.kind.code() == other.kind.code()
        && one.mid == other.mid
        && one.offset == other.offset
        && one.mask == other.mask
        && one.stale == other.stale
        && one.op.code() == other.op.code()
        && one.value == other.value
}

/// Whether one of the comparisons has this term, and the same outcome for all values.
fn is_constant_among(judged: &[ComparisonJudgement], term: &Term) -> bool
    ensures { result ≡ list_any (λ c. same_term c.term term.now && is_constant c.says) judged.now }
{
    for comparison in judged {
        if are_one(&comparison.term, term) && is_constant(comparison.says) {
            return true;
        }
    }
    false
}

/// Whether the comparison of the rule with this number has the same outcome for all values.
fn is_told_constant(rules: &[RuleJudgement], number: usize, term: &Term) -> bool
    ensures { result ≡ is_told_constant (slice_get rules.now number) term.now }
{
    match rules.get(number) {
        Some(judged) => is_constant_among(&judged.comparisons, term),
        None => false,
    }
}

/// Adds the warning of a comparison with this number that its rule can do without.
fn add_spare(
    items: &[Item<'_>],
    rules: &[RuleJudgement],
    number: usize,
    spare: SpareComparison,
    found: &mut Vec<Warning>,
) -> Result<(), AllocError>
    ensures { OnOk result (found.new.items ≡
        found.old.items ++ of_spare (items_of items.now) rules.now number (Some spare)) }
{
    if !is_open(rules, spare.rule) || is_told_constant(rules, spare.rule, &spare.term) {
        return Ok(());
    }
    let place = name_at(items, spare.rule);
    warn_at(found, place, Lint::SpareComparison, number)
}

/// Adds the warning of the spare comparison with this number.
fn add_spare_at(
    items: &[Item<'_>],
    rules: &[RuleJudgement],
    spare: &[SpareComparison],
    number: usize,
    found: &mut Vec<Warning>,
) -> Result<(), AllocError>
    ensures { OnOk result (found.new.items ≡ found.old.items ++
        of_spare (items_of items.now) rules.now number (slice_get spare.now number)) }
{
    match spare.get(number) {
        Some(one) => add_spare(items, rules, number, *one, found),
        None => Ok(()),
    }
}

/// Adds the warnings of all spare comparisons.
fn add_spares(
    items: &[Item<'_>],
    rules: &[RuleJudgement],
    spare: &[SpareComparison],
    found: &mut Vec<Warning>,
) -> Result<(), AllocError>
    ensures { OnOk result (found.new.items ≡ found.old.items ++
        spare_below (items_of items.now) rules.now spare.now (length spare.now)) }
{
    for number in 0..spare.len() {
        add_spare_at(items, rules, spare, number, found)?;
    }
    Ok(())
}

/// Adds the warnings of rules that the schedule never samples.
fn add_unsampled(
    items: &[Item<'_>],
    unsampled: &[usize],
    found: &mut Vec<Warning>,
) -> Result<(), AllocError>
    ensures { OnOk result (found.new.items ≡
        found.old.items ++ flat_map (of_unsampled (items_of items.now)) unsampled.now) }
{
    for number in unsampled {
        warn_at(found, name_at(items, *number), Lint::NeverSampled, *number)?;
    }
    Ok(())
}

/// Adds the warnings of all judgements.
pub(crate) fn add_judged(
    alloc: Global,
    items: &[Item<'_>],
    all: &Judged,
    found: &mut Vec<Warning>,
) -> Result<(), AllocError>
    ensures { OnOk result (found.new.items ≡ found.old.items ++ judged (items_of items.now)
        all.now.rules.items all.now.pairs.items all.now.groups.items all.now.spare.items
        all.now.unsampled.items) }
{
    add_rules(alloc, items, &all.rules, found)?;
    let alike = alike_among(alloc, &all.pairs)?;
    add_pairs(items, all, &alike, &all.pairs, found)?;
    add_spares(items, &all.rules, &all.spare, found)?;
    add_unsampled(items, &all.unsampled, found)
}
