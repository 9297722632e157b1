//! The groups of rules that fail alike.

ghost use Rattle.std.specs.Prelude.{◌≡◌, ◌==◌, ◌&&◌, IfOk, OnOk, slice_get};
ghost use Rattle.std.specs.Option.{option_map_or};
ghost use Rattle.rule_lints.specs.Judged.{goes_both_ways, grouped, is_alike, is_among, is_covered, is_same, leads, with_pair};

use analysis_listing::goes_both_ways;
use rule_analysis::{PairJudgement, Relation, RuleJudgement};
use std::alloc::{AllocError, Global};

/// Whether the rule with this number may both fail and pass, as far as is known.
pub(crate) fn is_open(rules: &[RuleJudgement], number: usize) -> bool
    ensures { result ≡ goes_both_ways (slice_get rules.now number) }
{
    match rules.get(number) {
        Some(judged) => goes_both_ways(judged),
        None => false,
    }
}

/// Whether both rules of a pair always fail together.
pub(crate) fn is_same(relation: Relation) -> bool
    ensures { result ≡ is_same relation }
{
    match relation {
        Relation::Same => true,
        Relation::FirstFollows | Relation::SecondFollows => false,
    }
}

/// Whether both rules of a pair always fail together, and may both fail and pass.
fn is_alike(rules: &[RuleJudgement], pair: PairJudgement) -> bool
    ensures { result ≡ is_alike rules.now pair }
{
    is_same(pair.relation) && is_open(rules, pair.first) && is_open(rules, pair.second)
}

/// Whether a pair is that of the rules with these numbers.
fn is_pair(pair: PairJudgement, first: usize, second: usize) -> bool
    ensures { result ≡ ((pair.first == first) && (pair.second == second)) }
{
    pair.first == first && pair.second == second
}

/// Whether some pair is that of the rules with these numbers.
fn is_among(pairs: &[PairJudgement], first: usize, second: usize) -> bool
    ensures { result ≡ is_among pairs.now first second }
{
    for pair in pairs {
        if is_pair(*pair, first, second) {
            return true;
        }
    }
    false
}

/// Whether both rules of a pair are in the group of a third one.
fn is_covered(groups: &[PairJudgement], pair: PairJudgement) -> bool
    ensures { result ≡ is_covered groups.now pair }
{
    for other in groups {
        if other.second == pair.first && is_among(groups, other.first, pair.second) {
            return true;
        }
    }
    false
}

/// Adds a pair to the groups if its rules fail alike, and no group has both.
fn add_pair(
    rules: &[RuleJudgement],
    pair: PairJudgement,
    groups: &mut Vec<PairJudgement>,
) -> Result<(), AllocError>
    ensures { OnOk result (groups.new.items ≡ with_pair rules.now groups.old.items pair) }
{
    if is_alike(rules, pair) && !is_covered(groups, pair) {
        groups.push(pair)?;
    }
    Ok(())
}

/// The groups of rules that fail alike, as pairs: the first rule of each group with each other one.
pub(crate) fn grouped(
    alloc: Global,
    rules: &[RuleJudgement],
    pairs: &[PairJudgement],
) -> Result<Vec<PairJudgement>, AllocError>
    ensures { IfOk result (λ groups. groups.items ≡ grouped rules.now pairs.now) }
{
    let mut groups = Vec::new(alloc);
    for pair in pairs {
        add_pair(rules, *pair, &mut groups)?;
    }
    Ok(groups)
}

/// Whether a pair is that of the first two rules of a group.
pub(crate) fn leads(groups: &[PairJudgement], pair: PairJudgement) -> bool
    ensures { result ≡ leads groups.now pair }
{
    for other in groups {
        if other.first == pair.first {
            return other.second == pair.second;
        }
    }
    false
}
