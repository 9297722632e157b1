//! Numbers the watchpoints of rules, in one pass over all mentions.

ghost use Rattle.std.specs.Prelude.{◌≡◌, ◌≤◌, ◌<◌, ◌++◌, length, map, IfOk, IfErr, IsErr, OnOk};
ghost use Rattle.lc_model.specs.Rule.{rules_of};
ghost use Rattle.lc_model.specs.Condition.{condition_of};
ghost use Rattle.lc_model.specs.Codes.{table_entries};
ghost use Rattle.lc_model.specs.Tables.Equation.{mentions, mention_numbers, terms_of};
ghost use Rattle.watch_sharing.specs.declared.error.ShareError.TheVariants.{Memory};
ghost use Rattle.watch_sharing.specs.Fault.{IsTooManyUnlessMemory};
ghost use Rattle.watch_sharing.specs.Numbering.{added, added_all, all_mentions, number_among, numbers_among, numbers_by_rule, numbers_of};

use crate::error::ShareError;
use crate::shared::Shared;
use indexmap::IndexSet;
use lc_model::{Cond, EQUATION_WORDS, Rule, RuleSet, TABLE_ENTRIES, Term};
use std::alloc::Global;

/// The most mentions in an equation that fits its words: each needs an operator or EQUAL. Longer lists grow.
const MENTIONS: usize = EQUATION_WORDS / 2;

/// Returns the watchpoint's number; a new watchpoint is added at the end first.
fn number(terms: &mut IndexSet<Term>, term: Term) -> Result<u16, ShareError>
    requires { length terms.old.keys ≤ table_entries }
    ensures number { IfOk result (λ number. number ≡ number_among terms.old.keys term) }
    ensures added { OnOk result (terms.new.keys ≡ added terms.old.keys term) }
    ensures few { OnOk result (length terms.new.keys ≤ table_entries) }
    ensures refused { IfErr result (IsTooManyUnlessMemory (added terms.old.keys term)) }
{
    let (number, _) = terms.insert_full(term)?;
    if terms.len() > TABLE_ENTRIES {
        return Err(ShareError::TooManyWatchpoints);
    }
    Ok(number as u16)
}

/// Adds the numbers of all mentions of a condition, from left to right.
#[tactic(auto, using(crate::proofs::Numbers::added_all_append, crate::proofs::Numbers::numbers_append), unfolding(crate::specs::Numbering::added_all, crate::specs::Numbering::numbers_among))]
fn number_mentions(
    terms: &mut IndexSet<Term>,
    cond: &Cond,
    numbers: &mut Vec<u16>,
) -> Result<(), ShareError>
    requires { length terms.old.keys ≤ table_entries }
    ensures numbers { OnOk result
        (numbers.new.items ≡ numbers.old.items ++ numbers_among terms.old.keys
        (mentions (condition_of cond.now))) }
    ensures added { OnOk result
        (terms.new.keys ≡ added_all terms.old.keys (mentions (condition_of cond.now))) }
    ensures few { OnOk result (length terms.new.keys ≤ table_entries) }
    ensures refused { IfErr result
        (IsTooManyUnlessMemory (added_all terms.old.keys (mentions (condition_of cond.now)))) }
{
    match cond {
        Cond::Watch(term) => numbers.push(number(terms, *term)?)?,
        Cond::Not(operand) => number_mentions(terms, operand, numbers)?,
        Cond::And(operands) | Cond::Or(operands) | Cond::Xor(operands) => {
            number_mentions(terms, &operands.0, numbers)?;
            number_mentions(terms, &operands.1, numbers)?;
        }
    }
    Ok(())
}

/// Numbers the mentions of all rules, one list for each rule.
fn number_rules(
    alloc: Global,
    terms: &mut IndexSet<Term>,
    rules: &[Rule],
) -> Result<Vec<Vec<u16>>, ShareError>
    requires { length terms.old.keys ≤ table_entries }
    ensures numbers { IfOk result
        (λ found. numbers_of found.items ≡ numbers_by_rule terms.old.keys (rules_of rules.now)) }
    ensures added { OnOk result
        (terms.new.keys ≡ added_all terms.old.keys (all_mentions (rules_of rules.now))) }
    ensures few { OnOk result (length terms.new.keys ≤ table_entries) }
    ensures refused { IfErr result
        (IsTooManyUnlessMemory (added_all terms.old.keys (all_mentions (rules_of rules.now)))) }
{
    let mut mentions = Vec::with_capacity(alloc, rules.len())?;
    for rule in rules {
        let mut numbers = Vec::with_capacity(alloc, MENTIONS)?;
        number_mentions(terms, &rule.cond, &mut numbers)?;
        mentions.push(numbers)?;
    }
    Ok(mentions)
}

/// Lists the distinct watchpoints of rules; two mentions are one watchpoint if all seven parts are equal. Time grows
/// with the number of mentions: each is looked up in a hash set. Errors: `TooManyWatchpoints` for over 176, or
/// `Memory`. This project's own.
#[tactic(auto, using(crate::proofs::Distinct::terms_are, crate::proofs::Distinct::numbers_are_the_rules))]
pub fn share(alloc: Global, rules: &RuleSet) -> Result<Shared, ShareError>
    ensures terms { IfOk result (λ shared. shared.terms.items ≡ terms_of rules.now.rules) }
    ensures mentions { IfOk result
        (λ shared. numbers_of shared.mentions.items ≡
        map (mention_numbers (terms_of rules.now.rules)) rules.now.rules) }
    ensures few { IfOk result (λ shared. length shared.terms.items ≤ table_entries) }
    ensures refused { IfErr result (IsTooManyUnlessMemory (terms_of rules.now.rules)) }
    ensures accepts { length (terms_of rules.now.rules) ≤ table_entries →
        IfErr result (λ error. error ≡ Memory) }
    ensures refuses { table_entries < length (terms_of rules.now.rules) → IsErr result }
{
    let mut terms = IndexSet::new(alloc);
    let mentions = number_rules(alloc, &mut terms, rules.rules.as_slice())?;
    Ok(Shared {
        terms: terms.as_slice().to_vec(alloc)?,
        mentions,
    })
}
