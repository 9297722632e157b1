//! The entries of the table of actionpoints (this project's own layout).

ghost use Rattle.std.specs.Prelude.{◌≡◌, ◌≤◌, List, length, map, IfOk};
ghost use Rattle.std.specs.List.{AllByRecursion};
ghost use Rattle.lc_model.specs.declared.field.Term.{Term};
ghost use Rattle.lc_model.specs.Rule.{rule_of, rules_of};
ghost use Rattle.lc_model.specs.Tables.Half.{entry_of, entry_over};
ghost use Rattle.lc_model.specs.Tables.InForce.{arranged};
ghost use Rattle.lc_model.specs.Tables.Lowering.{words_in};
ghost use Rattle.rpn_compiler.specs.Numbered.{words_of};

use arrayvec::ArrayVec;
use lc_model::{Bytes, EQUATION_WORDS, Rule};
use std::alloc::{AllocError, Global};
use table_file::TableEntry;

/// The entry of a rule whose condition has these words, at most 32.
fn entry(alloc: Global, rule: &Rule, words: &[u16]) -> Result<TableEntry, AllocError>
    requires { length words.now ≤ EQUATION_WORDS }
    ensures { IfOk result (λ entry. entry ≡ entry_of (rule_of rule.now).action words.now) }
{
    let text = Vec::from_slice(alloc, rule.text.as_slice())?;
    Ok(TableEntry {
        mode: rule.mode,
        report: rule.report,
        sequence: rule.sequence,
        fails: rule.fails,
        event_kind: rule.event_kind,
        event_id: rule.event_id,
        text: Bytes::from_vec(text),
        words: ArrayVec::try_from(words).unwrap(),
    })
}

/// The entries of the rules, in their order; for each rule these are the words of its condition, at most 32.
pub fn entries(
    alloc: Global,
    rules: &[Rule],
    words: Vec<Vec<u16>>,
) -> Result<Vec<TableEntry>, AllocError>
    requires as_many { length words.items ≡ length rules.now }
    requires short { AllByRecursion (λ ws. length ws ≤ EQUATION_WORDS) (words_of words.items) }
    ensures { (terms : List Term) →
        words_of words.items ≡ map (words_in arranged terms) (rules_of rules.now)
        → IfOk result (λ entries. entries.items ≡ map (entry_over arranged terms)
        (rules_of rules.now)) }
{
    let mut entries = Vec::with_capacity(alloc, rules.len())?;
    for (number, words) in words.into_iter().enumerate() {
        entries.push(entry(alloc, &rules[number], words.as_slice())?)?;
    }
    Ok(entries)
}
