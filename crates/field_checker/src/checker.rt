//! A rule text's items become its rules.

ghost use Rattle.std.specs.Prelude.{◌≡◌, List, Some, IfErr, IfOk, MatchResult};
ghost use Rattle.lc_model.specs.Rule.{NamedRule};
ghost use Rattle.lc_model.specs.Text.Meaning.{Means, TextFault, faults, first_fault};
ghost use Rattle.rule_parser.specs.Syntax.{items_of};
ghost use Rattle.field_checker.specs.declared.error.CheckError.TheVariants.{Memory};
ghost use Rattle.field_checker.specs.Fault.{IsFaultUnlessMemory};
ghost use Rattle.field_checker.specs.Number.{NamesItsNumber};

use crate::error::CheckError;
use crate::faults::Faults;
use crate::meaning::rules;
use crate::names::Names;
use lc_model::{RuleSet, Rules};
use rule_parser::RuleFile;
use std::alloc::Global;

/// The rules that the items of a rule text mean, in the text's order, with each name replaced by what it names. A name may be
/// used before its declaration; if one is declared twice, the first packet or field of that name counts.
///
/// Work: at most three look-ups for each name of the text, declared or used, and four for one declared again, in ordered maps:
/// for `n` names in the order of `n log n` comparisons, whatever the names are. A comparison is mostly one of two hashes of the
/// names. Memory: the maps, which are freed at the end, and the rules. The stack grows with the depth of the conditions.
///
/// Errors: of the faults of all items, the one at the least place; of several at one place, the one with the least number.
/// `number_at` finds the number that is out of its range. `Memory` where there is no memory for the names or the rules.
pub fn check(alloc: Global, file: &RuleFile) -> Result<RuleSet, CheckError>
    ensures means { IfOk result (λ set. Means (items_of file.now.items.items) set.rules) }
    ensures refused { IfErr result
        (λ error. IsFaultUnlessMemory (first_fault (faults (items_of file.now.items.items)))
        error) }
    ensures named { IfErr result (NamesItsNumber (items_of file.now.items.items)) }
    ensures accepts { (meant : List NamedRule) → Means (items_of file.now.items.items) meant →
        MatchResult result (λ set. set.rules ≡ meant) (λ error. error ≡ Memory) }
    ensures refuses { (fault : TextFault) →
        first_fault (faults (items_of file.now.items.items)) ≡ Some fault →
        MatchResult result (λ set. ⊥) (λ error. IsFaultUnlessMemory (Some fault) error) }
{
    let names = Names::new(alloc, &file.items)?;
    if let Some(fault) = Faults::of(&names).first {
        return Err(fault.into());
    }
    Ok(RuleSet {
        rules: Rules::from_vec(rules(alloc, &names)?),
    })
}
