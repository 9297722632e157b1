//! From rules to their compiled form.

ghost use Rattle.std.specs.Prelude.{◌≡◌, ◌≤◌, None, Some, IfErr, IfOk, length, map};
ghost use Rattle.lc_model.specs.Codes.{table_entries};
ghost use Rattle.lc_model.specs.Tables.Compiling.{limit_refusal};
ghost use Rattle.lc_model.specs.Tables.Equation.{mention_numbers, terms_of};
ghost use Rattle.lc_model.specs.Tables.InForce.{limits};
ghost use Rattle.rpn_compiler.specs.Fault.{Refuses};
ghost use Rattle.rpn_compiler.specs.Lowered.{IsLowered};
ghost use Rattle.rpn_compiler.specs.Naming.{IsOfTables};
ghost use Rattle.rpn_compiler.specs.Numbered.{words_of};

use crate::equation::words_of_rules;
use crate::error::CompileError;
use crate::limits;
use crate::lowered::Lowered;
use lc_model::RuleSet;
use std::alloc::Global;
use watch_sharing::{Shared, share};

/// The watchpoints of rules within the limits of the tables, and which of them each rule mentions. The error is the first limit
/// that the rules exceed, or a lack of memory.
pub fn share_within(alloc: Global, rules: &RuleSet) -> Result<Shared, CompileError>
    ensures within { IfOk result (λ _. limit_refusal limits rules.now.rules ≡ None) }
    ensures terms { IfOk result (λ shared. shared.terms.items ≡ terms_of rules.now.rules) }
    ensures mentions { IfOk result
        (λ shared. words_of shared.mentions.items ≡
        map (mention_numbers (terms_of rules.now.rules)) rules.now.rules) }
    ensures refused { IfErr result
        (Refuses (λ refusal. limit_refusal limits rules.now.rules ≡ Some refusal)) }
    ensures tables { IfErr result IsOfTables }
{
    let shared = share(alloc, rules)?;
    limits::judge(rules.rules.as_slice())?;
    Ok(shared)
}

/// The watchpoints and the words of rules within the limits of the tables. The error is the first limit that the rules exceed,
/// or a lack of memory.
pub fn lower(alloc: Global, rules: &RuleSet) -> Result<Lowered, CompileError>
    ensures within { IfOk result (λ _. limit_refusal limits rules.now.rules ≡ None) }
    ensures lowered { IfOk result (IsLowered rules.now.rules) }
    ensures refused { IfErr result
        (Refuses (λ refusal. limit_refusal limits rules.now.rules ≡ Some refusal)) }
    ensures tables { IfErr result IsOfTables }
{
    let shared = share_within(alloc, rules)?;
    let words = words_of_rules(alloc, rules.rules.as_slice(), shared.mentions.as_slice())?;
    Ok(Lowered {
        terms: shared.terms,
        words,
    })
}
