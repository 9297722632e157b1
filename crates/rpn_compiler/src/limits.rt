//! The limits of rules (176 actionpoints are the cFS Limit Checker's; the words are this project's own).

ghost use Rattle.std.specs.Prelude.{◌≡◌, ◌-◌, ◌^◌, ◌≤◌, None, length, min, IfErr, MatchResult};
ghost use Rattle.lc_model.specs.Condition.{condition_of};
ghost use Rattle.lc_model.specs.Codes.{table_entries};
ghost use Rattle.lc_model.specs.Rule.{rule_of, rules_of};
ghost use Rattle.lc_model.specs.Tables.Equation.{size as size_of, terms_of};
ghost use Rattle.lc_model.specs.Tables.Compiling.{limit_refusal};
ghost use Rattle.lc_model.specs.Tables.InForce.{limits};
ghost use Rattle.rpn_compiler.specs.Limits.{IsRefusal, refusal_of_rule};
ghost use Rattle.rpn_compiler.specs.Naming.{IsOfTables};

use crate::error::CompileError;
use lc_model::{Cond, EQUATION_WORDS, Rule, TABLE_ENTRIES};

/// The number of words of the condition without EQUAL, or the largest number if there are more.
fn size(cond: &Cond) -> usize
    ensures { result ≡ min (size_of (condition_of cond.now)) (2 ^ 64 - 1) }
{
    match cond {
        Cond::Watch(_) => 1,
        Cond::Not(operand) => size(operand).saturating_add(1),
        Cond::And(operands) | Cond::Or(operands) | Cond::Xor(operands) => size(&operands.0)
            .saturating_add(size(&operands.1))
            .saturating_add(1),
    }
}

/// Whether the equation of the rule with this number is short enough. Then its compiled words need few operands on the stack,
/// whatever the order of its operands in the text.
fn judge_rule(number: usize, rule: &Rule) -> Result<(), CompileError>
    ensures judged { MatchResult result (λ _. refusal_of_rule number (rule_of rule.now) ≡ None)
        (IsRefusal (refusal_of_rule number (rule_of rule.now))) }
    ensures tables { IfErr result IsOfTables }
{
    if size(&rule.cond) >= EQUATION_WORDS {
        return Err(CompileError::EquationTooLong { rule: number });
    }
    Ok(())
}

/// Whether rules over at most 176 watchpoints are few enough, and then whether each equation is short enough.
pub fn judge(rules: &[Rule]) -> Result<(), CompileError>
    requires { length (terms_of (rules_of rules.now)) ≤ table_entries }
    ensures judged { MatchResult result (λ _. limit_refusal limits (rules_of rules.now) ≡ None)
        (IsRefusal (limit_refusal limits (rules_of rules.now))) }
    ensures tables { IfErr result IsOfTables }
{
    if rules.len() > TABLE_ENTRIES {
        return Err(CompileError::TooManyRules);
    }
    for (number, rule) in rules.iter().enumerate() {
        judge_rule(number, rule)?;
    }
    Ok(())
}
