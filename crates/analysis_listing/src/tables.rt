//! The conditions that tables spell.

ghost use Rattle.std.specs.Prelude.{◌≡◌, ◌<◌, ◌≤◌, ℕ, IfOk, Some, length, map};
ghost use Rattle.lc_model.specs.declared.kind.Kind.TheVariants.{Adt, Wdt};
ghost use Rattle.lc_model.specs.Codes.{table_entries};
ghost use Rattle.lc_model.specs.Condition.{Condition, condition_of};
ghost use Rattle.lc_model.specs.Tables.Image.{all_words, entry_at, own_count, watchpoint_count, words_before_equal};
ghost use Rattle.lc_model.specs.Tables.Spelled.{spelled_condition, spelled_terms};
ghost use Rattle.table_listing.specs.Formula.{IsOver, formula_of};
ghost use Rattle.table_validator.specs.Sound.{adt_layout};

use lc_model::{Cond, Term};
use std::alloc::{AllocError, Global};
use table_file::{ActionpointEntry, preamble};
use table_listing::{Equation, Operator, decompile, laws};
use table_validator::ValidImage;

/// The condition of an equation over these watchpoints.
fn over(alloc: Global, equation: &Equation, terms: &[Term]) -> Result<Cond, AllocError>
    requires { (c : Condition) × IsOver terms.now (formula_of equation.now) c }
    ensures { IfOk result (λ cond. IsOver terms.now (formula_of equation.now) (condition_of cond)) }
{
    match equation {
        Equation::Watch(number) => Ok(Cond::Watch(terms[usize::from(*number)])),
        Equation::Not(operand) => {
            let operand = over(alloc, operand, terms)?;
            Ok(Cond::Not(Box::new(alloc, operand)?))
        }
        Equation::Join(operator, operands) => {
            let first = over(alloc, &operands.0, terms)?;
            let second = over(alloc, &operands.1, terms)?;
            let both = Box::new(alloc, (first, second))?;
            match operator {
                Operator::And => Ok(Cond::And(both)),
                Operator::Or => Ok(Cond::Or(both)),
                Operator::Xor => Ok(Cond::Xor(both)),
            }
        }
    }
}

/// The words of an entry's equation before EQUAL.
fn words_of(alloc: Global, entry: &ActionpointEntry) -> Result<Vec<u16>, AllocError>
    ensures { IfOk result (λ words. words.items ≡ words_before_equal (all_words entry.now)) }
{
    let mut words = Vec::new(alloc);
    for number in 0..entry.equation_length() {
        words.push(entry.word(number))?;
    }
    Ok(words)
}

/// The watchpoints of a table.
pub fn terms_of(alloc: Global, watchpoints: &ValidImage<'_>) -> Result<Vec<Term>, AllocError>
    requires { watchpoints.now.kind ≡ Wdt }
    ensures { IfOk result (λ terms. terms.items ≡ spelled_terms watchpoints.now.bytes) }
{
    let mut terms = Vec::new(alloc);
    let count = usize::from(preamble::own_count(watchpoints.image()));
    for number in 0..count {
        terms.push(watchpoints.watchpoint(number).term())?;
    }
    Ok(terms)
}

/// The condition of an actionpoint of a table over these watchpoints.
pub fn condition_at(
    alloc: Global,
    terms: &[Term],
    actionpoints: &ValidImage<'_>,
    number: usize,
) -> Result<Cond, AllocError>
    requires kind { actionpoints.now.kind ≡ Adt }
    requires used { number < own_count actionpoints.now.bytes }
    requires watchpoints { watchpoint_count actionpoints.now.bytes ≡ length terms.now }
    requires few { length terms.now ≤ table_entries }
    ensures { IfOk result (λ cond. spelled_condition terms.now (words_before_equal (all_words
        (entry_at (adt_layout actionpoints.now.bytes) actionpoints.now.bytes number))) ≡
        Some (condition_of cond)) }
{
    laws::trees_mean_as_their_words();
    let words = words_of(alloc, &actionpoints.actionpoint(number))?;
    let equation = decompile(alloc, &words)?;
    over(alloc, &equation, terms)
}
