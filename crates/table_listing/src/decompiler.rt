//! The decompiler: turns the words of an equation back into a condition (cFS Limit Checker user's guide, actionpoint
//! definitions; the words are this project's own).

ghost use Rattle.std.specs.Prelude.{◌≡◌, ◌≤◌, ◌<◌, ◌+◌, ◌⊎◌, ℕ, List, [], ◌∷◌, ◌++◌, OnOk, IfOk, vec_len};
ghost use Rattle.lc_model.specs.Codes.{table_entries};
ghost use Rattle.lc_model.specs.Tables.Equation.{not_word, operator_word};
ghost use Rattle.lc_model.specs.Tables.Image.{operands_of};
ghost use Rattle.table_validator.specs.Sound.{IsSoundEquation};
ghost use Rattle.table_listing.specs.Formula.{AreNumbers, IsTreeOf, formula_of, mentioned_by_all, operator_of, words_of_all};

use crate::equation::{Equation, Operator};
use lc_model::TABLE_ENTRIES;
use lc_model::equation_words::{AND, NOT, OR, XOR};
use std::alloc::{AllocError, Global};

/// Negates the last waiting operand.
fn negate(alloc: Global, waiting: &mut Vec<Equation>) -> Result<(), AllocError>
    requires { 1 ≤ vec_len waiting.old }
    ensures words { OnOk result
        (words_of_all waiting.new.items ≡ words_of_all waiting.old.items ++ not_word ∷ []) }
    ensures numbers { OnOk result
        (mentioned_by_all waiting.new.items ≡ mentioned_by_all waiting.old.items) }
    ensures count { OnOk result (vec_len waiting.new ≡ vec_len waiting.old) }
{
    let operand = waiting.pop().unwrap();
    waiting.push(Equation::Not(Box::new(alloc, operand)?))?;
    Ok(())
}

/// Joins the last two waiting operands.
fn join(alloc: Global, waiting: &mut Vec<Equation>, operator: Operator) -> Result<(), AllocError>
    requires { 2 ≤ vec_len waiting.old }
    ensures words { OnOk result
        (words_of_all waiting.new.items ≡ words_of_all waiting.old.items ++ operator_word
        (operator_of operator) ∷ []) }
    ensures numbers { OnOk result
        (mentioned_by_all waiting.new.items ≡ mentioned_by_all waiting.old.items) }
    ensures count { OnOk result (vec_len waiting.new + 1 ≡ vec_len waiting.old) }
{
    let second = waiting.pop().unwrap();
    let first = waiting.pop().unwrap();
    let operands = Box::new(alloc, (first, second))?;
    waiting.push(Equation::Join(operator, operands))?;
    Ok(())
}

/// Reads one more word.
fn read_word(alloc: Global, waiting: &mut Vec<Equation>, word: u16) -> Result<(), AllocError>
    requires known { (word < TABLE_ENTRIES) ⊎ ((AND ≤ word) × (word ≤ NOT)) }
    requires enough { operands_of word ≤ vec_len waiting.old }
    ensures words { OnOk result
        (words_of_all waiting.new.items ≡ words_of_all waiting.old.items ++ word ∷ []) }
    ensures numbers { AreNumbers (mentioned_by_all waiting.old.items) →
        OnOk result (AreNumbers (mentioned_by_all waiting.new.items)) }
    ensures count { OnOk result (vec_len waiting.new + operands_of word ≡ vec_len waiting.old + 1) }
{
    match word {
        NOT => negate(alloc, waiting),
        AND => join(alloc, waiting, Operator::And),
        OR => join(alloc, waiting, Operator::Or),
        XOR => join(alloc, waiting, Operator::Xor),
        _ => {
            waiting.push(Equation::Watch(word))?;
            Ok(())
        }
    }
}

/// Decompiles the words of a sound equation, without EQUAL, to the condition that they spell. The first operand of an
/// operator stands left. The only error is a lack of memory.
pub fn decompile(alloc: Global, words: &[u16]) -> Result<Equation, AllocError>
    requires { (count : ℕ) × (count ≤ table_entries) × IsSoundEquation count words.now }
    ensures { IfOk result (λ equation. IsTreeOf words.now (formula_of equation)) }
{
    let mut waiting = Vec::new(alloc);
    for word in words {
        read_word(alloc, &mut waiting, *word)?;
    }
    Ok(waiting.pop().unwrap())
}
