//! The words of rules' conditions in postfix form, with the operand that needs more room first (cFS Limit Checker user's guide,
//! actionpoint definitions; the words are this project's own).

ghost use Rattle.std.specs.Prelude.{◌≡◌, ◌≤◌, ◌<◌, ◌+◌, ◌^◌, ◌++◌, List, ℕ, if◌then◌else◌, length, map, max, nat_lt, IfOk, OnOk};
ghost use Rattle.lc_model.specs.Condition.{condition_of};
ghost use Rattle.lc_model.specs.Rule.{rules_of};
ghost use Rattle.lc_model.specs.Tables.Equation.{mentions, mention_numbers, terms_of};
ghost use Rattle.lc_model.specs.Tables.InForce.{arranged};
ghost use Rattle.lc_model.specs.Tables.Lowering.{words_in};
ghost use Rattle.rpn_compiler.specs.Numbered.{by_numbers, operands_by_numbers, words_of};

use lc_model::equation_words::{AND, NOT, OR, XOR};
use lc_model::{Cond, EQUATION_WORDS, Rule};
use std::alloc::{AllocError, Global};

/// The result of adding the words of a condition: the numbers of the mentions after it, and the most operands on the stack
/// while its words run.
#[derive(Clone, Copy)]
struct Pushed<'n> {
    left: &'n [u16],
    need: usize,
}

/// The most operands on the stack while the words of two operands run, the one of greater need first.
fn need_of_both(first: usize, second: usize) -> usize
    requires { first < 2 ^ 63 }
    ensures { result ≡
        (if nat_lt first second then max second (first + 1) else max first (second + 1)) }
{
    let lighter = first.min(second);
    first.max(second).max(lighter + 1)
}

/// Puts the words of the second operand, which begin at `middle`, before those of the first, which begin at `start`, if the
/// second has the greater need.
fn put_heavier_first(words: &mut [u16], start: usize, middle: usize, first: usize, second: usize)
    requires order { start ≤ middle }
    requires within { middle ≤ length words.old }
    ensures { (before a b : List ℕ) → words.old ≡ before ++ a ++ b → length before ≡ start →
        length before + length a ≡ middle
        → words.new ≡ before ++ (if nat_lt first second then b ++ a else a ++ b) }
{
    if first < second {
        words[start..].rotate_left(middle - start);
    }
}

/// Adds the words of two operands and of their operator. The mentions of both have the first of these numbers.
#[cycle(words)]
fn push_operands<'n>(
    first: &Cond,
    second: &Cond,
    operator: u16,
    numbers: &'n [u16],
    words: &mut Vec<u16>,
) -> Result<Pushed<'n>, AllocError>
    requires { length (mentions (condition_of first.now)) + length
        (mentions (condition_of second.now)) ≤ length numbers.now }
    ensures words { OnOk result (words.new.items ≡ words.old.items
        ++ (operands_by_numbers operator (condition_of first.now) (condition_of second.now)
        numbers.now).0.words) }
    ensures left { IfOk result
        (λ pushed. pushed.left.now ≡
        (operands_by_numbers operator (condition_of first.now) (condition_of second.now)
        numbers.now).1) }
    ensures need { IfOk result
        (λ pushed. pushed.need ≡
        (operands_by_numbers operator (condition_of first.now) (condition_of second.now)
        numbers.now).0.need) }
{
    let start = words.len();
    let first = push_words(first, numbers, words)?;
    let middle = words.len();
    let second = push_words(second, first.left, words)?;
    put_heavier_first(words.as_mut_slice(), start, middle, first.need, second.need);
    words.push(operator)?;
    Ok(Pushed {
        left: second.left,
        need: need_of_both(first.need, second.need),
    })
}

/// Adds the words of a condition, of two operands those of the one of greater need first. Its mentions have the first of
/// these numbers.
#[cycle(words)]
#[tactic(auto, using(crate::proofs::Numbered::left_over), unfolding(crate::specs::Numbered::by_numbers))]
fn push_words<'n>(
    cond: &Cond,
    numbers: &'n [u16],
    words: &mut Vec<u16>,
) -> Result<Pushed<'n>, AllocError>
    requires { length (mentions (condition_of cond.now)) ≤ length numbers.now }
    ensures words { OnOk result
        (words.new.items ≡ words.old.items ++
        (by_numbers (condition_of cond.now) numbers.now).0.words) }
    ensures left { IfOk result
        (λ pushed. pushed.left.now ≡ (by_numbers (condition_of cond.now) numbers.now).1) }
    ensures need { IfOk result
        (λ pushed. pushed.need ≡ (by_numbers (condition_of cond.now) numbers.now).0.need) }
{
    match cond {
        Cond::Watch(_) => {
            words.push(numbers[0])?;
            Ok(Pushed {
                left: &numbers[1..],
                need: 1,
            })
        }
        Cond::Not(operand) => {
            let pushed = push_words(operand, numbers, words)?;
            words.push(NOT)?;
            Ok(pushed)
        }
        Cond::And(operands) => push_operands(&operands.0, &operands.1, AND, numbers, words),
        Cond::Or(operands) => push_operands(&operands.0, &operands.1, OR, numbers, words),
        Cond::Xor(operands) => push_operands(&operands.0, &operands.1, XOR, numbers, words),
    }
}

/// The words of a rule's condition, whose mentions have these numbers.
fn words_of_rule(alloc: Global, rule: &Rule, numbers: &[u16]) -> Result<Vec<u16>, AllocError>
    requires { length (mentions (condition_of rule.now.cond)) ≤ length numbers.now }
    ensures { IfOk result
        (λ words. words.items ≡ (by_numbers (condition_of rule.now.cond) numbers.now).0.words) }
{
    let mut words = Vec::with_capacity(alloc, EQUATION_WORDS)?;
    push_words(&rule.cond, numbers, &mut words)?;
    Ok(words)
}

/// The words of each rule's condition; its mentions have their numbers among the rules' watchpoints.
pub fn words_of_rules(
    alloc: Global,
    rules: &[Rule],
    numbers: &[Vec<u16>],
) -> Result<Vec<Vec<u16>>, AllocError>
    requires { words_of numbers.now ≡ map (mention_numbers (terms_of (rules_of rules.now)))
        (rules_of rules.now) }
    ensures { IfOk result
        (λ found. words_of found.items ≡ map (words_in arranged (terms_of (rules_of rules.now)))
        (rules_of rules.now)) }
{
    let mut found = Vec::with_capacity(alloc, rules.len())?;
    for (number, rule) in rules.iter().enumerate() {
        found.push(words_of_rule(alloc, rule, numbers[number].as_slice())?)?;
    }
    Ok(found)
}
