//! Ties: which comparisons are known wherever others are.

ghost use Rattle.std.specs.Prelude.{◌≡◌, ◌≤◌, ◌<◌, Contains, IfOk, OnOk, length};
ghost use Rattle.std.specs.List.{AllByRecursion};
ghost use Rattle.lc_model.specs.Condition.{And, Condition as Tree, Join, Not, Or, condition_of};
ghost use Rattle.rule_changes.specs.Known.{IsTied, is_known_with, known_by, most_comparisons};

use crate::known::{are_known_alike, known_number, known_term};
use lc_model::{Cond, Term};
use std::alloc::{AllocError, Global};

/// The most ties of a question.
const MOST_TIES: usize = 256;

/// Whether the other term is known wherever this one is: it reads the same packets, its field ends no later, and it is stale no sooner.
fn is_known_with(term: &Term, other: &Term) -> bool
    ensures { result ≡ is_known_with term.now other.now }
{
    other.mid == term.mid
        && other.offset as usize + other.kind.width() <= term.offset as usize + term.kind.width()
        && (other.stale == 0 || term.stale > 0 && term.stale <= other.stale)
}

/// Appends the term with this number, unless an earlier one is known after the same histories.
fn push_first(terms: &[Term], number: usize, firsts: &mut Vec<Term>) -> Result<(), AllocError>
    requires { number < length terms.now }
    ensures { OnOk result (AllByRecursion (Contains terms.now) firsts.old.items →
        AllByRecursion (Contains terms.now) firsts.new.items) }
{
    let term = terms[number];
    if known_number(terms, &term) == number {
        firsts.push(term)?;
    }
    Ok(())
}

/// The terms of which no earlier one is known after the same histories.
fn first_terms(alloc: Global, terms: &[Term]) -> Result<Vec<Term>, AllocError>
    ensures { IfOk result (λ firsts. AllByRecursion (Contains terms.now) firsts.items) }
{
    let mut firsts = Vec::new(alloc);
    for number in 0..terms.len() {
        push_first(terms, number, &mut firsts)?;
    }
    Ok(firsts)
}

/// The question, if the other term is known where this one is; the question has that in front.
fn tie(
    alloc: Global,
    terms: &[Term],
    term: &Term,
    other: &Term,
    question: Cond,
) -> Result<Cond, AllocError>
    requires { length terms.now ≤ most_comparisons }
    ensures { IfOk result (λ made. condition_of made ≡ Join And
        (Join Or (Not (known_by terms.now term.now)) (known_by terms.now other.now))
        (condition_of question)) }
{
    let known = Cond::Watch(known_term(known_number(terms, term)));
    let other_known = Cond::Watch(known_term(known_number(terms, other)));
    let unknown = Cond::Not(Box::new(alloc, known)?);
    let tied = Cond::Or(Box::new(alloc, (unknown, other_known))?);
    Ok(Cond::And(Box::new(alloc, (tied, question))?))
}

/// The question with a tie in front, if the other term is known wherever this one is and ties are left; else the question itself.
fn tie_if(
    alloc: Global,
    terms: &[Term],
    term: &Term,
    other: &Term,
    question: Cond,
    left: &mut usize,
) -> Result<Cond, AllocError>
    requires few { length terms.now ≤ most_comparisons }
    requires term { Contains terms.now term.now }
    requires other { Contains terms.now other.now }
    ensures { IfOk result (λ made. (q : Tree) → IsTied terms.now q (condition_of question) →
        IsTied terms.now q (condition_of made)) }
{
    if *left == 0 || are_known_alike(term, other) || !is_known_with(term, other) {
        return Ok(question);
    }
    *left -= 1;
    let tied = tie(alloc, terms, term, other, question)?;
    Ok(tied)
}

/// The question with the ties of this term to the others in front.
fn with_ties_of(
    alloc: Global,
    terms: &[Term],
    term: &Term,
    others: &[Term],
    question: Cond,
    left: &mut usize,
) -> Result<Cond, AllocError>
    requires few { length terms.now ≤ most_comparisons }
    requires term { Contains terms.now term.now }
    requires others { AllByRecursion (Contains terms.now) others.now }
    ensures { IfOk result (λ made. (q : Tree) → IsTied terms.now q (condition_of question) →
        IsTied terms.now q (condition_of made)) }
{
    let mut tied = question;
    for other in others {
        tied = tie_if(alloc, terms, term, other, tied, left)?;
    }
    Ok(tied)
}

/// The question with ties in front, at most `MOST_TIES`.
pub(crate) fn with_ties(alloc: Global, terms: &[Term], question: Cond) -> Result<Cond, AllocError>
    requires { length terms.now ≤ most_comparisons }
    ensures { IfOk result (λ made. (q : Tree) → IsTied terms.now q (condition_of question) →
        IsTied terms.now q (condition_of made)) }
{
    let firsts = first_terms(alloc, terms)?;
    let firsts = firsts.as_slice();
    let mut left = MOST_TIES;
    let mut tied = question;
    for term in firsts {
        tied = with_ties_of(alloc, terms, term, firsts, tied, &mut left)?;
    }
    Ok(tied)
}
