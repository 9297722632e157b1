//! Values of fields with which rules have different results.

ghost use Rattle.std.specs.Prelude.{◌≡◌, IsTrue};
ghost use Rattle.lc_model.specs.Condition.{And, Join, Not, condition_of};
ghost use Rattle.lc_model.specs.LimitChecker.Watch.{truth_by};
ghost use Rattle.rule_analysis.specs.Fields.{field_number};
ghost use Rattle.rule_analysis.specs.Judgement.{HoldsForSome};
ghost use Rattle.rule_analysis.specs.Search.{found_so_far};

use crate::chance::{numbers_of, pick_bits, pick_own_bits};
use crate::conditions::negation;
use crate::deciding::{Decision, decide};
use crate::fields::{Field, collect, fields_of};
use crate::open::{Open, is_true, open_of};
use crate::walk::evaluate;
use lc_model::{Cond, Rule, Term, Truth};
use std::alloc::{AllocError, Global};

/// The most steps that the search for a sample takes.
const SAMPLE_STEPS: u32 = 1 << 7;

/// Samples of the fields of some rules: bits for all fields, and each rule's result with them. They are hints: what a sample shows is
/// evaluated again before it is used.
#[derive(Drop)]
pub(crate) struct Samples {
    fields: Vec<Field>,
    bits: Vec<Vec<u32>>,
    results: Vec<Vec<bool>>,
}

/// The index of the field; the number of fields if it isn't among them.
fn place_of(fields: &[Field], field: &Field) -> usize {
    for place in 0..fields.len() {
        if fields[place] == *field {
            return place;
        }
    }
    fields.len()
}

/// A copy of bits.
fn copy_bits(alloc: Global, bits: &[u32]) -> Result<Vec<u32>, AllocError> {
    let mut copy = Vec::new(alloc);
    copy.extend_from_slice(bits)?;
    Ok(copy)
}

/// Puts the bits of some fields in their places among the bits of all fields.
fn put_bits(bits: &mut [u32], fields: &[Field], own: &[Field], own_bits: &[u32]) {
    for at in 0..own.len().min(own_bits.len()) {
        if let Some(place) = bits.get_mut(place_of(fields, &own[at])) {
            *place = own_bits[at];
        }
    }
}

/// Takes over the other bits, field by field, where the condition keeps this result.
fn come_near(bits: &mut [u32], others: &[u32], tree: &Open, numbers: &[usize], wanted: bool) {
    for number in numbers {
        let (Some(before), Some(other)) = (bits.get(*number).copied(), others.get(*number)) else {
            continue;
        };
        if let Some(place) = bits.get_mut(*number) {
            *place = *other;
        }
        if is_true(tree, bits) != wanted {
            if let Some(place) = bits.get_mut(*number) {
                *place = before;
            }
        }
    }
}

/// A rule for which samples are sought: its condition, its comparisons, and the numbers of their fields.
#[derive(Clone, Copy)]
struct RuleTree<'s> {
    tree: &'s Open,
    terms: &'s [Term],
    numbers: &'s [usize],
}

impl Samples {
    /// Samples for the fields of these terms, none yet.
    fn new(alloc: Global, terms: &[Term]) -> Result<Samples, AllocError> {
        Ok(Samples {
            fields: fields_of(alloc, terms)?,
            bits: Vec::new(alloc),
            results: Vec::new(alloc),
        })
    }

    /// Adds a sample for each background, in which a rule has the wanted result; `cond` is true if it has. If no such bits are found
    /// soon, the rule's fields have bits by chance.
    fn add_with(
        &mut self,
        alloc: Global,
        rule: &RuleTree<'_>,
        cond: &Cond,
        wanted: bool,
        backgrounds: &[Vec<u32>],
        random: &mut u32,
    ) -> Result<(), AllocError> {
        let mut steps = SAMPLE_STEPS;
        let found = decide(alloc, cond, &mut steps)?;
        for background in backgrounds {
            let mut others = copy_bits(alloc, background)?;
            pick_own_bits(&mut others, rule.terms, rule.numbers, random);
            let mut bits = copy_bits(alloc, &others)?;
            if let Decision::Holds { fields, bits: own } = &found {
                put_bits(&mut bits, &self.fields, fields, own);
            }
            come_near(&mut bits, &others, rule.tree, rule.numbers, wanted);
            self.bits.push(bits)?;
        }
        Ok(())
    }

    /// Adds samples with which the rule fails, and samples with which it passes.
    fn add(
        &mut self,
        alloc: Global,
        cond: &Cond,
        backgrounds: &[Vec<u32>],
        random: &mut u32,
    ) -> Result<(), AllocError> {
        let mut terms = Vec::new(alloc);
        collect(cond, &mut terms)?;
        let numbers = numbers_of(alloc, &terms, &self.fields)?;
        let tree = open_of(alloc, cond, &self.fields)?;
        let rule = RuleTree {
            tree: &tree,
            terms: &terms,
            numbers: &numbers,
        };
        let other = negation(alloc, cond)?;
        self.add_with(alloc, &rule, cond, true, backgrounds, random)?;
        self.add_with(alloc, &rule, &other, false, backgrounds, random)
    }

    /// Adds the results of a rule with all samples.
    fn add_results(&mut self, alloc: Global, cond: &Cond) -> Result<(), AllocError> {
        let tree = open_of(alloc, cond, &self.fields)?;
        let mut results = Vec::new(alloc);
        for bits in &self.bits {
            results.push(is_true(&tree, bits))?;
        }
        Ok(self.results.push(results)?)
    }

    /// The first sample with which the rule of this number is true and the other one false.
    fn between(&self, first: usize, second: usize) -> Option<&Vec<u32>> {
        let one = self.results.get(first)?;
        let other = self.results.get(second)?;
        for at in 0..one.len().min(other.len()) {
            if one[at] && !other[at] {
                return self.bits.get(at);
            }
        }
        None
    }

    /// The number of the first rule that has the same results as the rule of this number, among those that are the first of their kind.
    pub(crate) fn first_like(&self, firsts: &[usize], rule: usize) -> Option<usize> {
        let own = self.results.get(rule)?;
        for other in 0..firsts.len() {
            if firsts[other] == other && self.results.get(other)? == own {
                return Some(other);
            }
        }
        None
    }

    /// Whether a sample shows that the first condition can be true where the second one is false; `places` are the numbers of their rules.
    pub(crate) fn is_apart(&self, first: &Cond, second: &Cond, places: (usize, usize)) -> bool
        ensures { IsTrue result →
            HoldsForSome (Join And (condition_of first.now) (Not (condition_of second.now))) }
    {
        match self.between(places.0, places.1) {
            Some(bits) => are_apart_with(first, second, &self.fields, bits),
            None => false,
        }
    }

    /// Whether a sample shows that the condition can be true.
    pub(crate) fn is_shown_true(&self, cond: &Cond) -> bool
        ensures { IsTrue result → HoldsForSome (condition_of cond.now) }
    {
        for bits in &self.bits {
            if is_true_with(cond, &self.fields, bits) {
                return true;
            }
        }
        false
    }
}

/// Whether the condition has this result with these bits of the fields.
fn has_result(cond: &Cond, fields: &[Field], bits: &[u32], truth: Truth) -> bool
    ensures { IsTrue result →
        truth_by (found_so_far (field_number fields.now) bits.now) (condition_of cond.now) ≡ truth }
{
    evaluate(cond, fields, bits) == truth
}

/// Whether the condition is true with these bits of the fields.
fn is_true_with(cond: &Cond, fields: &[Field], bits: &[u32]) -> bool
    ensures { IsTrue result → HoldsForSome (condition_of cond.now) }
{
    has_result(cond, fields, bits, Truth::True)
}

/// Whether with these bits of the fields the first condition is true and the second one false.
pub(crate) fn are_apart_with(first: &Cond, second: &Cond, fields: &[Field], bits: &[u32]) -> bool
    ensures { IsTrue result →
        HoldsForSome (Join And (condition_of first.now) (Not (condition_of second.now))) }
{
    has_result(first, fields, bits, Truth::True) && has_result(second, fields, bits, Truth::False)
}

/// Bits by chance for all fields, `count` times.
fn backgrounds_of(
    alloc: Global,
    terms: &[Term],
    fields: &[Field],
    count: usize,
    random: &mut u32,
) -> Result<Vec<Vec<u32>>, AllocError> {
    let numbers = numbers_of(alloc, terms, fields)?;
    let mut backgrounds = Vec::new(alloc);
    for _ in 0..count {
        backgrounds.push(pick_bits(alloc, terms, &numbers, fields.len(), random)?)?;
    }
    Ok(backgrounds)
}

/// Samples of the fields of rules: for each rule `count` with which it fails and as many with which it passes, if such are found soon.
/// The only error is a lack of memory.
pub(crate) fn samples_of(
    alloc: Global,
    rules: &[Rule],
    count: usize,
) -> Result<Samples, AllocError> {
    let mut terms = Vec::new(alloc);
    for rule in rules {
        collect(&rule.cond, &mut terms)?;
    }
    let mut random = 1;
    let mut samples = Samples::new(alloc, &terms)?;
    let backgrounds = backgrounds_of(alloc, &terms, &samples.fields, count, &mut random)?;
    for rule in rules {
        samples.add(alloc, &rule.cond, &backgrounds, &mut random)?;
    }
    for rule in rules {
        samples.add_results(alloc, &rule.cond)?;
    }
    Ok(samples)
}
