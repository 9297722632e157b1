//! Which rules the sample requests sample.

ghost use Rattle.std.specs.Prelude.{◌≡◌, IfOk, filter, not};
ghost use Rattle.lc_model.specs.Tables.Image.{numbers_below};
ghost use Rattle.rule_analysis.specs.Reach.{is_sampled};

use lc_model::SampleRequest;
use std::alloc::{AllocError, Global};

/// Whether one of the requests samples the rule with this number.
fn is_sampled(samples: &[SampleRequest], rule: usize) -> bool
    ensures { result ≡ is_sampled samples.now rule }
{
    for sample in samples {
        if sample.takes(rule) {
            return true;
        }
    }
    false
}

/// The rules that none of these sample requests samples, by number from 0; `rules` is the number of rules. The only error is a lack of
/// memory.
pub fn never_sampled(
    alloc: Global,
    rules: usize,
    samples: &[SampleRequest],
) -> Result<Vec<usize>, AllocError>
    ensures { IfOk result (λ numbers. numbers.items ≡ filter (λ rule.
        not (is_sampled samples.now rule)) (numbers_below rules)) }
{
    let mut numbers = Vec::new(alloc);
    for rule in 0..rules {
        if !is_sampled(samples, rule) {
            numbers.push(rule)?;
        }
    }
    Ok(numbers)
}
