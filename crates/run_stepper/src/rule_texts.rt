//! Reads the rule texts of a run.

ghost use Rattle.std.specs.Prelude.{◌≡◌, ◌<◌, None, Some, IfErr, IfOk, length, slice_get};
ghost use Rattle.std.specs.List.{AllByRecursion};
ghost use Rattle.flight_core.specs.Compiled.{refusal_for, sources_of};
ghost use Rattle.lc_model.specs.Tables.Compiling.{limit_refusal};
ghost use Rattle.lc_model.specs.Tables.InForce.{limits};
ghost use Rattle.rpn_compiler.specs.TextParts.{AreTextsOf};
ghost use Rattle.run_stepper.specs.Stepping.{IsRefusal, refusal_of};

use crate::error::CourseError;
use rpn_compiler::{CompileError, RuleText};
use std::alloc::Global;

/// The error for the text with this number.
fn refusal(text: usize, error: CompileError) -> CourseError
    ensures { result ≡ refusal_of (refusal_for text error) }
{
    match error {
        CompileError::Memory => CourseError::Memory,
        error => CourseError::Rules { text, error },
    }
}

/// The text with this number.
fn text_at<'a>(texts: &[&'a [u8]], number: usize) -> &'a [u8]
    requires { number < length texts.now }
    ensures { slice_get (sources_of texts.now) number ≡ Some result.now }
{
    texts[number]
}

/// Reads rule texts, in their order.
///
/// Errors: `Rules` with the first text that doesn't compile, numbered from 0; `Memory`.
pub fn read_texts<'a>(alloc: Global, texts: &[&'a [u8]]) -> Result<Vec<RuleText<'a>>, CourseError>
    ensures read { IfOk result (λ found. AreTextsOf (sources_of texts.now) found.items) }
    ensures valid { IfOk result (λ found. AllByRecursion (λ text.
        limit_refusal limits text.rules.rules ≡ None) found.items) }
    ensures refused { IfErr result (IsRefusal (sources_of texts.now)) }
{
    let mut found = Vec::new(alloc);
    for number in 0..texts.len() {
        match RuleText::read_valid(alloc, text_at(&*texts, number)) {
            Ok(text) => found.push(text)?,
            Err(error) => return Err(refusal(number, error)),
        }
    }
    Ok(found)
}
