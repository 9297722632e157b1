//! Compiles all rule texts of a run.

ghost use Rattle.std.specs.Prelude.{◌≡◌, ◌<◌, length, slice_get, IfErr, IfOk, Some};
ghost use Rattle.flight_core.specs.Compiled.{sources_of, refusal_for, AreAllCompiled, IsNotCompiled};

use crate::error::RunError;
use rpn_compiler::{CompileError, TablePair, compile};
use std::alloc::Global;

/// The run's error for a text that the compiler refused.
fn refusal(text: usize, error: CompileError) -> RunError
    ensures { result ≡ refusal_for text error }
{
    match error {
        CompileError::Memory => RunError::Memory,
        error => RunError::Compile { text, error },
    }
}

/// The text `number`.
fn text_at<'a>(texts: &[&'a [u8]], number: usize) -> &'a [u8]
    requires { number < length texts.now }
    ensures { slice_get (sources_of texts.now) number ≡ Some result.now }
{
    texts[number]
}

/// Compiles all texts, in order, and allocates the memory for their table files.
///
/// Errors: `Compile` with the first text that does not compile, numbered from 0, and `Memory`.
pub(crate) fn compile_all(alloc: Global, texts: &[&[u8]]) -> Result<Vec<TablePair>, RunError>
    ensures compiled { IfOk result (λ pairs. AreAllCompiled (sources_of texts.now) pairs.items) }
    ensures refused { IfErr result (IsNotCompiled (sources_of texts.now)) }
{
    let mut pairs = Vec::with_capacity(alloc, texts.len())?;
    for number in 0..texts.len() {
        match compile(alloc, text_at(&*texts, number)) {
            Ok(pair) => pairs.push_reserved(pair),
            Err(error) => return Err(refusal(number, error)),
        }
    }
    Ok(pairs)
}
