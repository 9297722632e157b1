//! The fault of a refused scenario.

ghost use Rattle.run_commands.specs.Cause.{IsOfLine};

use rpn_compiler::RuleText;
use scenario_errors::{LineError, first_message};
use script_errors::Refusal;
use std::alloc::Global;
use tool_faults::{Fault, refusal_fault};

/// The fault for the scenario in a file with this name, which is refused with the names of these rule texts: for this error, or for one on
/// an earlier line.
pub fn line_error_fault(
    alloc: Global,
    name: &str,
    scenario: &[u8],
    texts: &[RuleText<'_>],
    error: LineError,
) -> Fault<'static>
    ensures { IsOfLine error result }
{
    if error.line().is_none() {
        return Fault::Memory;
    }
    match first_message(alloc, scenario, texts, error) {
        Ok(message) => refusal_fault(alloc, name, scenario, Refusal::Told(message)),
        Err(_) => Fault::Memory,
    }
}
