//! Commands, as they are read from packets (cFS Limit Checker user's guide; codes and layouts are this project's own).

ghost use Rattle.std.specs.Prelude.{◌≡◌, ◌≤◌, length};
ghost use Rattle.lc_model.specs.Packet.{command_header_size, function_code, payload};
ghost use Rattle.lc_model.specs.Command.{answer_of, is_range, refusal_number, sample_request, takes};

use crate::limits::TABLE_ENTRIES;
use crate::numbers::u16_at;
use crate::packet::function_code;
use thiserror::Error;

/// In the place of a rule's number: all rules.
pub const ALL_RULES: u16 = 0xFFFF;

/// The function code of a sample request.
const SAMPLE: u8 = 0;

/// The bytes of a sample request: headers, first and last rule, whether the watchpoints age, and two that are ignored.
const SAMPLE_SIZE: usize = 16;

/// Why a command is refused.
#[derive(Clone, Copy, Debug, PartialEq, Eq, Error)]
pub enum CommandRefusal {
    /// No command has the function code.
    #[error("no command has the function code")]
    UnknownFunction,
    /// The payload has another length than the command's.
    #[error("the payload has another length than the command's")]
    WrongLength,
    /// The rules are neither all (0xFFFF twice) nor a range of a table's entries.
    #[error("the command names no rules that there may be")]
    BadIndex,
}

impl CommandRefusal {
    /// The number of the refusal, 151 to 153.
    pub fn code(self) -> u8
        ensures { result ≡ refusal_number self }
    {
        match self {
            CommandRefusal::UnknownFunction => 151,
            CommandRefusal::WrongLength => 152,
            CommandRefusal::BadIndex => 153,
        }
    }
}

/// Which rules a sample request takes, by their numbers, and whether the watchpoints age afterwards.
#[derive(Clone, Copy, Debug, PartialEq, Eq)]
pub struct SampleRequest {
    /// The first rule, or 0xFFFF for all rules.
    pub first: u16,
    /// The last rule, or 0xFFFF for all rules.
    pub last: u16,
    /// Whether all watchpoints age by one after the sample.
    pub ages: bool,
}

impl SampleRequest {
    /// Whether the request takes the rule with this number.
    pub fn takes(&self, rule: usize) -> bool
        ensures { result ≡ takes self.now rule }
    {
        self.first == ALL_RULES || usize::from(self.first) <= rule && rule <= usize::from(self.last)
    }
}

/// Whether these are all rules, or a range of numbers of a table's entries.
fn is_range(first: u16, last: u16) -> bool
    ensures { result ≡ is_range first last }
{
    first == ALL_RULES && last == ALL_RULES || first <= last && usize::from(last) < TABLE_ENTRIES
}

/// The sample request in a command: code 0, then first and last rule, an age flag and two bytes that are ignored. The
/// rules are all (0xFFFF twice) or a range below 176. Refusals are tried in the order of their numbers.
pub fn sample_request(command: &[u8]) -> Result<SampleRequest, CommandRefusal>
    requires { command_header_size ≤ length command.now }
    ensures { answer_of result ≡ sample_request (function_code command.now) (payload command.now) }
{
    if function_code(command) != SAMPLE {
        return Err(CommandRefusal::UnknownFunction);
    }
    if command.len() != SAMPLE_SIZE {
        return Err(CommandRefusal::WrongLength);
    }
    let first = u16_at(command, 8);
    let last = u16_at(command, 10);
    if !is_range(first, last) {
        return Err(CommandRefusal::BadIndex);
    }
    let ages = u16_at(command, 12) != 0;
    Ok(SampleRequest { first, last, ages })
}
