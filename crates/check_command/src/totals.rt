//! The total result of several texts.

ghost use Rattle.std.specs.Prelude.{◌≡◌};
ghost use Rattle.check_command.specs.Checked.{answer_of, counted};

use tool_faults::Fault;

/// The options of `check`.
#[derive(Clone, Copy)]
pub struct CheckOptions {
    /// Whether to write a line for each rule that can fail and pass, besides the warnings.
    pub is_all: bool,
    /// Whether a warning is a fault.
    pub is_strict: bool,
    /// Whether to write one JSON object per line.
    pub is_json: bool,
}

/// The result of checking a rule text.
#[derive(Clone, Copy)]
pub enum CheckResult {
    /// It doesn't compile.
    Refused,
    /// It compiles, with this number of warnings.
    Warnings(usize),
}

/// The total result of several texts.
#[derive(Clone, Copy)]
pub struct Totals {
    /// Whether a text doesn't compile, or the schedule is refused.
    pub is_refused: bool,
    /// Whether there is a warning.
    pub is_warned: bool,
}

impl Totals {
    /// The total with one text more.
    pub fn with(self, found: CheckResult) -> Totals
        ensures { result ≡ counted self found }
    {
        match found {
            CheckResult::Refused => Totals {
                is_refused: true,
                is_warned: self.is_warned,
            },
            CheckResult::Warnings(count) => Totals {
                is_refused: self.is_refused,
                is_warned: self.is_warned || count > 0,
            },
        }
    }

    /// The result of the command. Errors: `Refused` if a text is refused; `Warned` if there is a warning and `is_strict`.
    pub fn answer(self, is_strict: bool) -> Result<(), Fault<'static>>
        ensures { result ≡ answer_of self is_strict }
    {
        if self.is_refused {
            Err(Fault::Refused)
        } else if is_strict && self.is_warned {
            Err(Fault::Warned)
        } else {
            Ok(())
        }
    }
}
