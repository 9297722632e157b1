//! The run of the new text, which takes the records of the old one's.

ghost use Rattle.std.specs.Prelude.{◌≡◌, Ok, OnOk};
ghost use Rattle.run_stepper.specs.Stepping.{HasStepped, IsAtRest, host_in, written_by};
ghost use Rattle.run_stepper.specs.declared.handled.Handled.TheVariants.{Whole};

use run_stepper::{Handled, Stepping, WatchError};
use std::marker::Model;

/// The run of the new text. It is at rest between calls.
pub struct RunBeside {
    stepping: Stepping,
}

impl Model for RunBeside {
    ghost use Rattle.run_stepper.specs.Stepping.{IsAtRest};
    ghost use Rattle.run_stepper.specs.declared.stepping.Stepping.{Stepping as Run};
    ghost use Rattle.std.specs.Coded.{codes};
    ghost use Rattle.lc_model.specs.Condition.Coding.{coded_condition};

    ghost Value = { Run };

    ghost coded = { Prim.hlevel (codes, coded_condition) };

    ghost view = { λ it. it.stepping };

    ghost invariant = { λ it. IsAtRest it.stepping };
}

impl RunBeside {
    /// The run that this one is.
    pub fn new(stepping: Stepping) -> RunBeside
        requires { IsAtRest stepping }
        ensures { result ≡ stepping }
    {
        RunBeside { stepping }
    }

    /// Takes a record, and handles it. Both runs have as many texts, so the same bytes are a record for both.
    ///
    /// Errors: `Memory`; `Bound` if it is no record.
    pub fn step(&mut self, record: &[u8]) -> Result<(), WatchError>
        ensures { OnOk result (HasStepped «record».now (host_in self.old) (host_in self.new)
            (written_by self.new) (Ok Whole)) }
    {
        let _taken = self.stepping.feed(record);
        match self.stepping.handle() {
            Ok(Handled::Whole) => Ok(()),
            Ok(_) => Err(WatchError::Bound),
            Err(_) => Err(WatchError::Memory),
        }
    }

    /// The run.
    pub fn stepping(&self) -> &Stepping
        ensures run { result.now ≡ self.now }
        ensures rest { IsAtRest self.now }
    {
        &self.stepping
    }

    /// Ends the run.
    pub fn close(self) {
        let RunBeside { stepping } = self;
        stepping.close();
    }
}
