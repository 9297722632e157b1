//! Who watches a run.

ghost use Rattle.std.specs.Prelude.{◌≡◌, ◌++◌, ◌∷◌, [], List, ℕ, OnOk};
ghost use Rattle.run_stepper.specs.Stepping.{IsAtRest};
ghost use Rattle.run_stepper.specs.Steps.{Step};
ghost use Rattle.run_stepper.specs.Watching.{step_shown};

use crate::stepping::Stepping;
use crate::watch_error::WatchError;

/// Watches a run: it gets the bytes of the stream as they are read, and each record once it was handled.
pub trait Observer {
    // What holds of what it was before the run, and of what it is after these bytes were read and these records were shown.
    ghost has_seen: { Self → Self → List ℕ → List Step → Type 0 };

    /// Takes a piece of the stream that was read. Its records are shown later.
    fn read(&mut self, piece: &[u8])
        ensures { (first : Self) (taken : List ℕ) (steps : List Step) → has_seen first self.old taken steps →
            has_seen first self.new (taken ++ piece.now) steps };

    /// Takes the record that was handled last, with what the host is after it and the packets that it led to.
    ///
    /// Errors: `Memory`; `Write` if the observer writes and can't.
    fn show(&mut self, stepping: &Stepping) -> Result<(), WatchError>
        requires { IsAtRest stepping.now }
        ensures { (first : Self) (taken : List ℕ) (steps : List Step) → has_seen first self.old taken steps →
            OnOk result (has_seen first self.new taken (steps ++ step_shown stepping.now ∷ [])) };
}
