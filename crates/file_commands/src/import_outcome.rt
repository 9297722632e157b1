//! What an import leads to beside its stream.

ghost use Rattle.std.specs.Prelude.{◌≡◌};
ghost use Rattle.file_commands.specs.Import.{ending_of, has_warning, is_whole, outcome_with, started};

use packet_archive::{ArchiveFront, Met, Tally};
use tool_faults::Fault;

/// What the archives so far lead to.
#[derive(Clone, Copy)]
pub struct ImportOutcome {
    /// Packets that became records; the count stops at 2^64 - 1.
    pub taken: u64,
    /// Whether each archive ends after a whole packet.
    pub is_whole: bool,
    /// Whether an archive has a warning.
    pub is_warned: bool,
}

/// Whether an archive ends after a whole packet, if the import met this at its end.
fn is_whole(tally: &Tally, met: Met) -> bool
    ensures { result ≡ is_whole tally.now met }
{
    match met {
        Met::Stands(ArchiveFront::Over) => !tally.ends_skipped(),
        _ => false,
    }
}

impl ImportOutcome {
    /// Before the first archive.
    pub fn new() -> ImportOutcome
        ensures { result ≡ started }
    {
        ImportOutcome {
            taken: 0,
            is_whole: true,
            is_warned: false,
        }
    }

    /// With an archive of which the import counted this, and at whose end it met this.
    pub fn with(self, tally: &Tally, met: Met) -> ImportOutcome
        ensures { result ≡ outcome_with self tally.now met }
    {
        ImportOutcome {
            taken: self.taken.saturating_add(tally.taken),
            is_whole: self.is_whole && is_whole(tally, met),
            is_warned: self.is_warned || tally.has_warning(),
        }
    }

    /// Whether there is a warning: an archive has one, or no packet was taken.
    pub fn has_warning(self) -> bool
        ensures { result ≡ has_warning self }
    {
        self.is_warned || self.taken == 0
    }

    /// The result of the command. Errors: `Early` if an archive ends early; `Warned` if there is a warning and `is_strict`.
    pub fn ending(self, is_strict: bool) -> Result<(), Fault<'static>>
        ensures { result ≡ ending_of self is_strict }
    {
        if !self.is_whole {
            Err(Fault::Early)
        } else if is_strict && self.has_warning() {
            Err(Fault::Warned)
        } else {
            Ok(())
        }
    }
}
