//! The page of a run as an observer of the run.

ghost use Rattle.run_page.specs.Reading.{HasSeen};

use crate::intake::Intake;
use crate::progress::Progress;
use crate::shown_part::ShownPart;
use run_account::RunAccount;
use run_stepper::{Observer, Stepping, WatchError};

/// Makes the page of the run that it watches.
#[derive(Drop)]
pub(crate) struct PageObserver<'a, 's, 'p, P: Progress> {
    pub(crate) page: ShownPart<'a, 's>,
    /// What the whole run looked at.
    pub(crate) account: RunAccount<'s>,
    /// The bytes of the stream that were read.
    pub(crate) intake: Intake,
    /// The number of bytes of the records that were shown, up to 2^64 - 1.
    pub(crate) handled: u64,
    pub(crate) progress: &'p mut P,
}

impl<P: Progress> Observer for PageObserver<'_, '_, '_, P> {
    ghost has_seen = { λ _. λ it. λ taken. λ steps.
        HasSeen it.intake it.account taken steps };

    fn read(&mut self, piece: &[u8]) {
        self.intake.take(piece);
    }

    fn show(&mut self, stepping: &Stepping) -> Result<(), WatchError> {
        let record = stepping.last_record();
        let requests = self.account.add(stepping);
        self.page.add(stepping, record, requests, &self.account)?;
        self.handled = self.handled.saturating_add(record.len() as u64);
        self.progress.update(self.handled);
        Ok(())
    }
}
