//! Counts and hashes the bytes of a stream.

ghost use Rattle.std.specs.Prelude.{◌≡◌, ◌<◌, ◌++◌, ℕ, List, [], length, OnOk};
ghost use Rattle.sha2.specs.Sha256.{sha256};
ghost use Rattle.run_account.specs.Clock.{capped};
ghost use Rattle.run_stepper.specs.Watching.{MeetsEnd};
ghost use Rattle.run_page.specs.Reading.{HasRead, ReadsRest};

use crate::error::ReportError;
use lc_model::stream::PIECE;
use lc_model::{ByteSource, DeviceFault};
use run_stepper::Ending;
use sha2::{Digest, Sha256};
use std::alloc::Global;

/// The bytes of a stream read so far.
#[derive(Drop)]
pub struct Intake {
    /// The number of bytes, up to 2^64 - 1.
    pub count: u64,
    /// The SHA-256 of the bytes so far.
    pub hasher: Sha256,
}

/// The size and the hash of a whole stream.
#[derive(Clone, Copy)]
pub struct Taken {
    /// The number of bytes, up to 2^64 - 1.
    pub bytes: u64,
    /// The SHA-256 of the bytes.
    pub digest: [u8; 32],
}

impl Intake {
    /// The state before the first read.
    pub fn new() -> Intake
        ensures { HasRead result [] }
    {
        Intake {
            count: 0,
            hasher: Sha256::new(),
        }
    }

    /// Takes a piece.
    pub fn take(&mut self, piece: &[u8])
        ensures { (front : List ℕ) → HasRead self.old front →
            HasRead self.new (front ++ piece.now) }
    {
        self.hasher.update(piece);
        self.count = self.count.saturating_add(piece.len() as u64);
    }

    /// Reads the rest of the stream. Errors: `Read` if a read fails, and `Bound` after the greatest number of reads.
    pub fn take_rest<R: ByteSource>(
        &mut self,
        room: &mut [u8],
        reader: &mut R,
    ) -> Result<(), ReportError>
        requires some { 0 < length room.old }
        ensures { (front : List ℕ) → HasRead self.old front → OnOk result
            (ReadsRest (R.source reader.old).rest (R.source reader.new).rest front self.new) }
    {
        for _ in 0..u64::MAX {
            match reader.read(room) {
                Ok(0) => return Ok(()),
                Ok(count) => self.take(&room[..count]),
                Err(DeviceFault) => return Err(ReportError::Read),
            }
        }
        Err(ReportError::Bound)
    }

    /// Reads the rest of a stream whose records ended so. Errors: `Memory`; those of `take_rest`.
    pub fn finish<R: ByteSource>(
        &mut self,
        alloc: Global,
        ending: Ending,
        reader: &mut R,
    ) -> Result<(), ReportError>
        requires { MeetsEnd ending (R.source reader.old).rest }
        ensures { (front : List ℕ) → HasRead self.old front → OnOk result
            (ReadsRest (R.source reader.old).rest (R.source reader.new).rest front self.new) }
    {
        match ending {
            Ending::NoRecord { .. } => {
                let mut room = vec![in alloc; 0; PIECE]?;
                self.take_rest(room.as_mut_slice(), reader)
            }
            Ending::Whole { .. } | Ending::Cut { .. } | Ending::Bound => Ok(()),
        }
    }

    /// Returns the size and the hash of the bytes that were read.
    pub fn into_taken(self) -> Taken
        ensures bytes { (stream : List ℕ) → HasRead self stream →
            result.bytes ≡ capped (length stream) }
        ensures digest { (stream : List ℕ) → HasRead self stream →
            result.digest ≡ sha256 stream }
    {
        Taken {
            bytes: self.count,
            digest: self.hasher.finalize(),
        }
    }
}
