//! How moments and message ids are printed.

ghost use Rattle.std.specs.Prelude.{Some};
ghost use Rattle.packet_archive.specs.Said.{id_text, moment_text};

use lc_model::{Moment, SUBSECONDS};
use std::fmt::{self, Display, Formatter, Write};

/// The number of parts of a second that five decimal digits can show. Moments that differ are shown differently.
const SAID: u32 = 100_000;

/// A moment; it displays as seconds and five decimal digits of the second, rounded down.
#[derive(Clone, Copy)]
pub(crate) struct MomentText(pub(crate) Moment);

impl Display for MomentText {
    ghost output = { λ text. Some (moment_text text.0) };

    fn fmt<W: Write>(&self, f: &mut Formatter<W>) -> fmt::Result {
        let part = u64::from(self.0.subseconds) * u64::from(SAID) / u64::from(SUBSECONDS);
        write!(f, "{}.{part:05}", self.0.seconds)
    }
}

/// A message id; it displays as four hexadecimal digits after `0x`.
#[derive(Clone, Copy)]
pub(crate) struct IdText(pub(crate) u16);

impl Display for IdText {
    ghost output = { λ text. Some (id_text text.0) };

    fn fmt<W: Write>(&self, f: &mut Formatter<W>) -> fmt::Result {
        write!(f, "0x{:04X}", self.0)
    }
}
