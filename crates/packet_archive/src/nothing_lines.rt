//! The lines about an import that took no packet.

ghost use Rattle.std.specs.Prelude.{Some, flat_map};
ghost use Rattle.packet_archive.specs.Said.{kind_word, meant_line, nothing_lines};

use crate::choice::{is_command_id, meant_id};
use crate::texts::IdText;
use std::fmt::{self, Display, Formatter, Write};

/// The kind of packets of a message id.
#[derive(Clone, Copy)]
struct KindWord(u16);

impl Display for KindWord {
    ghost output = { λ word. Some (kind_word word.0) };

    fn fmt<W: Write>(&self, f: &mut Formatter<W>) -> fmt::Result {
        if is_command_id(self.0) {
            write!(f, "command")
        } else {
            write!(f, "telemetry")
        }
    }
}

/// The line about a message id that was named, with the one that was probably meant; empty if no other was meant.
#[derive(Clone, Copy)]
struct MeantLine(u16);

impl Display for MeantLine {
    ghost output = { λ l. Some (meant_line l.0) };

    fn fmt<W: Write>(&self, f: &mut Formatter<W>) -> fmt::Result {
        match meant_id(self.0) {
            Some(meant) => {
                let id = IdText(self.0);
                let kind = KindWord(self.0);
                let meant = IdText(meant);
                write!(f, "{id} is no {kind} id: did you mean {meant}?\n")
            }
            None => Ok(()),
        }
    }
}

/// The lines about all message ids that were named.
#[derive(Clone, Copy)]
struct MeantLines<'a>(&'a [u16]);

impl Display for MeantLines<'_> {
    ghost output = { λ l. Some (flat_map meant_line l.0.now) };

    fn fmt<W: Write>(&self, f: &mut Formatter<W>) -> fmt::Result {
        for mid in self.0 {
            let line = MeantLine(*mid);
            write!(f, "{line}")?;
        }
        Ok(())
    }
}

/// The report on archives of which no packet was taken. It displays as lines: that none was taken, and for each message id that
/// was named without the bit of a secondary header the one that was probably meant.
#[derive(Drop)]
pub struct NothingTaken<'a> {
    /// The only message ids that were to become records.
    pub only: &'a [u16],
}

impl Display for NothingTaken<'_> {
    ghost output = { λ n. Some (nothing_lines n.only.now) };

    fn fmt<W: Write>(&self, f: &mut Formatter<W>) -> fmt::Result {
        let lines = MeantLines(self.only);
        write!(f, "no packet was taken\n{lines}")
    }
}
