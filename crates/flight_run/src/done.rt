//! What the program has done, as it says on standard output.

ghost use Rattle.flight_run.specs.Finished.{done_line};

use flight_core::Report;
use lc_model::mids;
use lc_model::packet::{first_packet, message_id};
use std::fmt::{self, Display, Formatter, Write};

/// What was done. Its `Display` is what the program prints on standard output.
#[derive(Drop)]
pub enum Done {
    /// The stored run, with the packets that it wrote, one after the other.
    Stored(Vec<u8>),
    /// A rule text was compiled into two files.
    Compiled { watchpoints: u16, rules: u16 },
    /// A run over a stream.
    Flown(Report),
}

/// Writes a packet in hexadecimal on a line.
fn say_packet<W: Write>(packet: &[u8], f: &mut Formatter<W>) -> fmt::Result {
    for byte in packet {
        write!(f, "{byte:02x}")?;
    }
    writeln!(f)
}

/// Writes each sequence request among packets, on a line each.
fn say_requests<W: Write>(packets: &[u8], f: &mut Formatter<W>) -> fmt::Result {
    let mut rest = packets;
    for _ in 0..packets.len() {
        let Some((packet, behind)) = first_packet(rest) else {
            break;
        };
        if message_id(packet) == mids::SEQUENCE {
            say_packet(packet, f)?;
        }
        rest = behind;
    }
    Ok(())
}

impl Display for Done {
    ghost output = { λ done. done_line done };

    fn fmt<W: Write>(&self, f: &mut Formatter<W>) -> fmt::Result {
        match self {
            Done::Stored(packets) => say_requests(packets.as_slice(), f),
            Done::Compiled { watchpoints, rules } => {
                writeln!(f, "compiled: {watchpoints} watchpoints, {rules} rules")
            }
            Done::Flown(report) => {
                let Report { records, bytes } = *report;
                writeln!(f, "records {records}, bytes {bytes}")
            }
        }
    }
}
