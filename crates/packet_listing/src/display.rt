//! Times and names of packets as text.

ghost use Rattle.std.specs.Prelude.{◌≡◌, ◌≤◌, length, Some};
ghost use Rattle.lc_model.specs.Bytes.{u16_at, u32_at};
ghost use Rattle.lc_model.specs.Packet.{telemetry_header_size};
ghost use Rattle.packet_listing.specs.Words.{time_text};

use lc_model::{Moment, SUBSECONDS, u16_at, u32_at};
use std::fmt::{self, Display, Formatter, Write};

/// The character that is shown for a byte that isn't printable ASCII.
const UNPRINTABLE: char = '.';

/// The number of parts of a second that five decimal digits can show. Times that differ are shown differently.
const SAID: u32 = 100_000;

/// A time of telemetry; it displays as seconds and five decimal digits of the second, rounded down.
#[derive(Clone, Copy)]
pub struct Time {
    seconds: u32,
    subseconds: u16,
}

impl Time {
    /// Returns the time of a moment.
    pub fn at(moment: Moment) -> Time
        ensures { (result.seconds ≡ moment.seconds) × (result.subseconds ≡ moment.subseconds) }
    {
        Time {
            seconds: moment.seconds,
            subseconds: moment.subseconds,
        }
    }
}

/// Returns the time in a telemetry packet: seconds at byte 6, parts of a second at byte 10, both high byte first.
pub fn time_of(packet: &[u8]) -> Time
    requires { telemetry_header_size ≤ length packet.now }
    ensures { (result.seconds ≡ u32_at packet.now 6) × (result.subseconds ≡ u16_at packet.now 10) }
{
    Time {
        seconds: u32_at(packet, 6),
        subseconds: u16_at(packet, 10),
    }
}

impl Display for Time {
    ghost output = { λ time. Some (time_text time.seconds time.subseconds) };

    fn fmt<W: Write>(&self, f: &mut Formatter<W>) -> fmt::Result {
        let part = u64::from(self.subseconds) * u64::from(SAID) / u64::from(SUBSECONDS);
        write!(f, "{}.{part:05}", self.seconds)
    }
}

/// A field of text; it displays up to its first zero byte, with `.` for each byte that isn't printable ASCII.
#[derive(Clone, Copy)]
pub struct TextField<'a>(pub &'a [u8]);

/// Whether a byte is printable ASCII.
fn is_printable(byte: u8) -> bool {
    (b' '..=b'~').contains(&byte)
}

/// Whether all bytes are printable ASCII.
fn are_printable(bytes: &[u8]) -> bool {
    bytes
        .iter()
        .fold(true, |are, byte| are & is_printable(*byte))
}

/// The number of printable bytes in front.
fn printable_size(bytes: &[u8]) -> usize
    ensures { result ≤ length bytes.now }
{
    bytes.iter().take_while(|byte| is_printable(**byte)).count()
}

impl Display for TextField<'_> {
    fn fmt<W: Write>(&self, f: &mut Formatter<W>) -> fmt::Result {
        if are_printable(self.0) {
            return f.write_str(str::from_utf8(self.0).unwrap_or(""));
        }
        let mut rest = self.0;
        for _ in 0..self.0.len() {
            let (run, behind) = rest.split_at(printable_size(rest));
            f.write_str(str::from_utf8(run).unwrap_or(""))?;
            match behind {
                [byte, after @ ..] if *byte != 0 => {
                    f.write_char(UNPRINTABLE)?;
                    rest = after;
                }
                _ => return Ok(()),
            }
        }
        Ok(())
    }
}
