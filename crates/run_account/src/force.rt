//! The text in force over a run, which is asked of the host only where it may have changed: that compares whole tables.

ghost use Rattle.std.specs.Prelude.{◌≡◌};
ghost use Rattle.app_host.specs.Delivered.{executive_in};
ghost use Rattle.flight_profile.specs.Force.{text_in_force};
ghost use Rattle.run_stepper.specs.Stepping.{host_in, written_by};
ghost use Rattle.run_account.specs.Force.{first_text, is_asked, is_order, is_settling, may_change, text_after};

use crate::clock::is_tick;
use lc_model::mids;
use lc_model::packet::{COMMAND_HEADERS, message_id};
use lc_model::stream::HEADER;
use run_stepper::Stepping;

/// The size of the Limit Checker's housekeeping packet in bytes.
const HOUSEKEEPING_SIZE: usize = 192;

/// The run's text in force, as it was asked for last.
#[derive(Clone, Copy, Debug, PartialEq, Eq)]
pub struct KnownText {
    /// Its number, from 0. None if the tables in force are of none of the run's texts.
    pub number: Option<usize>,
    /// Whether a tick brings nothing else into force: since the last command, file or half of a rule text that the record brought, a tick
    /// led to the Limit Checker's housekeeping alone, by which it takes what waits.
    pub is_settled: bool,
}

/// Whether a packet is a command, but no request for a sample.
fn is_order(packet: &[u8]) -> bool
    ensures { result ≡ is_order packet.now }
{
    COMMAND_HEADERS <= packet.len()
        && (message_id(packet) / 4096 % 2 == 1 && message_id(packet) != mids::SAMPLE)
}

/// Whether other tables may be in force, or other types of events be on, after the record with these bytes, which led to these packets:
/// it brings a command that is no request for a sample, a file or a half of a rule text, or a tick that led to packets.
pub fn may_change(bytes: &[u8], packets: &[u8]) -> bool
    ensures { result ≡ may_change bytes.now packets.now }
{
    if bytes.len() < HEADER {
        return false;
    }
    match bytes[0] {
        1 => is_order(bytes.split_at(HEADER).1),
        2 => 0 < packets.len(),
        _ => true,
    }
}

/// Whether a record is a tick that led to the Limit Checker's housekeeping alone.
fn is_settling(bytes: &[u8], packets: &[u8]) -> bool
    ensures { result ≡ is_settling bytes.now packets.now }
{
    is_tick(bytes)
        && (packets.len() == HOUSEKEEPING_SIZE && message_id(packets) == mids::LC_HOUSEKEEPING)
}

impl KnownText {
    /// Before the first record.
    pub fn first() -> KnownText
        ensures { result ≡ first_text }
    {
        KnownText {
            number: None,
            is_settled: false,
        }
    }

    /// Whether the text in force is asked for after the record with these bytes, which led to these packets.
    fn is_asked(self, bytes: &[u8], packets: &[u8]) -> bool
        ensures { result ≡ is_asked self bytes.now packets.now }
    {
        may_change(bytes, packets) && !(self.is_settled && is_tick(bytes))
    }

    /// The text in force after the record that was handled last.
    pub fn after(self, stepping: &Stepping) -> KnownText
        ensures { result ≡ text_after self (host_in stepping.now).held.last (written_by stepping.now)
            (text_in_force (host_in stepping.now).files (executive_in (host_in stepping.now).host)) }
    {
        let bytes = stepping.last_record();
        let packets = stepping.packets();
        if self.is_asked(bytes, packets) {
            KnownText {
                number: stepping.own_text_in_force(),
                is_settled: is_settling(bytes, packets),
            }
        } else {
            self
        }
    }
}
