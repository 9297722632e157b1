//! Packets that applications send, other than events (cFS Limit Checker user's guide: requests for command sequences,
//! housekeeping; the layouts are this project's own).

ghost use Rattle.std.specs.Prelude.{◌≡◌, ◌+◌, ◌≤◌, ◌<◌, ◌++◌, length};
ghost use Rattle.lc_model.specs.Bytes.{u16, u32};
ghost use Rattle.lc_model.specs.Codes.{mode_code, table_entries};
ghost use Rattle.lc_model.specs.Events.Outgoing.{housekeeping_size, sequence_request_size};
ghost use Rattle.lc_model.specs.Packet.{lc_housekeeping_mid, primary_header, count_end};
ghost use Rattle.lc_model.specs.Services.Interface.{outgoing_room};
ghost use Rattle.app_host.specs.Sending.{NothingIsTold, TellingGoesOn, TellingKeepsSenders, RequestsSequence, SendsHousekeeping};

use crate::services::Services;
use lc_model::packet::{UNSEGMENTED, sequence_request};
use lc_model::{LcMode, Moment, TABLE_ENTRIES, mids, u16_bytes, u32_bytes};

/// The byte of housekeeping for a rule that does not exist.
const NO_RULE: u8 = 0xFF;

impl Services {
    /// Appends a sequence request (message id 0x18A9) to the waiting output. Condition: room for its 12 bytes.
    pub fn request_sequence(&mut self, number: u16)
        requires room { length self.old.outgoing + sequence_request_size ≤ outgoing_room }
        ensures told { RequestsSequence number self.old self.new }
        ensures size { length self.new.outgoing ≡ length self.old.outgoing + sequence_request_size }
    {
        let count = self.counts.advance(mids::SEQUENCE);
        self.outgoing.append(&sequence_request(count, number));
    }

    /// Appends the housekeeping packet of the Limit Checker (message id 0x08A7) to the waiting output: its mode, the number of
    /// its rules, a byte for state and result of each, and 0xFF up to 176 bytes. Conditions: at most 176 rules, and room for
    /// 192 bytes.
    pub fn send_housekeeping(&mut self, mode: LcMode, standings: &[u8])
        requires few { length standings.now ≤ table_entries }
        requires room { length self.old.outgoing + housekeeping_size ≤ outgoing_room }
        ensures told { SendsHousekeeping mode standings.now self.old self.new }
        ensures size { length self.new.outgoing ≡ length self.old.outgoing + housekeeping_size }
    {
        let count = self.counts.advance(mids::LC_HOUSEKEEPING);
        let rules = standings.len();
        self.outgoing
            .append(&housekeeping_header(count, self.moment));
        self.outgoing.append(&mode_bytes(mode));
        self.outgoing.append(&count_bytes(standings));
        self.outgoing.append(standings);
        self.outgoing.append(&[NO_RULE; TABLE_ENTRIES][rules..]);
    }
}

/// The headers of the Limit Checker's housekeeping packet: 192 bytes in all, unsegmented (flags 3), with its time.
fn housekeeping_header(count: u16, moment: Moment) -> [u8; 12]
    requires { count < count_end }
    ensures { result ≡
        primary_header lc_housekeeping_mid count housekeeping_size ++ u32 moment.seconds ++
        u16 moment.subseconds }
{
    let [a, b] = u16_bytes(mids::LC_HOUSEKEEPING);
    let [c, d] = u16_bytes(UNSEGMENTED + count);
    let [s, t, u, v] = u32_bytes(moment.seconds);
    let [x, y] = u16_bytes(moment.subseconds);
    [a, b, c, d, 0, 185, s, t, u, v, x, y]
}

/// The number of a mode, in two bytes.
fn mode_bytes(mode: LcMode) -> [u8; 2]
    ensures { result ≡ u16 (mode_code mode) }
{
    u16_bytes(mode.code())
}

/// The number of rules, in two bytes.
fn count_bytes(standings: &[u8]) -> [u8; 2]
    requires { length standings.now ≤ table_entries }
    ensures { result ≡ u16 (length standings.now) }
{
    u16_bytes(standings.len() as u16)
}

/// Law: sending requests one after the other, and nothing else, does exactly as in the model.
pub fn telling_goes_on()
    ensures nothing { NothingIsTold }
    ensures goes_on { TellingGoesOn }
    ensures keeps { TellingKeepsSenders }
{}
