//! The stream that the lines read so far give.

ghost use Rattle.std.specs.Prelude.{◌≡◌, ◌<◌, ◌≤◌, ◌+◌, ◌^◌, length, take, IfOk, IfErr};
ghost use Rattle.stream_script.specs.Error.{IsRefused};
ghost use Rattle.stream_script.specs.Script.{brought, commanded, nothing_said, recorded};
ghost use Rattle.stream_script.specs.declared.kind.RecordKind.TheVariants.{Packet};
ghost use Rattle.lc_model.specs.Packet.{telemetry, command_header_size, count_end, longest_packet, telemetry_header_size};
ghost use Rattle.stream_script.specs.Kind.{fits_kind};

use crate::error::{Reason, StatementFault};
use crate::kind::RecordKind;
use lc_model::Moment;
use lc_model::packet::LONGEST_PACKET;
use packet_builders::{build_command, build_telemetry};
use std::alloc::{AllocError, Global};
use std::marker::Model;

/// The first `size` bytes.
fn front(bytes: &[u8], size: usize) -> &[u8]
    requires { size ≤ length bytes.now }
    ensures { result.now ≡ take size bytes.now }
{
    bytes.split_at(size).0
}

/// The moment of the next record, and the stream's bytes so far. Contracts see both (`Said`).
#[derive(Drop)]
pub(crate) struct Script {
    moment: Moment,
    bytes: Vec<u8>,
}

impl Model for Script {
    ghost use Rattle.stream_script.specs.Script.{Said};

    ghost Value = { Said };

    ghost view = { λ s. record { moment = s.moment; bytes = s.bytes.items } };
}

impl Script {
    /// An empty stream at second 0.
    pub(crate) fn new(alloc: Global) -> Script
        ensures { result ≡ nothing_said }
    {
        Script {
            moment: Moment {
                seconds: 0,
                subseconds: 0,
            },
            bytes: Vec::new(alloc),
        }
    }

    /// The moment of the next record.
    pub(crate) fn moment(&self) -> Moment
        ensures { result ≡ self.now.moment }
    {
        self.moment
    }

    /// The same records, at another moment.
    pub(crate) fn with_moment(self, moment: Moment) -> Script
        ensures { result ≡ record { moment = moment; bytes = self.bytes } }
    {
        Script {
            moment,
            bytes: self.bytes,
        }
    }

    /// The number of bytes of the stream.
    pub(crate) fn size(&self) -> usize
        ensures { result ≡ length self.now.bytes }
    {
        self.bytes.len()
    }

    /// The bytes of the stream.
    pub(crate) fn into_bytes(self) -> Vec<u8>
        ensures { result.items ≡ self.bytes }
    {
        self.bytes
    }

    /// Adds a record at the moment.
    pub(crate) fn with_record(self, kind: RecordKind, body: &[u8]) -> Result<Script, AllocError>
        requires { length body.now < 2 ^ 32 }
        ensures { IfOk result (λ after. after ≡ recorded kind body.now self) }
    {
        let Script { moment, mut bytes } = self;
        let [a, b, c, d] = moment.seconds.to_be_bytes();
        let [e, f] = moment.subseconds.to_be_bytes();
        let [g, h, i, j] = (body.len() as u32).to_be_bytes();
        bytes.extend_from_slice(&[kind.number(), a, b, c, d, e, f, g, h, i, j])?;
        bytes.extend_from_slice(body)?;
        Ok(Script { moment, bytes })
    }

    /// Adds a record at the moment. The error is `BadBody` if this kind can't have this body, or a lack of memory.
    pub(crate) fn bring(self, kind: RecordKind, body: &[u8]) -> Result<Script, StatementFault>
        ensures said { IfOk result (λ after. brought kind body.now self ≡ Ok after) }
        ensures refused { IfErr result (IsRefused (brought kind body.now self)) }
    {
        if !kind.may_bring(body) {
            return Err(StatementFault::Line(Reason::BadBody));
        }
        Ok(self.with_record(kind, body)?)
    }

    /// Adds a command with sequence count 0.
    pub(crate) fn command(self, mid: u16, code: u8, payload: &[u8]) -> Result<Script, AllocError>
        requires { command_header_size + length payload.now ≤ longest_packet }
        ensures { IfOk result (λ after. after ≡ commanded mid code payload.now self) }
    {
        let mut buffer = [0; LONGEST_PACKET];
        let size = build_command(mid, 0, code, payload, &mut buffer);
        self.with_record(RecordKind::Packet, front(&buffer, size))
    }

    /// Adds telemetry with this sequence count and this time.
    pub(crate) fn telemetry(
        self,
        mid: u16,
        count: u16,
        time: Moment,
        payload: &[u8],
    ) -> Result<Script, AllocError>
        requires count { count < count_end }
        requires size { telemetry_header_size + length payload.now ≤ longest_packet }
        ensures { IfOk result
            (λ after. after ≡ recorded Packet (telemetry mid count time payload.now) self) }
    {
        let mut buffer = [0; LONGEST_PACKET];
        let size = build_telemetry(mid, count, time, payload, &mut buffer);
        self.with_record(RecordKind::Packet, front(&buffer, size))
    }
}
