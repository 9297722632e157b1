//! The state of a scenario that is being read.

ghost use Rattle.std.specs.Prelude.{◌≡◌, ◌<◌, ◌^◌, length, slice_get, unsigned_abs, Some, IfOk, IfErr, Ok, Err};
ghost use Rattle.scenarios.specs.Named.{NamedPacket};
ghost use Rattle.scenarios.specs.Error.{IsRefused};
ghost use Rattle.scenarios.specs.Said.{bits_written, counted, lined, nothing_said, packet_place, packet_reads, packets_with, reads_value, some_field_at, some_packet_at, with_packet, with_value};

use crate::declared::DeclaredItems;
use crate::error::{LineRefusal, Reason};
use crate::field_values::{is_inside, reads, value_bits};
use crate::named::{Packet, ScenarioField, packet_place};
use std::alloc::{AllocError, Global};
use std::marker::Model;

/// The most lines of a plain script.
const MOST_LINES: usize = 1_000_000;

/// The packets with their current payloads, the fields, the plain script so far, and the scenario's line of each of its lines. Contracts
/// see all (`Said`).
#[derive(Drop)]
pub(crate) struct Saying<'a> {
    packets: Vec<Packet<'a>>,
    fields: Vec<ScenarioField<'a>>,
    script: Vec<u8>,
    lines: Vec<usize>,
}

impl<'a> Model for Saying<'a> {
    ghost use Rattle.scenarios.specs.Said.{Said};

    ghost Value = { Said };

    ghost view = { λ s. record {
      packets = s.packets.items;
      fields = s.fields.items;
      script = s.script.items;
      lines = s.lines.items;
    } };
}

/// A copy of the packets. The only error is a lack of memory.
fn packets_of<'a>(alloc: Global, packets: &[Packet<'a>]) -> Result<Vec<Packet<'a>>, AllocError>
    ensures { IfOk result (λ own. own.items ≡ packets.now) }
{
    let mut own = Vec::new(alloc);
    for packet in packets {
        own.push(packet.same(alloc)?)?;
    }
    Ok(own)
}

/// A copy of the fields. The only error is a lack of memory.
fn fields_of<'a>(
    alloc: Global,
    fields: &[ScenarioField<'a>],
) -> Result<Vec<ScenarioField<'a>>, AllocError>
    ensures { IfOk result (λ own. own.items ≡ fields.now) }
{
    let mut own = Vec::new(alloc);
    for field in fields {
        own.push(field.same())?;
    }
    Ok(own)
}

/// The field at this index, which has to exist.
fn some_field_at<'s, 'a>(
    fields: &'s [ScenarioField<'a>],
    place: usize,
) -> Result<&'s ScenarioField<'a>, Reason>
    ensures found { IfOk result
        (λ field. some_field_at (slice_get fields.now place) ≡ Ok field.now) }
    ensures refused { IfErr result
        (λ reason. some_field_at (slice_get fields.now place) ≡ Err reason) }
{
    match fields.get(place) {
        Some(field) => Ok(field),
        None => Err(Reason::UnknownField),
    }
}

/// The packets, with these bits of a field in the packet at this index. The field has to be inside it.
fn with_bits_at<'a>(
    mut packets: Vec<Packet<'a>>,
    place: usize,
    field: &ScenarioField<'_>,
    bits: u32,
) -> Result<Vec<Packet<'a>>, Reason>
    ensures set { IfOk result (λ after. bits_written place field.now bits packets.entry.items
        (slice_get packets.entry.items place) ≡ Ok after.items) }
    ensures refused { IfErr result (λ reason. bits_written place field.now bits
        packets.entry.items (slice_get packets.entry.items place) ≡ Err reason) }
{
    if place >= packets.len() {
        return Err(Reason::OutsidePacket);
    }
    if !is_inside(field, packets[place].payload().len()) {
        return Err(Reason::OutsidePacket);
    }
    packets[place].write(field, bits);
    Ok(packets)
}

/// The index of the packet of a field, which has to be declared.
fn some_packet_at(packets: &[Packet<'_>], field: &ScenarioField<'_>) -> Result<usize, Reason>
    ensures { result ≡ some_packet_at (packet_place field.now.packet packets.now) }
{
    match packet_place(packets, field.packet()) {
        Some(place) => Ok(place),
        None => Err(Reason::OutsidePacket),
    }
}

/// The packets with this value of a field.
fn packets_with<'a>(
    packets: Vec<Packet<'a>>,
    field: &ScenarioField<'_>,
    value: i64,
) -> Result<Vec<Packet<'a>>, Reason>
    ensures set { IfOk result
        (λ after. packets_with field.now value packets.entry.items ≡ Ok after.items) }
    ensures refused { IfErr result
        (λ reason. packets_with field.now value packets.entry.items ≡ Err reason) }
    ensures fits { IfOk result (λ _. unsigned_abs value < 2 ^ 32) }
{
    let bits = value_bits(field, value)?;
    let place = some_packet_at(packets.as_slice(), field)?;
    with_bits_at(packets, place, field, bits)
}

/// Whether a field has this value in the packet at this index.
fn packet_reads(field: &ScenarioField<'_>, value: i64, packets: &[Packet<'_>], place: usize) -> bool
    ensures { result ≡ packet_reads field.now value (slice_get packets.now place) }
{
    match packets.get(place) {
        Some(packet) => reads(field, value, packet.payload()),
        None => false,
    }
}

impl<'a> Saying<'a> {
    /// The state before the first line. The only error is a lack of memory.
    pub(crate) fn new(alloc: Global, declared: &DeclaredItems<'a>) -> Result<Saying<'a>, AllocError>
        ensures { IfOk result (λ said. said ≡ nothing_said declared.now) }
    {
        let packets = packets_of(alloc, declared.packets())?;
        let fields = fields_of(alloc, declared.fields())?;
        Ok(Saying {
            packets,
            fields,
            script: Vec::new(alloc),
            lines: Vec::new(alloc),
        })
    }

    pub(crate) fn packets(&self) -> &[Packet<'a>]
        ensures { result.now ≡ self.now.packets }
    {
        self.packets.as_slice()
    }

    pub(crate) fn fields(&self) -> &[ScenarioField<'a>]
        ensures { result.now ≡ self.now.fields }
    {
        self.fields.as_slice()
    }

    /// The number of lines of the plain script.
    pub(crate) fn line_count(&self) -> usize
        ensures count { result ≡ length self.now.lines }
        ensures below { result < 2 ^ 63 }
    {
        self.lines.len()
    }

    /// The plain script, and the scenario's line of each of its lines.
    pub(crate) fn into_parts(self) -> (Vec<u8>, Vec<usize>)
        ensures script { result.0.items ≡ self.entry.script }
        ensures lines { result.1.items ≡ self.entry.lines }
    {
        (self.script, self.lines)
    }

    /// Adds a line of the plain script, which the scenario's line `n` gives. Errors: `TooLong`, or a lack of memory.
    pub(crate) fn with_line(self, n: usize, line: &[u8]) -> Result<Saying<'a>, LineRefusal>
        ensures said { IfOk result (λ after. lined n line.now self.entry ≡ Ok after) }
        ensures refused { IfErr result (IsRefused (lined n line.now self.entry)) }
    {
        if self.lines.len() >= MOST_LINES {
            return Err(LineRefusal::Line(Reason::TooLong));
        }
        let Saying {
            packets,
            fields,
            mut script,
            mut lines,
        } = self;
        script.extend_from_slice(line)?;
        script.extend_from_slice(b"\n")?;
        lines.push(n)?;
        Ok(Saying {
            packets,
            fields,
            script,
            lines,
        })
    }

    /// Sets the field at this index to a value, which has to fit its type and mask.
    pub(crate) fn with_value(self, place: usize, value: i64) -> Result<Saying<'a>, LineRefusal>
        ensures said { IfOk result (λ after. with_value place value self.entry ≡ Ok after) }
        ensures refused { IfErr result (IsRefused (with_value place value self.entry)) }
        ensures fits { IfOk result (λ _. unsigned_abs value < 2 ^ 32) }
    {
        let Saying {
            packets,
            fields,
            script,
            lines,
        } = self;
        let field = some_field_at(fields.as_slice(), place)?;
        let packets = packets_with(packets, field, value)?;
        Ok(Saying {
            packets,
            fields,
            script,
            lines,
        })
    }

    /// Whether the field at this index now has this value in the packet at this index.
    pub(crate) fn reads_value(&self, packet: usize, field: usize, value: i64) -> bool
        ensures { result ≡ reads_value packet field value self.now }
    {
        match self.fields.get(field) {
            Some(field) => packet_reads(field, value, self.packets.as_slice(), packet),
            None => false,
        }
    }

    /// The same state with the packet at this index counted.
    fn count_packet(self, place: usize) -> Saying<'a>
        requires { place < length self.packets }
        ensures { (p : NamedPacket) → slice_get self.entry.packets place ≡ Some p →
            result ≡ counted place p self.entry }
    {
        let Saying {
            mut packets,
            fields,
            script,
            lines,
        } = self;
        packets[place].count_on();
        Saying {
            packets,
            fields,
            script,
            lines,
        }
    }

    /// Adds the line of the packet at this index, with the current values of its fields, and counts the packet.
    pub(crate) fn with_packet(
        self,
        alloc: Global,
        n: usize,
        place: usize,
    ) -> Result<Saying<'a>, LineRefusal>
        ensures said { IfOk result (λ after. with_packet n place self.entry ≡ Ok after) }
        ensures refused { IfErr result (IsRefused (with_packet n place self.entry)) }
    {
        if place >= self.packets.len() {
            return Ok(self);
        }
        let line = self.packets[place].line(alloc)?;
        self.count_packet(place).with_line(n, line.as_slice())
    }
}
