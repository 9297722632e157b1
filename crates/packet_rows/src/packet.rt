//! The packets that a run writes, as rows.

ghost use Rattle.std.specs.Prelude.{◌≤◌, length};
ghost use Rattle.lc_model.specs.Packet.{telemetry_header_size};

use crate::cell::{Cell, CellText, number, some_word};
use crate::epoch::TimeTexts;
use crate::packet_cells::PacketCells;
use lc_model::packet::{COUNT_END, TELEMETRY_HEADERS, message_id};
use lc_model::{Moment, u16_at, u32_at};
use packet_listing::{Event, NamedLine, NamedPacket, Sent, TextField, read_packet};
use std::alloc::{AllocError, Global};
use std::fmt::{self, Display, Formatter, Write};

/// The bytes of a packet's primary header.
const PRIMARY_HEADER: usize = 6;

/// The content of a packet, apart from texts of its own.
#[derive(Clone, Copy)]
pub struct PacketContent {
    pub moment: Option<Moment>,
    kind: &'static str,
    id: Option<u16>,
    level: Option<&'static str>,
    sequence: Option<u16>,
}

/// Content with a kind and no other value.
fn plain(kind: &'static str) -> PacketContent {
    PacketContent {
        moment: None,
        kind,
        id: None,
        level: None,
        sequence: None,
    }
}

/// The content of an event packet.
fn event_said(event: Event<'_>) -> PacketContent {
    PacketContent {
        moment: Some(event.moment),
        id: Some(event.id),
        level: Some(event.kind.listed_word()),
        ..plain("event")
    }
}

/// The content of a housekeeping packet.
fn housekeeping_said(packet: &[u8]) -> PacketContent
    requires { telemetry_header_size ≤ length packet.now }
{
    PacketContent {
        moment: Some(Moment {
            seconds: u32_at(packet, 6),
            subseconds: u16_at(packet, 10),
        }),
        ..plain("housekeeping")
    }
}

/// A message id; it displays as `0x` and four hexadecimal digits.
#[derive(Clone, Copy)]
struct MessageId(u16);

impl Display for MessageId {
    fn fmt<W: Write>(&self, f: &mut Formatter<W>) -> fmt::Result {
        write!(f, "0x{:04X}", self.0)
    }
}

/// The texts of a packet's row. They keep their memory from row to row.
#[derive(Drop)]
pub struct PacketTexts {
    sender: CellText,
    text: CellText,
    message_id: CellText,
    /// The message id of which `message_id` has the text.
    written_id: Option<u16>,
    says: CellText,
}

impl PacketTexts {
    /// The texts of no packet.
    pub fn new(alloc: Global) -> PacketTexts {
        PacketTexts {
            sender: CellText::new(alloc),
            text: CellText::new(alloc),
            message_id: CellText::new(alloc),
            written_id: None,
            says: CellText::new(alloc),
        }
    }

    /// Takes an event's texts, each up to its first zero byte.
    fn show_event(&mut self, event: Event<'_>) -> Result<(), AllocError> {
        self.sender.show(TextField(event.sender))?;
        self.text.show(TextField(event.text))
    }

    /// Takes housekeeping's texts, of which the second is the part of its line after `housekeeping: `, with rules by number.
    fn show_housekeeping(&mut self, packet: &[u8]) -> Result<(), AllocError> {
        self.sender.show("LC")?;
        self.says.show(NamedPacket { packet, texts: &[] })?;
        match self.says.as_str().split_once("housekeeping: ") {
            Some((_, text)) => self.text.show(text),
            None => Ok(()),
        }
    }

    /// Takes the message id of a packet; none without a whole primary header. Most packets have the message id of the one before, so
    /// that its text is there.
    fn show_message_id(&mut self, packet: &[u8]) -> Result<(), AllocError> {
        if packet.len() < PRIMARY_HEADER {
            self.message_id.hide();
            return Ok(());
        }
        let id = message_id(packet);
        if self.written_id == Some(id) {
            self.message_id.show_again();
            return Ok(());
        }
        self.written_id = None;
        self.message_id.show(MessageId(id))?;
        self.written_id = Some(id);
        Ok(())
    }

    /// Takes the sender and the text of any packet, and returns its content.
    fn show_content(&mut self, packet: &[u8]) -> Result<PacketContent, AllocError> {
        self.sender.hide();
        self.text.hide();
        match read_packet(packet) {
            Some(Sent::Request(sequence)) => Ok(PacketContent {
                sequence: Some(sequence),
                ..plain("request")
            }),
            Some(Sent::Event(event)) => {
                self.show_event(event)?;
                Ok(event_said(event))
            }
            Some(Sent::Housekeeping { .. }) if packet.len() >= TELEMETRY_HEADERS => {
                self.show_housekeeping(packet)?;
                Ok(housekeeping_said(packet))
            }
            _ => Ok(plain("other")),
        }
    }

    /// Takes the texts of any packet, with the names of these rules, and returns its content. Out of memory is the only error.
    pub fn show(&mut self, line: NamedLine<'_>) -> Result<PacketContent, AllocError> {
        let NamedLine {
            number: _,
            packet,
            texts,
        } = line;
        let content = self.show_content(packet)?;
        self.show_message_id(packet)?;
        self.says.show(NamedPacket { packet, texts })?;
        Ok(content)
    }
}

/// The cell of a packet's sequence count; `Empty` without a whole primary header.
fn count_cell<'c>(packet: &[u8]) -> Cell<'c> {
    if packet.len() < PRIMARY_HEADER {
        return Cell::Empty;
    }
    number(Some(u16_at(packet, 2) % COUNT_END))
}

/// The cells of a packet with this number.
pub fn packet_cells<'c>(
    place: u64,
    packet: &[u8],
    content: PacketContent,
    times: &'c TimeTexts,
    texts: &'c PacketTexts,
) -> PacketCells<'c> {
    PacketCells {
        number: Cell::Number(place),
        time: times.time.cell(),
        utc: times.utc.cell(),
        kind: Cell::Text(content.kind),
        sender: texts.sender.cell(),
        id: number(content.id),
        level: some_word(content.level),
        text: texts.text.cell(),
        sequence: number(content.sequence),
        count: count_cell(packet),
        message_id: texts.message_id.cell(),
        size: Cell::Number(packet.len() as u64),
        says: texts.says.cell(),
    }
}
