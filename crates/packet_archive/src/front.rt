//! What is at the front of the rest of an archive: a packet, a part of one, a gap, or none of these.

ghost use Rattle.std.specs.Prelude.{◌≡◌, ◌≤◌, ◌+◌, length};
ghost use Rattle.lc_model.specs.Packet.{primary_header_size};
ghost use Rattle.packet_archive.specs.Front.{before_each, front_by, front_in, headers_size, is_begin, is_plausible, marked_in, packet_in, packet_size, sought_in, uncut, zeros, IsInside};

use crate::choice::is_idle;
use lc_model::packet::{COMMAND_HEADERS, COUNT_END, LONGEST_PACKET, TELEMETRY_HEADERS, message_id};
use lc_model::u16_at;

/// The synchronization marker before each packet of a marked archive (CCSDS 131.0-B).
pub const MARKER: [u8; 4] = [0x1A, 0xCF, 0xFC, 0x1D];

/// The length of a packet's primary header in bytes.
const PRIMARY_HEADER: usize = 6;

/// The number of bytes of a packet beyond the value of its length field (CCSDS 133.0-B).
const LENGTH_OFFSET: usize = 7;

/// Message ids of version 0 are below this number.
pub(crate) const MESSAGE_ID_END: u16 = 8_192;

/// The bit of a message id that makes a packet a command.
pub(crate) const COMMAND: u16 = 0x1000;

/// The bit of a message id that says that a secondary header follows.
pub(crate) const SECONDARY_HEADER: u16 = 0x0800;

/// What is at the front of the rest of an archive.
#[derive(Clone, Copy, Debug, PartialEq, Eq)]
pub enum ArchiveFront {
    /// The archive is at its end.
    Over,
    /// Zero bytes between packets, `size` of them.
    Gap { size: usize },
    /// The beginning of a marker or of a packet that is cut short.
    Cut,
    /// A packet of another version than 0, whose length is unknown.
    Foreign,
    /// Other bytes in the place of a marker.
    Unmarked,
    /// A byte at which no plausible packet begins, in an import that resynchronizes.
    Stray,
    /// A whole packet of `size` bytes, after `before` bytes of its marker.
    Packet { before: usize, size: usize },
}

/// What an import does where no packet is in front.
#[derive(Clone, Copy, Debug, PartialEq, Eq)]
pub enum Resync {
    /// It stops there.
    Never,
    /// It resynchronizes: it skips byte after byte up to the next plausible packet. A packet that is cut may go on with more bytes.
    Within,
    /// The same, and no more bytes come, so a packet that is cut is skipped, too.
    AtEnd,
}

/// The number of zero bytes in front.
fn zeros(bytes: &[u8]) -> usize
    ensures zeros { result ≡ zeros bytes.now }
    ensures within { result ≤ length bytes.now }
{
    bytes.iter().take_while(|byte| **byte == 0).count()
}

/// What is in front, after `before` bytes of a marker.
fn packet_of(before: usize, bytes: &[u8]) -> ArchiveFront
    requires { before ≤ 4 }
    ensures stands { result ≡ packet_in before bytes.now }
{
    if bytes.len() < PRIMARY_HEADER {
        return ArchiveFront::Cut;
    }
    if bytes[0] >= 0x20 {
        return ArchiveFront::Foreign;
    }
    let size = usize::from(u16_at(bytes, 4)) + LENGTH_OFFSET;
    if bytes.len() < size {
        return ArchiveFront::Cut;
    }
    ArchiveFront::Packet { before, size }
}

/// What is at the front of bytes that have to begin with a marker; the marker may be cut short.
fn marked_of(bytes: &[u8]) -> ArchiveFront
    ensures stands { result ≡ marked_in bytes.now }
{
    if bytes.len() < MARKER.len() {
        let (begun, _) = MARKER.split_at(bytes.len());
        return if bytes == begun {
            ArchiveFront::Cut
        } else {
            ArchiveFront::Unmarked
        };
    }
    let (front, behind) = bytes.split_at(MARKER.len());
    if front == MARKER.as_slice() {
        packet_of(MARKER.len(), behind)
    } else {
        ArchiveFront::Unmarked
    }
}

/// What is at the front of these bytes of an archive, with markers or without, for an import that stops where no packet is in front.
fn front_of(marked: bool, bytes: &[u8]) -> ArchiveFront
    ensures stands { result ≡ front_in marked bytes.now }
    ensures inside { IsInside bytes.now result }
{
    if bytes.is_empty() {
        return ArchiveFront::Over;
    }
    let size = zeros(bytes);
    if size > 0 {
        return ArchiveFront::Gap { size };
    }
    if marked {
        marked_of(bytes)
    } else {
        packet_of(0, bytes)
    }
}

/// The size that a packet's header says, in bytes.
fn packet_size(header: &[u8]) -> usize
    requires { primary_header_size ≤ length header.now }
    ensures { result ≡ packet_size header.now }
{
    usize::from(u16_at(header, 4)) + LENGTH_OFFSET
}

/// The bytes of the headers that a packet needs that isn't idle.
fn headers_size(header: &[u8]) -> usize
    requires { primary_header_size ≤ length header.now }
    ensures { result ≡ headers_size header.now }
{
    if message_id(header) / COMMAND % 2 == 1 {
        COMMAND_HEADERS
    } else {
        TELEMETRY_HEADERS
    }
}

/// Whether a header is plausible: version 0, no part of another packet, at most 2,048 bytes, and either that of an idle packet, or one
/// with a secondary header and a packet that is long enough for it.
fn is_plausible(header: &[u8]) -> bool
    requires { primary_header_size ≤ length header.now }
    ensures { result ≡ is_plausible header.now }
{
    let mid = message_id(header);
    let size = packet_size(header);
    if mid / MESSAGE_ID_END != 0 || u16_at(header, 2) / COUNT_END != 3 || size > LONGEST_PACKET {
        return false;
    }
    is_idle(header) || (mid / SECONDARY_HEADER % 2 == 1 && headers_size(header) <= size)
}

/// Whether a plausible packet begins here, after its marker if the archive has markers.
fn is_begin(marked: bool, bytes: &[u8]) -> bool
    requires { length (before_each marked) + primary_header_size ≤ length bytes.now }
    ensures { result ≡ is_begin marked bytes.now }
{
    if marked {
        let (front, behind) = bytes.split_at(MARKER.len());
        front == MARKER.as_slice() && is_plausible(behind)
    } else {
        is_plausible(bytes)
    }
}

/// What is at the front for an import that resynchronizes, if more bytes may come.
fn sought_of(marked: bool, bytes: &[u8]) -> ArchiveFront
    ensures stands { result ≡ sought_in marked bytes.now }
    ensures inside { IsInside bytes.now result }
{
    if bytes.is_empty() {
        return ArchiveFront::Over;
    }
    let gap = zeros(bytes);
    if gap > 0 {
        return ArchiveFront::Gap { size: gap };
    }
    let before = if marked { MARKER.len() } else { 0 };
    if bytes.len() < before + PRIMARY_HEADER {
        return ArchiveFront::Cut;
    }
    if !is_begin(marked, bytes) {
        return ArchiveFront::Stray;
    }
    let (_, behind) = bytes.split_at(before);
    packet_of(before, behind)
}

/// Returns what is at the front of these bytes of an archive, with markers or without, for an import that resynchronizes or doesn't.
pub fn front_by(resync: Resync, marked: bool, bytes: &[u8]) -> ArchiveFront
    ensures stands { result ≡ front_by resync marked bytes.now }
    ensures inside { IsInside bytes.now result }
{
    match resync {
        Resync::Never => front_of(marked, bytes),
        Resync::Within => sought_of(marked, bytes),
        Resync::AtEnd => match sought_of(marked, bytes) {
            ArchiveFront::Cut => ArchiveFront::Stray,
            front => front,
        },
    }
}
