//! The rows of packets that are no whole ones, between those of whole ones: no row of a file is of such a packet.

use crate::claims::same;
use packet_listing::NamedLine;
use packet_rows::{Form, RowError, RowWriter};
use std::alloc::Global;
use std::process::Abort;

/// A request, packets that end in their headers, and the request again.
const PACKETS: &[&[u8]] = &[
    b"\x18\xA9\xC0\0\0\x05\x04\x88\0\x07\0\0",
    b"\x08\x83\xC0\0\0",
    b"\x08",
    b"\x18\xA9\xC0\0\0\x05\x04\x88\0\x07\0\0",
];

/// Only a packet with its first six bytes has a count and a message id.
const ROWS: &[u8] =
    b"1,,,request,,,,,7,0,0x18A9,12,\"sequence request 7, count 0\"\n2,,,other,,,,,,,,5,packet 0x0883 of 5 bytes\n3,,,other,,,,,,,,1,packet of 1 bytes\n4,,,request,,,,,7,0,0x18A9,12,\"sequence request 7, count 0\"\n";

/// The rows of all these packets, as values.
fn rows_of(alloc: Global, packets: &[&[u8]]) -> Result<Vec<u8>, RowError> {
    let mut writer = RowWriter::new(alloc, Form::Csv, None);
    let mut number = 0u64;
    for packet in packets {
        number = number.saturating_add(1);
        writer.write_packet(NamedLine {
            number,
            packet: *packet,
            texts: &[],
        })?;
    }
    let mut rows = Vec::new(alloc);
    writer.write_to(&mut rows)?;
    Ok(rows)
}

#[test]
fn packets_that_end_in_their_headers_have_no_message_id(rt: HostRuntime) {
    let rows = rows_of(rt.alloc(), PACKETS).expect(&rt, "memory for rows");
    same(&rt, "all packets", rows.as_slice(), ROWS);
}
