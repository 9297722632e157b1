//! The line of a packet that is no whole one: no listing of a file prints it.

use crate::claims::same;
use packet_listing::PacketLine;
use std::process::Abort;

/// Packets that no listing has a line for, since they have no length.
const SHORT: &[(&[u8], &str)] = &[
    (&[], "3 - packet of 0 bytes"),
    (&[8], "3 - packet of 1 bytes"),
    (&[8, 0xA], "3 - packet 0x080A of 2 bytes"),
];

#[test]
fn a_line_of_a_packet_without_a_message_id(rt: HostRuntime) {
    for &(packet, expected) in SHORT {
        let line = format!(in rt.alloc(); "{}", PacketLine { number: 3, packet });
        let line = line.expect(&rt, "memory for a line");
        same(&rt, packet, line.as_str(), expected);
    }
}
