//! Lists packets that follow each other without gaps.

use crate::named_line::NamedLine;
use crate::naming::TextRules;
use lc_model::packet::first_packet;
use std::io::{self, Write};

/// Writes one line for each whole packet at the front, with the names of these rules; `before` is the number of earlier packets. Returns
/// the number of the last packet listed and the bytes of all listed packets. The error is the writer's.
pub fn list_named<'x, W: Write>(
    packets: &'x [u8],
    before: u64,
    texts: &'x [TextRules<'x>],
    out: &mut W,
) -> io::Result<(u64, usize)> {
    let mut number = before;
    let mut rest = packets;
    for _ in 0..packets.len() {
        let Some((packet, after)) = first_packet(rest) else {
            break;
        };
        number = number.saturating_add(1);
        let line = NamedLine {
            number,
            packet,
            texts,
        };
        writeln!(out, "{line}")?;
        rest = after;
    }
    Ok((number, packets.len().saturating_sub(rest.len())))
}
