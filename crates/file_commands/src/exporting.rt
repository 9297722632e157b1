//! The command `export --stream STREAM --out RAW`.

use crate::ends::end_of_stream;
use crate::listing::whole_records;
use packet_archive::export_held;
use program_io::{begin, check_archive_place, discard, fault_of, feed_of, keep};
use std::fs::Files;
use std::io::Write;
use stream_script::Front;
use tool_faults::{Fault, check_apart, fault_at};

/// Writes the packets of a stream piece by piece. Returns what stands at the end, and the number of the record there.
fn export_all<'a, R: Files + AllocGlobal, S: Write>(
    rt: &R,
    stream: &'a str,
    raw: &'a str,
    file: &mut S,
) -> Result<(Front, u64), Fault<'a>> {
    let mut feed = feed_of(rt, stream)?;
    let mut packets = Vec::new(rt.alloc());
    let mut n = 1u64;
    for _ in 0..u64::MAX {
        let is_more = feed.read_on()?;
        let held = feed.contents().len();
        let (count, _, _) = whole_records(feed.contents());
        n = n.saturating_add(u64::try_from(count).unwrap_or(u64::MAX));
        let (left, front) = export_held(&mut packets, feed.contents())?;
        let left = left.len();
        match file.write_all(packets.as_slice()) {
            Ok(()) => packets.clear(),
            Err(error) => return Err(fault_at(raw, fault_of(&error))),
        }
        if !is_more || matches!(front, Front::NoRecord) {
            return Ok((front, n));
        }
        feed.let_go(held.saturating_sub(left));
    }
    Ok((Front::Cut, n))
}

/// Writes the packets of a stream, in order, to the file `raw`, through a draft that is renamed at the end. Error:
/// `Stream` if the stream ends early, with the place; the packets before it are written all the same. Other
/// faults are of files, also of an old file that is no archive, and memory.
pub fn export<'a, R: Files + AllocGlobal>(
    rt: &R,
    stream: &'a str,
    raw: &'a str,
) -> Result<(), Fault<'a>> {
    check_apart(rt, raw, &[stream])?;
    check_archive_place(rt, raw)?;
    let mut draft = begin(rt, raw).map_err(|fault| fault_at(raw, fault))?;
    match export_all(rt, stream, raw, &mut draft.file) {
        Ok((front, n)) => {
            keep(rt, draft).map_err(|fault| fault_at(raw, fault))?;
            end_of_stream(stream, front, n)
        }
        Err(fault) => {
            discard(rt, draft);
            Err(fault)
        }
    }
}
