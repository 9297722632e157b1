//! Sources and sinks, and the records of a stream in pieces.

use crate::shared::same;
use flight_profile::{Found, Records};
use lc_model::{ByteSink, ByteSource, DeviceFault, Limited, Pieces, Reading, Writing};
use std::io::{Read, Write};
use std::process::Abort;

/// What one read gives, with the reads made and whether one has failed.
fn read_once<S: ByteSource>(source: &mut S) -> (Result<usize, DeviceFault>, u64, bool) {
    let mut room = [0; 4];
    let read = source.read(&mut room);
    (read, source.reads(), source.failed())
}

/// What one write takes, and whether one has failed.
fn write_once<S: ByteSink>(sink: &mut S, bytes: &[u8]) -> (Result<usize, DeviceFault>, bool) {
    if bytes.is_empty() {
        return (Ok(0), sink.failed());
    }
    let written = sink.write(bytes);
    (written, sink.failed())
}

/// A source over a reader of the standard library.
pub fn source_of<R: Read>(reader: R) -> Reading<R> {
    Reading::new(reader)
}

/// A sink over a writer of the standard library.
pub fn sink_of<W: Write>(writer: W) -> Writing<W> {
    Writing::new(writer)
}

#[test]
fn devices(rt: HostRuntime) {
    let mut source = Pieces::new(b"abc", 2);
    same(&rt, "a read", read_once(&mut source), (Ok(2), 1, false));
    let mut room = [0; 2];
    let mut sink = Limited::new(&mut room, 2);
    same(&rt, "a write", write_once(&mut sink, b"ab"), (Ok(2), false));
    same(
        &rt,
        "a fault",
        write_once(&mut sink, b"c"),
        (Err(DeviceFault), true),
    );
}

/// A tick, and the header of no record.
const STREAM: &[u8] = b"\x02\0\0\0\x65\0\x08\0\0\0\0\x05\0\0\0\0\0\0\0\0\0\0";

/// The number of a bad record, 0 for any other, or nothing.
fn next_number(records: &mut Records) -> Option<u64> {
    match records.next()? {
        Found::Bad { n } => Some(n),
        Found::Record(_) | Found::Half { .. } => Some(0),
    }
}

#[test]
fn records_in_pieces(rt: HostRuntime) {
    let mut records = Records::new(rt.alloc(), 1).expect(&rt, "records");
    same(&rt, "taken", records.feed(STREAM), 22);
    same(&rt, "held", records.held(), 22);
    same(&rt, "a tick", next_number(&mut records), Some(0));
    same(&rt, "no record", next_number(&mut records), Some(2));
    same(&rt, "no record again", next_number(&mut records), Some(2));
}
