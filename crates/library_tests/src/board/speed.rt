//! What calls cost: `time` on a test, or `valgrind --tool=callgrind`, which counts the instructions of the functions that are
//! not inlined. Their arguments come by reference, so that the compiler knows nothing of them.

ghost use Rattle.std.specs.Prelude.{◌≤◌, length, vec_capacity};

use crate::shared::same;
use event_service::{Events, PACKET_SIZE};
use flight_core::{Found, Records};
use lc_model::{EventKind, Moment, Seat};
use packet_bus::{Bus, build_telemetry};
use schedules::parse_schedule;
use std::alloc::{AllocError, Global};
use std::process::Abort;

/// Publishes a packet.
#[inline(never)]
fn give(bus: &mut Bus, packet: &[u8]) -> bool {
    bus.publish(packet).is_ok()
}

/// Receives a packet, and returns how many bytes it has.
#[inline(never)]
fn take(bus: &mut Bus, seat: Seat, buffer: &mut [u8; 2048]) -> usize {
    match bus.receive(seat, buffer) {
        Ok(Some(size)) => size,
        _ => 0,
    }
}

/// For each seat and each size of a payload a hundred thousand rounds: one packet, published to one subscriber and received.
fn rounds<R: Abort + AllocGlobal>(rt: &R, rows: &[(u8, usize)]) {
    let mut bus = Bus::new(rt.alloc()).expect(rt, "memory for a bus");
    let mut packet = [0; 2048];
    let mut buffer = [0; 2048];
    let payload = [7; 2036];
    let moment = Moment {
        seconds: 1,
        subseconds: 2,
    };
    for (seat, size) in rows {
        let seat = Seat::new(*seat % 8);
        let mid = 0x0880 | seat.index() as u16;
        let length = build_telemetry(mid, 0, moment, &payload[..*size % 2036], &mut packet);
        same(rt, "a pipe", bus.add_pipe(seat), Ok(()));
        same(rt, "its id", bus.subscribe(seat, mid), Ok(()));
        let mut bytes = 0usize;
        for _ in 0..100_000 {
            if give(&mut bus, &packet[..length]) {
                bytes = bytes.wrapping_add(take(&mut bus, seat, &mut buffer));
            }
        }
        same(rt, "bytes in all", bytes, length.wrapping_mul(100_000));
    }
}

#[test]
fn a_hundred_thousand_rounds(rt: HostRuntime) {
    rounds(&rt, &[(3, 4)]);
}

/// Sends an event into an empty buffer, as the host does. Returns whether it is sent.
#[inline(never)]
fn is_sent(events: &mut Events, id: u16, text: &[u8], out: &mut Vec<u8>) -> bool
    requires text { length text.now ≤ 121 }
    requires room { 168 ≤ vec_capacity out.old }
    ensures { 168 ≤ vec_capacity out.new }
{
    let moment = Moment {
        seconds: 100,
        subseconds: 0,
    };
    events.send_into(
        Some(Seat::new(3)),
        moment,
        id,
        EventKind::Error,
        text,
        out,
        0,
    ) != 0
}

/// Asks a thousand times for event 1001 of a sender with filters of these ids; `expected` of them are sent.
fn sends<R: Abort + AllocGlobal>(rt: &R, filters: &[u16], expected: u32) {
    let mut events = Events::new(rt.alloc()).expect(rt, "out of memory");
    same(rt, "a sender", events.register(Seat::new(3), b"LC"), Ok(()));
    for id in filters {
        same(rt, *id, events.set_filter(b"LC", *id, 0xFFFF), Ok(()));
    }
    let mut out = Vec::with_capacity(rt.alloc(), PACKET_SIZE).expect(rt, "out of memory");
    let mut count = 0u32;
    for _ in 0..1000u32 {
        let text = b"low volts: AP = 0, FailCount = 2, RTS = 7";
        if is_sent(&mut events, 1001, text, &mut out) {
            count = count.saturating_add(1);
        }
    }
    same(rt, "events", count, expected);
}

#[test]
fn without_filters(rt: HostRuntime) {
    sends(&rt, &[], 1000);
}

#[test]
fn held_back(rt: HostRuntime) {
    sends(&rt, &[1001], 1);
}

#[test]
fn held_back_by_the_last_of_sixteen(rt: HostRuntime) {
    let filters: &[u16] = &[
        986, 987, 988, 989, 990, 991, 992, 993, 994, 995, 996, 997, 998, 999, 1000, 1001,
    ];
    sends(&rt, filters, 1);
}

/// How many records come of a piece.
#[inline(never)]
fn drain(records: &mut Records, piece: &[u8]) -> usize {
    records.feed(piece);
    let mut count = 0usize;
    for _ in 0..piece.len() {
        match records.next() {
            Some(Found::Record(_)) => count = count.wrapping_add(1),
            _ => break,
        }
    }
    count
}

/// A stream of `count` records of 27 bytes.
fn stream_of(alloc: Global, count: u32) -> Result<Vec<u8>, AllocError> {
    let mut stream = Vec::new(alloc);
    for _ in 0..count {
        stream.extend_from_slice(&[1, 0, 0, 0, 100, 0, 9, 0, 0, 0, 16])?;
        stream.extend_from_slice(&[0; 16])?;
    }
    Ok(stream)
}

#[test]
fn a_million_records(rt: HostRuntime) {
    let stream = stream_of(rt.alloc(), 10_000).expect(&rt, "memory for a stream");
    let mut records = Records::new(rt.alloc(), 0).expect(&rt, "memory for records");
    let mut count = 0usize;
    for _ in 0..100 {
        for piece in stream.chunks(8_192) {
            count = count.wrapping_add(drain(&mut records, piece));
        }
    }
    same(&rt, "records", count, 1_000_000);
}

/// A text for 64 slots of eight entries each, 13,833 bytes.
fn longest(alloc: Global) -> Result<Vec<u8>, AllocError> {
    let mut text = Vec::from_slice(alloc, b"slots 64\n")?;
    for slot in 0..64u8 {
        for _ in 0..8u8 {
            text.extend_from_slice(&[b'0' + slot / 10, b'0' + slot % 10])?;
            text.extend_from_slice(b" sample 65535 65535 keep\n")?;
        }
    }
    Ok(text)
}

#[test]
fn a_thousand_longest_schedules(rt: HostRuntime) {
    let text = longest(rt.alloc()).expect(&rt, "memory for a text");
    let mut slots = 0usize;
    for _ in 0..1_000 {
        let schedule = parse_schedule(rt.alloc(), text.as_slice()).expect(&rt, "a schedule");
        slots = slots.wrapping_add(schedule.len());
    }
    same(&rt, "slots in all", slots, 64_000);
}
