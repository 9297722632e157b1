//! Packets that go out, byte by byte.

use crate::shared::same;
use event_service::{Events, PACKET_SIZE};
use lc_model::{EventKind, Moment, Seat};
use packet_bus::{build_command, build_telemetry};
use schedules::parse_schedule;
use std::process::Abort;
use tick_scheduler::{Scheduler, write_packet};

/// The sequence request for sequence 7, the first of its kind.
#[test]
fn a_command(rt: HostRuntime) {
    let mut out = [0x55; 14];
    let size = build_command(0x18A9, 0, 4, &[0, 7, 0, 0], &mut out);
    let expected = [0x18, 0xA9, 0xC0, 0, 0, 5, 4, 0x88, 0, 7, 0, 0, 0x55, 0x55];
    same(
        &rt,
        "the request, and what is behind it",
        (size, out),
        (12, expected),
    );
}

#[test]
fn telemetry(rt: HostRuntime) {
    let moment = Moment {
        seconds: 0x0102_0304,
        subseconds: 0x0506,
    };
    let mut out = [0; 14];
    let size = build_telemetry(0x0808, 0x3FFF, moment, &[9, 8], &mut out);
    let expected = [8, 8, 0xFF, 0xFF, 0, 7, 1, 2, 3, 4, 5, 6, 9, 8];
    same(&rt, "telemetry with its time", (size, out), (14, expected));
}

/// The first 85 bytes of a rule's event; the others are zero.
const RULE_EVENT: &[u8] = &[
    0x08, 0x08, 0xC0, 0x00, 0x00, 0xA1, 0x00, 0x00, 0x00, 0x64, 0x00, 0x00, b'L', b'C', 0, 0, 0, 0,
    0, 0, 0, 0, 0, 0, 0, 0, 0, 0, 0, 0, 0, 0, 0x03, 0xE9, 0x00, 0x03, 0x00, 0x00, 0x00, 0x42, 0x00,
    0x00, 0x00, 0x01, b'l', b'o', b'w', b' ', b'v', b'o', b'l', b't', b's', b':', b' ', b'A', b'P',
    b' ', b'=', b' ', b'0', b',', b' ', b'F', b'a', b'i', b'l', b'C', b'o', b'u', b'n', b't', b' ',
    b'=', b' ', b'2', b',', b' ', b'R', b'T', b'S', b' ', b'=', b' ', b'7',
];

/// The packet begins so, and all else in it is zero.
fn is_event<R: Abort>(rt: &R, packet: &[u8], front: &[u8]) {
    let rest = packet.get(front.len()..).unwrap_or_default();
    let zeros = rest.iter().all(|byte| *byte == 0);
    same(
        rt,
        "size, zeros",
        (packet.len(), zeros),
        (PACKET_SIZE, true),
    );
    same(rt, "front", packet.get(..front.len()), Some(front));
}

#[test]
fn a_rules_event(rt: HostRuntime) {
    let mut events = Events::new(rt.alloc()).expect(&rt, "out of memory");
    let seat = Seat::new(0);
    same(&rt, "register", events.register(seat, b"LC"), Ok(()));
    let moment = Moment {
        seconds: 100,
        subseconds: 0,
    };
    let text = b"low volts: AP = 0, FailCount = 2, RTS = 7";
    let sent = events.send(Some(seat), moment, 1001, EventKind::Error, text);
    let packet = sent.expect(&rt, "not sent");
    is_event(&rt, packet.as_bytes(), RULE_EVENT);
}

/// A sample of rules 0 to 175 with aging.
const SAMPLE: &[u8] = &[0x18, 0xA6, 0xC0, 0, 0, 9, 0, 0x26, 0, 0, 0, 175, 0, 1, 0, 0];

/// A housekeeping request.
const HOUSEKEEPING: &[u8] = &[0x18, 0xA5, 0xC0, 0, 0, 1, 0, 0x83];

/// The next tick publishes these packets, in this order.
fn publishes<R: Abort>(rt: &R, scheduler: &mut Scheduler, packets: &[&[u8]]) {
    same(rt, "entries", scheduler.entries().len(), packets.len());
    for (entry, packet) in scheduler.entries().iter().zip(packets) {
        let mut buffer = [7; tick_scheduler::PACKET_SIZE];
        let size = write_packet(*entry, &mut buffer);
        same(rt, "bytes", buffer.get(..size), Some(*packet));
    }
    scheduler.move_on();
}

#[test]
fn a_schedule_of_two_slots(rt: HostRuntime) {
    let text = b"slots 2\n0 sample 0 175 age\n0 housekeeping\n";
    let schedule = parse_schedule(rt.alloc(), text).expect(&rt, "a schedule");
    let mut scheduler = Scheduler::new(rt.alloc(), &schedule).expect(&rt, "memory");
    publishes(&rt, &mut scheduler, &[SAMPLE, HOUSEKEEPING]);
    publishes(&rt, &mut scheduler, &[]);
}
