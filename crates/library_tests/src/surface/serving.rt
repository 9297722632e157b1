//! The bus, the event services and the table services at their limits: what fits, and the number of the refusal for one more.

use crate::shared::same;
use event_service::{EventError, EventPacket, EventTypes, Events};
use lc_model::{EventKind, Moment, Seat};
use packet_bus::{Bus, BusError, parse_header};
use std::process::Abort;
use tbl_service::{Slot, TableError, Tables};

const NOON: Moment = Moment {
    seconds: 100,
    subseconds: 0,
};

/// Sixteen bytes of telemetry with this message id.
fn telemetry(mid: u16) -> [u8; 16] {
    let [high, low] = mid.to_be_bytes();
    [high, low, 0xC0, 0, 0, 9, 0, 0, 0, 0, 0, 0, 0, 0, 0, 0]
}

/// Publishes a packet `count` times.
fn publish_often(bus: &mut Bus, packet: &[u8], count: u32) -> Result<(), BusError> {
    for _ in 0..count {
        bus.publish(packet)?;
    }
    Ok(())
}

/// Eight pipes, each subscribed to a message id of its own and to one of all.
fn add_pipes(bus: &mut Bus, all: u16) -> Result<(), BusError> {
    for number in 0..8u8 {
        let seat = Seat::new(number);
        bus.add_pipe(seat)?;
        bus.subscribe(seat, all)?;
        bus.subscribe(seat, 0x0900 + u16::from(number))?;
    }
    Ok(())
}

/// The eighth pipe alone, subscribed to its own message id.
fn add_eighth(bus: &mut Bus) -> Result<(), BusError> {
    bus.add_pipe(Seat::new(7))?;
    bus.subscribe(Seat::new(7), 0x0907)
}

/// Each of the eight pipes takes 72 packets of its own message id.
fn fill_pipes<R: Abort>(rt: &R, bus: &mut Bus) {
    for number in 0..8u16 {
        let packet = telemetry(0x0900 + number);
        same(rt, "72 fit", publish_often(bus, &packet, 72), Ok(()));
    }
}

/// Each of the first `seats` seats receives one packet of 16 bytes.
fn receive_each<R: Abort>(rt: &R, bus: &mut Bus, seats: u8) {
    let mut room = [0; 2048];
    for number in 0..seats.min(8) {
        let received = bus.receive(Seat::new(number), &mut room);
        same(rt, number, received, Ok(Some(16)));
    }
}

#[test]
fn a_slot_is_free_with_its_last_reader(rt: HostRuntime) {
    let mut bus = Bus::new(rt.alloc()).expect(&rt, "a bus");
    same(&rt, "eight pipes", add_pipes(&mut bus, 0x0883), Ok(()));
    same(
        &rt,
        "one packet to all",
        bus.publish(&telemetry(0x0883)),
        Ok(()),
    );
    receive_each(&rt, &mut bus, 7);
    same(&rt, "one waits", bus.free(), 575);
    same(
        &rt,
        "the eighth pipe goes",
        bus.remove_pipe(Seat::new(7)),
        Ok(()),
    );
    same(&rt, "none waits", bus.free(), 576);
    same(&rt, "it comes again", add_eighth(&mut bus), Ok(()));
    fill_pipes(&rt, &mut bus);
    same(&rt, "no slot is free", bus.free(), 0);
}

#[test]
fn a_full_pipe(rt: HostRuntime) {
    let mut bus = Bus::new(rt.alloc()).expect(&rt, "a bus");
    same(&rt, "eight pipes", add_pipes(&mut bus, 0x0883), Ok(()));
    let (own, all) = (telemetry(0x0902), telemetry(0x0883));
    same(&rt, "72", publish_often(&mut bus, &own, 72), Ok(()));
    same(&rt, "the 73rd", bus.publish(&all), Err(BusError::PipeFull));
    let mut room = [0; 2048];
    let other = bus.receive(Seat::new(5), &mut room);
    same(&rt, "no other pipe has it", other, Ok(None));
    same(&rt, "its slot is free", bus.free(), 504);
}

/// Subscribes the seat to `count` message ids, from 0xFF00 on.
fn subscribe_to(bus: &mut Bus, seat: Seat, count: u16) -> Result<(), BusError> {
    for number in 0..count.min(256) {
        bus.subscribe(seat, 0xFF00 | number)?;
    }
    Ok(())
}

#[test]
fn pipes_and_subscriptions(rt: HostRuntime) {
    let mut bus = Bus::new(rt.alloc()).expect(&rt, "a bus");
    let (seat, mut room) = (Seat::new(0), [0; 2048]);
    same(
        &rt,
        "none",
        bus.receive(seat, &mut room),
        Err(BusError::NoPipe),
    );
    same(&rt, "a pipe", bus.add_pipe(seat), Ok(()));
    same(
        &rt,
        "again",
        bus.add_pipe(seat),
        Err(BusError::TooManyPipes),
    );
    same(&rt, "256 ids", subscribe_to(&mut bus, seat, 256), Ok(()));
    let further = bus.subscribe(seat, 0x0883);
    same(
        &rt,
        "the 257th",
        further,
        Err(BusError::TooManySubscriptions),
    );
    same(
        &rt,
        "one of them again",
        bus.subscribe(seat, 0xFF80),
        Ok(()),
    );
    same(&rt, "one less", bus.unsubscribe(seat, 0xFF80), Ok(()));
    same(
        &rt,
        "a header",
        parse_header(&telemetry(0x0883)).is_ok(),
        true,
    );
}

/// Sets filters of `count` ids of `LC`.
fn set_filters(events: &mut Events, count: u16) -> Result<(), EventError> {
    for id in 0..count {
        events.set_filter(b"LC", id, 0xFFFF)?;
    }
    Ok(())
}

#[test]
fn senders_and_filters(rt: HostRuntime) {
    let mut events = Events::new(rt.alloc()).expect(&rt, "event services");
    let seat = Seat::new(3);
    same(&rt, "a seat", events.register(seat, b"LC"), Ok(()));
    let taken = Err(EventError::AppsFull);
    same(&rt, "the seat again", events.register(seat, b"SCH"), taken);
    same(
        &rt,
        "the name again",
        events.register(Seat::new(4), b"LC"),
        taken,
    );
    same(
        &rt,
        "the host's name",
        events.register(Seat::new(4), b"HOST"),
        taken,
    );
    same(&rt, "16 ids", set_filters(&mut events, 16), Ok(()));
    let further = events.set_filter(b"LC", 16, 0xFFFF);
    same(&rt, "the 17th", further, Err(EventError::FilterFull));
    same(&rt, "counts", events.reset_filters(b"LC"), Ok(()));
    let nobody = events.set_types(b"SCH", EventTypes::DEBUG, true);
    same(&rt, "nobody", nobody, Err(EventError::NotRegistered));
    same(&rt, "its end", events.unregister(seat), Ok(()));
}

/// The length of a packet in bytes, if there is one.
fn size_of_packet(packet: &Option<EventPacket>) -> Option<usize> {
    packet.as_ref().map(|packet| packet.as_bytes().len())
}

#[test]
fn an_event_is_returned(rt: HostRuntime) {
    let mut events = Events::new(rt.alloc()).expect(&rt, "event services");
    let sent = events.send(None, NOON, 2, EventKind::Information, b"file stored");
    same(&rt, "of the host", size_of_packet(&sent), Some(168));
    let seat = Some(Seat::new(0));
    let unsent = events.send(seat, NOON, 2, EventKind::Error, b"nobody is there");
    same(&rt, "of nobody", size_of_packet(&unsent), None);
}

/// Registers a table of 4 bytes, under a name of at most 40 bytes.
fn register(tables: &mut Tables, seat: u8, name: &[u8]) -> Result<(), TableError> {
    let name = &name[..name.len().min(40)];
    let slot: Slot = tables.register(Seat::new(seat % 8), name, 4, None)?;
    let _slot = slot;
    Ok(())
}

#[test]
fn tables_of_a_seat(rt: HostRuntime) {
    let mut tables = Tables::new(rt.alloc()).expect(&rt, "table services");
    same(&rt, "one", register(&mut tables, 0, b"LC.A"), Ok(()));
    let taken = register(&mut tables, 1, b"LC.A");
    same(&rt, "a taken name", taken, Err(TableError::NoSlot));
    same(&rt, "two", register(&mut tables, 0, b"LC.B"), Ok(()));
    let third = register(&mut tables, 0, b"LC.C");
    same(&rt, "a third", third, Err(TableError::NoSlot));
    tables.unregister(Seat::new(0));
    same(&rt, "free again", register(&mut tables, 1, b"LC.A"), Ok(()));
}

#[test]
fn tables_that_move(rt: HostRuntime) {
    let mut tables = Tables::new(rt.alloc()).expect(&rt, "table services");
    same(&rt, "a file", tables.put_file(b"/cf/a", b"abc"), Ok(()));
    same(&rt, "it is there", tables.file(b"/cf/a").is_some(), true);
    same(&rt, "none", tables.load(b"/cf/b"), Err(TableError::NoFile));
    let unknown = Err(TableError::UnknownTable);
    same(&rt, "validate", tables.request_validate(b"LC.A"), unknown);
    same(&rt, "activate", tables.request_activate(b"LC.A"), unknown);
    same(&rt, "abort", tables.abort(b"LC.A"), unknown);
}
