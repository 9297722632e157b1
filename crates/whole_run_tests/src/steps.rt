//! A host made by hand: what each record leads to, and how many calls of applications it takes.

use crate::by_hand::{begin, handle};
use crate::low_volts::LOW_VOLTS;
use app_host::Services;
use flight_profile::{Member, add};
use lc_model::{Body, Limited};
use limit_checker::LimitChecker;
use rpn_compiler::{TablePair, compile};
use schedules::{Schedule, parse_schedule};
use std::alloc::{AllocError, Global};
use tick_scheduler::Scheduler;

/// The files from which the Limit Checker's tables are started.
const DEFAULT_WDT: &[u8] = b"/cf/lc_def_wdt.tbl";

const DEFAULT_ADT: &[u8] = b"/cf/lc_def_adt.tbl";

/// A sample of all rules, with aging, and a housekeeping request, by turns.
const SCHEDULE: &[u8] = b"slots 2\n0 sample 0 175 age\n1 housekeeping";

/// Commands to the executive services: the Limit Checker and the scheduler start.
const START_LC: &[u8] = b"\x18\x06\xC0\x00\x00\x15\x01\x3ALC\0\0\0\0\0\0\0\0\0\0\0\0\0\0\0\0\0\0";

const START_SCH: &[u8] = b"\x18\x06\xC0\x00\x00\x15\x01\x6DSCH\0\0\0\0\0\0\0\0\0\0\0\0\0\0\0\0\0";

/// 2,399 volts.
const VOLTS: &[u8] = b"\x08\x83\xC0\x00\x00\x09\x00\x00\x00\x00\x00\x00\x09\x5F\x00\x00";

/// What these records lead to, with one Limit Checker and one scheduler in stock: both files, both orders to start, a packet, and
/// three ticks. For each, how many calls of `on_packet` it took, and how many bytes were written by then.
fn play(
    alloc: Global,
    schedule: &Schedule,
    pair: &TablePair,
    out: &mut Limited<'_>,
) -> Result<[Option<(u32, usize)>; 8], AllocError> {
    let mut stock: Vec<Box<Member>> = Vec::new(alloc);
    let checker = Box::new(alloc, Member::Checker(LimitChecker::new(alloc)?))?;
    add(&mut stock, schedule, b"LC", checker)?;
    let scheduler = Box::new(alloc, Member::Scheduler(Scheduler::new(alloc, schedule)?))?;
    add(&mut stock, schedule, b"SCH", scheduler)?;
    let mut host = begin(alloc, stock)?;
    let file = |name, bytes| Body::File { name, bytes };
    let found = [
        handle(&mut host, file(DEFAULT_WDT, pair.wdt.as_slice()), out),
        handle(&mut host, file(DEFAULT_ADT, pair.adt.as_slice()), out),
        handle(&mut host, Body::Packet(START_LC), out),
        handle(&mut host, Body::Packet(START_SCH), out),
        handle(&mut host, Body::Packet(VOLTS), out),
        handle(&mut host, Body::Tick, out),
        handle(&mut host, Body::Tick, out),
        handle(&mut host, Body::Tick, out),
    ];
    host.close();
    Ok(found)
}

#[test]
fn each_tick_calls_the_scheduler_and_the_limit_checker(rt: HostRuntime) {
    let schedule = parse_schedule(rt.alloc(), SCHEDULE).expect(&rt, "a schedule");
    let pair = compile(rt.alloc(), LOW_VOLTS).expect(&rt, "a text that compiles");
    let mut room = [0; 1_300];
    let mut sink = Limited::new(&mut room, 1_300);
    let found = play(rt.alloc(), &schedule, &pair, &mut sink).expect(&rt, "memory for a host");
    let wanted = [
        Some((0, 168)),
        Some((0, 336)),
        Some((0, 672)),
        Some((0, 840)),
        Some((1, 840)),
        Some((2, 840)),
        Some((2, 1_032)),
        Some((2, 1_212)),
    ];
    assert_eq!(rt; found, wanted, "calls, and bytes by then");
}

#[test]
fn the_services_of_a_host_are_made(rt: HostRuntime) {
    let services = Services::new(rt.alloc()).expect(&rt, "a bus, events and tables");
    assert!(rt; services.outgoing.as_slice().is_empty(), "what waits");
}
