//! What the Limit Checker says of its own work, and a host whose writer has failed.

ghost use Rattle.app_host.specs.Hosted.{shown};
ghost use Rattle.app_host.specs.Step.{IsBetween};

use crate::shared::same;
use app_host::{App, Host};
use flight_profile::LimitChecker;
use lc_model::{Body, Limited, Moment, Record, Seat};
use rpn_compiler::{TablePair, compile};
use std::alloc::{AllocError, Global};
use std::process::Abort;

/// The most bytes that one of these records leads to.
const ROOM: usize = 40_000;

/// The command that starts the Limit Checker.
const START: &[u8] = b"\x18\x06\xC0\0\0\x15\x01\x3ALC\0\0\0\0\0\0\0\0\0\0\0\0\0\0\0\0\0\0";

/// A sample of all rules.
const SAMPLE: &[u8] = b"\x18\xA6\xC0\0\0\x09\0\x88\xFF\xFF\xFF\xFF\0\0\0\0";

/// 2,399 volts.
const VOLTS: &[u8] = b"\x08\x83\xC0\0\0\x09\0\0\0\0\0\0\x09\x5F\0\0";

/// Three digits.
fn digits(number: u16) -> [u8; 3] {
    let digit = |value: u16| b'0' + (value % 10) as u8;
    [digit(number / 100), digit(number / 10), digit(number)]
}

/// A text of 176 rules, each with this number of mentions of one comparison.
fn shared_text(alloc: Global, mentions: u16) -> Result<Vec<u8>, AllocError> {
    let mut text: Vec<u8> = Vec::new(alloc);
    text.extend_from_slice(b"packet P = mid 0x0883 length 16; field V = P u16be at 12;")?;
    for number in 0..176u16 {
        text.extend_from_slice(b"rule R")?;
        text.extend_from_slice(&digits(number))?;
        text.extend_from_slice(b" active fails 1 sequence 7 event error 1001 \"\" when V < 2400")?;
        for _ in 1..mentions {
            text.extend_from_slice(b" and V < 2400")?;
        }
        text.extend_from_slice(b";")?;
    }
    Ok(text)
}

/// 176 packets of message ids from 0x0900 on, each with a field and a rule.
fn spread_text(alloc: Global) -> Result<Vec<u8>, AllocError> {
    let mut text: Vec<u8> = Vec::new(alloc);
    for number in 0..176u16 {
        let name = digits(number);
        for part in [
            b"packet P".as_slice(),
            &name,
            b" = mid 2",
            &digits(304 + number),
        ] {
            text.extend_from_slice(part)?;
        }
        for part in [
            b" length 16; field V".as_slice(),
            &name,
            b" = P",
            &name,
            b" u8 at 12; rule R",
        ] {
            text.extend_from_slice(part)?;
        }
        for part in [
            name.as_slice(),
            b" active fails 1 sequence 7 event error 1001 \"\" when V",
            &name,
            b" < 9;",
        ] {
            text.extend_from_slice(part)?;
        }
    }
    Ok(text)
}

/// The host handles a record: how many bytes were written if a write failed. Only the first 40 bytes of a file's name count.
fn give<B: App>(host: &mut Host<B>, body: Body<'_>, out: &mut Limited<'_>) -> Option<u64>
    requires { IsBetween (shown B.meaning host.old) }
    ensures { IsBetween (shown B.meaning host.new) }
{
    let moment = Moment {
        seconds: 100,
        subseconds: 0,
    };
    let body = match body {
        Body::Packet(bytes) => Body::Packet(bytes),
        Body::Tick => Body::Tick,
        Body::File { name, bytes } => Body::File {
            name: &name[..name.len().min(40)],
            bytes,
        },
    };
    let done = host.step(&Record { moment, body }, out);
    done.err().map(|fault| fault.sent)
}

/// The default files, the start, a packet, and a sample.
fn fly<B: App>(host: &mut Host<B>, pair: &TablePair, packet: &[u8])
    requires { IsBetween (shown B.meaning host.old) }
    ensures { IsBetween (shown B.meaning host.new) }
{
    let mut room = [0; ROOM];
    let mut out = Limited::new(&mut room, ROOM);
    let file = |name, bytes| Body::File { name, bytes };
    give(
        host,
        file(b"/cf/lc_def_wdt.tbl", pair.wdt.as_slice()),
        &mut out,
    );
    give(
        host,
        file(b"/cf/lc_def_adt.tbl", pair.adt.as_slice()),
        &mut out,
    );
    give(host, Body::Packet(START), &mut out);
    give(host, Body::Packet(packet), &mut out);
    give(host, Body::Packet(SAMPLE), &mut out);
}

/// Steps and probes of the Limit Checker that runs.
fn effort_of(host: &Host<Box<LimitChecker>>) -> Option<(u32, u32)> {
    let checker = host.application(Seat::new(0))?;
    Some((checker.steps(), checker.probes()))
}

/// Steps and probes after a packet and a sample with these rules. Out of memory is the only error.
fn measured(alloc: Global, text: &[u8], packet: &[u8]) -> Result<Option<(u32, u32)>, AllocError> {
    let Ok(pair) = compile(alloc, text) else {
        return Ok(None);
    };
    let mut stock: Vec<Box<LimitChecker>> = Vec::new(alloc);
    stock.push(Box::new(alloc, LimitChecker::new(alloc)?)?)?;
    match Host::new(alloc, stock) {
        Err(_) => Err(AllocError),
        Ok(mut host) => {
            fly(&mut host, &pair, packet);
            let effort = effort_of(&host);
            host.close();
            Ok(effort)
        }
    }
}

/// Each rule has its words, EQUAL included: ten mentions are twenty words.
#[test]
fn steps_of_full_tables(rt: HostRuntime) {
    let ten = shared_text(rt.alloc(), 10).expect(&rt, "memory");
    let found = measured(rt.alloc(), &ten, VOLTS).expect(&rt, "memory");
    same(&rt, "twenty words", found, Some((3_520, 1)));
    let sixteen = shared_text(rt.alloc(), 16).expect(&rt, "memory");
    let found = measured(rt.alloc(), &sixteen, VOLTS).expect(&rt, "memory");
    same(&rt, "32 words", found, Some((5_632, 1)));
}

/// The last of 176 message ids.
#[test]
fn probes_of_full_tables(rt: HostRuntime) {
    let text = spread_text(rt.alloc()).expect(&rt, "memory");
    let last = b"\x09\xAF\xC0\0\0\x09\0\0\0\0\0\0\x09\0\0\0";
    let found = measured(rt.alloc(), &text, last).expect(&rt, "memory");
    same(&rt, "the last id", found, Some((352, 1)));
}

/// What a host of two Limit Checkers says after a write that failed, and after the step that follows.
fn after_a_fault<B: App>(host: &mut Host<B>) -> [(Option<u64>, bool, usize); 2]
    requires { IsBetween (shown B.meaning host.old) }
    ensures { IsBetween (shown B.meaning host.new) }
{
    let mut room = [0; 3];
    let mut out = Limited::new(&mut room, 3);
    let first = give(host, Body::Packet(START), &mut out);
    let first = (first, host.running(b"LC"), host.spares(b"LC"));
    let second = give(host, Body::Packet(START), &mut out);
    [first, (second, host.running(b"LC"), host.spares(b"LC"))]
}

fn faulty(alloc: Global) -> Result<[(Option<u64>, bool, usize); 2], AllocError> {
    let mut stock: Vec<Box<dyn App>> = Vec::new(alloc);
    stock.push(Box::new(alloc, LimitChecker::new(alloc)?)?)?;
    stock.push(Box::new(alloc, LimitChecker::new(alloc)?)?)?;
    match Host::new(alloc, stock) {
        Err(_) => Err(AllocError),
        Ok(mut host) => {
            let answers = after_a_fault(&mut host);
            host.close();
            Ok(answers)
        }
    }
}

/// What was done before the fault stands, and a closed host changes nothing more.
#[test]
fn a_host_after_a_failed_write(rt: HostRuntime) {
    let answers = faulty(rt.alloc()).expect(&rt, "memory");
    same(
        &rt,
        "both",
        answers,
        [(Some(3), true, 1), (Some(0), true, 1)],
    );
}
