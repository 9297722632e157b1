//! An application of this profile beside one of any other kind, in stock or on a seat.

ghost use Rattle.std.specs.Prelude.{◌≡◌, ◌∷◌, [], false, IfOk, None, OnOk, Some};
ghost use Rattle.std.specs.Io.KnownBytes.{Appends};
ghost use Rattle.lc_model.specs.Name.{counter_name};
ghost use Rattle.lc_model.specs.Packet.{counter_mid};
ghost use Rattle.lc_model.specs.Kept.Summary.{CounterState};
ghost use Rattle.app_host.specs.Delivered.{executive_in};
ghost use Rattle.app_host.specs.Hosted.{member_of, objects_in, shown};
ghost use Rattle.app_host.specs.Step.{IsBetween};
ghost use Rattle.app_host.specs.Party.{AreKnownHearers, IsKnownSpare};
ghost use Rattle.app_host.specs.Whole.{AreKnown, AreSpares};
ghost use Rattle.app_host_tests.specs.Beside.{counted_from, written_beside, written_from};

use app_host::{App, Host, WriteFault};
use lc_model::{Body, ByteSink, Moment, Record};
use std::alloc::{AllocError, Global};

/// The moment of both records.
const NOW: Moment = Moment {
    seconds: 100,
    subseconds: 0,
};

/// The order that starts the counter.
const START: &[u8] = &[
    0x18, 0x06, 0xC0, 0, 0, 21, 1, 0, 67, 79, 85, 78, 84, 69, 82, 0, 0, 0, 0, 0, 0, 0, 0, 0, 0, 0,
    0, 0,
];

/// The command that it counts.
const COUNT: &[u8] = &[0x18, 0xC1, 0xC0, 0, 0, 1, 1, 0];

/// A stock of a counter and an application of any kind after it. Condition: they hold no seats.
fn stock_of<B: App>(alloc: Global, counter: B, other: B) -> Result<Vec<B>, AllocError>
    requires counter { (B.meaning counter).seat ≡ None }
    requires other { (B.meaning other).seat ≡ None }
    ensures spares { IfOk result (λ stock. AreSpares (objects_in B.meaning stock.items)) }
    ensures items { IfOk result
        (λ stock. objects_in B.meaning stock.items ≡
        B.meaning counter ∷ B.meaning other ∷ []) }
{
    let mut stock: Vec<B> = Vec::new(alloc);
    stock.push(counter)?;
    stock.push(other)?;
    Ok(stock)
}

/// The host gives a command to the counter. What is written is what that calls for in the host in numbers, whatever other
/// applications are on its seats. Condition: those that hear the command are of this profile.
pub fn counts_among<B: App, W: ByteSink>(host: &mut Host<B>, out: &mut W) -> Result<(), WriteFault>
    requires between { IsBetween
        (shown B.meaning host.old) }
    requires open { (shown B.meaning
        host.old).is_closed ≡ false }
    requires hearers { AreKnownHearers
        (shown B.meaning host.old) counter_mid }
    ensures between { IsBetween
        (shown B.meaning host.new) }
    ensures written { let seen = shown B.meaning in
        OnOk result (Appends (W.sink out.old).gained (W.sink out.new).gained
        (counted_from (executive_in (seen host.old)))) }
{
    let count = Record {
        moment: NOW,
        body: Body::Packet(COUNT),
    };
    host.step(&count, out)
}

/// The host starts the counter and gives it a command. What is written is what both records call for in the host in numbers.
/// Conditions: the objects on the seats are of this profile, and so is the first spare that goes by the counter's name.
fn count<B: App, W: ByteSink>(host: &mut Host<B>, out: &mut W) -> Result<(), WriteFault>
    requires between { IsBetween
        (shown B.meaning host.old) }
    requires open { (shown B.meaning
        host.old).is_closed ≡ false }
    requires known { AreKnown
        (shown B.meaning host.old) }
    requires spare { IsKnownSpare (Some counter_name)
        (shown B.meaning host.old).stock }
    ensures between { IsBetween
        (shown B.meaning host.new) }
    ensures written { let seen = shown B.meaning in
        OnOk result (Appends (W.sink out.old).gained (W.sink out.new).gained
        (written_from (executive_in (seen host.old)))) }
{
    let start = Record {
        moment: NOW,
        body: Body::Packet(START),
    };
    host.step(&start, out)?;
    counts_among(host, out)
}

/// A host with a counter and an application of any kind in stock starts the counter, gives it a command, and is closed. It writes
/// exactly what both records call for in the host in numbers, whatever the other application is: that one stays in stock. Out of
/// memory is the outer error.
pub fn counts_beside<B: App, W: ByteSink>(
    alloc: Global,
    counter: Box<B>,
    other: Box<B>,
    out: &mut W,
) -> Result<Result<(), WriteFault>, AllocError>
    requires named { (B.meaning counter.value).called ≡ counter_name }
    requires counts { (B.meaning counter.value).state ≡ CounterState 0 }
    requires counter { (B.meaning counter.value).seat ≡ None }
    requires other { (B.meaning other.value).seat ≡ None }
    ensures { IfOk result
        (λ answer. OnOk answer
        (Appends (W.sink out.old).gained (W.sink out.new).gained
        (written_beside (member_of (B.meaning other.value))))) }
{
    let stock = stock_of(alloc, counter, other)?;
    match Host::new(alloc, stock) {
        Err(_) => Err(AllocError),
        Ok(mut host) => {
            let answer = count(&mut host, out);
            host.close();
            Ok(answer)
        }
    }
}
