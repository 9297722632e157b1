//! A host plays a script.

ghost use Rattle.std.specs.Prelude.{◌≡◌, map, OnOk, None};
ghost use Rattle.app_host.specs.Hosted.{shown};
ghost use Rattle.app_host.specs.Whole.{AreSpares};
ghost use Rattle.app_host.specs.Step.{IsBetween};

use crate::hosting::{begin, end, step};
use crate::named::LetterApp;
use crate::output::says;
use crate::script::{Given, Output, ScriptLine, Spare};
use crate::speaking::Speaking;
use crate::tally::Tally;
use crate::tracked::Tracked;
use app_host::{App, Host, WriteFault};
use command_counter::Counter;
use lc_model::{Body, ByteSink, Limited};
use std::alloc::{AllocError, Global};

/// The most bytes that a record leads to.
const ROOM: usize = 2_048;

/// A command to the executive services, of this code, about this application.
fn order(code: u8, name: &[u8]) -> [u8; 28] {
    let mut packet = [0; 28];
    packet[..7].copy_from_slice(&[0x18, 0x06, 0xC0, 0, 0, 21, code]);
    for (place, byte) in packet[8..].iter_mut().zip(name) {
        *place = *byte;
    }
    packet
}

/// The host handles a record.
fn give<B: App, W: ByteSink>(
    host: &mut Host<B>,
    given: Given<'_>,
    out: &mut W,
) -> Result<(), WriteFault>
    requires { IsBetween (shown B.meaning host.old) }
    ensures { IsBetween (shown B.meaning host.new) }
{
    match given {
        Given::Tick => step(host, Body::Tick, out),
        Given::Packet(bytes) => step(host, Body::Packet(bytes), out),
        Given::Order(code, name) => {
            let bytes = order(code, name);
            step(host, Body::Packet(&bytes), out)
        }
    }
}

/// Whether a record leads to exactly this.
fn writes<B: App>(host: &mut Host<B>, given: Given<'_>, expected: &[Output<'_>]) -> bool
    requires { IsBetween (shown B.meaning host.old) }
    ensures { IsBetween (shown B.meaning host.new) }
{
    let mut room = [0; ROOM];
    let mut out = Limited::new(&mut room, ROOM);
    let answer = give(host, given, &mut out);
    answer.is_ok() && says(out.bytes(), expected)
}

/// Whether a write fails after `limit` bytes, and these are written.
fn is_cut<B: App>(host: &mut Host<B>, given: Given<'_>, limit: usize) -> bool
    requires { IsBetween (shown B.meaning host.old) }
    ensures { IsBetween (shown B.meaning host.new) }
{
    let mut room = [0; ROOM];
    let mut out = Limited::new(&mut room, limit.min(ROOM));
    let answer = give(host, given, &mut out);
    let sent = answer.err().map(|fault| fault.sent);
    sent == Some(limit as u64) && out.bytes().len() == limit
}

/// Whether a line holds: what a record leads to, or what is asked.
fn holds<B: App>(host: &mut Host<B>, tally: &Tally, line: ScriptLine<'_>) -> bool
    requires { IsBetween (shown B.meaning host.old) }
    ensures { IsBetween (shown B.meaning host.new) }
{
    match line {
        ScriptLine::Step(given, expected) => writes(host, given, expected),
        ScriptLine::Cut(given, limit) => is_cut(host, given, limit),
        ScriptLine::Runs(name, runs) => host.running(name) == runs,
        ScriptLine::Calls(count) => host.calls() == count,
        ScriptLine::Drops(count) => tally.drops() == count,
    }
}

/// Follows the lines in order. Returns the index of the first line that does not hold, or `None`.
fn follow<B: App>(host: &mut Host<B>, tally: &Tally, script: &[ScriptLine<'_>]) -> Option<usize>
    requires { IsBetween (shown B.meaning host.old) }
    ensures { IsBetween (shown B.meaning host.new) }
{
    for (number, line) in script.iter().enumerate() {
        if !holds(host, tally, *line) {
            return Some(number);
        }
    }
    None
}

/// Adds a spare. Condition: it holds no seat.
fn add(stock: &mut Vec<Box<dyn App>>, app: Box<dyn App>) -> Result<(), AllocError>
    requires spares { AreSpares (map meaning stock.old.items) }
    requires spare { (meaning app).seat ≡ None }
    ensures { OnOk result (AreSpares (map meaning stock.new.items)) }
{
    stock.push(app)?;
    Ok(())
}

/// A host with this stock plays the script, and is closed. Returns the index of the first line that does not hold; 0 if lack
/// of memory took one of the stock; the number of lines if an object was not dropped once, one that started was not retired as
/// often, or the close dropped one before another had retired; else `None`. Out of memory is the only error.
fn perform(
    alloc: Global,
    stock: Vec<Box<dyn App>>,
    tally: &Tally,
    script: &[ScriptLine<'_>],
) -> Result<Option<usize>, AllocError>
    requires { AreSpares (map meaning stock.items) }
{
    let spares = stock.len();
    let mut host = match begin(alloc, stock) {
        Ok(host) => host,
        Err((_, stock)) if stock.len() == spares => return Err(AllocError),
        Err(_) => return Ok(Some(0)),
    };
    let first = follow(&mut host, tally, script);
    let dropped = tally.drops();
    end(host);
    if first.is_none() && !tally.have_left(spares, dropped) {
        return Ok(Some(script.len()));
    }
    Ok(first)
}

/// Plays a script on a host with these spares.
pub fn plays(
    alloc: Global,
    spares: &[Spare],
    script: &[ScriptLine<'_>],
) -> Result<Option<usize>, AllocError> {
    let tally = Tally::new(alloc)?;
    let mut stock: Vec<Box<dyn App>> = Vec::new(alloc);
    for spare in spares {
        match *spare {
            Spare::Counting => {
                let counting = Tracked::new(Counter::new(), tally.share()?);
                add(&mut stock, Box::new(alloc, counting)?)?;
            }
            Spare::Publishing(number) => {
                let publishing = Tracked::new(LetterApp::new(number), tally.share()?);
                add(&mut stock, Box::new(alloc, publishing)?)?;
            }
            Spare::Speaking(number) => {
                let speaking = Tracked::new(Speaking::new(number), tally.share()?);
                add(&mut stock, Box::new(alloc, speaking)?)?;
            }
        }
    }
    perform(alloc, stock, &tally, script)
}
