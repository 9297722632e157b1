//! A host that a program in C feeds, record by record.

ghost use Rattle.std.specs.Prelude.{◌≡◌, ◌≢◌, ◌<◌, ◌≤◌, ◌⊎◌, false, length, None, IfErr, IfOk, IfSome, IsSomeAnd, MatchResult};
ghost use Rattle.flight_core.specs.Compiled.{IsNotCompiled, sources_of};
ghost use Rattle.flight_core.specs.Feeding.{IsReady, boxes_on, feeding_of};
ghost use Rattle.flight_core.specs.Leaving.{LeavesForFront};
ghost use Rattle.flight_core.specs.Records.{front_of};
ghost use Rattle.c_interface.specs.Lasting.{lasting_meaning};
ghost use Rattle.c_interface.specs.Feeding.{AreFed, FedWasClosed, Feeds, HandlesInto, IsFed, IsMade, IsStocked, IsUnmade, code_of, too_small};
ghost use Rattle.c_interface.specs.Refusing.{unfit};
ghost use Rattle.c_interface.specs.Running.{IsNotRun, IsUnfit, IsUnscheduled};
ghost use Rattle.c_interface.specs.Said.{no_sentence};
ghost use Rattle.std.specs.List.{sum};
ghost use Rattle.c_interface.specs.Texts.{texts_in};

use crate::ending::{UNFIT, ending_in_numbers, no_schedule, not_run};
use crate::error_sentences::{of_lengths, of_no_memory, of_run, of_schedule};
use crate::handle::{Fed, Handle, handle_of, take_fed};
use crate::lasting::{LastingBox, own_lasting_stock};
use crate::refusal::{NO_MEMORY, Refusal, none};
use crate::room::{Room, Size};
use crate::sentence::Sentence;
use crate::texts::{are_lengths, texts_in};
use flight_core::{FedHost, Halt, RunError};
use schedules::{Schedule, parse_schedule};
use std::alloc::Global;
use std::marker::Brand;
use std::mem::ManuallyDrop;

/// The code if no whole record is held.
pub const NONE_HELD: u32 = 250;

/// The code if the output is smaller than the host's room.
pub const TOO_SMALL: u32 = 249;

/// The result of making a host, as C sees it: why it isn't made, in numbers and for people.
#[repr(C)]
#[derive(Clone, Copy)]
pub struct Made {
    /// Why the host isn't made; code 0 if it is made.
    pub refusal: Refusal,
    /// The refusal for people; empty if the host is made.
    pub sentence: Sentence,
}

/// The result of feeding a host, as C sees it.
#[repr(C)]
#[derive(Clone, Copy)]
pub struct Handled {
    /// 0: a record was handled; 141: what comes next is no record; 144: it leads to more than the room takes; 249: `TOO_SMALL`;
    /// 250: `NONE_HELD`.
    pub code: u32,
    /// How many of the given bytes were taken.
    pub taken: u64,
    /// How many bytes of the output were written.
    pub written: u64,
}

// ---- a host is made

/// Creates a host of these texts with this profile's stock, and its room.
fn fed_of(
    alloc: Global,
    texts: &[&[u8]],
    schedule: &Schedule,
    size: usize,
) -> Result<Box<Fed>, RunError>
    ensures made { IfOk result (λ fed.
        IsStocked (sources_of texts.now) schedule.now size fed.value) }
    ensures ready { IfOk result (λ fed. IsFed fed.value) }
    ensures refused { IfErr result (IsNotCompiled (sources_of texts.now)) }
{
    let (stock, places) = own_lasting_stock(alloc, schedule)?;
    let Ok(room) = Vec::from_elem(alloc, 0u8, size) else {
        return Err(RunError::Memory);
    };
    let host = FedHost::new(alloc, texts, stock)?;
    let fed = Fed {
        host: unsafe { ManuallyDrop::new_unchecked(host) },
        room,
        places,
        written: 0,
    };
    match Box::new(alloc, fed) {
        Ok(fed) => Ok(fed),
        Err(refused) => {
            close_fed(refused.value);
            Err(RunError::Memory)
        }
    }
}

/// The result where no host is made.
fn unmade(refusal: Refusal, sentence: Sentence) -> Made
    ensures refusal { result.refusal ≡ refusal }
    ensures sentence { result.sentence ≡ sentence }
{
    Made { refusal, sentence }
}

/// Creates a host of these texts and of what the schedule's text says. The error is what C is given.
fn fed_by_text(
    alloc: Global,
    texts: &[&[u8]],
    schedule: &[u8],
    size: usize,
) -> Result<Box<Fed>, Made>
    ensures made { IfOk result (λ fed.
        IsMade (sources_of texts.now) schedule.now size fed.value) }
    ensures ready { IfOk result (λ fed. IsFed fed.value) }
    ensures some { IfErr result (λ told. told.refusal.code ≢ 0) }
    ensures fit { IfErr result (λ told. told.refusal.code ≢ unfit) }
    ensures refused { IfErr result (λ told. IsUnscheduled schedule.now told.refusal told.sentence ⊎
        IsUnmade (sources_of texts.now) told.refusal told.sentence) }
{
    match parse_schedule(alloc, schedule) {
        Ok(slots) => match fed_of(alloc, texts, &slots, size) {
            Ok(fed) => Ok(fed),
            Err(error) => Err(unmade(ending_in_numbers(Err(error)), of_run(error))),
        },
        Err(error) => Err(unmade(no_schedule(error), of_schedule(error))),
    }
}

/// Creates a host of texts that lie one after the other. The error is what C is given.
fn fed_by_texts(
    alloc: Global,
    texts: &[u8],
    lengths: &[usize],
    schedule: &[u8],
    size: usize,
) -> Result<Box<Fed>, Made>
    ensures made { IfOk result (λ fed.
        IsMade (texts_in texts.now lengths.now) schedule.now size fed.value) }
    ensures ready { IfOk result (λ fed. IsFed fed.value) }
    ensures some { IfErr result (λ told. told.refusal.code ≢ 0) }
    ensures refused { IfErr result (λ told.
        IsNotRun texts.now lengths.now schedule.now told.refusal told.sentence ⊎
        IsUnmade (texts_in texts.now lengths.now) told.refusal told.sentence) }
    ensures unfit { sum lengths.now ≢ length texts.now →
        MatchResult result (λ _. ⊥) (λ told. IsUnfit told.refusal told.sentence) }
    ensures fit { IfErr result (λ told. told.refusal.code ≡ unfit →
        sum lengths.now ≢ length texts.now) }
{
    if !are_lengths(lengths, texts.len()) {
        return Err(unmade(not_run(UNFIT, 0), of_lengths()));
    }
    match texts_in(alloc, texts, lengths) {
        Ok(texts) => fed_by_text(alloc, texts.as_slice(), schedule, size),
        Err(_) => Err(unmade(not_run(NO_MEMORY, 0), of_no_memory())),
    }
}

/// Makes a host of rule texts, which lie one after the other and have these lengths, with room for `size` bytes of output of
/// one record. Returns 0 or the number of the refusal. Condition: the handle holds nothing.
pub fn make_host(
    alloc: Global,
    texts: &[u8],
    lengths: &[usize],
    schedule: &[u8],
    size: usize,
    handle: &mut Handle,
    told: &mut Made,
) -> u32
    requires empty { handle.old.value ≡ None }
    ensures answered { result ≡ told.new.refusal.code }
    ensures made { result ≡ 0 → IsSomeAnd handle.new.value
        (IsMade (texts_in texts.now lengths.now) schedule.now size) }
    ensures ready { result ≡ 0 → IsSomeAnd handle.new.value IsFed }
    ensures unmade { result ≢ 0 → handle.new.value ≡ None }
    ensures why { result ≢ 0 →
        IsNotRun texts.now lengths.now schedule.now told.new.refusal told.new.sentence ⊎
        IsUnmade (texts_in texts.now lengths.now) told.new.refusal told.new.sentence }
    ensures unfit { sum lengths.now ≢ length texts.now →
        IsUnfit told.new.refusal told.new.sentence }
    ensures fit { result ≡ unfit → sum lengths.now ≢ length texts.now }
    ensures silent { result ≡ 0 → told.new.sentence ≡ no_sentence }
{
    match fed_by_texts(alloc, texts, lengths, schedule, size) {
        Ok(fed) => {
            *handle = handle_of(fed);
            *told = unmade(none(), Sentence::none());
            0
        }
        Err(why) => {
            *told = why;
            why.refusal.code
        }
    }
}

// ---- it is fed

/// Handles the record in front; its output goes through the room to the front of `output`. Returns what came of the record,
/// and how many bytes were written.
fn handle_into<S: Size>(
    host: &mut FedHost<LastingBox>,
    room: &mut [u8],
    output: &mut [u8],
) -> (Result<Option<u64>, Halt>, usize)
    requires ready { IsReady (feeding_of lasting_meaning host.old) }
    requires room { length room.old ≡ S.size }
    requires output { S.size ≤ length output.old }
    ensures ready { IsReady (feeding_of lasting_meaning host.new) }
    ensures one { HandlesInto (feeding_of lasting_meaning host.old) (feeding_of lasting_meaning host.new)
        output.new S.size result.1 result.0 }
    ensures within { result.1 ≤ length output.new }
    ensures gone { (feeding_of lasting_meaning host.old).host.is_closed ≡ false →
        LeavesForFront lasting_meaning (boxes_on host.old) (feeding_of lasting_meaning host.old).host
        (front_of (feeding_of lasting_meaning host.old).held) }
{
    let mut writer = Room::<S>::new(room);
    let answer = host.handle(&mut writer);
    let bytes = writer.bytes();
    let written = bytes.len();
    output[..written].copy_from_slice(bytes);
    (answer, written)
}

/// The code of what came of a record.
fn in_number(answer: Result<Option<u64>, Halt>) -> u32
    ensures { result ≡ code_of answer }
{
    match answer {
        Ok(Some(_)) => 0,
        Ok(None) => NONE_HELD,
        Err(Halt::NoRecord) => 141,
        Err(_) => 144,
    }
}

/// Takes bytes, and handles the record in front. Condition: the output is no smaller than the room.
fn feed_fed(fed: &mut Fed, bytes: &[u8], output: &mut [u8]) -> Handled
    requires ready { IsFed fed.old }
    requires fits { length fed.old.room.items ≤ length output.old }
    ensures fed { Feeds bytes.now output.new fed.old fed.new result }
    ensures within { result.written ≤ length output.new }
{
    let taken = fed.host.feed(bytes) as u64;
    let room = fed.room.as_mut_slice();
    let (answer, written) = handle_into::<Brand>(&mut fed.host, room, output);
    fed.written = fed.written.saturating_add(written as u64);
    Handled {
        code: in_number(answer),
        taken,
        written: written as u64,
    }
}

/// Takes as many bytes of the stream as there is room for after those that are held, handles the record in front if it is
/// whole, and returns what came of it. If the output is smaller than the host's room, it is refused and nothing is done.
/// Condition: the handle holds a host.
pub fn feed_host(handle: &mut Handle, bytes: &[u8], output: &mut [u8], told: &mut Handled) -> u32
    requires there { IsSomeAnd handle.old.value IsFed }
    ensures answered { result ≡ told.new.code }
    ensures ready { IsSomeAnd handle.new.value IsFed }
    ensures fed { result ≢ too_small →
        AreFed bytes.now output.new told.new handle.old.value handle.new.value }
    ensures small { result ≡ too_small →
        (handle.new.value ≡ handle.old.value) × (output.new ≡ output.old) }
    ensures smaller { result ≡ too_small → IsSomeAnd handle.old.value
        (λ fed. length output.old < length fed.room.items) }
    ensures refused { IsSomeAnd handle.old.value
        (λ fed. length output.old < length fed.room.items → result ≡ too_small) }
    ensures untaken { result ≡ too_small → (told.new.taken ≡ 0) × (told.new.written ≡ 0) }
    ensures within { told.new.written ≤ length output.new }
{
    let fed = handle.lend();
    if output.len() < fed.room.len() {
        *told = Handled {
            code: TOO_SMALL,
            taken: 0,
            written: 0,
        };
        return TOO_SMALL;
    }
    *told = feed_fed(fed, bytes, output);
    told.code
}

// ---- it is closed

/// Retires all applications that run, and gives all memory back. Condition: the handle holds a host; it holds nothing
/// afterwards.
pub fn close_host(alloc: Global, handle: &mut Handle)
    requires { IsSomeAnd handle.old.value IsFed }
    ensures empty { handle.new.value ≡ None }
    ensures closed { IfSome handle.old.value FedWasClosed }
{
    let fed = take_fed(handle, alloc);
    close_all(fed);
}

fn close_all(fed: Box<Fed>)
    requires { IsFed fed.value }
    ensures { FedWasClosed fed.value }
{
    close_fed(Box::into_inner(fed));
}

fn close_fed(fed: Fed)
    requires { IsFed fed }
    ensures { FedWasClosed fed }
{
    let Fed {
        host,
        room: _,
        places: _,
        written: _,
    } = fed;
    ManuallyDrop::into_inner(host).close();
}
