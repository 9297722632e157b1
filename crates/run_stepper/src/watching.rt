//! The one loop over a stream: it reads pieces, handles record by record, and shows each to an observer.

ghost use Rattle.std.specs.Prelude.{◌≡◌, ◌+◌, ◌<◌, ◌≤◌, ◌^◌, [], IfOk, false, length, take, true};
ghost use Rattle.flight_core.specs.Records.{piece_size};
ghost use Rattle.run_stepper.specs.Stepping.{GoesOn, HandlesAlone, IsAtRest, host_in, written_by};
ghost use Rattle.run_stepper.specs.Watching.{Arrives, IsNew, SeesMore, Took, Watched, ending_at};

use crate::ending::Ending;
use crate::handled::Handled;
use crate::observer::Observer;
use crate::stepping::Stepping;
use crate::watch_error::WatchError;
use flight_core::laws::{records_are_handed_out, the_rest_says_the_end};
use lc_model::stream::PIECE;
use lc_model::{ByteSource, DeviceFault};
use std::alloc::Global;

/// Reads a piece into the front of `room`, shows it to the observer, and returns its length in bytes; 0 at the stream's end. Error:
/// `Read` if the read fails.
fn read_piece<R: ByteSource, O: Observer>(
    is_ended: &mut bool,
    room: &mut [u8],
    reader: &mut R,
    observer: &mut O,
) -> Result<usize, WatchError>
    requires some { 0 < length room.old }
    requires open { is_ended.old ≡ false }
    ensures room { length room.new ≡ length room.old }
    ensures fits { IfOk result (λ count. count ≤ length room.old) }
    ensures took { IfOk result (λ count. Took (R.source reader.old).rest (R.source reader.new).rest
        is_ended.old is_ended.new (take count room.new)) }
    ensures ended { IfOk result (λ count. count ≡ 0 → is_ended.new ≡ true) }
    ensures sees { IfOk result (λ count. SeesMore O.has_seen observer.old observer.new
        (take count room.new)) }
{
    match reader.read(room) {
        Ok(count) => {
            observer.read(&room[..count]);
            *is_ended = count == 0;
            Ok(count)
        }
        Err(DeviceFault) => Err(WatchError::Read),
    }
}

/// Handles the next record of a stream, after as many pieces as it needs. It returns `Part` only at the stream's end. `is_ended`
/// is true once the stream's end was reached. Errors: `Memory`; `Read` if a read fails.
fn handle_next<R: ByteSource, O: Observer>(
    stepping: &mut Stepping,
    is_ended: &mut bool,
    room: &mut [u8],
    reader: &mut R,
    observer: &mut O,
) -> Result<Handled, WatchError>
    requires rest { IsAtRest stepping.old }
    requires goes_on { GoesOn (host_in stepping.old) }
    requires room { length room.old ≡ piece_size }
    ensures rest { IsAtRest stepping.new }
    ensures room { length room.new ≡ piece_size }
    ensures arrives { IfOk result (Arrives O.has_seen (R.source reader.old).rest
        (R.source reader.new).rest is_ended.old is_ended.new observer.old observer.new
        (host_in stepping.old) (host_in stepping.new) (written_by stepping.new)) }
{
    loop {
        match handle(stepping)? {
            Handled::Whole => return Ok(Handled::Whole),
            Handled::NoRecord => return Ok(Handled::NoRecord),
            Handled::Part => {
                if *is_ended {
                    return Ok(Handled::Part);
                }
                let count = read_piece(is_ended, room, reader, observer)?;
                let _taken = stepping.feed(&room[..count]);
            }
        }
    }
}

/// Handles the next record, if a whole one is held. The only error is `Memory`.
fn handle(stepping: &mut Stepping) -> Result<Handled, WatchError>
    requires rest { IsAtRest stepping.old }
    ensures rest { IsAtRest stepping.new }
    ensures alone { GoesOn (host_in stepping.old) → IfOk result
        (HandlesAlone (host_in stepping.old) (host_in stepping.new) (written_by stepping.new)) }
{
    match stepping.handle() {
        Ok(handled) => Ok(handled),
        Err(_) => Err(WatchError::Memory),
    }
}

/// How a stream ended: after `records` whole records, or inside the next one.
fn ending_at_end(stepping: &Stepping, records: u64) -> Ending
    requires { records + 1 < 2 ^ 64 }
    ensures { result ≡ ending_at (host_in stepping.now).held.bytes records }
{
    if stepping.held_size() == 0 {
        return Ending::Whole { records };
    }
    Ending::Cut { n: records + 1 }
}

/// Runs over a stream as `watch` does, with this room for its pieces.
fn watch_in<R: ByteSource, O: Observer>(
    stepping: &mut Stepping,
    room: &mut [u8],
    reader: &mut R,
    observer: &mut O,
) -> Result<Ending, WatchError>
    requires rest { IsAtRest stepping.old }
    requires new { IsNew (host_in stepping.old) }
    requires room { length room.old ≡ piece_size }
    ensures rest { IsAtRest stepping.new }
    ensures watched { O.has_seen observer.old observer.old [] [] → IfOk result
        (Watched (host_in stepping.old) (R.source reader.old).rest (R.source reader.new).rest
        (O.has_seen observer.old observer.new)) }
{
    records_are_handed_out();
    the_rest_says_the_end();
    let mut is_ended = false;
    let mut number = 0u64;
    for _ in 0..u64::MAX {
        let next = number + 1;
        match handle_next(stepping, &mut is_ended, room, reader, observer)? {
            Handled::Whole => {}
            Handled::NoRecord => return Ok(Ending::NoRecord { n: next }),
            Handled::Part => return Ok(ending_at_end(stepping, number)),
        }
        observer.show(stepping)?;
        number = next;
    }
    Err(WatchError::Bound)
}

/// Runs over a stream with a host to which nothing has come, and shows each record to the observer, once and in order, up to the
/// stream's end or the first bytes that are no record. The stream is read in pieces of at most 8,192 bytes, and at most 73,739
/// bytes of it are held. Returns how the stream ended.
///
/// Errors: `Memory`; `Read` if a read fails; `Write` from the observer; `Bound` if there are more records than 64 bits count.
pub fn watch<R: ByteSource, O: Observer>(
    alloc: Global,
    stepping: &mut Stepping,
    reader: &mut R,
    observer: &mut O,
) -> Result<Ending, WatchError>
    requires rest { IsAtRest stepping.old }
    requires new { IsNew (host_in stepping.old) }
    ensures rest { IsAtRest stepping.new }
    ensures watched { O.has_seen observer.old observer.old [] [] → IfOk result
        (Watched (host_in stepping.old) (R.source reader.old).rest (R.source reader.new).rest
        (O.has_seen observer.old observer.new)) }
{
    let mut room = vec![in alloc; 0; PIECE]?;
    watch_in(stepping, room.as_mut_slice(), reader, observer)
}
