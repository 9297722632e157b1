//! A host whose stream the caller feeds in pieces, and which handles one record a call.

ghost use Rattle.std.specs.Prelude.{◌≡◌, ◌≤◌, false, true, length, IfErr, IfOk};
ghost use Rattle.lc_model.specs.Device.{NoWriteRetried};
ghost use Rattle.app_host.specs.Hosted.{objects_in, shown};
ghost use Rattle.app_host.specs.Left.{WasClosed};
ghost use Rattle.app_host.specs.Whole.{AreSpares};
ghost use Rattle.flight_core.specs.Capacities.{fed_capacities};
ghost use Rattle.flight_core.specs.Compiled.{IsNotCompiled, sources_of};
ghost use Rattle.flight_core.specs.Feeding.{HandlesOne, HasBegun, IsReady, boxes_on, fed_by, fed_with, feeding_of};
ghost use Rattle.flight_core.specs.Leaving.{LeavesForFront};
ghost use Rattle.flight_core.specs.Records.{front_of, most_held, taken_of};

use crate::capacities::FedCapacities;
use crate::compiling::compile_all;
use crate::error::RunError;
use crate::halt::Halt;
use crate::handling::handle_next;
use crate::records::Records;
use app_host::{App, Host};
use lc_model::{ByteSink, Seat};
use rpn_compiler::TablePair;
use std::alloc::Global;

/// A host, the unread bytes of its stream, and the table files of its rule texts. Contracts see it as `Feeding`. It has no `Drop`:
/// whoever has one has to `close` it.
pub struct FedHost<B: App = Box<dyn App>> {
    host: Host<B>,
    records: Records,
    pairs: Vec<TablePair>,
}

impl<B: App> FedHost<B> {
    /// Compiles the rule texts, and creates a host with these applications as spares and an empty stream. It allocates all memory
    /// that it ever needs.
    ///
    /// Condition: none of the applications holds a seat.
    ///
    /// Errors: `Compile` with the first text that does not compile, numbered from 0, and `Memory`.
    pub fn new(alloc: Global, texts: &[&[u8]], stock: Vec<B>) -> Result<FedHost<B>, RunError>
        requires { AreSpares (objects_in B.meaning stock.items) }
        ensures begun { IfOk result (λ fed. HasBegun (sources_of texts.now)
            (objects_in B.meaning stock.items) (feeding_of B.meaning fed)) }
        ensures ready { IfOk result (λ fed. IsReady (feeding_of B.meaning fed)) }
        ensures boxes { IfOk result (λ fed. fed.host.stock ≡ stock) }
        ensures refused { IfErr result (IsNotCompiled (sources_of texts.now)) }
    {
        let pairs = compile_all(alloc, texts)?;
        let records = Records::new(alloc, pairs.len())?;
        match Host::new(alloc, stock) {
            Ok(host) => Ok(FedHost {
                host,
                records,
                pairs,
            }),
            Err(_) => Err(RunError::Memory),
        }
    }

    /// Appends the start of `piece` to the unread bytes, as much as leaves at most 73,739 of them (a longest record and a piece
    /// of 8,192 bytes), and returns the number of bytes taken. After a bad record it takes none.
    pub fn feed(&mut self, piece: &[u8]) -> usize
        requires ready { IsReady (feeding_of B.meaning self.old) }
        ensures ready { IsReady (feeding_of B.meaning self.new) }
        ensures taken { result ≡ length (taken_of (feeding_of B.meaning self.old).held piece.now) }
        ensures fed { feeding_of B.meaning self.new ≡
            fed_with piece.now (feeding_of B.meaning self.old) }
        ensures boxes { boxes_on self.new ≡ boxes_on self.old }
    {
        self.records.feed(piece)
    }

    /// Handles the next record and writes its output, and returns the number of bytes written; `None` if the unread bytes have no
    /// whole record. A failed write closes the host, which then handles no more records.
    ///
    /// Errors: `NoRecord` if the next record is bad, at this and each later call; `Unsent` with the number of the record's bytes
    /// that were written before a write failed, 0 if the host was already closed.
    pub fn handle<W: ByteSink>(&mut self, writer: &mut W) -> Result<Option<u64>, Halt>
        requires ready { IsReady (feeding_of B.meaning self.old) }
        ensures ready { IsReady (feeding_of B.meaning self.new) }
        ensures one { HandlesOne (feeding_of B.meaning self.old) (feeding_of B.meaning self.new)
            (W.sink writer.old) (W.sink writer.new) result }
        ensures not_retried { NoWriteRetried (W.sink writer.old) (W.sink writer.new) }
        ensures gone { (feeding_of B.meaning self.old).host.is_closed ≡ false →
            LeavesForFront B.meaning (boxes_on self.old) (feeding_of B.meaning self.old).host
            (front_of (feeding_of B.meaning self.old).held) }
    {
        handle_one(
            &mut self.records,
            self.pairs.as_slice(),
            &mut self.host,
            writer,
        )
    }

    /// The bytes, header and body, of the record that was handled last; empty after the next piece.
    pub fn last_record(&self) -> &[u8]
        ensures { result.now ≡ (feeding_of B.meaning self.now).held.last }
    {
        self.records.last_record()
    }

    /// The number of unread bytes, at most 73,739.
    pub fn held_size(&self) -> usize
        ensures held { result ≡ length (feeding_of B.meaning self.now).held.bytes }
        ensures few { length (feeding_of B.meaning self.now).held.bytes ≤ most_held }
    {
        self.records.held()
    }

    /// The number of records handled, up to 2^64 - 1, with the one in which a write failed.
    pub fn records(&self) -> u64
        ensures { result ≡ (feeding_of B.meaning self.now).held.count }
    {
        self.records.count()
    }

    /// The capacities of the stream's buffer and of the host's lists; of those by seat, this seat's. No call changes them.
    pub fn capacities(&self, seat: Seat) -> FedCapacities
        ensures { result ≡ fed_capacities }
    {
        FedCapacities {
            host: self.host.capacities(seat),
            stream: self.records.capacity(),
        }
    }

    /// The compiled table files of the rule texts, in order.
    pub fn files(&self) -> &[TablePair]
        ensures { result.now ≡ (feeding_of B.meaning self.now).files }
    {
        &self.pairs[..]
    }

    /// The host, as the records so far have left it.
    pub fn host(&self) -> &Host<B>
        ensures { shown B.meaning result.now ≡ (feeding_of B.meaning self.now).host }
    {
        &self.host
    }

    /// Retires all applications that run, and drops all applications.
    pub fn close(self)
        requires { IsReady (feeding_of B.meaning self) }
        ensures closed { WasClosed B.meaning (feeding_of B.meaning self).host }
    {
        let FedHost {
            host,
            records: _,
            pairs: _,
        } = self;
        host.close();
    }
}

/// Handles the next record, if there is a whole one and the host is open.
fn handle_one<W: ByteSink, B: App>(
    records: &mut Records,
    pairs: &[TablePair],
    host: &mut Host<B>,
    writer: &mut W,
) -> Result<Option<u64>, Halt>
    requires ready { IsReady (fed_by (shown B.meaning host.old) records.old pairs.now) }
    ensures ready { IsReady (fed_by (shown B.meaning host.new) records.new pairs.now) }
    ensures one { HandlesOne (fed_by (shown B.meaning host.old) records.old pairs.now)
        (fed_by (shown B.meaning host.new) records.new pairs.now) (W.sink writer.old)
        (W.sink writer.new) result }
    ensures not_retried { NoWriteRetried (W.sink writer.old) (W.sink writer.new) }
    ensures gone { (shown B.meaning host.old).is_closed ≡ false → LeavesForFront B.meaning
        host.old.seats (shown B.meaning host.old) (front_of records.old) }
{
    if host.is_closed() {
        return Err(Halt::Unsent(0));
    }
    handle_next(records, pairs, host, writer)
}
