//! The delivery of packets, one at a time, each followed by a write.

ghost use Rattle.std.specs.Prelude.{◌≡◌, ◌+◌, ◌≤◌, length, Some};
ghost use Rattle.lc_model.specs.Kept.Executive.{ready_seat, most_deliveries};
ghost use Rattle.lc_model.specs.Services.Bus.{seen};
ghost use Rattle.app_host.specs.Hosted.{shown};
ghost use Rattle.app_host.specs.Whole.{IsWhole, AreSeated};
ghost use Rattle.app_host.specs.Load.{IsLight, load};
ghost use Rattle.app_host.specs.Delivered.{HasDelivered};
ghost use Rattle.app_host.specs.Writing.{IsFlushed, IsSent, most_sent};

use crate::app::App;
use crate::error::WriteFault;
use crate::host::Host;
use crate::places::give_at;
use lc_model::{ByteSink, Seat, write_all};

impl<B: App> Host<B> {
    /// Lets the object on a seat handle the oldest packet of its pipe, and returns the next seat with a packet. Condition: the
    /// seat is the least one with a packet.
    #[inline(never)]
    pub(crate) fn deliver(&mut self, seat: Seat) -> Option<Seat>
        requires whole { IsWhole (shown B.meaning self.old) }
        requires light { IsLight (seen self.old.services.bus) }
        requires few { self.old.calls + load (seen self.old.services.bus) ≤ most_deliveries }
        requires ready { ready_seat (seen self.old.services.bus) ≡ Some seat }
        ensures delivered { HasDelivered seat
            (shown B.meaning self.old) (shown B.meaning self.new) }
        ensures next { result ≡ ready_seat (seen self.new.services.bus) }
    {
        let size = self
            .services
            .bus
            .receive(seat, &mut self.packet)
            .unwrap()
            .unwrap();
        // For the proof: tables and files are within their bounds, and no name is used twice.
        self.services.tables.is_service();
        give_at(
            &mut self.seats,
            seat,
            &mut self.services,
            &self.packet[..size],
        );
        // The same holds after the call.
        self.services.tables.is_service();
        self.calls += 1;
        self.services.bus.least_ready()
    }

    /// Writes the waiting output, after `sent` bytes of this step, and returns the number of bytes written in this step. A
    /// failed write closes the host. Most records leave no output; then no further call is made.
    #[inline(always)]
    pub(crate) fn flush<W: ByteSink>(&mut self, out: &mut W, sent: u64) -> Result<u64, WriteFault>
        requires seated { AreSeated (shown B.meaning self.old).seats
            (shown B.meaning self.old).services }
        requires room { sent + length self.old.services.outgoing ≤ most_sent }
        ensures flushed { IsFlushed (shown B.meaning self.old) (shown B.meaning self.new) }
        ensures sent { IsSent sent (shown B.meaning self.old) (shown B.meaning self.new)
            (W.sink out.old) (W.sink out.new) result }
    {
        if self.services.outgoing.is_empty() {
            return Ok(sent);
        }
        self.write_waiting(out, sent)
    }

    /// Writes the waiting output, even if it is empty, after `sent` bytes of this step, as `flush` does.
    #[inline(always)]
    fn write_waiting<W: ByteSink>(&mut self, out: &mut W, sent: u64) -> Result<u64, WriteFault>
        requires seated { AreSeated (shown B.meaning self.old).seats
            (shown B.meaning self.old).services }
        requires room { sent + length self.old.services.outgoing ≤ most_sent }
        ensures flushed { IsFlushed (shown B.meaning self.old) (shown B.meaning self.new) }
        ensures sent { IsSent sent (shown B.meaning self.old) (shown B.meaning self.new)
            (W.sink out.old) (W.sink out.new) result }
    {
        // For the proof: tables and files are within their bounds, and no name is used twice.
        self.services.tables.is_service();
        let waiting = self.services.outgoing.as_slice();
        let size = waiting.len() as u64;
        let written = write_all(out, waiting);
        self.services.outgoing.clear();
        match written {
            Ok(()) => Ok(sent + size),
            Err(taken) => {
                self.closed = true;
                Err(WriteFault {
                    sent: sent + taken as u64,
                })
            }
        }
    }
}
