//! Packets and ticks for applications.

ghost use Rattle.std.specs.Prelude.{◌≡◌, length, Some, None};
ghost use Rattle.lc_model.specs.Packet.{header_fault};
ghost use Rattle.lc_model.specs.Kept.Executive.{ready_seat, tick_packet, seat_count};
ghost use Rattle.lc_model.specs.Services.Bus.{seen};
ghost use Rattle.packet_bus.specs.Hearers.{only_hearer};
ghost use Rattle.app_host.specs.Hosted.{shown};
ghost use Rattle.app_host.specs.Whole.{IsWhole, IsQuiet};
ghost use Rattle.app_host.specs.Delivered.{HasDelivered};
ghost use Rattle.app_host.specs.HandedOver.{with_packet};
ghost use Rattle.app_host.specs.Writing.{PassesOn};
ghost use Rattle.app_host.specs.Response.{passing_on, RespondsCounted};

use crate::app::App;
use crate::error::WriteFault;
use crate::host::Host;
use crate::places::give_at;
use lc_model::{ByteSink, Seat};

/// A tick: a command to 0x18C0 without payload, of code 0.
const TICK: [u8; 8] = [0x18, 0xC0, 0xC0, 0, 0, 1, 0, 0xE6];

impl<B: App> Host<B> {
    /// Lets the object on a seat handle this packet without the bus, and returns the next seat with a packet. Conditions: no
    /// packet waits, and only that seat is subscribed to this packet's message id.
    #[inline(always)]
    fn hand_over(&mut self, seat: Seat, packet: &[u8]) -> Option<Seat>
        requires whole { IsWhole (shown B.meaning self.old) }
        requires quiet { IsQuiet (shown B.meaning self.old) }
        requires none_yet { self.old.calls ≡ 0 }
        requires good { header_fault packet.now ≡ None }
        requires only { only_hearer packet.now self.old.services.bus ≡ Some seat }
        requires eight { length self.old.services.bus ≡ seat_count }
        ensures delivered { HasDelivered seat (with_packet packet.now (shown B.meaning self.old))
            (shown B.meaning self.new) }
        ensures next { result ≡ ready_seat (seen self.new.services.bus) }
    {
        // For the proof: tables and files are within their bounds, and no name is used twice.
        self.services.tables.is_service();
        give_at(&mut self.seats, seat, &mut self.services, packet);
        // The same holds after the call.
        self.services.tables.is_service();
        self.calls += 1;
        self.services.bus.least_ready()
    }

    /// Publishes a packet and delivers all packets. If a single application is subscribed to it, it gets the packet directly:
    /// publishing it and taking it out of the pipe again would leave the bus as it is. The output of each call is written after
    /// the call. Returns the number of these bytes. Condition: the packet has no fault.
    #[inline(always)]
    pub(crate) fn pass_on<W: ByteSink>(
        &mut self,
        packet: &[u8],
        out: &mut W,
    ) -> Result<u64, WriteFault>
        requires whole { IsWhole (shown B.meaning self.old) }
        requires quiet { IsQuiet (shown B.meaning self.old) }
        requires none_yet { self.old.calls ≡ 0 }
        requires good { header_fault packet.now ≡ None }
        ensures handled { PassesOn packet.now (shown B.meaning self.old) (shown B.meaning self.new)
            (W.sink out.old) (W.sink out.new) result }
        ensures own { RespondsCounted self.old.services.moment
            (passing_on packet.now (shown B.meaning self.old))
            (shown B.meaning self.old) (shown B.meaning self.new) (W.sink out.old).gained
            (W.sink out.new).gained result }
    {
        // For the proof: tables and files are within their bounds, and no name is used twice.
        self.services.tables.is_service();
        let mut sent = 0;
        let mut next = match self.services.bus.only_hearer(packet) {
            Some(seat) => {
                let next = self.hand_over(seat, packet);
                sent = self.flush(out, 0)?;
                next
            }
            None => {
                self.services.bus.publish_judged(packet).unwrap();
                self.services.bus.least_ready()
            }
        };
        while let Some(seat) = next {
            next = self.deliver(seat);
            sent = self.flush(out, sent)?;
        }
        Ok(sent)
    }

    /// Publishes a tick, and delivers all packets.
    #[inline(never)]
    pub(crate) fn tick<W: ByteSink>(&mut self, out: &mut W) -> Result<u64, WriteFault>
        requires whole { IsWhole (shown B.meaning self.old) }
        requires quiet { IsQuiet (shown B.meaning self.old) }
        requires none_yet { self.old.calls ≡ 0 }
        ensures handled { PassesOn tick_packet (shown B.meaning self.old) (shown B.meaning self.new)
            (W.sink out.old) (W.sink out.new) result }
        ensures own { RespondsCounted self.old.services.moment
            (passing_on tick_packet (shown B.meaning self.old))
            (shown B.meaning self.old) (shown B.meaning self.new) (W.sink out.old).gained
            (W.sink out.new).gained result }
    {
        self.pass_on(&TICK, out)
    }
}
