//! Commands to the executive services (cFE user's guide, executive services): applications start, stop, and are replaced.

ghost use Rattle.std.specs.Prelude.{◌≡◌, ◌≤◌, ◌<◌, ℕ, length, Ok, Err, IfOk, IfErr, IfSome};
ghost use Rattle.lc_model.specs.Packet.{function_code, payload, command_header_size};
ghost use Rattle.lc_model.specs.Command.{Start, Stop, Restart, Reload, app_command};
ghost use Rattle.lc_model.specs.Kept.Executive as kept;
ghost use Rattle.lc_model.specs.Kept.Executive.{seat_count, executive_service_now};
ghost use Rattle.lc_model.specs.Services.Interface.{outgoing_room};
ghost use Rattle.app_host.specs.Shared.{on_board};
ghost use Rattle.app_host.specs.Boxes.{BoxHasGone};
ghost use Rattle.app_host.specs.Hosted.{shown};
ghost use Rattle.app_host.specs.Whole.{AreSeated, AreSpares, IsWhole, IsQuiet};
ghost use Rattle.app_host.specs.Delivered.{executive_in};
ghost use Rattle.app_host.specs.Roster.{roster_of, seat_in, free_in, first_spare_in, ordered_by, succession_by};
ghost use Rattle.app_host.specs.Party.{ordered, party_by};
ghost use Rattle.app_host.specs.Response.{obeying_orders, RespondsCounted};
ghost use Rattle.app_host.specs.Ordered.{order_of, named_by, outcome_of, Prepares, MakesWay, PreparesFor, MakesWayFor, MayFollow, ComesIn, Enters, next_of, ObeysOrders};

use crate::app::App;
use crate::error::{HostError, WriteFault};
use crate::host::Host;
use crate::numbers::{Numbers, of_host};
use crate::objects::{free_seat, seat_of, spare_of};
use crate::succession::Successor;
use crate::texts::{self, Service};
use lc_model::packet::function_code;
use lc_model::{ByteSink, EventKind, Seat, name_in};

/// An executive command.
#[derive(Clone, Copy)]
pub(crate) enum Order {
    Start,
    Stop,
    Restart,
    Reload,
}

/// An order with its application's name, which has 20 bytes in the payload.
fn read_name(order: Order, payload: &[u8]) -> Result<(Order, &[u8]), Numbers>
    ensures read { IfOk result
        (λ command. named_by order payload.now ≡ Ok (order_of command.0, command.1.now)) }
    ensures refused { IfErr result (λ numbers. named_by order payload.now ≡ Err numbers) }
{
    if payload.len() != 20 {
        return Err(Numbers::one(152));
    }
    Ok((order, name_in(payload)))
}

/// The order of a command. It is refused with 151 for its code, and then with 152 for its length.
fn read_order(packet: &[u8]) -> Result<(Order, &[u8]), Numbers>
    requires { command_header_size ≤ length packet.now }
    ensures read { IfOk result
        (λ command. app_command (function_code packet.now) (payload packet.now) ≡
        Ok (order_of command.0, command.1.now)) }
    ensures refused { IfErr result
        (λ numbers. app_command (function_code packet.now) (payload packet.now) ≡ Err numbers) }
{
    let payload = &packet[8..];
    match function_code(packet) {
        1 => read_name(Order::Start, payload),
        2 => read_name(Order::Stop, payload),
        3 => read_name(Order::Restart, payload),
        4 => read_name(Order::Reload, payload),
        _ => Err(Numbers::one(151)),
    }
}

/// The seat with this number, if there is one.
fn seat_numbered(number: Option<usize>) -> Option<Seat>
    requires { IfSome number (λ (n : ℕ). n < seat_count) }
    ensures { result ≡ number }
{
    match number {
        Some(n) => Some(Seat::new(n as u8)),
        None => None,
    }
}

impl<B: App> Host<B> {
    /// The seat of an application that runs.
    fn runs_at(&self, name: &[u8]) -> Option<Seat>
        requires seated { AreSeated (shown B.meaning self.now).seats
            (shown B.meaning self.now).services }
        ensures kept { result ≡
            kept.seat_of name.now (executive_in (shown B.meaning self.now)).seats }
        ensures own { result ≡ seat_in name.now (roster_of (shown B.meaning self.now)) }
    {
        seat_numbered(seat_of(&self.seats, name))
    }

    /// The least free seat.
    fn free(&self) -> Option<Seat>
        requires seated { AreSeated (shown B.meaning self.now).seats
            (shown B.meaning self.now).services }
        ensures kept { result ≡ kept.free_seat (executive_in (shown B.meaning self.now)).seats }
        ensures own { result ≡ free_in (roster_of (shown B.meaning self.now)) }
    {
        seat_numbered(free_seat(&self.seats))
    }

    /// The first spare of a name.
    fn first_spare(&self, name: &[u8]) -> Option<usize>
        ensures kept { result ≡
            kept.spare_of name.now (executive_in (shown B.meaning self.now)).stock }
        ensures own { result ≡ first_spare_in name.now (roster_of (shown B.meaning self.now)) }
    {
        spare_of(self.stock.as_slice(), name)
    }

    /// Prepares the first spare of a name for the least free seat. Refused, in this order, if an application of the name runs,
    /// if there is no spare, or if no seat is free.
    fn prepare_start(&self, name: &[u8]) -> Result<Successor<B>, HostError>
        requires whole { IsWhole (shown B.meaning self.now) }
        ensures prepared { Prepares B.meaning (ordered Start name.now)
            (outcome_of Start name.now (shown B.meaning self.now)) (shown B.meaning self.now)
            (shown B.meaning self.now) result }
        ensures own { MakesWay B.meaning (BoxHasGone B.meaning self.now.seats self.now.services)
            (ordered_by Start name.now (roster_of (shown B.meaning self.now)))
            (shown B.meaning self.now) (shown B.meaning self.now) result }
    {
        if self.runs_at(name).is_some() {
            return Err(HostError::AlreadyRunning);
        }
        let Some(place) = self.first_spare(name) else {
            return Err(HostError::NoSpare);
        };
        match self.free() {
            Some(seat) => Ok(Successor::Spare(place, seat)),
            None => Err(HostError::TooManyApps),
        }
    }

    /// Retires and drops the running application of the name. Refused if none runs.
    fn prepare_stop(&mut self, name: &[u8]) -> Result<Successor<B>, HostError>
        requires whole { IsWhole (shown B.meaning self.old) }
        ensures prepared { Prepares B.meaning (ordered Stop name.now)
            (outcome_of Stop name.now (shown B.meaning self.old)) (shown B.meaning self.old)
            (shown B.meaning self.new) result }
        ensures own { MakesWay B.meaning (BoxHasGone B.meaning self.old.seats self.old.services)
            (ordered_by Stop name.now (roster_of (shown B.meaning self.old)))
            (shown B.meaning self.old)
            (shown B.meaning self.new) result }
    {
        match self.runs_at(name) {
            None => Err(HostError::NoSuchApp),
            Some(seat) => {
                self.withdraw(seat);
                Ok(Successor::Nobody)
            }
        }
    }

    /// Retires the running application of the name, and prepares it for the same seat. Refused if none runs.
    fn prepare_restart(&mut self, name: &[u8]) -> Result<Successor<B>, HostError>
        requires whole { IsWhole (shown B.meaning self.old) }
        ensures prepared { Prepares B.meaning (ordered Restart name.now)
            (outcome_of Restart name.now (shown B.meaning self.old)) (shown B.meaning self.old)
            (shown B.meaning self.new) result }
        ensures own { MakesWay B.meaning (BoxHasGone B.meaning self.old.seats self.old.services)
            (ordered_by Restart name.now (roster_of (shown B.meaning self.old)))
            (shown B.meaning self.old) (shown B.meaning self.new) result }
    {
        match self.runs_at(name) {
            None => Err(HostError::NoSuchApp),
            Some(seat) => Ok(Successor::Same(self.withdraw(seat), seat)),
        }
    }

    /// Retires and drops the running application of the name, and prepares the first spare of the name for its seat. Refused,
    /// in this order, if none runs or if there is no spare.
    fn prepare_reload(&mut self, name: &[u8]) -> Result<Successor<B>, HostError>
        requires whole { IsWhole (shown B.meaning self.old) }
        ensures prepared { Prepares B.meaning (ordered Reload name.now)
            (outcome_of Reload name.now (shown B.meaning self.old)) (shown B.meaning self.old)
            (shown B.meaning self.new) result }
        ensures own { MakesWay B.meaning (BoxHasGone B.meaning self.old.seats self.old.services)
            (ordered_by Reload name.now (roster_of (shown B.meaning self.old)))
            (shown B.meaning self.old) (shown B.meaning self.new) result }
    {
        let Some(seat) = self.runs_at(name) else {
            return Err(HostError::NoSuchApp);
        };
        match self.first_spare(name) {
            None => Err(HostError::NoSpare),
            Some(place) => {
                self.withdraw(seat);
                Ok(Successor::Spare(place, seat))
            }
        }
    }

    /// Begins the order: the application that leaves its seat is retired. Returns the object that takes the seat next, or the
    /// refusal.
    fn prepare(&mut self, order: Order, name: &[u8]) -> Result<Successor<B>, HostError>
        requires whole { IsWhole (shown B.meaning self.old) }
        ensures prepared { Prepares B.meaning (ordered (order_of order) name.now)
            (outcome_of (order_of order) name.now (shown B.meaning self.old))
            (shown B.meaning self.old)
            (shown B.meaning self.new) result }
        ensures own { MakesWay B.meaning (BoxHasGone B.meaning self.old.seats self.old.services)
            (ordered_by (order_of order) name.now (roster_of (shown B.meaning self.old)))
            (shown B.meaning self.old) (shown B.meaning self.new) result }
    {
        match order {
            Order::Start => self.prepare_start(name),
            Order::Stop => self.prepare_stop(name),
            Order::Restart => self.prepare_restart(name),
            Order::Reload => self.prepare_reload(name),
        }
    }

    /// Prepares the order of a command. Returns the object that takes the seat next, or the numbers of the refusal.
    fn take_order(&mut self, packet: &[u8]) -> Result<Successor<B>, Numbers>
        requires whole { IsWhole (shown B.meaning self.old) }
        requires headers { command_header_size ≤ length packet.now }
        ensures prepared { PreparesFor B.meaning
            (party_by (app_command (function_code packet.now) (payload packet.now)))
            (executive_service_now on_board self.old.services.moment packet.now
            (executive_in (shown B.meaning self.old))) (shown B.meaning self.old)
            (shown B.meaning self.new) result }
        ensures own { MakesWayFor B.meaning (BoxHasGone B.meaning self.old.seats self.old.services)
            (succession_by packet.now (roster_of (shown B.meaning self.old)))
            (shown B.meaning self.old)
            (shown B.meaning self.new) result }
    {
        let (order, name) = read_order(packet)?;
        match self.prepare(order, name) {
            Ok(next) => Ok(next),
            Err(error) => Err(of_host(error)),
        }
    }

    /// Writes the waiting output, starts the next object on its seat, and writes its output. Returns the number of these bytes.
    fn come_in<W: ByteSink>(&mut self, next: Successor<B>, out: &mut W) -> Result<u64, WriteFault>
        requires seated { AreSeated (shown B.meaning self.old).seats
            (shown B.meaning self.old).services }
        requires spares { AreSpares (shown B.meaning self.old).stock }
        requires fits { length self.old.services.outgoing ≤ outgoing_room }
        requires may { MayFollow (shown B.meaning self.old) (next_of B.meaning next) }
        ensures comes { ComesIn (next_of B.meaning next) (shown B.meaning self.old)
            (shown B.meaning self.new) (W.sink out.old) (W.sink out.new) result }
        ensures own { Enters (next_of B.meaning next) (shown B.meaning self.old)
            (shown B.meaning self.new) (W.sink out.old).gained (W.sink out.new).gained result }
    {
        let sent = self.flush(out, 0)?;
        self.bring_in(next);
        let total = self.flush(out, sent)?;
        Ok(total)
    }

    /// Executes or refuses a command to the executive services. The applications' output is written, and then `HOST`'s event.
    #[inline(never)]
    pub(crate) fn obey_orders<W: ByteSink>(
        &mut self,
        packet: &[u8],
        out: &mut W,
    ) -> Result<u64, WriteFault>
        requires whole { IsWhole (shown B.meaning self.old) }
        requires quiet { IsQuiet (shown B.meaning self.old) }
        requires none_yet { self.old.calls ≡ 0 }
        requires headers { command_header_size ≤ length packet.now }
        ensures handled { ObeysOrders packet.now
            (shown B.meaning self.old) (shown B.meaning self.new)
            (W.sink out.old) (W.sink out.new) result }
        ensures own { RespondsCounted self.old.services.moment
            (obeying_orders packet.now (shown B.meaning self.old)
            (succession_by packet.now (roster_of (shown B.meaning self.old))))
            (shown B.meaning self.old) (shown B.meaning self.new) (W.sink out.old).gained
            (W.sink out.new).gained result }
        ensures gone { IfSome
            (obeying_orders packet.now (shown B.meaning self.old)
            (succession_by packet.now (roster_of (shown B.meaning self.old)))).leaves
            (BoxHasGone B.meaning self.old.seats self.old.services) }
    {
        match self.take_order(packet) {
            Ok(next) => {
                let sent = self.come_in(next, out)?;
                let text = texts::command_done(Service::Applications, function_code(packet));
                self.tell(8, EventKind::Information, &text);
                let total = self.flush(out, sent)?;
                Ok(total)
            }
            Err(numbers) => {
                let text = texts::command_refused(Service::Applications, numbers.as_slice());
                self.tell_alone(9, EventKind::Error, &text, out)
            }
        }
    }
}
