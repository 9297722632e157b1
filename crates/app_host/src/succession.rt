//! Objects that are retired from their seats, and those that take them next.

ghost use Rattle.std.specs.Prelude.{◌≡◌, map, slice_set, IfSome, IsSomeAnd, IsSome, None, []};
ghost use Rattle.app_host.specs.Calls.{IsObject};
ghost use Rattle.app_host.specs.Boxes.{BoxHasGone};
ghost use Rattle.app_host.specs.Hosted.{Object, object_at, shown, object_in};
ghost use Rattle.app_host.specs.Objects.{MayStartOn, HasStarted, MayRetire, HasRetired};
ghost use Rattle.app_host.specs.Whole.{AreSeated, AreSpares};
ghost use Rattle.app_host.specs.Ordered.{MayBegin, MayFollow, ObjectHasBegun, HasFollowed, HasWithdrawn, next_of};

use crate::app::App;
use crate::host::Host;
use crate::objects::{retire, start};
use crate::services::Services;
use lc_model::Seat;

/// The object that takes a seat next.
#[derive(Drop)]
pub(crate) enum Successor<B: App> {
    Nobody,
    /// The spare at a place of the stock.
    Spare(usize, Seat),
    /// The object that was retired from the seat.
    Same(B, Seat),
}

/// States what holds of every object (`IsObject`).
fn is_object<B: App>(app: &B)
    ensures { IsObject (B.meaning app.now).state (B.meaning app.now).called }
{
    app.name();
}

/// Retires the object of a place and returns it. Condition: there is one.
fn withdraw_in<B: App>(place: &mut Option<B>, seat: Seat, services: &mut Services) -> B
    requires { IsSomeAnd (object_in B.meaning place.old) (MayRetire seat services.old) }
    ensures gone { place.new ≡ None }
    ensures left { IfSome (object_in B.meaning place.old)
        (λ o. HasRetired seat services.old services.new o (B.meaning result)) }
    ensures same { IfSome place.old
        (λ there. (B.meaning result).called ≡ (B.meaning there).called) }
{
    let mut app = place.take().unwrap();
    retire(&mut app, seat, services);
    app
}

/// Retires the object of a seat and returns it. Condition: there is one.
fn withdraw_at<B: App>(
    seats: &mut [Option<B>; Seat::COUNT],
    seat: Seat,
    services: &mut Services,
) -> B
    requires { IsSomeAnd (object_at seat (map (object_in B.meaning) seats.old))
        (MayRetire seat services.old) }
    ensures gone { map (object_in B.meaning) seats.new ≡
        slice_set (map (object_in B.meaning) seats.old) seat None }
    ensures left { IfSome (object_at seat (map (object_in B.meaning) seats.old))
        (λ o. HasRetired seat services.old services.new o (B.meaning result)) }
    ensures boxes { BoxHasGone B.meaning seats.old services.old seat }
{
    withdraw_in(&mut seats[seat.index()], seat, services)
}

/// Starts an object, and puts it into a place.
fn begin_in<B: App>(place: &mut Option<B>, seat: Seat, services: &mut Services, app: B)
    requires { MayStartOn seat services.old (B.meaning app) }
    ensures { IsSomeAnd (object_in B.meaning place.new)
        (HasStarted seat services.old services.new (B.meaning app)) }
{
    let mut app = app;
    start(&mut app, seat, services);
    *place = Some(app);
}

/// Starts an object on a seat.
fn begin_at<B: App>(
    seats: &mut [Option<B>; Seat::COUNT],
    seat: Seat,
    services: &mut Services,
    app: B,
)
    requires { MayStartOn seat services.old (B.meaning app) }
    ensures started { IsSomeAnd (object_at seat (map (object_in B.meaning) seats.new))
        (HasStarted seat services.old services.new (B.meaning app)) }
    ensures others { map (object_in B.meaning) seats.new ≡
        slice_set (map (object_in B.meaning) seats.old) seat
        (object_at seat (map (object_in B.meaning) seats.new)) }
{
    begin_in(&mut seats[seat.index()], seat, services, app);
}

impl<B: App> Host<B> {
    /// Retires the object of a seat and returns it. Condition: there is one.
    pub(crate) fn withdraw(&mut self, seat: Seat) -> B
        requires seated { AreSeated (shown B.meaning self.old).seats
            (shown B.meaning self.old).services }
        requires idle { self.old.services.outgoing ≡ [] }
        requires there { IsSome (object_at seat (shown B.meaning self.old).seats) }
        ensures withdrawn { HasWithdrawn seat (shown B.meaning self.old) (shown B.meaning self.new)
            (B.meaning result) }
        ensures boxes { BoxHasGone B.meaning self.old.seats self.old.services seat }
    {
        // For the proof: tables and files are within their bounds, and no name is used twice.
        self.services.tables.is_service();
        let app = withdraw_at(&mut self.seats, seat, &mut self.services);
        // The same holds after the call.
        self.services.tables.is_service();
        app
    }

    /// Starts an object on a free seat. Conditions: it holds no seat, and no seat has its name.
    fn begin(&mut self, seat: Seat, app: B)
        requires seated { AreSeated (shown B.meaning self.old).seats
            (shown B.meaning self.old).services }
        requires idle { self.old.services.outgoing ≡ [] }
        requires may { MayBegin seat (shown B.meaning self.old) (B.meaning app) }
        ensures { ObjectHasBegun seat (B.meaning app) (shown B.meaning self.old)
            (shown B.meaning self.new) }
    {
        // For the proof: the object has the name of its kind; tables and files are within their bounds, and no name is used
        // twice.
        is_object(&app);
        self.services.tables.is_service();
        begin_at(&mut self.seats, seat, &mut self.services, app);
        // The same holds after the call.
        self.services.tables.is_service();
    }

    /// Starts the next object on its seat; a spare leaves the stock for it.
    pub(crate) fn bring_in(&mut self, next: Successor<B>)
        requires seated { AreSeated (shown B.meaning self.old).seats
            (shown B.meaning self.old).services }
        requires spares { AreSpares (shown B.meaning self.old).stock }
        requires idle { self.old.services.outgoing ≡ [] }
        requires may { MayFollow (shown B.meaning self.old) (next_of B.meaning next) }
        ensures { HasFollowed (next_of B.meaning next) (shown B.meaning self.old)
            (shown B.meaning self.new) }
    {
        match next {
            Successor::Nobody => {}
            Successor::Spare(place, seat) => {
                let app = self.stock.remove(place);
                self.begin(seat, app);
            }
            Successor::Same(app, seat) => self.begin(seat, app),
        }
    }
}
