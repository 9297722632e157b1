//! One call of the object on a seat.

ghost use Rattle.std.specs.Prelude.{◌≡◌, ◌<◌, map, slice_set, IfSome, None};
ghost use Rattle.lc_model.specs.Kept.Executive.{seat_count};
ghost use Rattle.app_host.specs.Hosted.{Object, object_at, object_in};
ghost use Rattle.app_host.specs.Left.{LeftBy};
ghost use Rattle.app_host.specs.Objects.{IfBoth, MayAnswer, HasAnswered, MayRetire, HasRetired};

use crate::app::App;
use crate::laws::objects_are_at_home;
use crate::objects::retire;
use crate::services::Services;
use lc_model::Seat;

/// Lets the object in a place handle a packet.
#[inline(always)]
fn give_in<B: App>(place: &mut Option<B>, seat: Seat, services: &mut Services, packet: &[u8])
    requires { IfSome (object_in B.meaning place.old) (MayAnswer seat packet.now services.old) }
    ensures { IfBoth (object_in B.meaning place.old) (object_in B.meaning place.new)
        (HasAnswered seat packet.now services.old services.new) }
{
    if let Some(app) = place {
        // For the proof: an object stays at home on its seat, whatever packets it has.
        objects_are_at_home();
        app.on_packet(services, packet);
    }
}

/// Lets the object on a seat handle a packet.
#[inline(always)]
pub(crate) fn give_at<B: App>(
    seats: &mut [Option<B>; Seat::COUNT],
    seat: Seat,
    services: &mut Services,
    packet: &[u8],
)
    requires { IfSome (object_at seat (map (object_in B.meaning) seats.old))
        (MayAnswer seat packet.now services.old) }
    ensures answered { IfBoth (object_at seat (map (object_in B.meaning) seats.old))
        (object_at seat (map (object_in B.meaning) seats.new))
        (HasAnswered seat packet.now services.old services.new) }
    ensures others { map (object_in B.meaning) seats.new ≡
        slice_set (map (object_in B.meaning) seats.old) seat
        (object_at seat (map (object_in B.meaning) seats.new)) }
{
    give_in(&mut seats[seat.index()], seat, services, packet);
}

/// Retires the object in a place, if there is one, and returns it.
fn retire_in<B: App>(place: &mut Option<B>, seat: Seat, services: &mut Services) -> Option<B>
    requires { IfSome (object_in B.meaning place.old) (MayRetire seat services.old) }
    ensures gone { place.new ≡ None }
    ensures left { LeftBy seat services.old services.new (object_in B.meaning place.old) }
    ensures retired { IfBoth (object_in B.meaning place.old) (object_in B.meaning result)
        (HasRetired seat services.old services.new) }
{
    let mut app = place.take()?;
    retire(&mut app, seat, services);
    Some(app)
}

/// Retires the object on a seat, if there is one, and returns it.
pub(crate) fn retire_at<B: App>(
    seats: &mut [Option<B>; Seat::COUNT],
    seat: Seat,
    services: &mut Services,
) -> Option<B>
    requires { IfSome (object_at seat (map (object_in B.meaning) seats.old))
        (MayRetire seat services.old) }
    ensures gone { map (object_in B.meaning) seats.new ≡
        slice_set (map (object_in B.meaning) seats.old) seat None }
    ensures below { seat < seat_count }
    ensures left { LeftBy seat services.old services.new
        (object_at seat (map (object_in B.meaning) seats.old)) }
    ensures retired { IfBoth (object_at seat (map (object_in B.meaning) seats.old))
        (object_in B.meaning result) (HasRetired seat services.old services.new) }
{
    retire_in(&mut seats[seat.index()], seat, services)
}
