//! One call of one object, and the search among objects.

ghost use Rattle.std.specs.Prelude.{◌≡◌, ◌<◌, count_by, is_none, length, map, option_map, IfSome, Some};
ghost use Rattle.std.specs.List.{position_from};
ghost use Rattle.lc_model.specs.Kept.Executive.{is_called, is_seated};
ghost use Rattle.app_host.specs.Calls.{IsObject};
ghost use Rattle.app_host.specs.Hosted.{Object, object_at, spare_in, member_of, objects_in, object_in};
ghost use Rattle.app_host.specs.Objects.{IfBoth, MayStartOn, HasStarted, MayRetire, HasRetired};

use crate::app::App;
use crate::laws::objects_are_at_home;
use crate::services::Services;
use lc_model::Seat;

/// Starts the object on a free seat.
pub(crate) fn start<B: App>(app: &mut B, seat: Seat, services: &mut Services)
    requires { MayStartOn seat services.old (B.meaning app.old) }
    ensures { HasStarted seat services.old services.new (B.meaning app.old)
        (B.meaning app.new) }
{
    // For the proof: an object stays at home on its seat, whatever packets it has.
    objects_are_at_home();
    app.start(seat, services);
}

/// Retires the object on a seat.
pub(crate) fn retire<B: App>(app: &mut B, seat: Seat, services: &mut Services)
    requires { MayRetire seat services.old (B.meaning app.old) }
    ensures retired { HasRetired seat services.old services.new (B.meaning app.old)
        (B.meaning app.new) }
    ensures same { (B.meaning app.new).called ≡ (B.meaning app.old).called }
{
    app.retire(services);
}

/// Whether the object has this name.
fn is_called<B: App>(app: &B, name: &[u8]) -> bool
    ensures called { result ≡ is_called name.now (member_of (B.meaning app.now)) }
    ensures kind { IsObject (B.meaning app.now).state (B.meaning app.now).called }
{
    name == app.name()
}

/// Whether the seat has an object of this name.
fn is_seated<B: App>(place: &Option<B>, name: &[u8]) -> bool
    ensures { result ≡ is_seated name.now (option_map member_of (object_in B.meaning place.now)) }
{
    match place {
        Some(app) => is_called(app, name),
        None => false,
    }
}

/// Whether the seat is free.
fn is_free<B: App>(place: &Option<B>) -> bool
    ensures { result ≡ is_none (option_map member_of (object_in B.meaning place.now)) }
{
    match place {
        Some(_) => false,
        None => true,
    }
}

/// The place in stock of the first spare of a name.
pub(crate) fn spare_of<B: App>(stock: &[B], name: &[u8]) -> Option<usize>
    ensures first { result ≡ position_from (λ o. is_called name.now (member_of o)) 0
        (objects_in B.meaning stock.now) }
    ensures kind { IfSome result
        (λ i. IsObject (spare_in (objects_in B.meaning stock.now) i).state
        (spare_in (objects_in B.meaning stock.now) i).called) }
{
    for (i, app) in stock.iter().enumerate() {
        if is_called(app, name) {
            return Some(i);
        }
    }
    None
}

/// The number of spares of a name.
pub(crate) fn spares_of<B: App>(stock: &[B], name: &[u8]) -> usize
    ensures { result ≡ count_by (λ o. is_called name.now (member_of o))
        (objects_in B.meaning stock.now) }
{
    let mut count = 0;
    for app in stock {
        if is_called(app, name) {
            count += 1;
        }
    }
    count
}

/// The seat of the running application of a name.
pub(crate) fn seat_of<B: App>(seats: &[Option<B>], name: &[u8]) -> Option<usize>
    ensures { result ≡ position_from (λ o. is_seated name.now (option_map member_of o)) 0
        (map (object_in B.meaning) seats.now) }
{
    for (k, place) in seats.iter().enumerate() {
        if is_seated(place, name) {
            return Some(k);
        }
    }
    None
}

/// The least free seat.
pub(crate) fn free_seat<B: App>(seats: &[Option<B>]) -> Option<usize>
    ensures { result ≡ position_from (λ o. is_none (option_map member_of o)) 0
        (map (object_in B.meaning) seats.now) }
{
    for (k, place) in seats.iter().enumerate() {
        if is_free(place) {
            return Some(k);
        }
    }
    None
}
