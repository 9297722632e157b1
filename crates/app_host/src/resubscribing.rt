//! Changes of a pipe's subscriptions while packets wait in it (cFE user's guide, software bus services).

ghost use Rattle.std.specs.Prelude.{◌≡◌, ◌+◌, ◌≤◌, ◌++◌, [], IfSome, IsSomeAnd, IsTrue, is_some, length};
ghost use Rattle.lc_model.specs.Kept.Call.{with_mids};
ghost use Rattle.lc_model.specs.Services.Bus.{Queue, pipe_at, with_pipe, most_subscriptions};
ghost use Rattle.app_host.specs.Resubscribing.{mids_of, without_mids};

use crate::seat::subscribe;
use lc_model::{Seat, Term};
use packet_bus::Bus;

/// Adds subscriptions of the seat's pipe to these message ids and to those of these watchpoints; packets that wait in it stay.
/// Condition: the seat has a pipe, with room for these subscriptions.
pub fn subscribe_to(bus: &mut Bus, seat: Seat, message_ids: &[u16], terms: &[Term])
    requires { IsSomeAnd (pipe_at seat bus.old)
        (λ (queue : Queue). length queue.subscriptions + length message_ids.now + length
        terms.now ≤ most_subscriptions) }
    ensures { IfSome (pipe_at seat bus.old)
        (λ (queue : Queue). bus.new ≡
        with_pipe seat bus.old
        (record queue {
          subscriptions = with_mids (message_ids.now ++ mids_of terms.now)
              queue.subscriptions;
        })) }
{
    subscribe(bus, seat, message_ids);
    watch(bus, seat, terms);
}

/// Ends all subscriptions of the seat's pipe; packets that wait in it stay. Condition: the seat has a pipe, which is subscribed
/// to exactly these message ids and those of these watchpoints.
pub fn unsubscribe_from(bus: &mut Bus, seat: Seat, message_ids: &[u16], terms: &[Term])
    requires { IsSomeAnd (pipe_at seat bus.old)
        (λ (queue : Queue). queue.subscriptions ≡
        with_mids (message_ids.now ++ mids_of terms.now) []) }
    ensures { IfSome (pipe_at seat bus.old)
        (λ (queue : Queue). bus.new ≡
        with_pipe seat bus.old (record queue { subscriptions = [] })) }
{
    unsubscribe(bus, seat, message_ids);
    unwatch(bus, seat, terms);
}

/// Adds subscriptions of the seat's pipe to the message ids of these watchpoints.
fn watch(bus: &mut Bus, seat: Seat, terms: &[Term])
    requires { IsSomeAnd (pipe_at seat bus.old)
        (λ (queue : Queue). length queue.subscriptions + length terms.now ≤ most_subscriptions) }
    ensures { IfSome (pipe_at seat bus.old)
        (λ (queue : Queue). bus.new ≡
        with_pipe seat bus.old
        (record queue { subscriptions = with_mids (mids_of terms.now) queue.subscriptions })) }
{
    for term in terms {
        bus.subscribe(seat, term.mid).unwrap();
    }
}

/// Ends the subscriptions of the seat's pipe to these message ids.
fn unsubscribe(bus: &mut Bus, seat: Seat, message_ids: &[u16])
    requires { IsTrue (is_some (pipe_at seat bus.old)) }
    ensures { IfSome (pipe_at seat bus.old)
        (λ (queue : Queue). bus.new ≡
        with_pipe seat bus.old
        (record queue { subscriptions = without_mids message_ids.now queue.subscriptions })) }
{
    for message_id in message_ids {
        bus.unsubscribe(seat, *message_id).unwrap();
    }
}

/// Ends the subscriptions of the seat's pipe to the message ids of these watchpoints.
fn unwatch(bus: &mut Bus, seat: Seat, terms: &[Term])
    requires { IsTrue (is_some (pipe_at seat bus.old)) }
    ensures { IfSome (pipe_at seat bus.old)
        (λ (queue : Queue). bus.new ≡
        with_pipe seat bus.old
        (record queue { subscriptions = without_mids (mids_of terms.now) queue.subscriptions })) }
{
    for term in terms {
        bus.unsubscribe(seat, term.mid).unwrap();
    }
}
