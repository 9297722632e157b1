//! Events that are sent rarely.

ghost use Rattle.std.specs.Prelude.{◌≡◌, ◌+◌, ◌≤◌, [], ◌∷◌, length, IfSome};
ghost use Rattle.lc_model.specs.Events.Outgoing.{event_packet_size, longest_event_text};
ghost use Rattle.lc_model.specs.Events.Request.{Event};
ghost use Rattle.lc_model.specs.Services.Events.{Sender, sender_at};
ghost use Rattle.lc_model.specs.Services.Interface.{outgoing_room};
ghost use Rattle.app_host.specs.Telling.{Tells};

use app_host::Services;
use lc_model::{EventKind, Seat};

/// Sends an event of the seat's application as `Services::tell` does; the code for it stands in one place. Code that handles
/// many packets calls `Services::tell` directly.
#[inline(never)]
pub(crate) fn tell(
    services: &mut Services,
    from: Option<Seat>,
    id: u16,
    kind: EventKind,
    text: &[u8],
)
    requires text { length text.now ≤ longest_event_text }
    requires room { length services.old.outgoing + event_packet_size ≤ outgoing_room }
    ensures told { IfSome (sender_at from services.old.events)
        (λ (sender : Sender). Tells from sender.name (Event sender.name id kind text.now ∷ [])
        services.old services.new) }
    ensures size { length services.new.outgoing ≤ length services.old.outgoing + event_packet_size }
{
    services.tell(from, id, kind, text);
}
