//! Sets of event types (cFE user's guide, event services; their bits are this project's own).

ghost use Rattle.std.specs.Prelude.{⊤, ◌≡◌, ◌%◌, Bool, not, ◌==◌, [], ◌∷◌, codes, bit_and};
ghost use Rattle.lc_model.specs.Events.Log.{kind_bit, has_kind, sets_of_types};
ghost use Rattle.lc_model.specs.Kept.Next.{kinds_set};
ghost use Rattle.lc_model.specs.Kept.Call.{new_sender};
ghost use Rattle.event_service.specs.Types.{bits_of};

use bitflags::{Flag, Flags, bitflag_items};
use lc_model::EventKind;

/// A set of event types: debug 1, information 2, error 4, critical 8. Contracts see its bits (`bits_of`).
#[derive(Clone, Copy, Debug, PartialEq, Eq)]
pub struct EventTypes(u8);

bitflag_items! {
    impl EventTypes: u8 {
        const DEBUG = 1;
        const INFORMATION = 2;
        const ERROR = 4;
        const CRITICAL = 8;
    }
}

impl Flags for EventTypes {
    type Bits = u8;

    ghost exact = { ⊤ };

    ghost table = { (codes "DEBUG", 1) ∷ (codes "INFORMATION", 2) ∷ (codes "ERROR", 4) ∷
        (codes "CRITICAL", 8) ∷ [] };

    ghost set_of = { bits_of };

    fn flags<'a>() -> &'a [Flag<EventTypes>] {
        EventTypes::FLAGS
    }

    fn bits(&self) -> u8 {
        self.0
    }

    fn from_bits_retain(bits: u8) -> EventTypes {
        EventTypes(bits)
    }
}

impl EventTypes {
    /// The types of a command's byte, of which only the lower four bits count.
    pub fn of_command(byte: u8) -> EventTypes
        ensures { bits_of result ≡ byte % sets_of_types }
    {
        EventTypes(byte % 16)
    }

    /// All types but debug.
    pub(crate) fn at_first() -> EventTypes
        ensures { bits_of result ≡ new_sender.on }
    {
        EventTypes::INFORMATION
            .union(EventTypes::ERROR)
            .union(EventTypes::CRITICAL)
    }

    /// A type alone.
    pub fn of_kind(kind: EventKind) -> EventTypes
        ensures { bits_of result ≡ kind_bit kind }
    {
        match kind {
            EventKind::Debug => EventTypes::DEBUG,
            EventKind::Information => EventTypes::INFORMATION,
            EventKind::Error => EventTypes::ERROR,
            EventKind::Critical => EventTypes::CRITICAL,
        }
    }

    /// Whether the type is in the set.
    pub(crate) fn has(self, kind: EventKind) -> bool
        ensures { result ≡ has_kind (bits_of self) kind }
    {
        self.intersects(EventTypes::of_kind(kind))
    }

    /// Turns the types of `types` on, or off.
    pub(crate) fn turn(&mut self, types: EventTypes, on: bool)
        ensures { bits_of self.new ≡ kinds_set (bits_of types) on (bits_of self.old) }
    {
        if on {
            self.insert(types);
        } else {
            let common = self.intersection(types);
            self.toggle(common);
        }
    }
}
