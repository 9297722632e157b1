//! Applications of any name.

ghost use Rattle.std.specs.Prelude.{◌≡◌, ◌≤◌, None, length, replicate, slice_index_or};
ghost use Rattle.lc_model.specs.Packet.{message_id, tick_mid};
ghost use Rattle.lc_model.specs.Services.Interface.{MayPublish};
ghost use Rattle.app_host.specs.Publishing.{AreShort, Publishes};
ghost use Rattle.app_host.specs.Seating.{IsClosed};
ghost use Rattle.app_host_tests.specs.Naming.{heard};

use app_host::laws::seats_are_kept_by_the_rules;
use app_host::publishing::publishing_is_by_the_rules;
use app_host::{App, Services};
use lc_model::laws::bus::bus_has_room;
use lc_model::laws::senders::event_services_go_by_names;
use lc_model::packet::message_id;
use lc_model::{Seat, mids};

/// The message id that these applications hear beside the ticks, and publish.
pub const HEARD: u16 = 0x18D0;

/// The packet that they publish.
const PUBLISHED: &[u8] = &[0x18, 0xD0, 0xC0, 0, 0, 1, 0, 0];

/// An application whose name is one letter. For each tick and each packet of 0x18D0 it writes its letter; at a tick it first
/// publishes eight packets of 0x18D0.
#[derive(Drop)]
pub struct LetterApp {
    name: [u8; 1],
    seat: Option<Seat>,
    ghost one: { length name ≡ 1 },
    ghost letter: { 65 ≤ slice_index_or name 0 0 },
}

impl LetterApp {
    /// The application whose name is the letter of this number, from `A` on. It holds no seat.
    pub fn new(number: u8) -> LetterApp
        ensures { result.seat ≡ None }
    {
        LetterApp {
            name: [b'A' + number % 26],
            seat: None,
        }
    }

    /// Publishes eight packets at a tick, and nothing for any other packet. Returns how many it published. Condition: room for
    /// as many in each pipe.
    fn publish(&self, services: &mut Services, packet: &[u8]) -> usize
        requires headers { 2 ≤ length packet.now }
        requires room { message_id packet.now ≡ tick_mid → AreShort 64 services.old.bus }
        ensures published { Publishes (replicate result heard) services.old services.new }
        ensures may { MayPublish packet.now (replicate result heard) }
    {
        publishing_is_by_the_rules();
        if message_id(packet) != mids::TICK {
            return 0;
        }
        publish_eight(services);
        8
    }
}

impl App for LetterApp {
    ghost use Rattle.lc_model.specs.Kept.Summary.{Other};

    ghost meaning = { λ n. record { called = n.name; state = Other; seat = n.seat } };

    fn name(&self) -> &[u8] {
        &self.name
    }

    fn start(&mut self, seat: Seat, services: &mut Services) {
        seats_are_kept_by_the_rules();
        services.open(seat, &self.name, &[mids::TICK, HEARD]);
        self.seat = Some(seat);
    }

    fn on_packet(&mut self, services: &mut Services, packet: &[u8]) {
        publishing_is_by_the_rules();
        self.publish(services, packet);
        services.outgoing.append(&self.name);
    }

    fn retire(&mut self, services: &mut Services) {
        seats_are_kept_by_the_rules();
        if let Some(seat) = self.seat.take() {
            leave(seat, services);
        }
    }
}

/// Publishes eight packets. Condition: room for as many in each pipe.
fn publish_eight(services: &mut Services)
    requires { AreShort 64 services.old.bus }
    ensures { Publishes (replicate 8 heard) services.old services.new }
{
    publishing_is_by_the_rules();
    bus_has_room();
    for _ in 0..8u8 {
        services.publish(PUBLISHED);
    }
}

/// Removes the seat's pipe, sender of events and tables, as far as it has them.
pub fn leave(seat: Seat, services: &mut Services)
    ensures { IsClosed seat services.old services.new }
{
    event_services_go_by_names();
    services.events.is_service();
    let _removed = services.bus.remove_pipe(seat);
    let _unregistered = services.events.unregister(seat);
    services.tables.unregister(seat);
}
