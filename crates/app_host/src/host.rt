//! The executive.

ghost use Rattle.std.specs.Prelude.{◌≡◌, map, is_some, count_by, option_map, IfOk, IfErr, false};
ghost use Rattle.lc_model.specs.Kept.Executive as model;
ghost use Rattle.lc_model.specs.Kept.Executive.{is_called};
ghost use Rattle.lc_model.specs.Kept.Stations.{first_host};
ghost use Rattle.app_host.specs.Capacities.{host_capacities};
ghost use Rattle.app_host.specs.declared.error.HostError.TheVariants.{Memory};
ghost use Rattle.app_host.specs.Hosted.{Object, object_at, shown, member_of, in_numbers, objects_in};
ghost use Rattle.app_host.specs.Whole.{AreSpares, IsWhole, IsQuiet};
ghost use Rattle.event_service.specs.Types.{is_type_on};
ghost use Rattle.tbl_service.specs.Images.{active_of};

use crate::app::App;
use crate::capacities::HostCapacities;
use crate::error::HostError;
use crate::objects::{seat_of, spares_of};
use crate::services::Services;
use lc_model::{EventKind, Seat};
use packet_bus::PACKET_SIZE;
use std::alloc::Global;

/// The host: spares, eight seats, and the services that applications share. `B` is the type of an application; plain `Host` has
/// boxed applications of any kinds. It has no `Drop`: whoever has one has to `close` it.
pub struct Host<B: App = Box<dyn App>> {
    pub(crate) stock: Vec<B>,
    pub(crate) seats: [Option<B>; Seat::COUNT],
    pub(crate) services: Services,
    /// The delivered packet stands at the start; the bytes after it are left over from earlier packets.
    pub(crate) packet: [u8; PACKET_SIZE],
    /// Whether a failed write has closed the host.
    pub(crate) closed: bool,
    /// The `on_packet` calls for the last record.
    pub(crate) calls: u32,
}

impl<B: App> Host<B> {
    /// Creates a host with these spares, in which nothing runs. It allocates all memory that it ever needs.
    ///
    /// Condition: no spare holds a seat.
    ///
    /// Errors: `Memory`, which returns the stock.
    pub fn new(alloc: Global, stock: Vec<B>) -> Result<Host<B>, (HostError, Vec<B>)>
        requires spares { AreSpares (objects_in B.meaning stock.items) }
        ensures whole { IfOk result (λ host. IsWhole (shown B.meaning host)) }
        ensures quiet { IfOk result (λ host. IsQuiet (shown B.meaning host)) }
        ensures first { IfOk result
            (λ host. in_numbers (shown B.meaning host) ≡
            first_host (map member_of (objects_in B.meaning stock.items))) }
        ensures boxes { IfOk result (λ host. host.stock ≡ stock) }
        ensures stock_back { IfErr result (λ refused. refused.1 ≡ stock) }
        ensures memory { IfErr result (λ refused. refused.0 ≡ Memory) }
    {
        match Services::new(alloc) {
            Err(_) => Err((HostError::Memory, stock)),
            Ok(services) => Ok(Host {
                stock,
                seats: [None, None, None, None, None, None, None, None],
                services,
                packet: [0; PACKET_SIZE],
                closed: false,
                calls: 0,
            }),
        }
    }

    /// Whether an application of this name runs.
    pub fn running(&self, name: &[u8]) -> bool
        ensures { result ≡
            is_some (model.seat_of name.now
            (in_numbers (shown B.meaning self.now)).executive.seats) }
    {
        seat_of(&self.seats, name).is_some()
    }

    /// The number of spares of this name.
    pub fn spares(&self, name: &[u8]) -> usize
        ensures { result ≡ count_by (is_called name.now)
            (in_numbers (shown B.meaning self.now)).executive.stock }
    {
        spares_of(self.stock.as_slice(), name)
    }

    /// The application on a seat; `None` if the seat is free.
    pub fn application(&self, seat: Seat) -> Option<&B>
        ensures { option_map (λ app. B.meaning app.now) result ≡
            object_at seat (shown B.meaning self.now).seats }
    {
        match &self.seats[seat.index()] {
            Some(app) => Some(app),
            None => None,
        }
    }

    /// The active image of the table of this name; `None` without such a table or image.
    pub fn active_image(&self, table: &[u8]) -> Option<&[u8]>
        ensures { option_map (λ image. image.now) result ≡ active_of
            ((in_numbers (shown B.meaning self.now)).executive.services.slots table.now) }
    {
        self.services.tables.active_under(table)
    }

    /// Whether events of this type are on for the sender `name`; false if it is not registered.
    pub fn is_type_on(&self, name: &[u8], kind: EventKind) -> bool
        ensures { result ≡ is_type_on kind
            ((in_numbers (shown B.meaning self.now)).executive.services.events name.now) }
    {
        self.services.events.is_type_on(name, kind)
    }

    /// The capacities of the services' lists; of those by seat, this seat's. They are those with which the lists were made, at any
    /// time: no call of the host, and no call of an application, makes a list grow.
    pub fn capacities(&self, seat: Seat) -> HostCapacities
        ensures { result ≡ host_capacities }
    {
        self.services.capacities(seat)
    }

    /// Whether a failed write has closed the host, so that it handles no more records.
    pub fn is_closed(&self) -> bool
        ensures { result ≡ (shown B.meaning self.now).is_closed }
    {
        self.closed
    }

    /// The number of `on_packet` calls in the last `step` of the open host; 0 before the first.
    pub fn calls(&self) -> u32
        ensures { result ≡ (in_numbers (shown B.meaning self.now)).calls }
    {
        self.calls
    }
}
