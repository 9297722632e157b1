//! Boxes of applications whose memory lasts until their host is closed, whenever the host drops them.

ghost use Rattle.std.specs.Prelude.{◌≡◌, IfOk};
ghost use Rattle.app_host.specs.Hosted.{objects_in};
ghost use Rattle.app_host.specs.Whole.{AreSpares};
ghost use Rattle.flight_core.specs.Run.{IsOfProfile};
ghost use Rattle.flight_profile.specs.Members.{meaning_of};
ghost use Rattle.flight_profile.specs.Stock.{names_of, own_names};
ghost use Rattle.c_interface.specs.Lasting.{lasting_meaning};

use app_host::{App, Services};
use flight_profile::{HasEngine, Member, own_stock};
use lc_model::Seat;
use limit_engine::Engine;
use schedules::Schedule;
use std::alloc::{AllocError, Global};
use std::cell::Cell;
use std::rc::Rc;

/// Where one box goes when the host drops it.
#[derive(Drop)]
pub(crate) struct BoxPlace {
    box_of: Rc<Cell<Option<Box<Member>>>>,
}

impl BoxPlace {
    /// Creates a place with nothing in it, and its two holders. Out of memory is the only error.
    fn pair(alloc: Global) -> Result<(BoxPlace, BoxPlace), AllocError> {
        let box_of = Rc::new(alloc, Cell::new(None))?;
        let other = box_of.clone()?;
        Ok((BoxPlace { box_of }, BoxPlace { box_of: other }))
    }
}

/// An application in a box. Where it is dropped, the box with all its memory goes to its place, and is dropped with the place.
pub struct LastingBox {
    app: Box<Member>,
    place: BoxPlace,
}

impl Drop for LastingBox {
    fn drop(self) {
        let LastingBox { app, place } = self;
        place.box_of.set(Some(app));
    }
}

impl App for LastingBox {
    ghost use Rattle.c_interface.specs.Lasting.{lasting_meaning};

    ghost meaning = { lasting_meaning };

    fn name(&self) -> &[u8] {
        self.app.name()
    }

    fn start(&mut self, seat: Seat, services: &mut Services) {
        self.app.start(seat, services);
    }

    fn on_packet(&mut self, services: &mut Services, packet: &[u8]) {
        self.app.on_packet(services, packet);
    }

    fn retire(&mut self, services: &mut Services) {
        self.app.retire(services);
    }
}

impl HasEngine for LastingBox {
    fn engine(&self) -> Option<&Engine> {
        self.app.engine()
    }
}

/// Lets the memory of each box of a stock last as long as the places that are returned. Out of memory is the only error.
fn lasting_stock(
    alloc: Global,
    stock: Vec<Box<Member>>,
) -> Result<(Vec<LastingBox>, Vec<BoxPlace>), AllocError>
    ensures { IfOk result (λ both. objects_in lasting_meaning both.0.items ≡
        objects_in meaning_of stock.items) }
{
    let mut boxes = Vec::with_capacity(alloc, stock.len())?;
    let mut places = Vec::with_capacity(alloc, stock.len())?;
    for app in stock {
        let (place, other) = BoxPlace::pair(alloc)?;
        places.push(other)?;
        boxes.push(LastingBox { app, place })?;
    }
    Ok((boxes, places))
}

/// The stock of this profile, in boxes whose memory lasts as long as the places that are returned. Out of memory is the only error.
pub(crate) fn own_lasting_stock(
    alloc: Global,
    schedule: &Schedule,
) -> Result<(Vec<LastingBox>, Vec<BoxPlace>), AllocError>
    ensures spares { IfOk result
        (λ both. AreSpares (objects_in lasting_meaning both.0.items)) }
    ensures profile { IfOk result
        (λ both. IsOfProfile schedule.now (objects_in lasting_meaning both.0.items)) }
    ensures names { IfOk result
        (λ both. names_of (objects_in lasting_meaning both.0.items) ≡ own_names) }
{
    let stock = own_stock(alloc, schedule)?;
    let both = lasting_stock(alloc, stock)?;
    Ok(both)
}
