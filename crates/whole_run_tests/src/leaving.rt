//! A run, and a fed host, whose counter reports how often it retired.

ghost use Rattle.std.specs.Prelude.{◌≡◌, false, None};

use app_host::{App, Services};
use command_counter::Counter;
use flight_core::{FedHost, Report, RunError, run_within};
use flight_profile::add;
use lc_model::{Limited, Pieces, Seat};
use schedules::Schedule;
use std::alloc::{AllocError, Global};
use std::cell::Cell;
use std::rc::Rc;

/// The counter, with its retirements counted.
#[derive(Drop)]
struct Watched {
    counter: Counter,
    retirements: Rc<Cell<u32>>,
}

impl Watched {
    /// It holds no seat.
    fn new(retirements: Rc<Cell<u32>>) -> Watched
        ensures seat { result.counter.seat ≡ None }
        ensures count { result.counter.count ≡ 0 }
    {
        Watched {
            counter: Counter::new(),
            retirements,
        }
    }
}

impl App for Watched {
    ghost meaning = { λ w. ⟦<Counter as App>⟧.meaning w.counter };

    fn name(&self) -> &[u8] {
        self.counter.name()
    }

    fn start(&mut self, seat: Seat, services: &mut Services) {
        self.counter.start(seat, services);
    }

    fn on_packet(&mut self, services: &mut Services, packet: &[u8]) {
        self.counter.on_packet(services, packet);
    }

    fn retire(&mut self, services: &mut Services) {
        self.retirements
            .set(self.retirements.get().saturating_add(1));
        self.counter.retire(services);
    }
}

/// Runs no texts, with a counter in stock and at most this many reads. Returns how the run ends, and how often the counter
/// retired. Out of memory for the stock is the outer error. Conditions: nothing was read or failed yet.
pub fn retirements_of(
    alloc: Global,
    schedule: &Schedule,
    source: &mut Pieces<'_>,
    sink: &mut Limited<'_>,
    reads: u32,
) -> Result<(Result<Report, RunError>, u32), AllocError>
    requires unread { source.old.reads ≡ 0 }
    requires readable { source.old.failed ≡ false }
    requires writable { sink.old.failed ≡ false }
{
    let retirements = Rc::new(alloc, Cell::new(0))?;
    let mut stock: Vec<Box<Watched>> = Vec::new(alloc);
    let counter = Box::new(alloc, Watched::new(retirements.clone()?))?;
    add(&mut stock, schedule, b"COUNTER", counter)?;
    let answer = run_within(alloc, &[], schedule, stock, source, sink, u64::from(reads));
    Ok((answer, retirements.get()))
}

/// Feeds a host without texts, with a counter in stock, a stream, handles its first record, and closes the host. Returns how often the
/// counter retired. Out of memory for the host is the only error.
pub fn retirements_when_fed(
    alloc: Global,
    schedule: &Schedule,
    stream: &[u8],
    sink: &mut Limited<'_>,
) -> Result<u32, AllocError> {
    let retirements = Rc::new(alloc, Cell::new(0))?;
    let mut stock: Vec<Box<Watched>> = Vec::new(alloc);
    let counter = Box::new(alloc, Watched::new(retirements.clone()?))?;
    add(&mut stock, schedule, b"COUNTER", counter)?;
    match FedHost::new(alloc, &[], stock) {
        Err(_) => Err(AllocError),
        Ok(mut fed) => {
            fed.feed(stream);
            let _handled = fed.handle(sink);
            fed.close();
            Ok(retirements.get())
        }
    }
}
