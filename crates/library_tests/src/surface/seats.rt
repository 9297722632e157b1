//! A host of boxed applications: its calls, its services and the names of its applications.

ghost use Rattle.app_host.specs.Hosted.{shown};
ghost use Rattle.app_host.specs.Step.{IsBetween, IsNamed};

use app_host::{App, Host, Services, WriteFault};
use lc_model::{ByteSink, Record};

/// Handles a record, and returns how many bytes were written if a write failed.
pub fn step<B: App, W: ByteSink>(host: &mut Host<B>, entry: &Record<'_>, out: &mut W) -> Option<u64>
    requires between { IsBetween (shown B.meaning host.old) }
    requires named { IsNamed entry.now.body }
{
    let done: Result<(), WriteFault> = host.step(entry, out);
    done.err().map(|fault| fault.sent)
}

/// Whether an application of this name runs, how many of it are in stock, and the calls of the last step.
pub fn standing(host: &Host, name: &[u8]) -> (bool, usize, u32) {
    (host.running(name), host.spares(name), host.calls())
}

/// Slots that are free, the second, and the bytes that wait, of the services.
pub fn services(services: &Services) -> (u32, u32, usize) {
    let bytes = services.outgoing.as_slice().len();
    let Services {
        bus,
        events: _,
        tables: _,
        counts: _,
        moment,
        outgoing: _,
    } = services;
    (bus.free(), moment.seconds, bytes)
}

/// The name of any application.
pub fn name_of(app: &dyn App) -> &[u8] {
    app.name()
}
