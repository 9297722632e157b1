//! A host of the tests and its records.

ghost use Rattle.std.specs.Prelude.{◌≡◌, IfOk};
ghost use Rattle.app_host.specs.Hosted.{shown, objects_in};
ghost use Rattle.app_host.specs.Whole.{AreSpares};
ghost use Rattle.app_host.specs.Step.{IsNamed, IsBetween};

use app_host::{App, Host, HostError, WriteFault};
use lc_model::{Body, ByteSink, Moment, Record};
use std::alloc::Global;

/// The moment of all records.
const NOW: Moment = Moment {
    seconds: 100,
    subseconds: 0,
};

/// A host with these spares. On an error they come back. Condition: none of them holds a seat.
pub fn begin<B: App>(alloc: Global, stock: Vec<B>) -> Result<Host<B>, (HostError, Vec<B>)>
    requires { AreSpares (objects_in B.meaning stock.items) }
    ensures { IfOk result (λ host. IsBetween (shown B.meaning host)) }
{
    Host::new(alloc, stock)
}

/// The host handles a record. Condition: a file's name has at most 40 bytes.
pub fn step<B: App, W: ByteSink>(
    host: &mut Host<B>,
    body: Body<'_>,
    out: &mut W,
) -> Result<(), WriteFault>
    requires between { IsBetween
        (shown B.meaning host.old) }
    requires named { IsNamed body }
    ensures between { IsBetween
        (shown B.meaning host.new) }
{
    host.step(&Record { moment: NOW, body }, out)
}

/// All that run retire, and all objects are dropped.
pub fn end<B: App>(host: Host<B>)
    requires { IsBetween (shown B.meaning host) }
{
    host.close();
}
