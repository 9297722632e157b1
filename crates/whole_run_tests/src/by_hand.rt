//! A host that is made by hand, and handles one record after the other.

ghost use Rattle.std.specs.Prelude.{IfOk};
ghost use Rattle.app_host.specs.Hosted.{shown, objects_in};
ghost use Rattle.app_host.specs.Step.{IsBetween};
ghost use Rattle.app_host.specs.Whole.{AreSpares};

use app_host::{App, Host};
use lc_model::{Body, Limited, Moment, Record};
use std::alloc::{AllocError, Global};

/// The moment of all records.
const NOW: Moment = Moment {
    seconds: 100,
    subseconds: 0,
};

/// The host, with this stock. Out of memory is the only error.
pub fn begin<B: App>(alloc: Global, stock: Vec<B>) -> Result<Host<B>, AllocError>
    requires { AreSpares (objects_in B.meaning stock.items) }
    ensures { IfOk result
        (λ host. IsBetween (shown B.meaning host)) }
{
    match Host::new(alloc, stock) {
        Ok(host) => Ok(host),
        Err(_) => Err(AllocError),
    }
}

/// The host handles a record: how many calls of `on_packet` that took, and how many bytes are written by then, or `None` where a
/// write failed. Of a file's name the first 40 bytes count.
pub fn handle<B: App>(
    host: &mut Host<B>,
    body: Body<'_>,
    out: &mut Limited<'_>,
) -> Option<(u32, usize)>
    requires { IsBetween (shown B.meaning host.old) }
    ensures { IsBetween (shown B.meaning host.new) }
{
    let body = match body {
        Body::Packet(bytes) => Body::Packet(bytes),
        Body::Tick => Body::Tick,
        Body::File { name, bytes } => Body::File {
            name: &name[..name.len().min(40)],
            bytes,
        },
    };
    let handled = host.step(&Record { moment: NOW, body }, out);
    handled.ok().map(|_| (host.calls(), out.bytes().len()))
}
