//! Turns what was read off a stream into a record for the host.

ghost use Rattle.std.specs.Prelude.{◌≡◌, length};
ghost use Rattle.flight_core.specs.Found.{IsShortNamed, NamesText};
ghost use Rattle.flight_core.specs.Compiled.{file_of};
ghost use Rattle.flight_core.specs.Brought.{AreWhole, IsBrought};

use crate::found::Found;
use lc_model::{Body, Kind, Record};
use rpn_compiler::TablePair;

/// The pair's file for this table.
fn file(pair: &TablePair, kind: Kind) -> &[u8]
    ensures { result.now ≡ file_of kind pair.now }
{
    match kind {
        Kind::Wdt => pair.wdt.as_slice(),
        Kind::Adt => pair.adt.as_slice(),
    }
}

/// The record for the host: a half becomes the compiled file that it names. `None` for a bad record.
#[inline(always)]
pub(crate) fn record_of<'a>(found: Found<'a>, pairs: &'a [TablePair]) -> Option<Record<'a>>
    requires named { IsShortNamed found }
    requires text { NamesText (length pairs.now) found }
    requires files { AreWhole pairs.now }
    ensures { IsBrought pairs.entry.now found.entry result }
{
    match found {
        Found::Record(entry) => Some(entry),
        Found::Half {
            moment,
            name,
            kind,
            text,
        } => Some(Record {
            moment,
            body: Body::File {
                name,
                bytes: file(&pairs[text], kind),
            },
        }),
        Found::Bad { n: _ } => None,
    }
}
