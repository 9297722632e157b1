//! The engine with the low-volts tables: two failing samples request the sequence.

ghost use Rattle.std.specs.Prelude.{◌≡◌};

use crate::board::values::{actionpoints, low, watchpoints};
use crate::shared::same;
use lc_model::{ALL_RULES, Kind, SampleRequest, TABLE_ENTRIES};
use limit_engine::{Asked, Engine, Failure};
use std::process::Abort;
use table_file::{AdtVersion, preamble};
use table_validator::{ValidImage, validate};

/// Telemetry of message id 0x0883 with 2,399 in the 16 bits at byte 12.
const LOW: &[u8] = &[
    0x08, 0x83, 0xC0, 0, 0, 9, 0, 0, 0, 0, 0, 0, 0x09, 0x5F, 0, 0,
];

/// The image, which is sound.
fn valid<'a, R: Abort>(rt: &R, kind: Kind, image: &'a [u8]) -> ValidImage<'a>
    ensures { result ≡ record { kind = kind; bytes = image.now } }
{
    validate(kind, image).expect(rt, "not sound")
}

/// The engine with these images in force, which belong together.
fn adopt<R: Abort>(rt: &R, engine: &mut Engine, wdt: &[u8], adt: &[u8]) {
    let wdt = valid(rt, Kind::Wdt, wdt);
    let adt = valid(rt, Kind::Adt, adt);
    let is_match = preamble::hash(wdt.image()) == preamble::hash(adt.image())
        && preamble::watchpoint_count(wdt.image()) == preamble::watchpoint_count(adt.image());
    same(rt, "the images belong together", is_match, true);
    if is_match {
        engine.adopt(&wdt, &adt);
    }
}

/// What the first rule that asks for something in a sample of all asks for.
fn first_reaction<R: Abort + AllocGlobal>(rt: &R, engine: &mut Engine) -> Option<Asked> {
    let mut asked = Vec::with_capacity(rt.alloc(), TABLE_ENTRIES).expect(rt, "out of memory");
    if asked.capacity() >= TABLE_ENTRIES {
        let request = SampleRequest {
            first: ALL_RULES,
            last: ALL_RULES,
            ages: true,
        };
        engine.sample(&request, &mut asked);
    }
    asked.first().copied()
}

#[test]
fn two_failing_samples_request_the_sequence(rt: HostRuntime) {
    let wdt = watchpoints(rt.alloc()).expect(&rt, "out of memory");
    let adt = actionpoints(rt.alloc(), AdtVersion::Two).expect(&rt, "out of memory");
    let mut engine = Engine::new(rt.alloc()).expect(&rt, "out of memory");
    adopt(&rt, &mut engine, &wdt, &adt);
    same(&rt, "the watchpoint", engine.watchpoints(), &[low()]);
    engine.telemetry(LOW);
    same(
        &rt,
        "one",
        first_reaction(&rt, &mut engine).is_some(),
        false,
    );
    let asked = first_reaction(&rt, &mut engine).map(|asked| asked.reactions.failure);
    same(&rt, "two", asked, Some(Some(Failure::Requested(2))));
}
