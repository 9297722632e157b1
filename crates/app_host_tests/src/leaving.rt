//! Objects retire and are dropped, each once: as they are stopped or replaced, and as the host is closed. `plays` checks that
//! all have left at the end.

use crate::playing::plays;
use crate::script::Given::{Order, Packet};
use crate::script::Output::Event;
use crate::script::ScriptLine::{Drops, Step};
use crate::script::{ScriptLine, Spare};
use crate::shared::all_holds;

/// The command that the counter counts: it counts from 1 on, as one that has just started.
const COUNTS: ScriptLine<'static> = Step(
    Packet(&[0x18, 0xC1, 0xC0, 0, 0, 1, 1, 0x26]),
    &[Event(b"COUNTER", 1, b"count 1")],
);

#[test]
fn a_reload_and_a_stop_drop_and_a_restart_does_not(rt: HostRuntime) {
    const SCRIPT: &[ScriptLine<'static>] = &[
        Step(
            Order(1, b"COUNTER"),
            &[Event(b"HOST", 8, b"app command 1 done")],
        ),
        COUNTS,
        Step(
            Order(3, b"COUNTER"),
            &[Event(b"HOST", 8, b"app command 3 done")],
        ),
        Drops(0),
        COUNTS,
        Step(
            Order(4, b"COUNTER"),
            &[Event(b"HOST", 8, b"app command 4 done")],
        ),
        Drops(1),
        COUNTS,
        Step(
            Order(2, b"COUNTER"),
            &[Event(b"HOST", 8, b"app command 2 done")],
        ),
        Drops(2),
    ];
    all_holds(&rt, &[Spare::Counting, Spare::Counting], SCRIPT);
}

/// Three run on three seats, and a spare is left.
#[test]
fn a_close_retires_all_before_it_drops_one(rt: HostRuntime) {
    const SCRIPT: &[ScriptLine<'static>] = &[
        Step(
            Order(1, b"A"),
            &[
                Event(b"A", 1, b"here"),
                Event(b"HOST", 8, b"app command 1 done"),
            ],
        ),
        Step(
            Order(1, b"COUNTER"),
            &[Event(b"HOST", 8, b"app command 1 done")],
        ),
        Step(
            Order(1, b"B"),
            &[
                Event(b"B", 1, b"here"),
                Event(b"HOST", 8, b"app command 1 done"),
            ],
        ),
        Drops(0),
    ];
    let spares = &[
        Spare::Speaking(0),
        Spare::Counting,
        Spare::Speaking(1),
        Spare::Counting,
    ];
    all_holds(&rt, spares, SCRIPT);
}

/// This test passes with `rt try --test --fail-alloc N`: lack of memory is the only error that it allows. A host that is
/// refused gives all its spares back.
#[test]
fn want_of_memory_is_the_only_error(rt: HostRuntime) {
    if let Ok(first) = plays(rt.alloc(), &[Spare::Counting], &[Drops(0)]) {
        assert_eq!(rt; first, None, "of the first line that does not hold");
    }
}
