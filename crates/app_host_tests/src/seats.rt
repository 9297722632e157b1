//! The seats of a host: eight applications run, and a ninth finds no seat until one has left.

use crate::script::Given::Order;
use crate::script::Output::Event;
use crate::script::ScriptLine::Step;
use crate::script::{Output, ScriptLine, Spare};
use crate::shared::all_holds;

const STARTED: &[Output<'static>] = &[Event(b"HOST", 8, b"app command 1 done")];

const SPARES: &[Spare] = &[
    Spare::Publishing(0),
    Spare::Publishing(1),
    Spare::Publishing(2),
    Spare::Publishing(3),
    Spare::Publishing(4),
    Spare::Publishing(5),
    Spare::Publishing(6),
    Spare::Publishing(7),
    Spare::Publishing(8),
];

#[test]
fn a_ninth_application_finds_no_seat(rt: HostRuntime) {
    const SCRIPT: &[ScriptLine<'static>] = &[
        Step(Order(1, b"A"), STARTED),
        Step(Order(1, b"B"), STARTED),
        Step(Order(1, b"C"), STARTED),
        Step(Order(1, b"D"), STARTED),
        Step(Order(1, b"E"), STARTED),
        Step(Order(1, b"F"), STARTED),
        Step(Order(1, b"G"), STARTED),
        Step(Order(1, b"H"), STARTED),
        Step(
            Order(1, b"I"),
            &[Event(b"HOST", 9, b"app command refused 124")],
        ),
        Step(
            Order(1, b"A"),
            &[Event(b"HOST", 9, b"app command refused 123")],
        ),
        Step(Order(2, b"E"), &[Event(b"HOST", 8, b"app command 2 done")]),
        Step(Order(1, b"I"), STARTED),
    ];
    all_holds(&rt, SPARES, SCRIPT);
}
