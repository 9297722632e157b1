//! What applications of another kind send is written, all of it and in its order, and up to where a write fails.

use crate::script::Given::{Order, Packet, Tick};
use crate::script::Output::{Event, Letters};
use crate::script::ScriptLine::{Calls, Cut, Runs, Step};
use crate::script::{Output, ScriptLine, Spare};
use crate::shared::all_holds;

/// Two applications of one name, `S`.
const BOTH: &[Spare] = &[Spare::Speaking(18), Spare::Speaking(18)];

/// A packet that applications with letters hear.
const HEARD: &[u8] = &[0x18, 0xD0, 0xC0, 0, 0, 1, 0, 0];

const COMES: Output<'static> = Event(b"S", 1, b"here");

/// The application starts, gets a packet, and is replaced by itself and by the other; `HOST`'s event comes after what they
/// send. With `HOST`'s events of type information off, they send as before.
#[test]
fn host_tells_behind_what_applications_say(rt: HostRuntime) {
    const SCRIPT: &[ScriptLine<'static>] = &[
        Step(
            Order(1, b"S"),
            &[COMES, Event(b"HOST", 8, b"app command 1 done")],
        ),
        Step(Packet(HEARD), &[Letters(b"S")]),
        Calls(1),
        Step(
            Order(3, b"S"),
            &[
                Letters(b"S"),
                COMES,
                Event(b"HOST", 8, b"app command 3 done"),
            ],
        ),
        Step(
            Order(4, b"S"),
            &[
                Letters(b"S"),
                COMES,
                Event(b"HOST", 8, b"app command 4 done"),
            ],
        ),
        Step(
            Packet(b"\x18\x01\xC0\0\0\x17\x04\0HOST\0\0\0\0\0\0\0\0\0\0\0\0\0\0\0\0\x02\0"),
            &[],
        ),
        Step(Order(3, b"S"), &[Letters(b"S"), COMES]),
        Step(Order(2, b"S"), &[Letters(b"S")]),
        Step(Packet(HEARD), &[]),
        Calls(0),
    ];
    all_holds(&rt, BOTH, SCRIPT);
}

/// If the writer fails inside what the leaving application sends, nobody comes; if it fails inside what the coming one sends,
/// or inside `HOST`'s event, the coming one is there.
#[test]
fn a_cut_leaves_who_was_there_by_then(rt: HostRuntime) {
    for limit in [0usize, 1, 169, 336] {
        let script = &[
            Step(
                Order(1, b"S"),
                &[COMES, Event(b"HOST", 8, b"app command 1 done")],
            ),
            Cut(Order(3, b"S"), limit),
            Runs(b"S", limit > 0),
            Cut(Packet(HEARD), 0),
        ];
        all_holds(&rt, BOTH, script);
    }
}

/// What eight publishers write for a tick. Each one's turn begins as its tick is the oldest packet of the least ready seat: its
/// letter, then eight letters of each seat before it, and its own for the packets of these and of its own.
const EIGHT_TURNS: &[Output<'static>] = &[
    Letters(b"A"),
    Letters(b"AAAAAAAA"),
    Letters(b"B"),
    Letters(b"AAAAAAAA"),
    Letters(b"BBBBBBBBBBBBBBBB"),
    Letters(b"C"),
    Letters(b"AAAAAAAA"),
    Letters(b"BBBBBBBB"),
    Letters(b"CCCCCCCCCCCCCCCCCCCCCCCC"),
    Letters(b"D"),
    Letters(b"AAAAAAAA"),
    Letters(b"BBBBBBBB"),
    Letters(b"CCCCCCCC"),
    Letters(b"DDDDDDDDDDDDDDDDDDDDDDDDDDDDDDDD"),
    Letters(b"E"),
    Letters(b"AAAAAAAA"),
    Letters(b"BBBBBBBB"),
    Letters(b"CCCCCCCC"),
    Letters(b"DDDDDDDD"),
    Letters(b"EEEEEEEEEEEEEEEEEEEEEEEEEEEEEEEEEEEEEEEE"),
    Letters(b"F"),
    Letters(b"AAAAAAAA"),
    Letters(b"BBBBBBBB"),
    Letters(b"CCCCCCCC"),
    Letters(b"DDDDDDDD"),
    Letters(b"EEEEEEEE"),
    Letters(b"FFFFFFFFFFFFFFFFFFFFFFFFFFFFFFFFFFFFFFFFFFFFFFFF"),
    Letters(b"G"),
    Letters(b"AAAAAAAA"),
    Letters(b"BBBBBBBB"),
    Letters(b"CCCCCCCC"),
    Letters(b"DDDDDDDD"),
    Letters(b"EEEEEEEE"),
    Letters(b"FFFFFFFF"),
    Letters(b"GGGGGGGGGGGGGGGGGGGGGGGGGGGGGGGGGGGGGGGGGGGGGGGGGGGGGGGG"),
    Letters(b"H"),
    Letters(b"AAAAAAAA"),
    Letters(b"BBBBBBBB"),
    Letters(b"CCCCCCCC"),
    Letters(b"DDDDDDDD"),
    Letters(b"EEEEEEEE"),
    Letters(b"FFFFFFFF"),
    Letters(b"GGGGGGGG"),
    Letters(b"HHHHHHHHHHHHHHHHHHHHHHHHHHHHHHHHHHHHHHHHHHHHHHHHHHHHHHHHHHHHHHHH"),
];

const STARTED: &[Output<'static>] = &[Event(b"HOST", 8, b"app command 1 done")];

/// No pipe is ever full, and 520 calls are the most that a record leads to.
#[test]
fn eight_packets_from_each_of_eight_seats(rt: HostRuntime) {
    const SPARES: &[Spare] = &[
        Spare::Publishing(0),
        Spare::Publishing(1),
        Spare::Publishing(2),
        Spare::Publishing(3),
        Spare::Publishing(4),
        Spare::Publishing(5),
        Spare::Publishing(6),
        Spare::Publishing(7),
    ];
    const SCRIPT: &[ScriptLine<'static>] = &[
        Step(Order(1, b"A"), STARTED),
        Step(Order(1, b"B"), STARTED),
        Step(Order(1, b"C"), STARTED),
        Step(Order(1, b"D"), STARTED),
        Step(Order(1, b"E"), STARTED),
        Step(Order(1, b"F"), STARTED),
        Step(Order(1, b"G"), STARTED),
        Step(Order(1, b"H"), STARTED),
        Step(Tick, EIGHT_TURNS),
        Calls(520),
        Step(Tick, EIGHT_TURNS),
    ];
    all_holds(&rt, SPARES, SCRIPT);
}

/// Two publishers write 34 letters for a tick, one a call. After the write that fails, no application is called.
#[test]
fn each_byte_of_a_tick_may_be_the_last(rt: HostRuntime) {
    for limit in 0..34usize {
        let script = &[
            Step(Order(1, b"A"), STARTED),
            Step(Order(1, b"B"), STARTED),
            Cut(Tick, limit),
            Calls(limit as u32 + 1),
            Cut(Tick, 0),
            Calls(limit as u32 + 1),
        ];
        all_holds(&rt, &[Spare::Publishing(0), Spare::Publishing(1)], script);
    }
}
