//! Which text of a comparison is refused; the program looks at each text before it compares.

use crate::claims::same;
use lc_model::Pieces;
use rpn_compiler::{CompileError, RuleText};
use run_comparison::{ComparisonError, Side, Sides, Which, compare};
use schedules::parse_schedule;
use std::process::Abort;

/// A text that compiles.
const SHORT: &[u8] =
    b"packet P = mid 0x0883 length 16; field V = P u16be at 12; rule R active fails 1 sequence 7 event error 1001 \"r\" when V < 1;";

/// A text that can be read, with a rule of 17 comparisons and 16 operators, which is too long.
const LONG: &[u8] =
    b"packet P = mid 0x0883 length 16; field V = P u16be at 12; rule R active fails 1 sequence 7 event error 1001 \"r\" when V < 1 or V < 2 or V < 3 or V < 4 or V < 5 or V < 6 or V < 7 or V < 8 or V < 9 or V < 10 or V < 11 or V < 12 or V < 13 or V < 14 or V < 15 or V < 16 or V < 17;";

/// The old text, the new one and a further one, and which of them is refused.
const TEXTS: &[(&[u8], &[u8], &[u8], Which)] = &[
    (LONG, SHORT, SHORT, Which::Old),
    (SHORT, LONG, SHORT, Which::New),
    (SHORT, SHORT, LONG, Which::Further(0)),
    (LONG, LONG, LONG, Which::Old),
    (SHORT, LONG, LONG, Which::Further(0)),
];

/// Why these texts are not compared over a stream of no bytes. The first of each run is the one that is compared.
fn refusal_of<'a, 't, R: Abort + AllocGlobal>(
    rt: &R,
    old: &'a [RuleText<'t>],
    new: &'a [RuleText<'t>],
) -> Option<ComparisonError> {
    let plan: &[u8] = b"slots 1";
    let stream: &[u8] = b"";
    let schedule = parse_schedule(rt.alloc(), plan).expect(rt, "a schedule");
    let sides = Sides {
        old: Side {
            name: "old",
            texts: old,
        },
        new: Side {
            name: "new",
            texts: new,
        },
    };
    let mut reader = Pieces::new(stream, 1);
    compare(rt.alloc(), &schedule, sides, false, &mut reader).err()
}

/// The rule text of these bytes.
fn text_of<'t, R: Abort + AllocGlobal>(rt: &R, bytes: &'t [u8]) -> RuleText<'t> {
    RuleText::read(rt.alloc(), bytes).expect(rt, "a text that can be read")
}

#[test]
fn the_text_that_is_too_long_is_named(rt: HostRuntime) {
    for (old, new, further, which) in TEXTS {
        let refusal = ComparisonError::Rules {
            which: *which,
            error: CompileError::EquationTooLong { rule: 0 },
        };
        let olds = [text_of(&rt, *old), text_of(&rt, *further)];
        let news = [text_of(&rt, *new), text_of(&rt, *further)];
        same(&rt, *which, refusal_of(&rt, &olds, &news), Some(refusal));
    }
}

#[test]
fn runs_of_as_many_texts_are_compared(rt: HostRuntime) {
    let olds = [text_of(&rt, SHORT), text_of(&rt, SHORT)];
    let news = [text_of(&rt, SHORT)];
    let uneven = Some(ComparisonError::Uneven);
    same(&rt, "uneven", refusal_of(&rt, &olds, &news), uneven);
    same(&rt, "even", refusal_of(&rt, &news, &news), None);
}
