//! The statements of scenarios that become commands or other lines, and the words of each.

use crate::statement::{Wanted, WordShape};
use lc_model::STATE_WORDS;

/// The word that stands for all rules.
pub const ALL: &[u8] = b"all";

/// The states that a rule can be set to.
const STATES: &[&[u8]] = &[b"active", b"passive", b"disabled", b"off"];

/// The last results that a rule can have.
const RESULTS: &[&[u8]] = &[b"none", b"pass", b"fail", b"stale", b"error"];

const MODE: Wanted = Wanted {
    what: "a mode",
    advice: "",
    shape: WordShape::OneOf(STATE_WORDS),
};

const RULE: Wanted = Wanted {
    what: "a rule's name",
    advice: "write the name of a rule",
    shape: WordShape::Name(usize::MAX),
};

const RULE_OR_ALL: Wanted = Wanted {
    what: "a rule's name",
    advice: "write the name of a rule, or `all`",
    shape: WordShape::Name(usize::MAX),
};

const STATE: Wanted = Wanted {
    what: "a state",
    advice: "",
    shape: WordShape::OneOf(STATES),
};

const RESULT: Wanted = Wanted {
    what: "a result",
    advice: "",
    shape: WordShape::OneOf(RESULTS),
};

const SENDER: Wanted = Wanted {
    what: "the name of an application",
    advice: "write `LC`, `SCH`, `COUNTER` or `HOST`",
    shape: WordShape::Name(20),
};

const EVENT: Wanted = Wanted {
    what: "the number of an event",
    advice: "write 0 to 65,535",
    shape: WordShape::AnyNumber(0, 65_535),
};

const MASK: Wanted = Wanted {
    what: "the mask of a filter",
    advice: "write 0 to 65,535, or the same in hexadecimal digits behind `0x`",
    shape: WordShape::AnyNumber(0, 65_535),
};

const FIELD: Wanted = Wanted {
    what: "a field's name",
    advice: "write the name of a field",
    shape: WordShape::Name(usize::MAX),
};

const FROM: Wanted = Wanted {
    what: "the first value",
    advice: "write a number",
    shape: WordShape::Value,
};

const TO: Wanted = Wanted {
    what: "the last value",
    advice: "write a number",
    shape: WordShape::Value,
};

const BY: Wanted = Wanted {
    what: "`by`",
    advice: "a ramp is `ramp FIELD FROM TO by STEP each SECONDS`",
    shape: WordShape::OneOf(&[b"by"]),
};

const STEP: Wanted = Wanted {
    what: "the step",
    advice: "write 1 to 4,294,967,295: the values go towards the last by themselves",
    shape: WordShape::AnyNumber(1, 4_294_967_295),
};

const EACH: Wanted = Wanted {
    what: "`each`",
    advice: "a ramp is `ramp FIELD FROM TO by STEP each SECONDS`",
    shape: WordShape::OneOf(&[b"each"]),
};

const PACE: Wanted = Wanted {
    what: "the seconds between two values",
    advice: "write 0 to 4,294,967,295",
    shape: WordShape::AnyNumber(0, 4_294_967_295),
};

const TICK: Wanted = Wanted {
    what: "`tick`, or the end of the line",
    advice: "write `tick` where a tick follows each value",
    shape: WordShape::OneOf(&[b"tick"]),
};

const TIMES: Wanted = Wanted {
    what: "how often",
    advice: "write 0 to 1,000,000",
    shape: WordShape::AnyNumber(0, 1_000_000),
};

const OPEN: Wanted = Wanted {
    what: "`{`",
    advice: "the lines that are repeated stand between `{` and `}`",
    shape: WordShape::OneOf(&[b"{"]),
};

const MODE_ORDER: &[Wanted] = &[MODE];

const STATE_ORDER: &[Wanted] = &[RULE_OR_ALL, STATE];

const FILTER_ORDER: &[Wanted] = &[SENDER, EVENT, MASK];

const REPEAT_ORDER: &[Wanted] = &[TIMES, OPEN];

/// What follows `expect state`.
pub const EXPECTED_STATE: &[Wanted] = &[RULE, STATE];

/// What follows `expect result`.
pub const EXPECTED_RESULT: &[Wanted] = &[RULE, RESULT];

/// What follows `ramp`, without `tick` and with it.
const RAMP: &[Wanted] = &[FIELD, FROM, TO, BY, STEP, EACH, PACE];

const RAMP_WITH_TICKS: &[Wanted] = &[FIELD, FROM, TO, BY, STEP, EACH, PACE, TICK];

/// The number of a ramp's word with the seconds between two values.
pub const PACE_PLACE: usize = 7;

/// The words that have to follow this first word, on a line with `count` words after it. None if the word begins no such statement.
pub fn order_words(verb: &[u8], count: usize) -> Option<&'static [Wanted]> {
    match verb {
        b"mode" => Some(MODE_ORDER),
        b"state" => Some(STATE_ORDER),
        b"filter" => Some(FILTER_ORDER),
        b"repeat" => Some(REPEAT_ORDER),
        b"ramp" => Some(if count > RAMP.len() {
            RAMP_WITH_TICKS
        } else {
            RAMP
        }),
        _ => None,
    }
}
