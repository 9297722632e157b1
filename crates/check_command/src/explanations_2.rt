//! Parts of what `check --explain` explains. Written by tools/dev/write_explanations from explanations.txt.

use crate::explanations::Explanation;

/// The errors and warnings of part 8.
pub fn part_8() -> &'static [Explanation] {
    &PART_8
}

const PART_8: [Explanation; 10] = [
    Explanation {
        name: "no-packet",
        head: "warning[no-packet] of runs: No packet of this message id came, which the rule text names.",
        rest: "",
        advice: "did you mean `no-packet`?",
    },
    Explanation {
        name: "unsampled",
        head: "warning[unsampled] of runs: The schedule asks for samples of this rule, and for this time none came.",
        rest: "  Gaps between samples count that last longer than two cycles of the schedule.\n",
        advice: "did you mean `unsampled`?",
    },
    Explanation {
        name: "steps-back",
        head: "warning[steps-back] of runs: Records were earlier than the one before them; their number stands there.",
        rest: "",
        advice: "did you mean `steps-back`?",
    },
    Explanation {
        name: "ungiven-tables",
        head: "warning[ungiven-tables] of runs: Rules were sampled with tables of none of the given rule texts; the number of these samples stands there.",
        rest: "",
        advice: "did you mean `ungiven-tables`?",
    },
    Explanation {
        name: "161",
        head: "error[161] of scripts: A script has no such statement: its first word, its number of words, or another word is wrong.",
        rest: "  at: the word\n  for example `tock`: expected a statement, found `tock`\n  for example `at 100`: expected the part of a second, found the end of the line\n",
        advice: "",
    },
    Explanation {
        name: "162",
        head: "error[162] of scripts: A word is not a number, or the number is outside its range.",
        rest: "  at: the number\n  for example `at 100 65536`: `65536` is too large\n  for example `fields 0883 0 16 u8 12 256`: the number `256` is outside the type of the field\n",
        advice: "",
    },
    Explanation {
        name: "163",
        head: "error[163] of scripts: Bytes or a message id are not written in hexadecimal digits, or have the wrong number of digits.",
        rest: "  at: the word\n  for example `packet 123`: `123` has an odd number of digits, 3\n  for example `fields 883 0 16`: a message id has 4 digits, and `883` has 3\n",
        advice: "",
    },
    Explanation {
        name: "164",
        head: "error[164] of scripts: There is no such kind of record.",
        rest: "  at: the word\n  for example `record 0 0 tock -`: expected a kind of record, found `tock`\n",
        advice: "",
    },
    Explanation {
        name: "165",
        head: "error[165] of scripts: There is no such type of a field.",
        rest: "  at: the word\n  for example `fields 0883 0 16 u9 12 0`: expected the type of a field, found `u9`\n",
        advice: "",
    },
    Explanation {
        name: "166",
        head: "error[166] of scripts: A field lies outside its packet, or in its packet's headers.",
        rest: "  at: the number\n  for example `fields 0883 0 16 u16be 15 0`: the field extends past the end of its packet\n",
        advice: "",
    },
];

/// The errors and warnings of part 9.
pub fn part_9() -> &'static [Explanation] {
    &PART_9
}

const PART_9: [Explanation; 10] = [
    Explanation {
        name: "167",
        head: "error[167] of scripts: The record cannot have these bytes.",
        rest: "  at: the word\n  for example `record 0 0 tick 00`: a tick has no bytes\n",
        advice: "",
    },
    Explanation {
        name: "168",
        head: "error[168] of scripts: The name is too long.",
        rest: "  at: the name\n  for example `start ABCDEFGHIJKLMNOPQRSTU`: the name has 21 bytes, at most 20 are allowed\n",
        advice: "",
    },
    Explanation {
        name: "169",
        head: "error[169] of scripts: A line that uses the names of a rule text is wrong.",
        rest: "  at: the word\n  for example `mode off`: expected a mode, found `off`\n",
        advice: "",
    },
    Explanation {
        name: "170",
        head: "error[170] of scripts: An expectation is wrong.",
        rest: "  at: the word\n  for example `expect state LOW`: expected a state, found the end of the line\n",
        advice: "",
    },
    Explanation {
        name: "message-id",
        head: "warning[message-id] of scripts: The message id is not one of telemetry (0800 to 0FFF), or for `command` not one of a command (1800 to 1FFF).",
        rest: "  at: the message id\n  for example `telemetry 1883 0 -`: the message id `1883` is not one of telemetry\n",
        advice: "did you mean `message-id`?",
    },
    Explanation {
        name: "unknown-application",
        head: "warning[unknown-application] of scripts: No application of this profile has the name.",
        rest: "  at: the name\n  for example `start LX`: no application has the name `LX`\n",
        advice: "did you mean `unknown-application`?",
    },
    Explanation {
        name: "unknown-table",
        head: "warning[unknown-table] of scripts: No table of this profile has the name.",
        rest: "  at: the name\n  for example `validate LC.LC`: no table has the name `LC.LC`\n",
        advice: "did you mean `unknown-table`?",
    },
    Explanation {
        name: "left-out",
        head: "warning[left-out] of scripts: The block is repeated 0 times: its lines and their expectations are left out.",
        rest: "  at: the number\n  for example a block that is repeated 0 times: the lines of this block are left out, and so are their expectations\n",
        advice: "did you mean `left-out`?",
    },
    Explanation {
        name: "171",
        head: "error[171] of trials: The run stops at this line's record, or the rule text in force there cannot be determined.",
        rest: "  at: the line\n  for example `wdt 1 /cf/w`: the run stops here: no rule text of this number is given\n",
        advice: "",
    },
    Explanation {
        name: "172",
        head: "error[172] of trials: No given rule text has the rule of this expectation.",
        rest: "  at: the line\n  for example `expect state NONE active`: no rule text that is given has this rule\n",
        advice: "",
    },
];

/// The errors and warnings of part 10.
pub fn part_10() -> &'static [Explanation] {
    &PART_10
}

const PART_10: [Explanation; 10] = [
    Explanation {
        name: "unmet",
        head: "error[unmet] of trials: The expectation is not met.",
        rest: "  The message ends with what came instead.\n  at: the line\n",
        advice: "did you mean `unmet`?",
    },
    Explanation {
        name: "rule-number",
        head: "warning[rule-number] of trials: The rule texts give the named rule different numbers; the text in force decides.",
        rest: "  at: the line\n",
        advice: "did you mean `rule-number`?",
    },
    Explanation {
        name: "rule-text",
        head: "warning[rule-text] of trials: The named rule is one of a rule text that is not in force here, or the tables in force are of no given text; the rule of the same number in the tables in force is used.",
        rest: "  at: the line\n",
        advice: "did you mean `rule-text`?",
    },
    Explanation {
        name: "no-record",
        head: "warning[no-record] of trials: The run has no record in these seconds, so nothing can come then, whatever the rules are.",
        rest: "  at: the line\n",
        advice: "did you mean `no-record`?",
    },
    Explanation {
        name: "unknown-number",
        head: "warning[unknown-number] of trials: The line expects that a sequence or an event does not come, and no given rule text has its number.",
        rest: "  at: the line\n",
        advice: "did you mean `unknown-number`?",
    },
    Explanation {
        name: "rule-not-sampled",
        head: "warning[rule-not-sampled] of trials: The line expects that a sequence or an event does not come, but no rule that leads to it was sampled in these seconds, so it could not come.",
        rest: "  Of a rule that a command switched off nothing is said.\n  at: the line\n",
        advice: "did you mean `rule-not-sampled`?",
    },
    Explanation {
        name: "rule-stale",
        head: "warning[rule-stale] of trials: The line expects that a sequence or an event does not come, but each rule that leads to it was stale or in error in these seconds, so it could not come.",
        rest: "  at: the line\n",
        advice: "did you mean `rule-stale`?",
    },
    Explanation {
        name: "type-off",
        head: "warning[type-off] of trials: The line expects that an event does not come, but events of its type were off for the Limit Checker whenever its rule had a result in these seconds.",
        rest: "  at: the line\n",
        advice: "did you mean `type-off`?",
    },
    Explanation {
        name: "nothing-ran",
        head: "warning[nothing-ran] of trials: The line expects something of the Limit Checker, and nothing came from it in the whole run.",
        rest: "  at: the line\n",
        advice: "did you mean `nothing-ran`?",
    },
    Explanation {
        name: "nothing-tried",
        head: "warning[nothing-tried] of trials: The script expects nothing, and nothing came.",
        rest: "  at: the first line\n",
        advice: "did you mean `nothing-tried`?",
    },
];
