//! Parts of what `check --explain` explains. Written by tools/dev/write_explanations from explanations.txt.

use crate::explanations::Explanation;

/// The errors and warnings of part 4.
pub fn part_4() -> &'static [Explanation] {
    &PART_4
}

const PART_4: [Explanation; 15] = [
    Explanation {
        name: "unused-quiet",
        head: "warning[unused-quiet] of rule texts: A name in a `# quiet:` comment is unknown or silences nothing.",
        rest: "  `never-sampled` counts only with `--schedule`.\n  at: the comment's line\n",
        advice: "did you mean `unused-quiet`?",
    },
    Explanation {
        name: "51",
        head: "error[51] of table files: The file has under 116 bytes, the length of its two headers.",
        rest: "",
        advice: "",
    },
    Explanation {
        name: "52",
        head: "error[52] of table files: The content type of the file header is not `cFE1`.",
        rest: "",
        advice: "",
    },
    Explanation {
        name: "53",
        head: "error[53] of table files: The subtype of the file header is not 8.",
        rest: "",
        advice: "",
    },
    Explanation {
        name: "54",
        head: "error[54] of table files: The length in the file header is not 64.",
        rest: "",
        advice: "",
    },
    Explanation {
        name: "55",
        head: "error[55] of table files: The table header has an offset other than 0: the file is a partial load.",
        rest: "",
        advice: "",
    },
    Explanation {
        name: "56",
        head: "error[56] of table files: The length of the image is not that of the table header.",
        rest: "",
        advice: "",
    },
    Explanation {
        name: "61",
        head: "error[61] of table images: The version is not 1 in an image of watchpoints or of 15,176 bytes, or not 2 in one of 19,400 bytes.",
        rest: "",
        advice: "",
    },
    Explanation {
        name: "62",
        head: "error[62] of table images: The image is of the other kind of table.",
        rest: "",
        advice: "",
    },
    Explanation {
        name: "63",
        head: "error[63] of table images: The length is not 4,264 bytes for watchpoints, or not 15,176 or 19,400 bytes for actionpoints.",
        rest: "",
        advice: "",
    },
    Explanation {
        name: "64",
        head: "error[64] of table images: The image has over 176 entries or watchpoints; in an image of watchpoints the two counts differ.",
        rest: "",
        advice: "",
    },
    Explanation {
        name: "65",
        head: "error[65] of table images: An unused entry is not blank, or the zero field of a watchpoint is not 0.",
        rest: "",
        advice: "",
    },
    Explanation {
        name: "66",
        head: "error[66] of table images: The type of a watchpoint is not 1 to 10.",
        rest: "",
        advice: "",
    },
    Explanation {
        name: "67",
        head: "error[67] of table images: The comparison of a watchpoint is not 1 to 6.",
        rest: "",
        advice: "",
    },
    Explanation {
        name: "68",
        head: "error[68] of table images: A message id is outside 0x0800 to 0x0FFF, or is 0x0808 or 0x08A7, which are the host's own.",
        rest: "",
        advice: "",
    },
];

/// The errors and warnings of part 5.
pub fn part_5() -> &'static [Explanation] {
    &PART_5
}

const PART_5: [Explanation; 16] = [
    Explanation {
        name: "69",
        head: "error[69] of table images: A mask is 0 or wider than its type.",
        rest: "",
        advice: "",
    },
    Explanation {
        name: "70",
        head: "error[70] of table images: A number is outside the range of its type.",
        rest: "",
        advice: "",
    },
    Explanation {
        name: "71",
        head: "error[71] of table images: The state of an actionpoint is not 1 to 3.",
        rest: "",
        advice: "",
    },
    Explanation {
        name: "72",
        head: "error[72] of table images: An event type is not 1 to 4, or an event id is below 1,000.",
        rest: "",
        advice: "",
    },
    Explanation {
        name: "73",
        head: "error[73] of table images: A text is not 0 to 31 bytes from 0x20 to 0x7E without a quote, followed by zeros.",
        rest: "",
        advice: "",
    },
    Explanation {
        name: "74",
        head: "error[74] of table images: An equation has no EQUAL.",
        rest: "",
        advice: "",
    },
    Explanation {
        name: "75",
        head: "error[75] of table images: A word after the first EQUAL of an equation is not 0.",
        rest: "",
        advice: "",
    },
    Explanation {
        name: "76",
        head: "error[76] of table images: A word of an equation is neither a number below 176 nor an operator.",
        rest: "",
        advice: "",
    },
    Explanation {
        name: "77",
        head: "error[77] of table images: An equation names a watchpoint that the table does not have.",
        rest: "",
        advice: "",
    },
    Explanation {
        name: "78",
        head: "error[78] of table images: An operator of an equation has too few operands.",
        rest: "",
        advice: "",
    },
    Explanation {
        name: "79",
        head: "error[79] of table images: Over 8 operands of an equation wait at once.",
        rest: "",
        advice: "",
    },
    Explanation {
        name: "80",
        head: "error[80] of table images: An equation ends with more than one operand.",
        rest: "",
        advice: "",
    },
    Explanation {
        name: "81",
        head: "error[81] of table images: The sequence of an actionpoint, or its failures in a row, is 0.",
        rest: "",
        advice: "",
    },
    Explanation {
        name: "101",
        head: "error[101] of commands: The application is not registered with the event services.",
        rest: "",
        advice: "",
    },
    Explanation {
        name: "102",
        head: "error[102] of commands: The application has sixteen event filters already.",
        rest: "",
        advice: "",
    },
    Explanation {
        name: "111",
        head: "error[111] of commands: No file of this name is stored.",
        rest: "",
        advice: "",
    },
];

/// The errors and warnings of part 6.
pub fn part_6() -> &'static [Explanation] {
    &PART_6
}

const PART_6: [Explanation; 17] = [
    Explanation {
        name: "112",
        head: "error[112] of commands: The stored file is not a table file.",
        rest: "  The number after it, 51 to 56, is the reason.\n",
        advice: "",
    },
    Explanation {
        name: "113",
        head: "error[113] of commands: No table has this name.",
        rest: "",
        advice: "",
    },
    Explanation {
        name: "114",
        head: "error[114] of commands: The image has the wrong size for its table.",
        rest: "",
        advice: "",
    },
    Explanation {
        name: "115",
        head: "error[115] of commands: An activated image waits for its adoption.",
        rest: "",
        advice: "",
    },
    Explanation {
        name: "116",
        head: "error[116] of commands: The table has no waiting image.",
        rest: "",
        advice: "",
    },
    Explanation {
        name: "117",
        head: "error[117] of commands: The waiting image has no verdict that it is valid.",
        rest: "",
        advice: "",
    },
    Explanation {
        name: "118",
        head: "error[118] of commands: Eight files of other names are stored already.",
        rest: "",
        advice: "",
    },
    Explanation {
        name: "119",
        head: "error[119] of commands: The file has over 32,768 bytes.",
        rest: "",
        advice: "",
    },
    Explanation {
        name: "121",
        head: "error[121] of commands: The application does not run.",
        rest: "",
        advice: "",
    },
    Explanation {
        name: "122",
        head: "error[122] of commands: No spare of this application is left.",
        rest: "  In stock are four LC, two SCH and two COUNTER.\n",
        advice: "",
    },
    Explanation {
        name: "123",
        head: "error[123] of commands: The application runs already.",
        rest: "",
        advice: "",
    },
    Explanation {
        name: "124",
        head: "error[124] of commands: Eight applications run already.",
        rest: "",
        advice: "",
    },
    Explanation {
        name: "151",
        head: "error[151] of commands: The command's code is unknown.",
        rest: "",
        advice: "",
    },
    Explanation {
        name: "152",
        head: "error[152] of commands: The command's payload has the wrong length.",
        rest: "",
        advice: "",
    },
    Explanation {
        name: "153",
        head: "error[153] of commands: There is no such rule or range of rules.",
        rest: "",
        advice: "",
    },
    Explanation {
        name: "154",
        head: "error[154] of commands: There is no such mode or state.",
        rest: "",
        advice: "",
    },
    Explanation {
        name: "155",
        head: "error[155] of commands: The rule is off for good; or it would be turned off for good, and is not disabled.",
        rest: "",
        advice: "",
    },
];

/// The errors and warnings of part 7.
pub fn part_7() -> &'static [Explanation] {
    &PART_7
}

const PART_7: [Explanation; 11] = [
    Explanation {
        name: "131",
        head: "error[131] of schedules: A schedule has no such line, or no line sets the number of slots.",
        rest: "  at: the word, or the text's end\n  for example `slots two`: expected the number of slots, found `two`\n  for example `slots 0`: a schedule has 1 to 64 slots, and not `0`\n  for example `0 sample 0 175 age`: expected `slots`, found `0`\n  for example `# none`: no line says how many slots there are\n",
        advice: "",
    },
    Explanation {
        name: "132",
        head: "error[132] of schedules: The schedule has over 64 slots.",
        rest: "  at: the number\n  for example `slots 65`: a schedule has 1 to 64 slots, and not `65`\n",
        advice: "",
    },
    Explanation {
        name: "133",
        head: "error[133] of schedules: A slot has over eight entries.",
        rest: "  at: the ninth entry\n  for example nine entries: slot `0` has over 8 entries\n",
        advice: "",
    },
    Explanation {
        name: "141",
        head: "error[141] of runs: The next bytes of the stream are not a record.",
        rest: "  The kind is unknown, the length does not fit, or the record names a rule text that is not given.\n",
        advice: "",
    },
    Explanation {
        name: "142",
        head: "error[142] of runs: The stream ends inside a record.",
        rest: "",
        advice: "",
    },
    Explanation {
        name: "143",
        head: "error[143] of runs: A read of the stream failed.",
        rest: "",
        advice: "",
    },
    Explanation {
        name: "144",
        head: "error[144] of runs: A write of the output failed.",
        rest: "",
        advice: "",
    },
    Explanation {
        name: "145",
        head: "error[145] of runs: The stream has not ended after 2^32 reads.",
        rest: "",
        advice: "",
    },
    Explanation {
        name: "nothing-sampled",
        head: "warning[nothing-sampled] of runs: No rule was sampled in the whole run, so it shows nothing, good or bad; the status is 6.",
        rest: "  Without tables, `LC`, `SCH`, ticks and a schedule that samples nothing is sampled, nor while `LC` or all rules are disabled.\n",
        advice: "did you mean `nothing-sampled`?",
    },
    Explanation {
        name: "not-sampled",
        head: "warning[not-sampled] of runs: These rules, or no rule of these rule texts, were sampled in the run, though others were.",
        rest: "  A rule is not sampled while it is disabled, while other tables are in force, or where the schedule leaves it out.\n",
        advice: "did you mean `not-sampled`?",
    },
    Explanation {
        name: "always-stale",
        head: "warning[always-stale] of runs: These rules were stale in each of their samples.",
        rest: "",
        advice: "did you mean `always-stale`?",
    },
];
