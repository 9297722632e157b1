//! Parts of what `check --explain` explains. Written by tools/dev/write_explanations from explanations.txt.

use crate::explanations::Explanation;

/// The errors and warnings of part 0.
pub fn part_0() -> &'static [Explanation] {
    &PART_0
}

const PART_0: [Explanation; 9] = [
    Explanation {
        name: "1",
        head: "error[1] of rule texts: The byte begins no token.",
        rest: "  at: the byte\n  for example `@`: `@` has no meaning in this language\n",
        advice: "",
    },
    Explanation {
        name: "2",
        head: "error[2] of rule texts: The number is too large, is `0x` without digits, or has a letter or `_` directly after it.",
        rest: "  at: the number's first byte\n  for example `4294967296`: `4294967296` is too large\n  for example `0x`: `0x` is not a number\n",
        advice: "",
    },
    Explanation {
        name: "3",
        head: "error[3] of rule texts: The name has over 32 bytes.",
        rest: "  at: the name's first byte\n  for example a name of 33 letters: the name has 33 characters, at most 32 are allowed\n",
        advice: "",
    },
    Explanation {
        name: "4",
        head: "error[4] of rule texts: The quoted text is not closed, has over 31 characters, or has a character that may not stand in it.",
        rest: "  at: the quote, or the character\n  for example `\"low`: the quoted text has no closing quote on its line\n  for example a text of 32 letters: the quoted text has 32 characters, at most 31 are allowed\n  for example `\"±\"`: `±` may not stand in a quoted text\n",
        advice: "",
    },
    Explanation {
        name: "5",
        head: "error[5] of rule texts: The text has over 65,536 bytes.",
        rest: "  for example 65,537 blanks: the file is too long: at most 65,536 bytes are allowed\n",
        advice: "",
    },
    Explanation {
        name: "11",
        head: "error[11] of rule texts: No item can go on with this token.",
        rest: "  The message names the expected token, but not the tokens that may be left out.\n  at: the token, or the text's end\n  for example `packet P = mid 1 length`: expected a number, found the end of the file\n",
        advice: "",
    },
    Explanation {
        name: "12",
        head: "error[12] of rule texts: A condition has over 64 of `(`, `not`, `and`, `xor` and `or`.",
        rest: "  at: the 65th of them\n  for example 65 times `(`: a condition has over 64 of `(`, `not`, `and`, `xor` and `or`\n",
        advice: "",
    },
    Explanation {
        name: "21",
        head: "error[21] of rule texts: An earlier packet, field or rule has the same name.",
        rest: "  at: the later name\n  for example `packet P = mid 0x0883 length 16; packet P = mid 0x0884 length 16;`: the name `P` is declared twice\n",
        advice: "",
    },
    Explanation {
        name: "22",
        head: "error[22] of rule texts: No packet has this name, or in a condition no field.",
        rest: "  at: the name\n  for example `field V = P u8 at 0;`: no packet has the name `P`\n",
        advice: "",
    },
];

/// The errors and warnings of part 1.
pub fn part_1() -> &'static [Explanation] {
    &PART_1
}

const PART_1: [Explanation; 8] = [
    Explanation {
        name: "23",
        head: "error[23] of rule texts: The message id is outside 0x0800 to 0x0FFF.",
        rest: "  at: the number\n  for example `packet P = mid 0x1883 length 16;`: the message id `0x1883` is not one of telemetry\n",
        advice: "",
    },
    Explanation {
        name: "24",
        head: "error[24] of rule texts: The message id is one of the host's own.",
        rest: "  at: the number\n  for example `packet P = mid 0x0808 length 16;`: the message id `0x0808` is the host's own\n",
        advice: "",
    },
    Explanation {
        name: "25",
        head: "error[25] of rule texts: The field begins before its packet, or ends after its packet's declared length.",
        rest: "  at: the number of `at`\n  for example `packet P = mid 0x0883 length 16; field V = P u16be at 15;`: the field `V` extends past the end of its packet\n  for example `packet P = mid 0x0883 length 16; field V = P u16be at -1;`: the field `V` begins before its packet\n",
        advice: "",
    },
    Explanation {
        name: "26",
        head: "error[26] of rule texts: The mask is 0 or negative, or has a bit outside the field's type.",
        rest: "  at: the number\n  for example `packet P = mid 0x0883 length 16; field V = P u8 at 12 mask 0x100;`: the mask `0x100` is wider than the field\n  for example `packet P = mid 0x0883 length 16; field V = P u8 at 12 mask 0;`: a mask of 0 leaves no bit of the field\n  for example `packet P = mid 0x0883 length 16; field V = P u8 at 12 mask -1;`: a mask is not negative\n",
        advice: "",
    },
    Explanation {
        name: "27",
        head: "error[27] of rule texts: The number is outside the range of the field's type.",
        rest: "  at: the number\n  for example `V < -129` where V is an `i8`: the number `-129` is outside the type of `V`\n",
        advice: "",
    },
    Explanation {
        name: "28",
        head: "error[28] of rule texts: A number of a rule or a field is outside its range.",
        rest: "  The ranges: `fails` and `sequence` 1 to 65,535; event number 1,000 to 65,535; the numbers of `report` 0 to 255, 0 to 65,535 and 0 to 65,535; `stale` 0 or more.\n  at: the number\n  for example `fails 0`: the number of `fails` is out of range\n",
        advice: "",
    },
    Explanation {
        name: "29",
        head: "error[29] of rule texts: The length of a packet is outside 12 to 2,048.",
        rest: "  at: the number\n  for example `packet P = mid 0x0883 length 11;`: the packet length is out of range\n",
        advice: "",
    },
    Explanation {
        name: "31",
        head: "error[31] of rule texts: The text has over 176 different comparisons.",
        rest: "  at: the 177th comparison\n  for example 177 comparisons in twelve rules: the file has 177 different comparisons, at most 176 are allowed\n",
        advice: "",
    },
];

/// The errors and warnings of part 2.
pub fn part_2() -> &'static [Explanation] {
    &PART_2
}

const PART_2: [Explanation; 10] = [
    Explanation {
        name: "41",
        head: "error[41] of rule texts: The text has over 176 rules.",
        rest: "  at: the 177th rule\n  for example 177 rules: the file has 177 rules, at most 176 are allowed\n",
        advice: "",
    },
    Explanation {
        name: "42",
        head: "error[42] of rule texts: The condition of a rule has over 31 comparisons and operators.",
        rest: "  at: the rule's name\n  for example `not (a and b and .. and p)` over sixteen comparisons: the condition of `R` has 32 comparisons and operators, at most 31 are allowed\n",
        advice: "",
    },
    Explanation {
        name: "no-rules",
        head: "warning[no-rules] of rule texts: There is no rule, so nothing is sampled or requested.",
        rest: "  at: the text's end\n",
        advice: "did you mean `no-rules`?",
    },
    Explanation {
        name: "unused-field",
        head: "warning[unused-field] of rule texts: No condition compares the field.",
        rest: "  at: the field's name\n",
        advice: "did you mean `unused-field`?",
    },
    Explanation {
        name: "unused-packet",
        head: "warning[unused-packet] of rule texts: No condition compares a field of the packet.",
        rest: "  at: the packet's name\n",
        advice: "did you mean `unused-packet`?",
    },
    Explanation {
        name: "same-message-id",
        head: "warning[same-message-id] of rule texts: An earlier packet has the same message id.",
        rest: "  at: the later packet's name\n",
        advice: "did you mean `same-message-id`?",
    },
    Explanation {
        name: "overlapping-fields",
        head: "warning[overlapping-fields] of rule texts: Both fields read the same bit of packets.",
        rest: "  There is no warning for one field that is declared twice, or for a word and its bits: one type and offset, and one mask inside the other.\n  at: the later field's name\n",
        advice: "did you mean `overlapping-fields`?",
    },
    Explanation {
        name: "debug-event",
        head: "warning[debug-event] of rule texts: The rule's event has type `debug`, which is off until a command turns it on.",
        rest: "  at: the rule's name\n",
        advice: "did you mean `debug-event`?",
    },
    Explanation {
        name: "same-sequence",
        head: "warning[same-sequence] of rule texts: An earlier rule requests the same sequence.",
        rest: "  at: the number of `sequence`\n",
        advice: "did you mean `same-sequence`?",
    },
    Explanation {
        name: "never-fails",
        head: "warning[never-fails] of rule texts: No packets make the rule's condition true.",
        rest: "  Examples: `V < 2400 and V > 2600`, or `M == 0x10` under mask 0x0F. With the values shown the rule passes.\n  at: the rule's name\n",
        advice: "did you mean `never-fails`?",
    },
];

/// The errors and warnings of part 3.
pub fn part_3() -> &'static [Explanation] {
    &PART_3
}

const PART_3: [Explanation; 8] = [
    Explanation {
        name: "always-fails",
        head: "warning[always-fails] of rule texts: The rule's condition is true whenever all its fields are known, neither stale nor in error.",
        rest: "  at: the rule's name\n",
        advice: "did you mean `always-fails`?",
    },
    Explanation {
        name: "never-passes",
        head: "warning[never-passes] of rule texts: No packets make the rule's condition false.",
        rest: "  Whether some make it true is not known.\n  at: the rule's name\n",
        advice: "did you mean `never-passes`?",
    },
    Explanation {
        name: "not-known",
        head: "warning[not-known] of rule texts: Whether the rule can fail, or pass, is not known.",
        rest: "  Its fields share bits with each other or with their packet's header.\n  at: the rule's name\n",
        advice: "did you mean `not-known`?",
    },
    Explanation {
        name: "constant-comparison",
        head: "warning[constant-comparison] of rule texts: The comparison has the same result for every number that the field's type and mask allow.",
        rest: "  It still makes the rule stale while the field is stale.\n  at: the comparison\n",
        advice: "did you mean `constant-comparison`?",
    },
    Explanation {
        name: "fails-alike",
        head: "warning[fails-alike] of rule texts: While their fields are known, these rules always fail together.",
        rest: "  Their sequences and states may differ. One warning names the whole group.\n  at: the second rule's name\n",
        advice: "did you mean `fails-alike`?",
    },
    Explanation {
        name: "fails-wherever",
        head: "warning[fails-wherever] of rule texts: Both rules request the same sequence, and whenever this one fails and the other's fields are known, the other fails too.",
        rest: "  You can remove this rule if the other one has no greater `fails`, is at least as active, and its fields are known whenever this one's are. Of rules that fail alike with one sequence, only the first is named.\n  at: the name of the rule that fails less often\n",
        advice: "did you mean `fails-wherever`?",
    },
    Explanation {
        name: "spare-comparison",
        head: "warning[spare-comparison] of rule texts: While all its fields are known, the rule has the same result without this comparison.",
        rest: "  While the comparison's field is stale, results can differ: without the comparison the rule can fail then, or be stale where it failed.\n  at: the rule's name\n",
        advice: "did you mean `spare-comparison`?",
    },
    Explanation {
        name: "never-sampled",
        head: "warning[never-sampled] of rule texts: No tick of the schedule samples the rule (with `--schedule`).",
        rest: "  A command from the ground can still sample it.\n  at: the rule's name\n",
        advice: "did you mean `never-sampled`?",
    },
];
