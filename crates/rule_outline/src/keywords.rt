//! The words of the rule language, as docs/RULES.md explains them. Written by tools/dev/write_explanations.

/// Words of the language with one explanation.
pub struct Keyword {
    /// The words.
    pub words: &'static [&'static [u8]],
    /// The first sentence, as plain text.
    pub first: &'static str,
    /// All sentences, in Markdown.
    pub text: &'static str,
}

/// The words that have an explanation.
pub const KEYWORDS: [Keyword; 16] = [
    Keyword {
        words: &[b"packet"],
        first: "packet NAME = mid NUM length NUM ;",
        text: "`packet NAME = mid NUM length NUM ;`\n\nPackets, fields and rules share one space of names, and a name may be used before its declaration.",
    },
    Keyword {
        words: &[b"field"],
        first: "field NAME = NAME TYPE at NUM [ mask NUM ] [ stale NUM ] ;",
        text: "`field NAME = NAME TYPE at NUM [ mask NUM ] [ stale NUM ] ;`\n\nPackets, fields and rules share one space of names, and a name may be used before its declaration.",
    },
    Keyword {
        words: &[b"rule"],
        first: "rule NAME STATE fails NUM sequence NUM event LEVEL NUM STRING [ report NUM NUM NUM ] when cond ;",
        text: "`rule NAME STATE fails NUM sequence NUM event LEVEL NUM STRING [ report NUM NUM NUM ] when cond ;`\n\nPackets, fields and rules share one space of names, and a name may be used before its declaration.",
    },
    Keyword {
        words: &[b"mid"],
        first: "mid is the packet's message id (CCSDS 133.0-B), 0x0800 to 0x0FFF: telemetry.",
        text: "**`mid`** is the packet's message id (CCSDS 133.0-B), 0x0800 to 0x0FFF: telemetry. 0x0808 and 0x08A7 are the host's own.",
    },
    Keyword {
        words: &[b"length"],
        first: "length is the declared number of bytes, 12 to 2,048.",
        text: "**`length`** is the declared number of bytes, 12 to 2,048. Fields have to lie inside it. If a packet is shorter, the fields beyond its end are errors.",
    },
    Keyword {
        words: &[
            b"u8", b"i8", b"u16be", b"u16le", b"i16be", b"i16le", b"u32be", b"u32le", b"i32be",
            b"i32le",
        ],
        first: "TYPE is u8 i8 u16be u16le i16be i16le u32be u32le i32be i32le: unsigned or signed, 8, 16 or 32 bits, high byte first (be) or last (le).",
        text: "**TYPE** is `u8 i8 u16be u16le i16be i16le u32be u32le i32be i32le`: unsigned or signed, 8, 16 or 32 bits, high byte first (`be`) or last (`le`).",
    },
    Keyword {
        words: &[b"at"],
        first: "at is the number of bytes before the field, headers included.",
        text: "**`at`** is the number of bytes before the field, headers included.",
    },
    Keyword {
        words: &[b"mask"],
        first: "mask says which bits count (default: all).",
        text: "**`mask`** says which bits count (default: all). The others are taken as 0 before the sign is read. It does not shift: compare a field under mask 0xF0 with 0x80, and not with 8.",
    },
    Keyword {
        words: &[b"stale"],
        first: "stale is the number of agings without a packet after which the field is stale.",
        text: "**`stale`** is the number of agings without a packet after which the field is stale. 0, or no `stale`, means never. A sample request with `age` ages all fields.",
    },
    Keyword {
        words: &[b"active", b"passive", b"disabled"],
        first: "STATE is the state in which the rule begins: active, passive or disabled.",
        text: "**STATE** is the state in which the rule begins: `active`, `passive` or `disabled`. A passive rule is sampled and counts its failures, but requests nothing. A disabled rule is not sampled.",
    },
    Keyword {
        words: &[b"fails", b"sequence"],
        first: "fails is how many failed samples in a row make an active rule request its sequence and become passive.",
        text: "**`fails`** is how many failed samples in a row make an active rule request its **`sequence`** and become passive. Failures also count while the rule or the Limit Checker is passive.",
    },
    Keyword {
        words: &[b"event", b"debug", b"info", b"error", b"critical"],
        first: "event has the type (LEVEL: debug, info, error, critical), number and text of the event that goes with the request.",
        text: "**`event`** has the type (LEVEL: `debug`, `info`, `error`, `critical`), number and text of the event that goes with the request. Events of type `debug` are off until a command turns them on.",
    },
    Keyword {
        words: &[b"report"],
        first: "report has three limits: the most events for failures while passive, for turns from pass to fail, and for turns from fail to pass (default: 0 each).",
        text: "**`report`** has three limits: the most events for failures while passive, for turns from pass to fail, and for turns from fail to pass (default: 0 each).",
    },
    Keyword {
        words: &[b"when"],
        first: "when has the condition.",
        text: "**`when`** has the condition. The rule **fails** if it is true and **passes** if it is false. A stale or error result is neither, and ends a row of failures.",
    },
    Keyword {
        words: &[b"<", b"<=", b"!=", b"==", b">=", b">"],
        first: "OP is <, <=, !=, ==, >= or >, with a field on its left and a number on its right.",
        text: "OP is `<`, `<=`, `!=`, `==`, `>=` or `>`, with a field on its left and a number on its right.",
    },
    Keyword {
        words: &[b"not", b"and", b"xor", b"or"],
        first: "not binds tightest, then and, xor, or: a or b xor c and d is a or (b xor (c and d)).",
        text: "`not` binds tightest, then `and`, `xor`, `or`: `a or b xor c and d` is `a or (b xor (c and d))`. A chain of one operator is taken from the left.\n\nFalse decides an `and`, true an `or`; else an error wins over a stale, and a stale over the rest. `xor` is an error if an operand is, else stale if an operand is. `not` keeps errors and stales.",
    },
];
