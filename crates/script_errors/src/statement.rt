//! The statements of scripts, and the words of each.

use crate::entry::{AGES, AGES_ADVICE, RULES_ADVICE};
use lc_model::TYPE_WORDS;

/// The required shape of a word.
#[derive(Clone, Copy)]
pub enum WordShape {
    /// A number in decimal digits, from the first number to the second.
    Number(u64, u64),
    /// The same, or in up to eight hexadecimal digits after `0x`.
    AnyNumber(u64, u64),
    /// A decimal or hexadecimal number below 2^32, with or without `-` in front.
    Value,
    /// Four hexadecimal digits.
    MessageId,
    /// `-` for no bytes, or two hexadecimal digits for each byte.
    Bytes,
    /// A name of at most this number of bytes.
    Name(usize),
    /// One of these words.
    OneOf(&'static [&'static [u8]]),
}

/// A required word, as messages describe it.
#[derive(Clone, Copy)]
pub struct Wanted {
    /// What it is, after "expected".
    pub what: &'static str,
    /// What to write; empty if it is one of its shape's words.
    pub advice: &'static str,
    /// Its shape.
    pub shape: WordShape,
}

/// A statement.
#[derive(Clone, Copy)]
pub struct Statement {
    /// Its first word.
    pub verb: &'static [u8],
    /// The words that follow.
    pub wanted: &'static [Wanted],
    /// Whether fields of three words each follow these.
    pub has_fields: bool,
}

const KINDS: &[&[u8]] = &[b"packet", b"tick", b"file", b"half"];

const SECONDS: Wanted = Wanted {
    what: "the seconds",
    advice: "write 0 to 4,294,967,295",
    shape: WordShape::Number(0, 4_294_967_295),
};

const PART: Wanted = Wanted {
    what: "the part of a second",
    advice: "write 0 to 65,535, which are 65,536ths of a second",
    shape: WordShape::Number(0, 65_535),
};

const MESSAGE_ID: Wanted = Wanted {
    what: "a message id",
    advice: "write four hexadecimal digits",
    shape: WordShape::MessageId,
};

const COUNT: Wanted = Wanted {
    what: "the sequence count",
    advice: "write 0 to 16,383",
    shape: WordShape::Number(0, 16_383),
};

const LENGTH: Wanted = Wanted {
    what: "the packet's length",
    advice: "write 12 to 2,048",
    shape: WordShape::Number(12, 2_048),
};

const CODE: Wanted = Wanted {
    what: "the command's code",
    advice: "write 0 to 127",
    shape: WordShape::Number(0, 127),
};

const BYTES: Wanted = Wanted {
    what: "the bytes",
    advice: "write two hexadecimal digits for each byte, or `-` for none",
    shape: WordShape::Bytes,
};

const FIRST: Wanted = Wanted {
    what: "the first rule's number",
    advice: RULES_ADVICE,
    shape: WordShape::Number(0, 65_535),
};

const LAST: Wanted = Wanted {
    what: "the last rule's number",
    advice: RULES_ADVICE,
    shape: WordShape::Number(0, 65_535),
};

const AGE: Wanted = Wanted {
    what: "`age` or `keep`",
    advice: AGES_ADVICE,
    shape: WordShape::OneOf(AGES),
};

const APPLICATION: Wanted = Wanted {
    what: "the name of an application",
    advice: "write `LC`, `SCH` or `COUNTER`",
    shape: WordShape::Name(20),
};

const FILE: Wanted = Wanted {
    what: "the name of a file",
    advice: "write at most 40 bytes",
    shape: WordShape::Name(40),
};

const TABLE: Wanted = Wanted {
    what: "the name of a table",
    advice: "write `LC.LC_WDT` or `LC.LC_ADT`",
    shape: WordShape::Name(40),
};

const TEXT: Wanted = Wanted {
    what: "the number of a rule text",
    advice: "write 0 to 65,535",
    shape: WordShape::Number(0, 65_535),
};

const KIND: Wanted = Wanted {
    what: "a kind of record",
    advice: "",
    shape: WordShape::OneOf(KINDS),
};

/// The first word of a field.
pub const TYPE: Wanted = Wanted {
    what: "the type of a field",
    advice: "",
    shape: WordShape::OneOf(TYPE_WORDS),
};

/// The second word of a field.
pub const OFFSET: Wanted = Wanted {
    what: "the place of the field",
    advice: "write how many bytes of the packet stand before it",
    shape: WordShape::Number(0, 4_294_967_295),
};

/// All statements, in the order of the documents.
const STATEMENTS: &[Statement] = &[
    Statement {
        verb: b"at",
        wanted: &[SECONDS, PART],
        has_fields: false,
    },
    Statement {
        verb: b"after",
        wanted: &[SECONDS],
        has_fields: false,
    },
    Statement {
        verb: b"fields",
        wanted: &[MESSAGE_ID, COUNT, LENGTH],
        has_fields: true,
    },
    Statement {
        verb: b"telemetry",
        wanted: &[MESSAGE_ID, COUNT, BYTES],
        has_fields: false,
    },
    Statement {
        verb: b"command",
        wanted: &[MESSAGE_ID, CODE, BYTES],
        has_fields: false,
    },
    Statement {
        verb: b"tick",
        wanted: &[],
        has_fields: false,
    },
    Statement {
        verb: b"sample",
        wanted: &[FIRST, LAST, AGE],
        has_fields: false,
    },
    Statement {
        verb: b"housekeeping",
        wanted: &[],
        has_fields: false,
    },
    Statement {
        verb: b"start",
        wanted: &[APPLICATION],
        has_fields: false,
    },
    Statement {
        verb: b"stop",
        wanted: &[APPLICATION],
        has_fields: false,
    },
    Statement {
        verb: b"restart",
        wanted: &[APPLICATION],
        has_fields: false,
    },
    Statement {
        verb: b"reload",
        wanted: &[APPLICATION],
        has_fields: false,
    },
    Statement {
        verb: b"load",
        wanted: &[FILE],
        has_fields: false,
    },
    Statement {
        verb: b"validate",
        wanted: &[TABLE],
        has_fields: false,
    },
    Statement {
        verb: b"activate",
        wanted: &[TABLE],
        has_fields: false,
    },
    Statement {
        verb: b"abort",
        wanted: &[TABLE],
        has_fields: false,
    },
    Statement {
        verb: b"wdt",
        wanted: &[TEXT, FILE],
        has_fields: false,
    },
    Statement {
        verb: b"adt",
        wanted: &[TEXT, FILE],
        has_fields: false,
    },
    Statement {
        verb: b"file",
        wanted: &[FILE, BYTES],
        has_fields: false,
    },
    Statement {
        verb: b"packet",
        wanted: &[BYTES],
        has_fields: false,
    },
    Statement {
        verb: b"record",
        wanted: &[SECONDS, PART, KIND, BYTES],
        has_fields: false,
    },
];

/// The first words of all lines, also of scenarios and expectations.
pub const VERBS: &[&[u8]] = &[
    b"at",
    b"after",
    b"fields",
    b"telemetry",
    b"command",
    b"tick",
    b"sample",
    b"housekeeping",
    b"start",
    b"stop",
    b"restart",
    b"reload",
    b"load",
    b"validate",
    b"activate",
    b"abort",
    b"wdt",
    b"adt",
    b"file",
    b"packet",
    b"record",
    b"mode",
    b"state",
    b"filter",
    b"ramp",
    b"repeat",
    b"}",
    b"expect",
];

/// The statement that begins with this word, if there is one.
pub fn statement_of(verb: &[u8]) -> Option<Statement> {
    STATEMENTS
        .iter()
        .find(|statement| statement.verb == verb)
        .copied()
}
