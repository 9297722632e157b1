//! The words of each command, with their help.

/// How a word stands on the command line, and how often.
#[derive(Clone, Copy)]
pub enum Form {
    /// `--name`, or nothing.
    Flag,
    /// `--name VALUE`, or nothing.
    Option,
    /// `--name VALUE`, any number of times.
    Options,
    /// `--name VALUE`, once.
    Needed,
    /// `--name VALUE`, once or more often.
    NeededOnce,
    /// `--name` or `--name VALUE`, in place of all other words.
    Alone,
    /// A file.
    File,
    /// A file, or nothing.
    FileOrNone,
    /// One file or more.
    Files,
    /// Any number of files.
    FilesOrNone,
}

/// A word of a command.
#[derive(Clone, Copy)]
pub struct WordEntry {
    /// The name: of an option in small letters, of a file in capitals.
    pub name: &'static str,
    /// The name of its value in the help; empty for a flag.
    pub value: &'static str,
    /// How it stands on the command line.
    pub form: Form,
    /// Its help.
    pub help: &'static str,
}

/// The schedule of a run.
const SCHEDULE: WordEntry = WordEntry {
    name: "schedule",
    value: "SCHEDULE",
    form: Form::Needed,
    help: "The schedule: which rules are sampled at which tick",
};

/// A stream that is read.
const STREAM: WordEntry = WordEntry {
    name: "stream",
    value: "STREAM",
    form: Form::Needed,
    help: "The stream to read",
};

/// The rule texts of a run.
const RUN_RULES: WordEntry = WordEntry {
    name: "RULES",
    value: "RULES",
    form: Form::Files,
    help: "The rule texts, numbered from 0",
};

/// The rule texts whose names a listing shows.
const NAMING_RULES: WordEntry = WordEntry {
    name: "RULES",
    value: "RULES",
    form: Form::FilesOrNone,
    help: "Show rules by their names in these texts, numbered from 0",
};

/// `--strict`.
const STRICT: WordEntry = WordEntry {
    name: "strict",
    value: "",
    form: Form::Flag,
    help: "Exit with status 1 if there is a warning",
};

/// `--csv`.
const CSV: WordEntry = WordEntry {
    name: "csv",
    value: "",
    form: Form::Flag,
    help: "Write comma-separated values (RFC 4180)",
};

/// `--json`.
const JSON: WordEntry = WordEntry {
    name: "json",
    value: "",
    form: Form::Flag,
    help: "Write one JSON object per line",
};

/// `--epoch` for rows.
const ROW_EPOCH: WordEntry = WordEntry {
    name: "epoch",
    value: "TIME",
    form: Form::Option,
    help: "The UTC time of second 0, for example 2000-01-01T12:00:00Z (only with --csv or --json)",
};

/// The rule text that is changed.
const OLD: WordEntry = WordEntry {
    name: "OLD",
    value: "OLD",
    form: Form::File,
    help: "The old rule text",
};

/// The rule text after a change.
const NEW: WordEntry = WordEntry {
    name: "NEW",
    value: "NEW",
    form: Form::File,
    help: "The new rule text",
};

/// The words of `check`.
pub const CHECK: [WordEntry; 6] = [
    WordEntry {
        name: "schedule",
        value: "SCHEDULE",
        form: Form::Option,
        help: "Also warn of rules that this schedule never samples",
    },
    WordEntry {
        name: "all",
        value: "",
        form: Form::Flag,
        help: "Show for each rule values for which it fails and for which it passes",
    },
    STRICT,
    JSON,
    WordEntry {
        name: "explain",
        value: "NAME",
        form: Form::Alone,
        help: "Explain an error by its number or a warning by its name; without NAME, list them all",
    },
    WordEntry {
        name: "RULES",
        value: "RULES",
        form: Form::Files,
        help: "The rule texts",
    },
];

/// The words of `format`.
pub const FORMAT: [WordEntry; 2] = [
    WordEntry {
        name: "check",
        value: "",
        form: Form::Flag,
        help: "Write nothing; list the files that differ, and exit with status 1 if there are any",
    },
    WordEntry {
        name: "RULES",
        value: "RULES",
        form: Form::Files,
        help: "The rule texts; - for standard input, laid out to standard output",
    },
];

/// The words of `try`.
pub const TRY: [WordEntry; 4] = [
    STRICT,
    WordEntry {
        name: "script",
        value: "SCRIPT",
        form: Form::NeededOnce,
        help: "The script to run; repeat the option for further scripts, each with a run of its own",
    },
    SCHEDULE,
    RUN_RULES,
];

/// The words of `compare`.
pub const COMPARE: [WordEntry; 7] = [
    SCHEDULE,
    STREAM,
    WordEntry {
        name: "json",
        value: "",
        form: Form::Flag,
        help: "Write one JSON object, with all requests and events of both runs",
    },
    WordEntry {
        name: "fail-on",
        value: "WHAT",
        form: Form::Option,
        help: "Exit with status 1 only for this: new-requests, requests or differences (the default)",
    },
    WordEntry {
        name: "with",
        value: "RULES",
        form: Form::Options,
        help: "A rule text that the stream uploads, as text 1; repeat the option for text 2 and so on",
    },
    OLD,
    NEW,
];

/// The words of `changes`.
pub const CHANGES: [WordEntry; 2] = [OLD, NEW];

/// The words of `import`.
pub const IMPORT: [WordEntry; 13] = [
    WordEntry {
        name: "marked",
        value: "",
        form: Form::Flag,
        help: "Each packet has a marker (1ACFFC1D) before it",
    },
    WordEntry {
        name: "resync",
        value: "",
        form: Form::Flag,
        help: "Skip bytes that begin no plausible packet, and report them",
    },
    WordEntry {
        name: "keep-idle",
        value: "",
        form: Form::Flag,
        help: "Take idle packets too",
    },
    WordEntry {
        name: "keep-faulty",
        value: "",
        form: Form::Flag,
        help: "Take packets with a fault too; the host reports them",
    },
    WordEntry {
        name: "only",
        value: "MID,..",
        form: Form::Option,
        help: "Take only packets with these message ids, separated by commas: 0x0883,0x0884",
    },
    WordEntry {
        name: "time-at",
        value: "BYTE",
        form: Form::Option,
        help: "The offset of the time in each packet, in bytes [default: 6]",
    },
    WordEntry {
        name: "subtract",
        value: "SECONDS",
        form: Form::Option,
        help: "Seconds to subtract from each time [default: 0]",
    },
    WordEntry {
        name: "step",
        value: "SECONDS",
        form: Form::Option,
        help: "Seconds between packets, for packets without a time (not with --time-at or --subtract)",
    },
    WordEntry {
        name: "tick",
        value: "SECONDS",
        form: Form::Option,
        help: "Seconds between ticks; without it there are no ticks, and the schedule samples nothing",
    },
    WordEntry {
        name: "start",
        value: "TEXT",
        form: Form::Option,
        help: "Begin with the tables of the rule text of this number, and start LC and SCH",
    },
    STRICT,
    WordEntry {
        name: "out",
        value: "STREAM",
        form: Form::Needed,
        help: "The stream to write; - for standard output",
    },
    WordEntry {
        name: "RAW",
        value: "RAW",
        form: Form::Files,
        help: "The archives of packets, in the order of time; - for standard input",
    },
];

/// The words of `export`.
pub const EXPORT: [WordEntry; 2] = [
    STREAM,
    WordEntry {
        name: "out",
        value: "RAW",
        form: Form::Needed,
        help: "The archive of packets to write",
    },
];

/// The words of `scenario`.
pub const SCENARIO: [WordEntry; 3] = [
    WordEntry {
        name: "script",
        value: "SCRIPT",
        form: Form::Needed,
        help: "The script to read",
    },
    WordEntry {
        name: "out",
        value: "STREAM",
        form: Form::Needed,
        help: "The stream to write",
    },
    WordEntry {
        name: "RULES",
        value: "RULES",
        form: Form::FileOrNone,
        help: "The rule text that declares the packets, fields and rules that the script names",
    },
];

/// The words of `report`.
pub const REPORT: [WordEntry; 7] = [
    WordEntry {
        name: "epoch",
        value: "TIME",
        form: Form::Option,
        help: "The UTC time of second 0, for example 2000-01-01T12:00:00Z",
    },
    WordEntry {
        name: "from",
        value: "SECONDS",
        form: Form::Option,
        help: "Show records from this second on, for example 104.00000",
    },
    WordEntry {
        name: "until",
        value: "SECONDS",
        form: Form::Option,
        help: "Show records before this second",
    },
    SCHEDULE,
    STREAM,
    WordEntry {
        name: "out",
        value: "PAGE",
        form: Form::Needed,
        help: "The HTML page to write",
    },
    RUN_RULES,
];

/// The words of `packets`.
pub const PACKETS: [WordEntry; 5] = [
    CSV,
    JSON,
    ROW_EPOCH,
    WordEntry {
        name: "PACKETS",
        value: "PACKETS",
        form: Form::File,
        help: "The packets that a run wrote",
    },
    NAMING_RULES,
];

/// The words of `stream`.
pub const RECORDS: [WordEntry; 6] = [
    WordEntry {
        name: "whole",
        value: "",
        form: Form::Flag,
        help: "Write a script from which `scenario` makes the same stream",
    },
    CSV,
    JSON,
    ROW_EPOCH,
    STREAM,
    NAMING_RULES,
];

/// The words of `table`.
pub const TABLE: [WordEntry; 2] = [
    WordEntry {
        name: "watchpoints",
        value: "WDT",
        form: Form::Option,
        help: "The watchpoint file of the same rule text; also judges the rules, as `check` does",
    },
    WordEntry {
        name: "FILE",
        value: "FILE",
        form: Form::File,
        help: "The table file: watchpoints or actionpoints",
    },
];

/// The words of `live`.
pub const LIVE: [WordEntry; 2] = [SCHEDULE, RUN_RULES];

/// The words of `lsp`.
pub const LSP: [WordEntry; 1] = [WordEntry {
    name: "stdio",
    value: "",
    form: Form::Flag,
    help: "Use standard input and output (the default, and the only way)",
}];
