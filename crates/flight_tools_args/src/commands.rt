//! The commands, as `clap` reads them and its help lists them.

use crate::command_words::{self, Form, WordEntry};
use clap::{Arg, ArgAction, Command};
use lc_model::VERSION;
use std::alloc::{AllocError, Global};

/// A command: its word, its help, and its other words in the order of the help.
struct CommandEntry {
    word: &'static str,
    about: &'static str,
    words: &'static [WordEntry],
}

/// All commands, as the help lists them: rules, streams, runs, services.
const COMMANDS: [CommandEntry; 14] = [
    CommandEntry {
        word: "check",
        about: "Report errors and warnings of rule texts, before any packet comes",
        words: &command_words::CHECK,
    },
    CommandEntry {
        word: "format",
        about: "Lay out rule texts in place",
        words: &command_words::FORMAT,
    },
    CommandEntry {
        word: "try",
        about: "Run scripts and check their expectations",
        words: &command_words::TRY,
    },
    CommandEntry {
        word: "changes",
        about: "List what a new rule text does differently, whatever packets come",
        words: &command_words::CHANGES,
    },
    CommandEntry {
        word: "compare",
        about: "List the requests and events in which two rule texts differ, over one stream",
        words: &command_words::COMPARE,
    },
    CommandEntry {
        word: "import",
        about: "Make a stream from archives of space packets",
        words: &command_words::IMPORT,
    },
    CommandEntry {
        word: "export",
        about: "Write the packets of a stream to an archive",
        words: &command_words::EXPORT,
    },
    CommandEntry {
        word: "scenario",
        about: "Make a stream from a script",
        words: &command_words::SCENARIO,
    },
    CommandEntry {
        word: "report",
        about: "Run rules over a stream, and make a page for a browser that shows each request and its reason",
        words: &command_words::REPORT,
    },
    CommandEntry {
        word: "packets",
        about: "List the packets that a run wrote",
        words: &command_words::PACKETS,
    },
    CommandEntry {
        word: "stream",
        about: "List the records of a stream",
        words: &command_words::RECORDS,
    },
    CommandEntry {
        word: "table",
        about: "List a table file",
        words: &command_words::TABLE,
    },
    CommandEntry {
        word: "live",
        about: "Run rules over a stream from standard input as it comes, and write packets to standard output",
        words: &command_words::LIVE,
    },
    CommandEntry {
        word: "lsp",
        about: "Start the language server for editors (LSP, over standard input and output)",
        words: &command_words::LSP,
    },
];

/// A word that names files: one or more if `is_many`.
fn file_word<'a>(alloc: Global, row: &WordEntry, is_needed: bool, is_many: bool) -> Arg<'a> {
    let word = Arg::new(alloc, row.name).required(is_needed).help(row.help);
    if is_many {
        word.action(ArgAction::Append).num_args(1..)
    } else {
        word
    }
}

/// An option with a value.
fn option_word<'a>(alloc: Global, row: &WordEntry) -> Arg<'a> {
    Arg::new(alloc, row.name)
        .long(row.name)
        .value_name(row.value)
        .help(row.help)
}

/// An option without a value.
fn flag_word<'a>(alloc: Global, row: &WordEntry) -> Arg<'a> {
    Arg::new(alloc, row.name)
        .long(row.name)
        .action(ArgAction::SetTrue)
        .help(row.help)
}

/// A word of the table. The value of an option that stands alone is empty if it isn't given.
fn word_of<'a>(alloc: Global, row: &WordEntry) -> Arg<'a> {
    match row.form {
        Form::Flag => flag_word(alloc, row),
        Form::Option => option_word(alloc, row),
        Form::Options => option_word(alloc, row).action(ArgAction::Append),
        Form::Needed => option_word(alloc, row).required(true),
        Form::NeededOnce => option_word(alloc, row)
            .required(true)
            .action(ArgAction::Append),
        Form::Alone => option_word(alloc, row)
            .num_args(0..=1)
            .default_missing_value("")
            .exclusive(true),
        Form::File => file_word(alloc, row, true, false),
        Form::FileOrNone => file_word(alloc, row, false, false),
        Form::Files => file_word(alloc, row, true, true),
        Form::FilesOrNone => file_word(alloc, row, false, true),
    }
}

/// A command of the table.
fn command_of<'a>(alloc: Global, row: &CommandEntry) -> Result<Command<'a>, AllocError> {
    let mut command = Command::new(alloc, row.word).about(row.about);
    for word in row.words {
        command = command.arg(word_of(alloc, word))?;
    }
    Ok(command)
}

/// All commands.
pub fn all_words<'a>(alloc: Global) -> Result<Command<'a>, AllocError> {
    let mut program = Command::new(alloc, "flight_tools")
        .about("Check, test, compare and explain limit-checker rules, and read what a run wrote")
        .version(VERSION)
        .subcommand_required(true);
    for row in &COMMANDS {
        program = program.subcommand(command_of(alloc, row)?)?;
    }
    Ok(program)
}
