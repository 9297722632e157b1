//! Options of which a command has another name or place.

/// An option that a command doesn't have, and what to write in its place.
struct ReplacedOption {
    command: &'static str,
    option: &'static str,
    advice: &'static str,
}

/// The options that commands don't have.
const REPLACED: [ReplacedOption; 4] = [
    ReplacedOption {
        command: "import",
        option: "--epoch",
        advice: "write --subtract for the seconds to subtract: import --subtract SECONDS --out STREAM RAW..",
    },
    ReplacedOption {
        command: "scenario",
        option: "--rules",
        advice: "write the rule text last: scenario --script SCRIPT --out STREAM RULES",
    },
    ReplacedOption {
        command: "packets",
        option: "--rules",
        advice: "write the rule texts last: packets PACKETS RULES..",
    },
    ReplacedOption {
        command: "stream",
        option: "--rules",
        advice: "write the rule texts last: stream --stream STREAM RULES..",
    },
];

/// Whether a word is this option, alone or with a value after `=`.
fn is_option(word: &str, option: &str) -> bool {
    match word.split_once('=') {
        Some((name, _)) => name == option,
        None => word == option,
    }
}

/// The first option in the words of a command line, the program's name first, that their command has elsewhere, and what to write in its
/// place.
pub fn replaced_option(words: &[&str]) -> Option<(&'static str, &'static str)> {
    let (command, rest) = words.get(1..)?.split_first()?;
    for row in &REPLACED {
        if *command == row.command && rest.iter().any(|word| is_option(word, row.option)) {
            return Some((row.option, row.advice));
        }
    }
    None
}
