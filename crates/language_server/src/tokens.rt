//! Semantic tokens, symbols' and choices' kinds: the classes of words as the protocol numbers them.

use crate::json_text::JsonText;
use editor_text::{ClassedWord, UnitPlace, Walk, WordClass};

/// The types of semantic tokens, by their numbers.
pub const TOKEN_TYPES: [&str; 10] = [
    "keyword",
    "operator",
    "type",
    "enumMember",
    "class",
    "property",
    "function",
    "number",
    "string",
    "comment",
];

/// The bit of the modifier `declaration`.
const DECLARATION: u32 = 1;

/// The number of a class among the types of semantic tokens.
fn token_type(class: WordClass) -> u32 {
    match class {
        WordClass::Keyword => 0,
        WordClass::Operator => 1,
        WordClass::Type => 2,
        WordClass::Constant => 3,
        WordClass::Packet => 4,
        WordClass::Field => 5,
        WordClass::Rule => 6,
        WordClass::Number => 7,
        WordClass::Text => 8,
        WordClass::Comment => 9,
    }
}

/// The number of a class among the kinds of symbols (`SymbolKind`).
pub fn symbol_kind(class: WordClass) -> i64 {
    match class {
        WordClass::Packet => 5,
        WordClass::Field => 7,
        WordClass::Rule => 12,
        WordClass::Constant => 22,
        WordClass::Number => 16,
        WordClass::Text => 15,
        WordClass::Operator => 25,
        WordClass::Keyword | WordClass::Type | WordClass::Comment => 14,
    }
}

/// The number of a class among the kinds of choices (`CompletionItemKind`).
pub fn choice_kind(class: WordClass) -> i64 {
    match class {
        WordClass::Packet => 7,
        WordClass::Field => 10,
        WordClass::Rule => 3,
        WordClass::Constant => 20,
        WordClass::Operator => 24,
        WordClass::Type => 25,
        WordClass::Number | WordClass::Text | WordClass::Comment => 12,
        WordClass::Keyword => 14,
    }
}

/// Writes a word as five numbers: lines after the word before, units after it or on the line, units, type, modifiers. Returns where it stands.
fn write_word(
    json: &mut JsonText,
    walk: &mut Walk<'_>,
    before: UnitPlace,
    word: ClassedWord,
) -> UnitPlace {
    let start = walk.place_at(word.at);
    let end = walk.place_at(word.at.saturating_add(word.size));
    let lines = start.line.saturating_sub(before.line);
    let units = if lines == 0 {
        start.unit.saturating_sub(before.unit)
    } else {
        start.unit
    };
    json.number(lines);
    json.number(units);
    json.number(end.unit.saturating_sub(start.unit));
    json.number(token_type(word.class));
    json.number(if word.is_declaration { DECLARATION } else { 0 });
    start
}

/// Writes the words of a range as semantic tokens.
pub fn write_tokens(
    json: &mut JsonText,
    text: &[u8],
    words: &[ClassedWord],
    range: (usize, usize),
) {
    let mut walk = Walk::new(text);
    let mut before = UnitPlace { line: 0, unit: 0 };
    json.begin_object();
    json.name("data");
    json.begin_array();
    for word in words {
        if word.at < range.1 && range.0 < word.at.saturating_add(word.size) {
            before = write_word(json, &mut walk, before, *word);
        }
    }
    json.end_array();
    json.end_object();
}
