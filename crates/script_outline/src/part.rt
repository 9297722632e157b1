//! What a word of a script may be.

use crate::outline::ScriptNames;
use crate::statement::WordPart;
use diagnostics::behind;
use editor_text::WordClass;
use lc_model::TYPE_WORDS;
use text_lines::split_digits;

/// The class of a word that is this part; `None` for one that has parts of its own.
pub(crate) fn class_of(part: WordPart) -> Option<WordClass> {
    match part {
        WordPart::Keyword(_) => Some(WordClass::Keyword),
        WordPart::Constant(_) => Some(WordClass::Constant),
        WordPart::Sign(_) => Some(WordClass::Operator),
        WordPart::Known(_) | WordPart::Name => Some(WordClass::Text),
        WordPart::Number | WordPart::Bytes => Some(WordClass::Number),
        WordPart::Type => Some(WordClass::Type),
        WordPart::Packet => Some(WordClass::Packet),
        WordPart::Field => Some(WordClass::Field),
        WordPart::Rule | WordPart::Value => None,
    }
}

/// Whether a word is a decimal number, or a hexadecimal one after `0x`; `-` may stand before it.
pub(crate) fn is_number(word: &[u8]) -> bool {
    let digits = word.strip_prefix(b"-").unwrap_or(word);
    match digits {
        [] => false,
        [b'0', b'x', digits @ ..] => digits.iter().all(|byte| byte.is_ascii_hexdigit()),
        _ => digits.iter().all(|byte| byte.is_ascii_digit()),
    }
}

/// Whether a word writes bytes in hexadecimal digits, or none by `-`.
fn are_bytes(word: &[u8]) -> bool {
    matches!(word, [b'-']) || word.iter().all(|byte| byte.is_ascii_hexdigit())
}

/// How many bytes of a word stand before the name of a rule: those of `1:`, the number of a text.
pub(crate) fn rule_start(word: &[u8]) -> usize {
    let (digits, rest) = split_digits(word);
    match rest {
        [b':', ..] if !digits.is_empty() => digits.len().saturating_add(1),
        _ => 0,
    }
}

/// Whether a word is among these.
fn is_among(words: &[&[u8]], word: &[u8]) -> bool {
    words.iter().any(|other| *other == word)
}

/// Whether a word is the name of a field.
pub(crate) fn is_field(names: &ScriptNames<'_>, word: &[u8]) -> bool {
    names.fields.iter().any(|field| field.1 == word)
}

/// Whether a word may be this part.
pub(crate) fn fits(names: &ScriptNames<'_>, part: WordPart, word: &[u8]) -> bool {
    match part {
        WordPart::Keyword(words)
        | WordPart::Constant(words)
        | WordPart::Sign(words)
        | WordPart::Known(words) => is_among(words, word),
        WordPart::Name => true,
        WordPart::Number => is_number(word),
        WordPart::Bytes => are_bytes(word),
        WordPart::Type => is_among(TYPE_WORDS, word),
        WordPart::Packet => is_among(names.packets, word),
        WordPart::Field => is_field(names, word),
        WordPart::Rule => is_among(names.rules, behind(word, rule_start(word))),
        WordPart::Value => word.contains(&b'='),
    }
}
