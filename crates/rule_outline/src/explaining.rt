//! What the language's words mean.

use crate::keywords::{KEYWORDS, Keyword};

/// The explanation of a word or a sign; `None` if it has none.
pub fn keyword(word: &[u8]) -> Option<&'static Keyword> {
    for keyword in &KEYWORDS {
        if keyword.words.iter().any(|other| *other == word) {
            return Some(keyword);
        }
    }
    None
}
