//! The ground command that led to a difference, in words.

use crate::forces::Forces;
use crate::texts::BothWords;
use scenarios::record_in_words;
use std::alloc::{AllocError, Global};
use text_lines::first_word;

/// The rule's name in a command's words, if they are others than those with its number.
fn name_in<'w>(words: &'w Option<Vec<u8>>, numbered: &[u8]) -> Option<&'w [u8]> {
    let words = match words {
        Some(words) => words.as_slice(),
        None => return None,
    };
    if words == numbered {
        return None;
    }
    let (_verb, rest) = first_word(words)?;
    let (name, _state) = first_word(rest)?;
    Some(name)
}

/// Whether there are two names, and they are the same.
fn are_same(old: Option<&[u8]>, new: Option<&[u8]>) -> bool {
    match (old, new) {
        (Some(old), Some(new)) => old == new,
        _ => false,
    }
}

/// A command's words with the rule's number, and after them the names that the texts in force have for the rule.
fn with_names(
    alloc: Global,
    numbered: &[u8],
    old: Option<&[u8]>,
    new: Option<&[u8]>,
) -> Result<Vec<u8>, AllocError> {
    let mut text = Vec::from_slice(alloc, numbered)?;
    if let Some(name) = old {
        text.extend_from_slice(b": old ")?;
        text.extend_from_slice(name)?;
    }
    if let Some(name) = new {
        let sign: &[u8] = if old.is_some() { b", new " } else { b": new " };
        text.extend_from_slice(sign)?;
        text.extend_from_slice(name)?;
    }
    Ok(text)
}

impl BothWords<'_> {
    /// The words of the command that a record brings, if it brings one that has words. Its rule has its name if the texts in force agree
    /// on it. Else it has its number, and after a colon the names that they have for it: `state 1 off: old LOW, new HOT`. Out of memory
    /// is the only error.
    pub fn command_words(
        &self,
        alloc: Global,
        record: &[u8],
        forces: Forces,
    ) -> Result<Option<Vec<u8>>, AllocError> {
        let Some(numbered) = record_in_words(alloc, record, self.old.declared(None))? else {
            return Ok(None);
        };
        let old = record_in_words(alloc, record, self.old.declared(forces.old))?;
        let new = record_in_words(alloc, record, self.new.declared(forces.new))?;
        let old_name = name_in(&old, numbered.as_slice());
        let new_name = name_in(&new, numbered.as_slice());
        if are_same(old_name, new_name) {
            return Ok(old);
        }
        let text = with_names(alloc, numbered.as_slice(), old_name, new_name)?;
        Ok(Some(text))
    }
}
