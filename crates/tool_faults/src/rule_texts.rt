//! Rule texts that commands read themselves.

use crate::fault::Fault;
use rpn_compiler::{CompileError, RuleText};
use std::alloc::Global;

/// Reads the rule text of a file with this name. Errors: `Rules` if it doesn't compile; `Memory`.
pub fn rule_text_of<'a, 't>(
    alloc: Global,
    name: &'a str,
    text: &'t [u8],
) -> Result<RuleText<'t>, Fault<'a>> {
    match RuleText::read_valid(alloc, text) {
        Ok(text) => Ok(text),
        Err(CompileError::Memory) => Err(Fault::Memory),
        Err(error) => Err(Fault::Rules(name, error)),
    }
}

/// The valid rule texts in files of these names.
pub fn rule_texts_of<'a, 't>(
    alloc: Global,
    names: &[&'a str],
    texts: &'t [Vec<u8>],
) -> Result<Vec<RuleText<'t>>, Fault<'a>> {
    let mut valid = Vec::new(alloc);
    for (name, text) in names.iter().zip(texts.iter()) {
        valid.push(rule_text_of(alloc, name, text.as_slice())?)?;
    }
    Ok(valid)
}
