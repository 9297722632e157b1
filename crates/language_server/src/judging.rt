//! What `check` and `scenario` report of a document's text.

use crate::document::{Document, Language};
use diagnostics::Message;
use rpn_compiler::{CompileError, RuleText};
use rule_errors::messages;
use rule_lints::warnings;
use scenario_errors::scenario_refusal;
use script_errors::{Refusal, read_schedule, script_warnings};
use std::alloc::{AllocError, Global};

/// What is reported of a text.
#[derive(Drop)]
pub struct Judgement {
    /// Messages with their places.
    pub messages: Vec<Message>,
    /// A sentence about the whole text.
    pub note: Option<String>,
}

impl Judgement {
    /// These messages alone.
    fn of(messages: Vec<Message>) -> Judgement {
        Judgement {
            messages,
            note: None,
        }
    }
}

/// The warnings of a rule text that compiles; none if it doesn't.
fn judge_warnings(alloc: Global, text: &[u8]) -> Result<Judgement, AllocError> {
    match RuleText::read_valid(alloc, text) {
        Ok(text) => {
            let all = warnings(alloc, &text, None)?;
            let note = all.undecided_line(alloc)?;
            Ok(Judgement {
                messages: all.messages,
                note,
            })
        }
        Err(CompileError::Memory) => Err(AllocError),
        Err(_) => Ok(Judgement::of(Vec::new(alloc))),
    }
}

/// The refusals of a rule text, or, if they are asked for, the warnings of one that compiles.
fn judge_rules(alloc: Global, text: &[u8], has_warnings: bool) -> Result<Judgement, AllocError> {
    let refusals = messages(alloc, text)?;
    if has_warnings && refusals.is_empty() {
        judge_warnings(alloc, text)
    } else {
        Ok(Judgement::of(refusals))
    }
}

/// A list of a message, if there is one.
fn list_of(alloc: Global, message: Option<Message>) -> Result<Vec<Message>, AllocError> {
    let mut list = Vec::new(alloc);
    if let Some(message) = message {
        list.push(message)?;
    }
    Ok(list)
}

/// The first fault of a schedule.
fn schedule_refusal(alloc: Global, text: &[u8]) -> Result<Option<Message>, AllocError> {
    match read_schedule(alloc, text) {
        Ok(_) => Ok(None),
        Err(Refusal::Told(message)) => Ok(Some(message)),
        Err(Refusal::Memory) => Err(AllocError),
    }
}

/// The rule texts among documents that compile, in the order in which they were opened.
pub fn open_texts<'d>(
    alloc: Global,
    documents: &'d [Document],
) -> Result<Vec<RuleText<'d>>, AllocError> {
    let mut texts = Vec::new(alloc);
    for document in documents {
        if document.language == Language::Rules {
            match RuleText::read_valid(alloc, document.text.as_slice()) {
                Ok(text) => texts.push(text)?,
                Err(CompileError::Memory) => return Err(AllocError),
                Err(_) => {}
            }
        }
    }
    Ok(texts)
}

/// A sentence about a refused scenario, where no rule text gives names.
fn lack_of_texts(
    alloc: Global,
    is_refused: bool,
    texts: &[RuleText<'_>],
) -> Result<Option<String>, AllocError> {
    if is_refused && texts.is_empty() {
        let note =
            "no rule text that compiles is open, so no packet, field or rule is known by name";
        return Ok(Some(String::from_str(alloc, note)?));
    }
    Ok(None)
}

/// The first fault of a scenario over the names of the rule texts that are open, or, if they are asked for, the warnings of one without.
fn judge_scenario(
    alloc: Global,
    text: &[u8],
    documents: &[Document],
    has_warnings: bool,
) -> Result<Judgement, AllocError> {
    let texts = open_texts(alloc, documents)?;
    let refusal = scenario_refusal(alloc, text, texts.as_slice())?;
    let note = lack_of_texts(alloc, refusal.is_some(), texts.as_slice())?;
    let messages = if has_warnings && refusal.is_none() {
        script_warnings(alloc, text)?
    } else {
        list_of(alloc, refusal)?
    };
    Ok(Judgement { messages, note })
}

/// What is reported of the text of a document among all documents: its refusals, and if they are asked for its warnings.
pub fn judge(
    alloc: Global,
    document: &Document,
    documents: &[Document],
    has_warnings: bool,
) -> Result<Judgement, AllocError> {
    let text = document.text.as_slice();
    match document.language {
        Language::Rules => judge_rules(alloc, text, has_warnings),
        Language::Schedule => Ok(Judgement::of(list_of(alloc, schedule_refusal(alloc, text)?)?)),
        Language::Scenario => judge_scenario(alloc, text, documents, has_warnings),
    }
}
