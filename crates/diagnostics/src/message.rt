//! A message for the author of a text.

ghost use Rattle.std.specs.Prelude.{◌≡◌, ℕ, List, length, IfOk};
ghost use Rattle.diagnostics.specs.Message.{IsAt, IsWarning, edited, is_inside, within};

use std::alloc::{AllocError, Global};

/// Bytes of a text, with what is said of them.
#[derive(Drop)]
pub struct Mark {
    /// Bytes of the text before them.
    pub at: usize,
    /// How many bytes they are; 0 where something is missing, and at the text's end.
    pub size: usize,
    /// What the message says about them.
    pub label: String,
}

/// A change of a text: the bytes from one place to another are replaced.
#[derive(Drop)]
pub struct Edit {
    /// Bytes of the text before the first that is replaced.
    pub from: usize,
    /// Bytes of the text up to the last that is replaced; the same as `from` where only something is added.
    pub to: usize,
    /// What is written in their place.
    pub text: String,
}

/// A refusal of a text, or a warning about it.
#[derive(Drop)]
pub struct Message {
    /// The refusal's number; 0 for a warning.
    pub code: u8,
    /// The name of a warning, as `unused-field`; `None` for a refusal.
    pub warning: Option<&'static str>,
    /// What is wrong, in one sentence.
    pub head: String,
    /// Where, with what to do. A text that is too long as a whole has no such place.
    pub first: Option<Mark>,
    /// At most two other places that matter, with what stands there.
    pub others: Vec<Mark>,
    /// The change of the text that does what the first mark says, if one change does it.
    pub edit: Option<Edit>,
}

/// Whether an edit is one of a text of this many bytes, if there is one.
fn is_inside(edit: &Option<Edit>, size: usize) -> bool
    ensures { result ≡ is_inside size edit.now }
{
    match edit {
        Some(edit) => edit.from <= edit.to && edit.to <= size,
        None => true,
    }
}

impl Message {
    /// A refusal with this place, and no other yet.
    pub fn at(alloc: Global, code: u8, head: String, first: Mark) -> Message
        ensures { IsAt code first.at result }
    {
        Message {
            code,
            warning: None,
            head,
            first: Some(first),
            others: Vec::new(alloc),
            edit: None,
        }
    }

    /// A warning of this name with this place, and no other yet.
    pub fn warning(alloc: Global, name: &'static str, head: String, first: Mark) -> Message
        ensures { IsWarning name.now first.at result }
    {
        Message {
            code: 0,
            warning: Some(name),
            head,
            first: Some(first),
            others: Vec::new(alloc),
            edit: None,
        }
    }

    /// The message with this edit in the place of its own; `None` takes it away.
    pub fn with_edit(mut self, edit: Option<Edit>) -> Message
        ensures { result ≡ edited edit self }
    {
        self.edit = edit;
        self
    }

    /// Takes away an edit that isn't inside the text.
    pub fn keep_inside(&mut self, text: &[u8])
        ensures { self.new ≡ within text.now self.old }
    {
        if !is_inside(&self.edit, text.len()) {
            self.edit = None;
        }
    }

    /// Adds another place, if there is one, in the order of the text.
    pub fn with(mut self, other: Option<Mark>) -> Result<Message, AllocError>
        ensures error { (code at : ℕ) → IsAt code at self → IfOk result (IsAt code at) }
        ensures warning { (name : List ℕ) → (at : ℕ) → IsWarning name at self →
            IfOk result (IsWarning name at) }
    {
        let Some(other) = other else {
            return Ok(self);
        };
        let before = self
            .others
            .iter()
            .take_while(|mark| mark.at <= other.at)
            .count();
        self.others.insert(before, other)?;
        Ok(self)
    }
}
