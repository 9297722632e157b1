//! The documents that a client has open.

use diagnostics::Message;
use std::alloc::{AllocError, Global};

/// What a document is.
#[derive(Clone, Copy, PartialEq, Eq)]
pub enum Language {
    /// A rule text.
    Rules,
    /// A schedule.
    Schedule,
    /// A scenario.
    Scenario,
}

/// The language of a document, by the client's name for it, or else by the end of its URI; a rule text if neither is known.
pub fn language_of(name: Option<&str>, uri: &str) -> Language {
    match name {
        Some("lcrules") => Language::Rules,
        Some("lcschedule") => Language::Schedule,
        Some("lcscenario") => Language::Scenario,
        _ if uri.ends_with(".schedule") => Language::Schedule,
        _ if uri.ends_with(".scenario") => Language::Scenario,
        _ => Language::Rules,
    }
}

/// A document that is open.
#[derive(Drop)]
pub struct Document {
    /// Its URI, as the client wrote it.
    pub uri: String,
    /// What it is.
    pub language: Language,
    /// The client's number for its text.
    pub version: Option<i64>,
    /// Its text: UTF-8.
    pub text: Vec<u8>,
    /// The messages about this text that were published last.
    pub messages: Vec<Message>,
}

/// The documents that are open, in the order in which they were opened.
#[derive(Drop)]
pub struct Documents {
    list: Vec<Document>,
}

impl Documents {
    /// No documents.
    pub fn new(alloc: Global) -> Documents {
        Documents {
            list: Vec::new(alloc),
        }
    }

    /// All documents.
    pub fn all(&self) -> &[Document] {
        self.list.as_slice()
    }

    /// The number of the document with this URI.
    pub fn number_of(&self, uri: &str) -> Option<usize> {
        self.list
            .iter()
            .position(|document| document.uri.as_str() == uri)
    }

    /// The document with this URI.
    pub fn find(&self, uri: &str) -> Option<&Document> {
        self.list.get(self.number_of(uri)?)
    }

    /// The document with this number, to be changed.
    pub fn get_mut(&mut self, number: usize) -> Option<&mut Document> {
        self.list.get_mut(number)
    }

    /// Adds a document, in the place of one with its URI if there is one. Returns its number.
    pub fn open(&mut self, document: Document) -> Result<usize, AllocError> {
        match self.number_of(document.uri.as_str()) {
            Some(number) => {
                if let Some(old) = self.list.get_mut(number) {
                    *old = document;
                }
                Ok(number)
            }
            None => {
                self.list.push(document)?;
                Ok(self.list.len() - 1)
            }
        }
    }

    /// Drops the document with this URI, and returns whether there was one.
    pub fn close(&mut self, uri: &str) -> bool {
        match self.number_of(uri) {
            Some(number) => {
                if number < self.list.len() {
                    let _closed = self.list.remove(number);
                }
                true
            }
            None => false,
        }
    }
}
