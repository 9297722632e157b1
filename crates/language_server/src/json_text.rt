//! JSON texts that are written member by member.

use json::Writer;
use std::alloc::{AllocError, Global};

/// A JSON text that is being written. A write that lacks memory is remembered, and `into_bytes` reports it. Its caller closes what it opens.
#[derive(Drop)]
pub struct JsonText {
    writer: Writer,
    has_failed: bool,
}

impl JsonText {
    /// An empty text.
    pub fn new(alloc: Global) -> JsonText {
        JsonText {
            writer: Writer::new(Vec::new(alloc)),
            has_failed: false,
        }
    }

    /// Remembers a lack of memory.
    fn note(&mut self, written: Result<(), AllocError>) {
        if written.is_err() {
            self.has_failed = true;
        }
    }

    /// Begins an object: its members follow.
    pub fn begin_object(&mut self) {
        let written = self.writer.begin_object();
        self.note(written);
    }

    /// Ends an object.
    pub fn end_object(&mut self) {
        let written = self.writer.end_object();
        self.note(written);
    }

    /// Begins an array: its values follow.
    pub fn begin_array(&mut self) {
        let written = self.writer.begin_array();
        self.note(written);
    }

    /// Ends an array.
    pub fn end_array(&mut self) {
        let written = self.writer.end_array();
        self.note(written);
    }

    /// Writes the name of a member: its value follows.
    pub fn name(&mut self, name: &str) {
        let written = self.writer.key(name);
        self.note(written);
    }

    /// Writes a string.
    pub fn string(&mut self, text: &str) {
        let written = self.writer.string(text);
        self.note(written);
    }

    /// Writes a number.
    pub fn number(&mut self, number: u32) {
        let written = self.writer.u64(u64::from(number));
        self.note(written);
    }

    /// Writes `null`.
    pub fn null(&mut self) {
        let written = self.writer.null();
        self.note(written);
    }

    /// Writes a member that is a string.
    pub fn string_member(&mut self, name: &str, text: &str) {
        self.name(name);
        self.string(text);
    }

    /// Writes a member that is a number.
    pub fn number_member(&mut self, name: &str, number: i64) {
        self.name(name);
        let written = self.writer.i64(number);
        self.note(written);
    }

    /// Writes a member that is true or false.
    pub fn flag_member(&mut self, name: &str, is_true: bool) {
        self.name(name);
        let written = self.writer.boolean(is_true);
        self.note(written);
    }

    /// The bytes of the text. Error: memory was lacking for a part of it.
    pub fn into_bytes(self) -> Result<Vec<u8>, AllocError> {
        let JsonText { writer, has_failed } = self;
        if has_failed {
            Err(AllocError)
        } else {
            Ok(writer.into_inner())
        }
    }
}
