//! What the server sends, each message with its header.

ghost use Rattle.std.specs.Prelude.{◌≡◌, ◌++◌, codes, OnOk, IfOk};
ghost use Rattle.language_server.specs.Framing.{framed, HasOneMore};

use crate::failure::ErrorKind;
use crate::json_text::JsonText;
use itoa::Buffer;
use serde_json::Value;
use std::alloc::{AllocError, Global};

/// Messages that are to be sent, one after the other.
#[derive(Drop)]
pub struct Outbox {
    alloc: Global,
    bytes: Vec<u8>,
}

/// The body of a reply: `id` is JSON, `name` a word without a quote, and `member` its value.
fn reply_body(alloc: Global, id: &[u8], name: &str, member: &[u8]) -> Result<Vec<u8>, AllocError> {
    let mut body = Vec::new(alloc);
    body.extend_from_slice(b"{\"id\":")?;
    body.extend_from_slice(id)?;
    body.extend_from_slice(b",\"jsonrpc\":\"2.0\",\"")?;
    body.extend_from_slice(name.as_bytes())?;
    body.extend_from_slice(b"\":")?;
    body.extend_from_slice(member)?;
    body.push(b'}')?;
    Ok(body)
}

/// The body of a notification: `method` is a word without a quote, and `params` JSON.
fn note_body(alloc: Global, method: &str, params: &[u8]) -> Result<Vec<u8>, AllocError> {
    let mut body = Vec::new(alloc);
    body.extend_from_slice(b"{\"jsonrpc\":\"2.0\",\"method\":\"")?;
    body.extend_from_slice(method.as_bytes())?;
    body.extend_from_slice(b"\",\"params\":")?;
    body.extend_from_slice(params)?;
    body.push(b'}')?;
    Ok(body)
}

impl Outbox {
    /// No messages.
    pub fn new(alloc: Global) -> Outbox {
        Outbox {
            alloc,
            bytes: Vec::new(alloc),
        }
    }

    /// The messages, each with its header.
    pub fn into_bytes(self) -> Vec<u8> {
        self.bytes
    }

    /// Adds a message with this body.
    fn send(&mut self, body: &[u8]) -> Result<(), AllocError>
        ensures { OnOk result (self.new.bytes.items ≡ self.old.bytes.items ++ framed body.now) }
    {
        let mut digits = Buffer::new();
        self.bytes.extend_from_slice(b"Content-Length: ")?;
        self.bytes
            .extend_from_slice(digits.format(body.len()).as_bytes())?;
        self.bytes.extend_from_slice(b"\r\n\r\n")?;
        self.bytes.extend_from_slice(body)?;
        Ok(())
    }

    /// Adds the reply to the request with this id: a member of this name.
    fn reply(&mut self, id: &Value, name: &str, member: JsonText) -> Result<(), AllocError>
        ensures { OnOk result (HasOneMore self.old.bytes.items self.new.bytes.items) }
    {
        let id = id.to_string(self.alloc)?;
        let member = member.into_bytes()?;
        let body = reply_body(self.alloc, id.as_bytes(), name, member.as_slice())?;
        self.send(body.as_slice())
    }

    /// Adds the result of the request with this id.
    pub fn respond(&mut self, id: &Value, answer: JsonText) -> Result<(), AllocError>
        ensures { OnOk result (HasOneMore self.old.bytes.items self.new.bytes.items) }
    {
        self.reply(id, "result", answer)
    }

    /// Adds an error for the request with this id.
    pub fn refuse(&mut self, id: &Value, kind: ErrorKind, sentence: &str) -> Result<(), AllocError>
        ensures { OnOk result (HasOneMore self.old.bytes.items self.new.bytes.items) }
    {
        let mut error = JsonText::new(self.alloc);
        error.begin_object();
        error.number_member("code", i64::from(kind.code()));
        error.string_member("message", sentence);
        error.end_object();
        self.reply(id, "error", error)
    }

    /// Adds a notification. The method is a word without a quote.
    pub fn notify(&mut self, method: &str, params: JsonText) -> Result<(), AllocError> {
        let params = params.into_bytes()?;
        let body = note_body(self.alloc, method, params.as_slice())?;
        self.send(body.as_slice())
    }
}
