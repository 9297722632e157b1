//! A session with a client: from its first message to `exit`.

ghost use Rattle.std.specs.Prelude.{OnOk};
ghost use Rattle.language_server.specs.Framing.{HasOneMore};

use crate::capabilities::write_initialize_result;
use crate::diagnostics_of::write_diagnostics;
use crate::document::{Document, Documents, Language};
use crate::failure::{ErrorKind, Failure, NO_PARAMETERS};
use crate::incoming::{Incoming, incoming_of, uri_in};
use crate::json_text::JsonText;
use crate::judging::{Judgement, judge};
use crate::methods::{NO_METHOD, method_of, write_method};
use crate::replies::Outbox;
use crate::syncing::{change, document_in};
use serde_json::Value;
use std::alloc::{AllocError, Global};

/// How far a session is.
#[derive(Clone, Copy, PartialEq, Eq)]
pub enum Phase {
    /// The client has not initialized it.
    New,
    /// It answers.
    Open,
    /// The client has asked to shut it down.
    Closed,
    /// The client has ended it.
    Ended,
}

/// A session: how far it is, and the documents that are open.
#[derive(Drop)]
pub struct Session {
    alloc: Global,
    phase: Phase,
    /// Whether the client asked to shut it down.
    is_shut: bool,
    documents: Documents,
}

impl Session {
    /// A session before its first message.
    pub fn new(alloc: Global) -> Session {
        Session {
            alloc,
            phase: Phase::New,
            is_shut: false,
            documents: Documents::new(alloc),
        }
    }

    /// Where its memory comes from.
    pub(crate) fn alloc(&self) -> Global {
        self.alloc
    }

    /// Whether the client has ended it.
    pub fn is_ended(&self) -> bool {
        self.phase == Phase::Ended
    }

    /// Whether the client asked to shut it down.
    pub fn is_shut(&self) -> bool {
        self.is_shut
    }

    /// Handles the body of a message; what is to be sent goes to `out`.
    pub(crate) fn handle(&mut self, body: &[u8], out: &mut Outbox) -> Result<(), AllocError> {
        let Some(value) = read_value(self.alloc, body)? else {
            return out.refuse(&Value::Null, ErrorKind::NoJson, "the message is not JSON");
        };
        match incoming_of(self.alloc, value)? {
            Incoming::Request { id, method, params } => {
                self.respond(&id, method.as_str(), &params, out)
            }
            Incoming::Notification { method, params } => {
                self.take_note(method.as_str(), &params, out)
            }
            Incoming::Response => Ok(()),
            Incoming::NoMessage => out.refuse(
                &Value::Null,
                ErrorKind::NoMessage,
                "it is neither a request nor a notification",
            ),
        }
    }

    /// Sends the one response to a request.
    fn respond(
        &mut self,
        id: &Value,
        method: &str,
        params: &Value,
        out: &mut Outbox,
    ) -> Result<(), AllocError>
        ensures { OnOk result (HasOneMore out.old.bytes.items out.new.bytes.items) }
    {
        let mut result = JsonText::new(self.alloc);
        match self.write_result(method, params, &mut result) {
            Ok(()) => out.respond(id, result),
            Err(Failure::Told(kind, sentence)) => out.refuse(id, kind, sentence),
            Err(Failure::Memory) => Err(AllocError),
        }
    }

    /// Writes the result of a request, by how far the session is.
    fn write_result(
        &mut self,
        method: &str,
        params: &Value,
        json: &mut JsonText,
    ) -> Result<(), Failure> {
        match (self.phase, method) {
            (Phase::New, "initialize") => {
                self.phase = Phase::Open;
                write_initialize_result(json);
                Ok(())
            }
            (Phase::New, _) => Err(Failure::Told(
                ErrorKind::NotInitialized,
                "the first request is `initialize`",
            )),
            (Phase::Open, "initialize") => Err(Failure::Told(
                ErrorKind::NoMessage,
                "the server is initialized already",
            )),
            (Phase::Open, "shutdown") => {
                self.phase = Phase::Closed;
                self.is_shut = true;
                json.null();
                Ok(())
            }
            (Phase::Open, _) => self.write_document_result(method, params, json),
            _ => Err(Failure::Told(ErrorKind::NoMessage, "the server is shut down")),
        }
    }

    /// Writes the result of a request about a document.
    fn write_document_result(
        &self,
        method: &str,
        params: &Value,
        json: &mut JsonText,
    ) -> Result<(), Failure> {
        let method = method_of(method).ok_or(NO_METHOD)?;
        let uri = uri_in(params).ok_or(NO_PARAMETERS)?;
        let document = self.documents.find(uri).ok_or(NOT_OPEN)?;
        write_method(
            self.alloc,
            json,
            method,
            document,
            self.documents.all(),
            params,
        )
    }

    /// Handles a notification.
    fn take_note(
        &mut self,
        method: &str,
        params: &Value,
        out: &mut Outbox,
    ) -> Result<(), AllocError> {
        match (self.phase, method) {
            (_, "exit") => {
                self.phase = Phase::Ended;
                Ok(())
            }
            (Phase::Open, "textDocument/didOpen") => self.open(params, out),
            (Phase::Open, "textDocument/didChange") => self.change(params, out),
            (Phase::Open, "textDocument/didSave") => self.save(params, out),
            (Phase::Open, "textDocument/didClose") => self.close(params, out),
            _ => Ok(()),
        }
    }

    /// A document was opened.
    fn open(&mut self, params: &Value, out: &mut Outbox) -> Result<(), AllocError> {
        match document_in(self.alloc, params)? {
            Some(document) => {
                let language = document.language;
                let number = self.documents.open(document)?;
                self.publish(number, true, out)?;
                self.judge_scenarios(language, out)
            }
            None => Ok(()),
        }
    }

    /// A document was changed.
    fn change(&mut self, params: &Value, out: &mut Outbox) -> Result<(), AllocError> {
        let Some(number) = uri_in(params).and_then(|uri| self.documents.number_of(uri)) else {
            return Ok(());
        };
        if let Some(document) = self.documents.get_mut(number) {
            change(self.alloc, document, params)?;
        }
        self.publish(number, false, out)
    }

    /// A document was saved.
    fn save(&mut self, params: &Value, out: &mut Outbox) -> Result<(), AllocError> {
        let Some(number) = uri_in(params).and_then(|uri| self.documents.number_of(uri)) else {
            return Ok(());
        };
        self.publish(number, true, out)?;
        match self.documents.all().get(number) {
            Some(document) => {
                let language = document.language;
                self.judge_scenarios(language, out)
            }
            None => Ok(()),
        }
    }

    /// A document was closed: nothing is reported of it any more.
    fn close(&mut self, params: &Value, out: &mut Outbox) -> Result<(), AllocError> {
        let Some(uri) = uri_in(params) else {
            return Ok(());
        };
        let language = match self.documents.find(uri) {
            Some(document) => document.language,
            None => return Ok(()),
        };
        let _was_open = self.documents.close(uri);
        let mut none = begin_diagnostics(self.alloc);
        none.begin_array();
        none.end_array();
        send_diagnostics(none, uri, None, out)?;
        self.judge_scenarios(language, out)
    }

    /// Publishes what is reported of the document with this number.
    fn publish(
        &mut self,
        number: usize,
        has_warnings: bool,
        out: &mut Outbox,
    ) -> Result<(), AllocError> {
        let all = self.documents.all();
        let Some(document) = all.get(number) else {
            return Ok(());
        };
        let judgement = judge(self.alloc, document, all, has_warnings)?;
        publish_judgement(self.alloc, document, &judgement, out)?;
        if let Some(document) = self.documents.get_mut(number) {
            document.messages = judgement.messages;
        }
        Ok(())
    }

    /// Publishes anew what is reported of all scenarios, if what changed is a rule text, whose names they may use.
    fn judge_scenarios(&mut self, language: Language, out: &mut Outbox) -> Result<(), AllocError> {
        if language != Language::Rules {
            return Ok(());
        }
        for number in 0..self.documents.all().len() {
            if self.is_scenario(number) {
                self.publish(number, true, out)?;
            }
        }
        Ok(())
    }

    /// Whether the document with this number is a scenario.
    fn is_scenario(&self, number: usize) -> bool {
        match self.documents.all().get(number) {
            Some(document) => document.language == Language::Scenario,
            None => false,
        }
    }
}

/// Begins the diagnostics of a document: their list follows.
fn begin_diagnostics(alloc: Global) -> JsonText {
    let mut params = JsonText::new(alloc);
    params.begin_object();
    params.name("diagnostics");
    params
}

/// Sends the diagnostics of the document with this URI, whose text has this number.
fn send_diagnostics(
    mut params: JsonText,
    uri: &str,
    version: Option<i64>,
    out: &mut Outbox,
) -> Result<(), AllocError> {
    params.string_member("uri", uri);
    if let Some(version) = version {
        params.number_member("version", version);
    }
    params.end_object();
    out.notify("textDocument/publishDiagnostics", params)
}

/// Publishes what is reported of a document.
fn publish_judgement(
    alloc: Global,
    document: &Document,
    judgement: &Judgement,
    out: &mut Outbox,
) -> Result<(), AllocError> {
    let (uri, text) = (document.uri.as_str(), document.text.as_slice());
    let mut params = begin_diagnostics(alloc);
    write_diagnostics(alloc, &mut params, uri, text, judgement)?;
    send_diagnostics(params, uri, document.version, out)
}

/// The failure of a request about a document that is not open.
const NOT_OPEN: Failure = Failure::Told(ErrorKind::NoParameters, "the document is not open");

/// The JSON value that a message's body is; `None` if it is none.
fn read_value(alloc: Global, body: &[u8]) -> Result<Option<Value>, AllocError> {
    let Ok(text) = std::str::from_utf8(body) else {
        return Ok(None);
    };
    match Value::from_str(alloc, text) {
        Ok(value) => Ok(Some(value)),
        Err(error) if error.is_memory() => Err(AllocError),
        Err(_) => Ok(None),
    }
}
