//! What a client sends.

use serde_json::Value;
use std::alloc::{AllocError, Global};

/// A message of a client (JSON-RPC 2.0).
#[derive(Drop)]
pub enum Incoming {
    /// A request: it gets a response with its id.
    Request {
        id: Value,
        method: String,
        params: Value,
    },
    /// A notification: it gets no response.
    Notification {
        method: String,
        params: Value,
    },
    /// A response. The server sends no requests, so it means nothing.
    Response,
    /// None of these.
    NoMessage,
}

/// The member of an object, taken out of it; null if there is none.
pub fn take_member(value: &mut Value, name: &str) -> Value {
    match value.get_mut(name) {
        Some(member) => member.take(),
        None => Value::Null,
    }
}

/// Whether a value can be the id of a request.
fn is_id(value: &Value) -> bool {
    value.is_string() || value.is_number()
}

/// The message that a value is.
pub fn incoming_of(alloc: Global, mut value: Value) -> Result<Incoming, AllocError> {
    let method = match value.get("method") {
        Some(Value::String(method)) => String::from_str(alloc, method.as_str())?,
        None if value.get("id").is_some() => return Ok(Incoming::Response),
        _ => return Ok(Incoming::NoMessage),
    };
    let params = take_member(&mut value, "params");
    let id = take_member(&mut value, "id");
    if is_id(&id) {
        Ok(Incoming::Request { id, method, params })
    } else if id.is_null() {
        Ok(Incoming::Notification { method, params })
    } else {
        Ok(Incoming::NoMessage)
    }
}

/// A member of a member of an object.
pub fn member_of<'v>(value: &'v Value, outer: &str, inner: &str) -> Option<&'v Value> {
    value.get(outer)?.get(inner)
}

/// The URI of the document that parameters name.
pub fn uri_in(params: &Value) -> Option<&str> {
    member_of(params, "textDocument", "uri")?.as_str()
}
