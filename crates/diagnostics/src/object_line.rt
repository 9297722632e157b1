//! An object as a line.

ghost use Rattle.std.specs.Prelude.{◌≡◌, ◌++◌, [], ◌∷◌, false, codes, if◌then◌else◌, string_bytes, IfOk};
ghost use Rattle.serde_json.specs.View.{view};
ghost use Rattle.serde_json.specs.Written.{compact_text, has_float};
ghost use Rattle.diagnostics.specs.Object.{code_of, kind_of, level_of, message_object, message_text, note_text};

use crate::message::Message;
use crate::object::{Notice, edit_object, mark_objects, name_object, place_object, told_object};
use serde_json::Value;
use std::alloc::{AllocError, Global};

/// A value's text, with a line feed. It has no number with a point.
fn line_of(alloc: Global, value: &Value) -> Result<String, AllocError>
    requires { has_float (view value.now) ≡ false }
    ensures { IfOk result (λ line. string_bytes line ≡ compact_text (view value.now) ++ 10 ∷ []) }
{
    let mut line = value.to_string(alloc)?;
    line.push('\n')?;
    Ok(line)
}

/// Whether a message is an error or a warning.
fn kind_of(message: &Message) -> &'static str
    ensures { result.now ≡ kind_of message.now.warning }
{
    match message.warning {
        Some(_) => "warning",
        None => "error",
    }
}

/// The number of the refusal that a message reports. A warning has none.
fn code_of(message: &Message) -> Option<u8>
    ensures { result ≡ code_of message.now.warning message.now.code }
{
    match message.warning {
        Some(_) => None,
        None => Some(message.code),
    }
}

/// The object of a message of a text in a file of this name.
fn message_object(
    alloc: Global,
    file: &str,
    text: &[u8],
    message: &Message,
) -> Result<Value, AllocError>
    ensures { IfOk result (λ value. view value ≡ message_object file.now text.now message.now) }
{
    let told = Notice {
        file,
        level: kind_of(message),
        code: code_of(message),
        message: message.head.as_str(),
    };
    let at = place_object(alloc, text, &message.first)?;
    let edit = edit_object(alloc, &message.edit)?;
    let others = mark_objects(alloc, text, message.others.as_slice())?;
    let warning = name_object(alloc, message.warning)?;
    told_object(alloc, told, at, edit, others, warning)
}

/// A message of a text in a file of this name, as a line.
pub fn message_line(
    alloc: Global,
    file: &str,
    text: &[u8],
    message: &Message,
) -> Result<String, AllocError>
    ensures { IfOk result (λ line.
        string_bytes line ≡ message_text file.now text.now message.now) }
{
    let object = message_object(alloc, file, text, message)?;
    line_of(alloc, &object)
}

/// The level of a notice about a file as a whole.
fn level_of(is_warning: bool) -> &'static str
    ensures { result.now ≡ level_of is_warning }
{
    if is_warning { "warning" } else { "note" }
}

/// A warning or a note about a file of this name as a whole, as a line.
pub fn note_line(
    alloc: Global,
    file: &str,
    is_warning: bool,
    note: &str,
) -> Result<String, AllocError>
    ensures { IfOk result (λ line. string_bytes line ≡ note_text file.now is_warning note.now) }
{
    let told = Notice {
        file,
        level: level_of(is_warning),
        code: None,
        message: note,
    };
    let object = told_object(
        alloc,
        told,
        Value::Null,
        Value::Null,
        Vec::new(alloc),
        Value::Null,
    )?;
    line_of(alloc, &object)
}
