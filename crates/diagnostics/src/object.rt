//! A message as an object.

ghost use Rattle.std.specs.Prelude.{◌≡◌, map, IfOk};
ghost use Rattle.serde_json.specs.View.{view, items_view};
ghost use Rattle.diagnostics.specs.Object.{edit_object, mark_object, name_object, place_object, told_object};

use crate::message::{Edit, Mark};
use crate::spot::spot_of;
use serde_json::{Value, json};
use std::alloc::{AllocError, Global};

/// A sentence about a file, and its level.
#[derive(Clone, Copy)]
pub struct Notice<'a> {
    /// The file's name, as it was given.
    pub file: &'a str,
    /// `error`, `warning` or `note`.
    pub level: &'a str,
    /// The refusal's number, where it is one.
    pub code: Option<u8>,
    /// What is wrong or to be noted, in one sentence.
    pub message: &'a str,
}

/// The object of a notice, with its place or null, its edit or null, its other places and its warning's name or null.
pub fn told_object(
    alloc: Global,
    told: Notice<'_>,
    at: Value,
    edit: Value,
    others: Vec<Value>,
    warning: Value,
) -> Result<Value, AllocError>
    ensures { IfOk result (λ value. view value ≡
        told_object told.entry (view at) (view edit) (items_view others.items) (view warning)) }
{
    json!(in alloc; {
        "at": at,
        "code": told.code,
        "edit": edit,
        "file": told.file,
        "level": told.level,
        "message": told.message,
        "others": others,
        "warning": warning
    })
}

/// The name of a warning, or null where there is none.
pub fn name_object(alloc: Global, name: Option<&str>) -> Result<Value, AllocError>
    ensures { IfOk result (λ value. view value ≡ name_object name.entry) }
{
    match name {
        Some(name) => Ok(Value::String(String::from_str(alloc, name)?)),
        None => Ok(Value::Null),
    }
}

/// A place.
fn mark_object(alloc: Global, text: &[u8], mark: &Mark) -> Result<Value, AllocError>
    ensures { IfOk result (λ value. view value ≡ mark_object text.now mark.now) }
{
    let spot = spot_of(text, mark);
    json!(in alloc; {
        "column": spot.column,
        "end_column": spot.end_column,
        "label": spot.label,
        "line": spot.line
    })
}

/// A place, or null where there is none.
pub fn place_object(alloc: Global, text: &[u8], mark: &Option<Mark>) -> Result<Value, AllocError>
    ensures { IfOk result (λ value. view value ≡ place_object text.now mark.now) }
{
    match mark {
        Some(mark) => mark_object(alloc, text, mark),
        None => Ok(Value::Null),
    }
}

/// All other places.
pub fn mark_objects(alloc: Global, text: &[u8], marks: &[Mark]) -> Result<Vec<Value>, AllocError>
    ensures { IfOk result (λ values. map view values.items ≡ map (mark_object text.now) marks.now) }
{
    let mut values = Vec::new(alloc);
    for mark in marks {
        values.push(mark_object(alloc, text, mark)?)?;
    }
    Ok(values)
}

/// An edit, or null where there is none.
pub fn edit_object(alloc: Global, edit: &Option<Edit>) -> Result<Value, AllocError>
    ensures { IfOk result (λ value. view value ≡ edit_object edit.now) }
{
    match edit {
        Some(edit) => json!(in alloc; {
            "from": edit.from,
            "text": edit.text.as_str(),
            "to": edit.to
        }),
        None => Ok(Value::Null),
    }
}
