//! Names: where they are declared and used, and other names for them.

use crate::document::{Document, Language};
use crate::failure::{ErrorKind, Failure, NO_PARAMETERS};
use crate::incoming::member_of;
use crate::json_text::JsonText;
use crate::judging::open_texts;
use crate::names::{Names, kind_of};
use crate::shapes::{
    begin_changes, end_changes, offset_in, write_byte_range, write_edit, write_range,
};
use editor_text::Walk;
use rule_errors::{NameKind, mend};
use rule_outline::{NameUse, Outline, RenameFault};
use script_outline::{ScriptKind, ScriptName};
use serde_json::Value;
use std::alloc::{AllocError, Global};

/// The failure of a new name where no name stands.
const NO_NAME: Failure = Failure::Told(ErrorKind::Refused, "no name stands here");

/// The failure of a new name outside rule texts.
const NO_RULES: Failure = Failure::Told(
    ErrorKind::Refused,
    "only names in rule texts can be changed",
);

/// Writes where a name stands in the document with this URI.
fn write_location(json: &mut JsonText, walk: &mut Walk<'_>, uri: &str, name: NameUse<'_>) {
    let end = name.at.saturating_add(name.text.len());
    json.begin_object();
    write_byte_range(json, walk, name.at, end);
    json.string_member("uri", uri);
    json.end_object();
}

/// Writes where a name stands in a document; null for no name.
fn write_place_of(json: &mut JsonText, document: &Document, name: Option<NameUse<'_>>) {
    match name {
        Some(name) => {
            let mut walk = Walk::new(document.text.as_slice());
            write_location(json, &mut walk, document.uri.as_str(), name);
        }
        None => json.null(),
    }
}

/// The place of a text that parameters name.
pub fn position_in(document: &Document, params: &Value) -> Result<usize, Failure> {
    let position = params.get("position").ok_or(NO_PARAMETERS)?;
    offset_in(document.text.as_slice(), position).ok_or(NO_PARAMETERS)
}

/// Writes where the name at a place of a rule text is declared; null if there is none.
fn write_declaration(
    alloc: Global,
    json: &mut JsonText,
    document: &Document,
    at: usize,
) -> Result<(), AllocError> {
    let text = document.text.as_slice();
    let mended = mend(alloc, text)?;
    let outline = Outline::new(alloc, text, &mended)?;
    let name = match outline.name_at(at) {
        Some(name) => outline.declaration(name),
        None => None,
    };
    write_place_of(json, document, name);
    Ok(())
}

/// Writes where a rule text declares a name. Returns whether it does; if not, nothing is written.
fn write_declaration_of(
    alloc: Global,
    json: &mut JsonText,
    document: &Document,
    kind: NameKind,
    name: &[u8],
) -> Result<bool, AllocError> {
    let text = document.text.as_slice();
    let mended = mend(alloc, text)?;
    let outline = Outline::new(alloc, text, &mended)?;
    let found = outline.declaration_of(kind, name);
    if found.is_some() {
        write_place_of(json, document, found);
    }
    Ok(found.is_some())
}

/// The name of a rule text at a place of a scenario, with its kind.
fn name_in_scenario<'d>(
    alloc: Global,
    document: &'d Document,
    documents: &[Document],
    at: usize,
) -> Result<Option<(NameKind, Vec<u8>)>, AllocError> {
    if document.language != Language::Scenario {
        return Ok(None);
    }
    let texts = open_texts(alloc, documents)?;
    let names = Names::of(alloc, texts.as_slice())?;
    let outline = names.outline(ScriptKind::Scenario, document.text.as_slice());
    match outline.name_at(at) {
        Some(ScriptName { class, at: _, text }) => match kind_of(class) {
            Some(kind) => Ok(Some((kind, Vec::from_slice(alloc, text)?))),
            None => Ok(None),
        },
        None => Ok(None),
    }
}

/// Writes where the name at a place of a scenario is declared: in the first open rule text that declares it. Null if there is none.
fn write_declaration_for_scenario(
    alloc: Global,
    json: &mut JsonText,
    document: &Document,
    documents: &[Document],
    at: usize,
) -> Result<(), AllocError> {
    if let Some((kind, name)) = name_in_scenario(alloc, document, documents, at)? {
        for other in documents {
            if other.language == Language::Rules
                && write_declaration_of(alloc, json, other, kind, name.as_slice())?
            {
                return Ok(());
            }
        }
    }
    json.null();
    Ok(())
}

/// Writes where the name at the place of these parameters is declared; null if no name stands there.
pub fn write_definition(
    alloc: Global,
    json: &mut JsonText,
    document: &Document,
    documents: &[Document],
    params: &Value,
) -> Result<(), Failure> {
    let at = position_in(document, params)?;
    if document.language == Language::Rules {
        write_declaration(alloc, json, document, at)?;
    } else {
        write_declaration_for_scenario(alloc, json, document, documents, at)?;
    }
    Ok(())
}

/// What a rule text says of a name that it declares.
fn hover_in_rules(
    alloc: Global,
    document: &Document,
    kind: NameKind,
    name: &[u8],
) -> Result<Option<String>, AllocError> {
    let text = document.text.as_slice();
    let mended = mend(alloc, text)?;
    let outline = Outline::new(alloc, text, &mended)?;
    outline.hover_of(alloc, kind, name)
}

/// What is said of the name at a place of a scenario, by the first open rule text that declares it.
pub fn hover_in_scenario(
    alloc: Global,
    document: &Document,
    documents: &[Document],
    at: usize,
) -> Result<Option<String>, AllocError> {
    let Some((kind, name)) = name_in_scenario(alloc, document, documents, at)? else {
        return Ok(None);
    };
    for other in documents {
        if other.language == Language::Rules {
            let said = hover_in_rules(alloc, other, kind, name.as_slice())?;
            if said.is_some() {
                return Ok(said);
            }
        }
    }
    Ok(None)
}

/// Whether parameters ask for declarations among the uses.
fn has_declarations(params: &Value) -> bool {
    let asked = member_of(params, "context", "includeDeclaration").and_then(Value::as_bool);
    asked.unwrap_or(true)
}

/// Writes the uses of the name at a place of a rule text, with or without its declaration; null if no name stands there.
fn write_uses(
    alloc: Global,
    json: &mut JsonText,
    document: &Document,
    at: usize,
    has_declaration: bool,
) -> Result<(), AllocError> {
    let text = document.text.as_slice();
    let mended = mend(alloc, text)?;
    let outline = Outline::new(alloc, text, &mended)?;
    let Some(name) = outline.name_at(at) else {
        json.null();
        return Ok(());
    };
    let uses = outline.uses(alloc, name)?;
    let mut walk = Walk::new(text);
    json.begin_array();
    for found in &uses {
        if has_declaration || !found.is_declaration {
            write_location(json, &mut walk, document.uri.as_str(), *found);
        }
    }
    json.end_array();
    Ok(())
}

/// Writes all uses of the name at the place of these parameters in its rule text; null if no name stands there.
pub fn write_references(
    alloc: Global,
    json: &mut JsonText,
    document: &Document,
    params: &Value,
) -> Result<(), Failure> {
    let at = position_in(document, params)?;
    if document.language == Language::Rules {
        write_uses(alloc, json, document, at, has_declarations(params))?;
    } else {
        json.null();
    }
    Ok(())
}

/// The bytes of the name at a place of a rule text: the place of the first, and that after the last.
fn name_bytes(alloc: Global, text: &[u8], at: usize) -> Result<Option<(usize, usize)>, AllocError> {
    let mended = mend(alloc, text)?;
    let outline = Outline::new(alloc, text, &mended)?;
    match outline.name_at(at) {
        Some(name) => Ok(Some((name.at, name.at.saturating_add(name.text.len())))),
        None => Ok(None),
    }
}

/// Writes the range of the name at the place of these parameters, if it can get another name; else null.
pub fn write_renamed_range(
    alloc: Global,
    json: &mut JsonText,
    document: &Document,
    params: &Value,
) -> Result<(), Failure> {
    let at = position_in(document, params)?;
    let text = document.text.as_slice();
    let bytes = if document.language == Language::Rules {
        name_bytes(alloc, text, at)?
    } else {
        None
    };
    match bytes {
        Some((from, to)) => {
            let mut walk = Walk::new(text);
            let start = walk.place_at(from);
            write_range(json, start, walk.place_at(to));
        }
        None => json.null(),
    }
    Ok(())
}

/// The sentence about a name that can't be given.
fn rename_sentence(fault: RenameFault) -> &'static str {
    match fault {
        RenameFault::NoName => { "a name is a letter or `_`, then letters, digits and `_`" }
        RenameFault::Reserved => "the new name is a reserved word",
        RenameFault::TooLong => "a name has at most 32 bytes",
        RenameFault::Taken => "the text has this name already",
    }
}

/// Writes the edits that give a name of a document this other one.
fn write_rename_edits(
    alloc: Global,
    json: &mut JsonText,
    document: &Document,
    outline: &Outline<'_>,
    name: NameUse<'_>,
    new: &str,
) -> Result<(), AllocError> {
    let uses = outline.uses(alloc, name)?;
    let mut walk = Walk::new(document.text.as_slice());
    begin_changes(json, document.uri.as_str());
    for found in &uses {
        let end = found.at.saturating_add(found.text.len());
        write_edit(json, &mut walk, found.at, end, new);
    }
    end_changes(json);
    Ok(())
}

/// Writes another name for the one at a place of a rule text, everywhere in it.
fn write_new_name(
    alloc: Global,
    json: &mut JsonText,
    document: &Document,
    at: usize,
    new: &str,
) -> Result<(), Failure> {
    let text = document.text.as_slice();
    let mended = mend(alloc, text)?;
    let outline = Outline::new(alloc, text, &mended)?;
    let name = outline.name_at(at).ok_or(NO_NAME)?;
    if let Some(fault) = outline.rename_fault(alloc, name, new.as_bytes())? {
        return Err(Failure::Told(ErrorKind::Refused, rename_sentence(fault)));
    }
    write_rename_edits(alloc, json, document, &outline, name, new)?;
    Ok(())
}

/// Writes another name for the one at the place of these parameters, everywhere in its rule text.
pub fn write_rename(
    alloc: Global,
    json: &mut JsonText,
    document: &Document,
    params: &Value,
) -> Result<(), Failure> {
    let at = position_in(document, params)?;
    let new = params
        .get("newName")
        .and_then(Value::as_str)
        .ok_or(NO_PARAMETERS)?;
    if document.language != Language::Rules {
        return Err(NO_RULES);
    }
    write_new_name(alloc, json, document, at, new)
}
