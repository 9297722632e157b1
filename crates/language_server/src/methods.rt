//! The requests about a document, by their methods.

use crate::actions::write_fixes;
use crate::document::Document;
use crate::failure::{ErrorKind, Failure, NO_PARAMETERS};
use crate::formatting::write_format;
use crate::json_text::JsonText;
use crate::naming::{write_definition, write_references, write_rename, write_renamed_range};
use crate::outlines::{Question, tokens_in, write_answer};
use serde_json::Value;
use std::alloc::Global;

/// The failure of a request whose method the server does not have.
pub const NO_METHOD: Failure = Failure::Told(ErrorKind::NoMethod, "the server has no such method");

/// A request about a document.
#[derive(Clone, Copy)]
pub enum Method {
    Actions,
    Choices,
    Definition,
    Folds,
    Formatting,
    Hover,
    PrepareRename,
    RangeFormatting,
    References,
    Rename,
    Symbols,
    Tokens,
    TokensInRange,
}

/// The requests about a document, by their names.
const METHODS: [(&str, Method); 13] = [
    ("textDocument/codeAction", Method::Actions),
    ("textDocument/completion", Method::Choices),
    ("textDocument/definition", Method::Definition),
    ("textDocument/foldingRange", Method::Folds),
    ("textDocument/formatting", Method::Formatting),
    ("textDocument/hover", Method::Hover),
    ("textDocument/prepareRename", Method::PrepareRename),
    ("textDocument/rangeFormatting", Method::RangeFormatting),
    ("textDocument/references", Method::References),
    ("textDocument/rename", Method::Rename),
    ("textDocument/documentSymbol", Method::Symbols),
    ("textDocument/semanticTokens/full", Method::Tokens),
    ("textDocument/semanticTokens/range", Method::TokensInRange),
];

/// The request of this name.
pub fn method_of(name: &str) -> Option<Method> {
    for (word, method) in &METHODS {
        if *word == name {
            return Some(*method);
        }
    }
    None
}

/// Writes the result of a request about a document among all documents.
pub fn write_method(
    alloc: Global,
    json: &mut JsonText,
    method: Method,
    document: &Document,
    all: &[Document],
    params: &Value,
) -> Result<(), Failure> {
    let question = match method {
        Method::Actions => return write_fixes(alloc, json, document, params),
        Method::Definition => return write_definition(alloc, json, document, all, params),
        Method::Formatting => return write_format(alloc, json, document, None),
        Method::PrepareRename => return write_renamed_range(alloc, json, document, params),
        Method::RangeFormatting => {
            let range = params.get("range").ok_or(NO_PARAMETERS)?;
            return write_format(alloc, json, document, Some(range));
        }
        Method::References => return write_references(alloc, json, document, params),
        Method::Rename => return write_rename(alloc, json, document, params),
        Method::Choices => Question::Choices(params),
        Method::Folds => Question::Folds,
        Method::Hover => Question::Hover(params),
        Method::Symbols => Question::Symbols,
        Method::Tokens => Question::Tokens(0, document.text.len()),
        Method::TokensInRange => tokens_in(document, params)?,
    };
    write_answer(alloc, json, document, all, question)
}
