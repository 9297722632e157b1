//! What the server can do (Language Server Protocol 3.17, "ServerCapabilities").

use crate::json_text::JsonText;
use crate::tokens::TOKEN_TYPES;
use lc_model::VERSION;

/// Changes come as ranges (`TextDocumentSyncKind.Incremental`).
const BY_RANGES: i64 = 2;

/// The requests that the server answers, without options.
const PROVIDERS: [&str; 7] = [
    "definitionProvider",
    "documentFormattingProvider",
    "documentRangeFormattingProvider",
    "documentSymbolProvider",
    "foldingRangeProvider",
    "hoverProvider",
    "referencesProvider",
];

/// Writes the member of this name: a list of words.
fn write_words(json: &mut JsonText, name: &str, words: &[&str]) {
    json.name(name);
    json.begin_array();
    for word in words {
        json.string(word);
    }
    json.end_array();
}

/// Writes what the server offers for completion, quick fixes and new names.
fn write_options(json: &mut JsonText) {
    json.name("codeActionProvider");
    json.begin_object();
    write_words(json, "codeActionKinds", &["quickfix"]);
    json.end_object();
    json.name("completionProvider");
    json.begin_object();
    json.flag_member("resolveProvider", false);
    write_words(json, "triggerCharacters", &[" ", "="]);
    json.end_object();
    json.name("renameProvider");
    json.begin_object();
    json.flag_member("prepareProvider", true);
    json.end_object();
}

/// Writes the types and modifiers of semantic tokens, and that they can be asked for.
fn write_token_options(json: &mut JsonText) {
    json.name("semanticTokensProvider");
    json.begin_object();
    json.flag_member("full", true);
    json.name("legend");
    json.begin_object();
    write_words(json, "tokenModifiers", &["declaration"]);
    write_words(json, "tokenTypes", &TOKEN_TYPES);
    json.end_object();
    json.flag_member("range", true);
    json.end_object();
}

/// Writes how documents are to be sent.
fn write_sync_options(json: &mut JsonText) {
    json.name("textDocumentSync");
    json.begin_object();
    json.number_member("change", BY_RANGES);
    json.flag_member("openClose", true);
    json.name("save");
    json.begin_object();
    json.flag_member("includeText", false);
    json.end_object();
    json.end_object();
}

/// Writes what can be asked of documents.
fn write_capabilities(json: &mut JsonText) {
    json.begin_object();
    for name in &PROVIDERS {
        json.flag_member(name, true);
    }
    write_options(json);
    json.string_member("positionEncoding", "utf-16");
    write_token_options(json);
    write_sync_options(json);
    json.end_object();
}

/// Writes the result of the request `initialize`.
pub fn write_initialize_result(json: &mut JsonText) {
    json.begin_object();
    json.name("capabilities");
    write_capabilities(json);
    json.name("serverInfo");
    json.begin_object();
    json.string_member("name", "flight_tools");
    json.string_member("version", VERSION);
    json.end_object();
    json.end_object();
}
