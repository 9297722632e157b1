//! What a document's outline answers: symbols, folds, semantic tokens, choices and hovers.

use crate::document::{Document, Language};
use crate::failure::{Failure, NO_PARAMETERS};
use crate::json_text::JsonText;
use crate::judging::open_texts;
use crate::names::Names;
use crate::naming::{hover_in_scenario, position_in};
use crate::places::Places;
use crate::shapes::{range_in, write_byte_range, write_range_member};
use crate::tokens::{choice_kind, symbol_kind, write_tokens};
use editor_text::{Choice, ClassedWord, Fold, Hover, Symbol, UnitPlace, Walk};
use rule_errors::mend;
use rule_outline::Outline;
use script_outline::{ScriptKind, ScriptOutline};
use serde_json::Value;
use std::alloc::{AllocError, Global};

/// A question about a document's outline.
#[derive(Clone, Copy)]
pub enum Question<'p> {
    /// The symbols.
    Symbols,
    /// The folds.
    Folds,
    /// The semantic tokens of the bytes from one place up to another.
    Tokens(usize, usize),
    /// The choices at the place of these parameters.
    Choices(&'p Value),
    /// The hover at the place of these parameters.
    Hover(&'p Value),
}

/// The outline of a text.
trait TextOutline {
    fn symbols(&self, alloc: Global) -> Result<Vec<Symbol>, AllocError>;

    fn folds(&self, alloc: Global) -> Result<Vec<Fold>, AllocError>;

    fn words(&self, alloc: Global) -> Result<Vec<ClassedWord>, AllocError>;

    fn choices(&self, alloc: Global, at: usize) -> Result<Vec<Choice>, AllocError>;

    fn hover(&self, alloc: Global, at: usize) -> Result<Option<Hover>, AllocError>;
}

impl TextOutline for Outline<'_> {
    fn symbols(&self, alloc: Global) -> Result<Vec<Symbol>, AllocError> {
        self.symbols(alloc)
    }

    fn folds(&self, alloc: Global) -> Result<Vec<Fold>, AllocError> {
        self.folds(alloc)
    }

    fn words(&self, alloc: Global) -> Result<Vec<ClassedWord>, AllocError> {
        self.classed_words(alloc)
    }

    fn choices(&self, alloc: Global, at: usize) -> Result<Vec<Choice>, AllocError> {
        self.choices(alloc, at)
    }

    fn hover(&self, alloc: Global, at: usize) -> Result<Option<Hover>, AllocError> {
        self.hover(alloc, at)
    }
}

impl TextOutline for ScriptOutline<'_> {
    fn symbols(&self, alloc: Global) -> Result<Vec<Symbol>, AllocError> {
        self.symbols(alloc)
    }

    fn folds(&self, alloc: Global) -> Result<Vec<Fold>, AllocError> {
        self.folds(alloc)
    }

    fn words(&self, alloc: Global) -> Result<Vec<ClassedWord>, AllocError> {
        self.classed_words(alloc)
    }

    fn choices(&self, alloc: Global, at: usize) -> Result<Vec<Choice>, AllocError> {
        self.choices(alloc, at)
    }

    fn hover(&self, alloc: Global, at: usize) -> Result<Option<Hover>, AllocError> {
        self.hover(alloc, at)
    }
}

/// The places of all ends of symbols, which may stand inside one another.
fn symbol_places(alloc: Global, text: &[u8], symbols: &[Symbol]) -> Result<Places, AllocError> {
    let mut ends = Vec::new(alloc);
    for symbol in symbols {
        ends.extend_from_slice(&[symbol.from, symbol.to, symbol.name_from, symbol.name_to])?;
    }
    Places::of(alloc, text, ends)
}

/// Writes a symbol.
fn write_symbol(json: &mut JsonText, places: &Places, symbol: &Symbol) {
    json.begin_object();
    json.string_member("detail", symbol.detail.as_str());
    json.number_member("kind", symbol_kind(symbol.class));
    json.string_member("name", symbol.name.as_str());
    places.write_range(json, symbol.from, symbol.to);
    places.write_named_range(json, "selectionRange", symbol.name_from, symbol.name_to);
    json.end_object();
}

/// Writes symbols, in the order of the text.
fn write_symbols(
    alloc: Global,
    json: &mut JsonText,
    text: &[u8],
    symbols: &[Symbol],
) -> Result<(), AllocError> {
    let places = symbol_places(alloc, text, symbols)?;
    json.begin_array();
    for symbol in symbols {
        write_symbol(json, &places, symbol);
    }
    json.end_array();
    Ok(())
}

/// Writes folds, in the order of the text.
fn write_folds(json: &mut JsonText, text: &[u8], folds: &[Fold]) {
    let mut walk = Walk::new(text);
    json.begin_array();
    for fold in folds {
        let start = walk.place_at(fold.from).line;
        let end = walk.place_at(fold.to).line;
        let kind = if fold.is_comment { "comment" } else { "region" };
        json.begin_object();
        json.number_member("endLine", i64::from(end));
        json.string_member("kind", kind);
        json.number_member("startLine", i64::from(start));
        json.end_object();
    }
    json.end_array();
}

/// Whether a byte can be one of a word that is being written. A table's name has a point.
fn is_of_word(byte: u8) -> bool {
    byte.is_ascii_alphanumeric() || byte == b'_' || byte == b'.'
}

/// Where the word that ends at a place begins.
fn word_start(text: &[u8], at: usize) -> usize {
    let front = &text[..at.min(text.len())];
    let size = front
        .iter()
        .rev()
        .take_while(|byte| is_of_word(**byte))
        .count();
    front.len().saturating_sub(size)
}

/// The range of the word that ends at a place of a text.
fn word_range(text: &[u8], at: usize) -> (UnitPlace, UnitPlace) {
    let mut walk = Walk::new(text);
    let start = walk.place_at(word_start(text, at));
    (start, walk.place_at(at))
}

/// Writes a choice with this number, which replaces a range.
fn write_choice(
    alloc: Global,
    json: &mut JsonText,
    number: usize,
    choice: &Choice,
    range: (UnitPlace, UnitPlace),
) -> Result<(), AllocError> {
    let order = format!(in alloc; "{number:05}")?;
    json.begin_object();
    json.string_member("detail", choice.detail.as_str());
    json.number_member("kind", choice_kind(choice.class));
    json.string_member("label", choice.text.as_str());
    json.string_member("sortText", order.as_str());
    json.name("textEdit");
    json.begin_object();
    json.string_member("newText", choice.text.as_str());
    write_range_member(json, range.0, range.1);
    json.end_object();
    json.end_object();
    Ok(())
}

/// Writes choices at a place, to be shown in their order; each replaces the word that ends there.
fn write_choices(
    alloc: Global,
    json: &mut JsonText,
    text: &[u8],
    at: usize,
    choices: &[Choice],
) -> Result<(), AllocError> {
    let range = word_range(text, at);
    json.begin_object();
    json.flag_member("isIncomplete", false);
    json.name("items");
    json.begin_array();
    for (number, choice) in choices.iter().enumerate() {
        write_choice(alloc, json, number, choice, range)?;
    }
    json.end_array();
    json.end_object();
    Ok(())
}

/// Writes a hover's text.
fn write_contents(json: &mut JsonText, text: &str) {
    json.name("contents");
    json.begin_object();
    json.string_member("kind", "markdown");
    json.string_member("value", text);
    json.end_object();
}

/// Writes what is said of a word, or null.
fn write_hover(json: &mut JsonText, text: &[u8], hover: &Option<Hover>) {
    match hover {
        Some(hover) => {
            json.begin_object();
            write_contents(json, hover.text.as_str());
            write_byte_range(json, &mut Walk::new(text), hover.from, hover.to);
            json.end_object();
        }
        None => json.null(),
    }
}

/// Writes the choices that an outline has at the place of these parameters.
fn answer_choices<O: TextOutline>(
    alloc: Global,
    json: &mut JsonText,
    document: &Document,
    outline: &O,
    params: &Value,
) -> Result<(), Failure> {
    let at = position_in(document, params)?;
    let choices = outline.choices(alloc, at)?;
    write_choices(
        alloc,
        json,
        document.text.as_slice(),
        at,
        choices.as_slice(),
    )?;
    Ok(())
}

/// Writes what an outline says of the word at the place of these parameters.
fn answer_hover<O: TextOutline>(
    alloc: Global,
    json: &mut JsonText,
    document: &Document,
    outline: &O,
    params: &Value,
) -> Result<(), Failure> {
    let at = position_in(document, params)?;
    let hover = outline.hover(alloc, at)?;
    write_hover(json, document.text.as_slice(), &hover);
    Ok(())
}

/// Writes the symbols of an outline.
fn answer_symbols<O: TextOutline>(
    alloc: Global,
    json: &mut JsonText,
    text: &[u8],
    outline: &O,
) -> Result<(), AllocError> {
    let symbols = outline.symbols(alloc)?;
    write_symbols(alloc, json, text, symbols.as_slice())
}

/// Writes what an outline answers to a question about its text.
fn answer_by<O: TextOutline>(
    alloc: Global,
    json: &mut JsonText,
    document: &Document,
    outline: &O,
    question: Question<'_>,
) -> Result<(), Failure> {
    let text = document.text.as_slice();
    match question {
        Question::Symbols => answer_symbols(alloc, json, text, outline)?,
        Question::Folds => write_folds(json, text, outline.folds(alloc)?.as_slice()),
        Question::Tokens(from, to) => {
            write_tokens(json, text, outline.words(alloc)?.as_slice(), (from, to));
        }
        Question::Choices(params) => answer_choices(alloc, json, document, outline, params)?,
        Question::Hover(params) => answer_hover(alloc, json, document, outline, params)?,
    }
    Ok(())
}

/// Writes what the outline of a script answers.
fn answer_script(
    alloc: Global,
    json: &mut JsonText,
    kind: ScriptKind,
    document: &Document,
    documents: &[Document],
    question: Question<'_>,
) -> Result<(), Failure> {
    let texts = open_texts(alloc, documents)?;
    let names = Names::of(alloc, texts.as_slice())?;
    let outline = names.outline(kind, document.text.as_slice());
    answer_by(alloc, json, document, &outline, question)
}

/// Writes what is said of a name of a rule text in a scenario. Returns whether such a name stands at the place of these parameters.
fn write_name_hover(
    alloc: Global,
    json: &mut JsonText,
    document: &Document,
    documents: &[Document],
    params: &Value,
) -> Result<bool, Failure> {
    let at = position_in(document, params)?;
    match hover_in_scenario(alloc, document, documents, at)? {
        Some(text) => {
            json.begin_object();
            write_contents(json, text.as_str());
            json.end_object();
            Ok(true)
        }
        None => Ok(false),
    }
}

/// Writes what a scenario's outline answers; to a hover first what is said of a name.
fn answer_scenario(
    alloc: Global,
    json: &mut JsonText,
    document: &Document,
    documents: &[Document],
    question: Question<'_>,
) -> Result<(), Failure> {
    if let Question::Hover(params) = question {
        if write_name_hover(alloc, json, document, documents, params)? {
            return Ok(());
        }
    }
    answer_script(
        alloc,
        json,
        ScriptKind::Scenario,
        document,
        documents,
        question,
    )
}

/// Writes what the outline of a rule text answers.
fn answer_rules(
    alloc: Global,
    json: &mut JsonText,
    document: &Document,
    question: Question<'_>,
) -> Result<(), Failure> {
    let text = document.text.as_slice();
    let mended = mend(alloc, text)?;
    let outline = Outline::new(alloc, text, &mended)?;
    answer_by(alloc, json, document, &outline, question)
}

/// Writes what the outline of a document answers to a question.
pub fn write_answer(
    alloc: Global,
    json: &mut JsonText,
    document: &Document,
    documents: &[Document],
    question: Question<'_>,
) -> Result<(), Failure> {
    match document.language {
        Language::Rules => answer_rules(alloc, json, document, question),
        Language::Schedule => {
            answer_script(
                alloc,
                json,
                ScriptKind::Schedule,
                document,
                documents,
                question,
            )
        }
        Language::Scenario => answer_scenario(alloc, json, document, documents, question),
    }
}

/// The question for the semantic tokens of the range of these parameters.
pub fn tokens_in<'p>(document: &Document, params: &'p Value) -> Result<Question<'p>, Failure> {
    let range = params.get("range").ok_or(NO_PARAMETERS)?;
    let (from, to) = range_in(document.text.as_slice(), range).ok_or(NO_PARAMETERS)?;
    Ok(Question::Tokens(from, to))
}
