//! From a rule text to two table files, call by call.

use crate::shared::{LOW_VOLTS, same};
use crate::surface::values::first_request;
use field_checker::{CheckError, check};
use lc_model::{Kind, RuleSet};
use rpn_compiler::{CompileError, TablePair, compile};
use rule_lexer::{LexError, Token, lex};
use rule_parser::{ParseError, RuleFile, parse};
use std::alloc::Global;
use std::process::Abort;
use table_file::{FileError, TableFile, open, wrap};
use table_validator::{TableFault, ValidImage, validate};
use watch_sharing::{ShareError, Shared, share};

fn rules_of(alloc: Global, file: &RuleFile) -> Result<RuleSet, CheckError> {
    check(alloc, file)
}

fn shared_of(alloc: Global, rules: &RuleSet) -> Result<Shared, ShareError> {
    share(alloc, rules)
}

/// Distinct comparisons, and mentions of the first rule.
fn counts_of(shared: &Shared) -> (usize, usize) {
    let mentions = shared.mentions.as_slice().first();
    (
        shared.terms.len(),
        mentions.map_or(0, |numbers| numbers.len()),
    )
}

#[test]
fn low_volts_in_steps(rt: HostRuntime) {
    let lexed: Result<Vec<Token<'_>>, LexError> = lex(rt.alloc(), LOW_VOLTS);
    let tokens = lexed.expect(&rt, "tokens");
    let parsed: Result<RuleFile, ParseError> = parse(rt.alloc(), LOW_VOLTS, tokens.as_slice());
    let file = parsed.expect(&rt, "items");
    same(&rt, "items", file.items.len(), 3);
    let rules = rules_of(rt.alloc(), &file).expect(&rt, "rules");
    same(&rt, "request", first_request(&rules), Some((7, 2)));
    let shared = shared_of(rt.alloc(), &rules).expect(&rt, "watchpoints");
    same(&rt, "watchpoints", counts_of(&shared), (1, 1));
}

fn opened(file: &[u8]) -> Result<TableFile<'_>, FileError> {
    open(file)
}

fn judged(kind: Kind, image: &[u8]) -> Result<ValidImage<'_>, TableFault> {
    validate(kind, image)
}

/// Both files of a pair open, and their images are sound.
fn is_sound(kind: Kind, file: &[u8]) -> bool {
    match opened(file) {
        Ok(file) => judged(kind, file.image()).is_ok(),
        Err(_) => false,
    }
}

#[test]
fn low_volts_in_one_call(rt: HostRuntime) {
    let made: Result<TablePair, CompileError> = compile(rt.alloc(), LOW_VOLTS);
    let pair = made.expect(&rt, "a pair");
    same(&rt, "counts", (pair.watchpoints, pair.rules), (1, 1));
    same(
        &rt,
        "sizes",
        (pair.wdt.len(), pair.adt.len()),
        (4_380, 19_516),
    );
    same(&rt, "wdt", is_sound(Kind::Wdt, &pair.wdt), true);
    same(&rt, "adt", is_sound(Kind::Adt, &pair.adt), true);
}

#[test]
fn a_file_of_an_image(rt: HostRuntime) {
    let file = wrap(rt.alloc(), Kind::Wdt, &[0; 100]).expect(&rt, "a file");
    same(&rt, "length", file.len(), 216);
}
