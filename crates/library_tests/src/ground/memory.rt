//! Lack of memory: if an allocation fails, the call returns `Memory` and no other error.
//! `rt try --test --fail-alloc N`, for each N up to the number of allocations, refuses one of them. (The other tests
//! need their results, and fail then.)

use crate::shared::{LOW_VOLTS, same};
use field_checker::{CheckError, check};
use lc_model::RuleSet;
use rpn_compiler::{CompileError, compile};
use rule_lexer::{LexError, lex};
use rule_parser::{ParseError, RuleFile, parse};
use std::fmt::Debug;
use std::process::Abort;
use watch_sharing::{ShareError, share};

/// A text with every kind of item and every operator.
const TEXT: &[u8] =
    b"packet P = mid 0x0883 length 16; field V = P u16be at 12; packet Q = mid 0x0884 length 16; \
    field W = Q u8 at 12; rule LOW active fails 2 sequence 7 event error 1001 \"low volts\" \
    when not V < 2400 and (W > 1 or V == 3) xor W == 4;";

/// The call's result, or `None` for `Memory`; any other error fails the test.
fn unless_memory<R: Abort, T, E: Copy + Debug + PartialEq>(
    rt: &R,
    answer: Result<T, E>,
    memory: E,
) -> Option<T> {
    match answer {
        Ok(made) => Some(made),
        Err(error) => {
            same(rt, "the error", error, memory);
            None
        }
    }
}

/// Lexes and parses the text. It allocates the lists of tokens and items, their growths, and a box for each operator.
fn items<R: Abort + AllocGlobal>(rt: &R) -> Option<RuleFile<'static>> {
    let tokens = match lex(rt.alloc(), TEXT) {
        Ok(tokens) => tokens,
        Err(error) => {
            same(rt, "the error", error, LexError::Memory);
            return None;
        }
    };
    same(rt, "the tokens", tokens.len(), 63);
    let parsed = parse(rt.alloc(), TEXT, tokens.as_slice());
    let file = unless_memory(rt, parsed, ParseError::Memory)?;
    same(rt, "the items", file.items.len(), 5);
    Some(file)
}

/// Checks the items. It allocates three maps, the list of rules, a rule's name and text, and its condition's boxes.
fn rules<R: Abort + AllocGlobal>(rt: &R) -> Option<RuleSet> {
    let file = items(rt)?;
    let set = unless_memory(rt, check(rt.alloc(), &file), CheckError::Memory)?;
    same(rt, "the rules", set.rules.as_slice().len(), 1);
    Some(set)
}

/// Shares the watchpoints. It allocates the set of watchpoints, and each rule's mentions.
#[test]
fn watchpoints_or_no_memory(rt: HostRuntime) {
    if let Some(set) = rules(&rt) {
        let shared = unless_memory(&rt, share(rt.alloc(), &set), ShareError::Memory);
        if let Some(shared) = shared {
            same(&rt, "the watchpoints", shared.terms.len(), 4);
        }
    }
}

/// Compiles the text. It allocates all of that, and both files.
fn compiles<R: Abort + AllocGlobal>(rt: &R, text: &[u8], entries: (u16, u16)) {
    let pair = unless_memory(rt, compile(rt.alloc(), text), CompileError::Memory);
    if let Some(pair) = pair {
        same(rt, "the entries", (pair.watchpoints, pair.rules), entries);
    }
}

#[test]
fn two_files_or_no_memory(rt: HostRuntime) {
    compiles(&rt, LOW_VOLTS, (1, 1));
}

#[test]
fn files_of_all_operators_or_no_memory(rt: HostRuntime) {
    compiles(&rt, TEXT, (4, 1));
}
