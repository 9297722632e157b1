//! Measures the calls on the ground: the lexer, the checker and the compiler.

use crate::measuring::{Work, measure};
use field_checker::check;
use rpn_compiler::compile;
use rule_lexer::lex;
use rule_parser::{RuleFile, parse};
use std::alloc::Global;

/// The work of splitting a text into tokens; its amount is the text's bytes.
#[derive(Drop)]
struct Lexing<'a> {
    alloc: Global,
    text: &'a [u8],
}

impl Work for Lexing<'_> {
    fn once(&mut self) -> anyhow::Result<usize> {
        lex(self.alloc, self.text)?;
        Ok(self.text.len())
    }
}

/// Measures `lex` over a rule text; prints its bytes and the time. The error is the text's or the system's.
pub fn measure_lexer(rt: &HostRuntime, text: &[u8]) -> anyhow::Result<()> {
    let alloc = rt.alloc();
    measure(rt, &mut Lexing { alloc, text })
}

/// The work of checking a parsed text; its amount is the text's items.
#[derive(Drop)]
struct Checking<'a, 'b> {
    alloc: Global,
    file: &'a RuleFile<'b>,
}

impl Work for Checking<'_, '_> {
    fn once(&mut self) -> anyhow::Result<usize> {
        check(self.alloc, self.file)?;
        Ok(self.file.items.len())
    }
}

fn measure_check(rt: &HostRuntime, file: &RuleFile<'_>) -> anyhow::Result<()> {
    let alloc = rt.alloc();
    measure(rt, &mut Checking { alloc, file })
}

/// Measures `check` over a parsed rule text; prints its items and the time. The error is the text's or the
/// system's.
pub fn measure_checker(rt: &HostRuntime, text: &[u8]) -> anyhow::Result<()> {
    let tokens = lex(rt.alloc(), text)?;
    let file = parse(rt.alloc(), text, &tokens)?;
    measure_check(rt, &file)
}

/// The work of compiling a text; its amount is the text's bytes.
#[derive(Drop)]
struct Compiling<'a> {
    alloc: Global,
    text: &'a [u8],
}

impl Work for Compiling<'_> {
    fn once(&mut self) -> anyhow::Result<usize> {
        compile(self.alloc, self.text)?;
        Ok(self.text.len())
    }
}

/// Measures `compile` over a rule text; prints its bytes and the time. The error is the text's or the system's.
pub fn measure_compiler(rt: &HostRuntime, text: &[u8]) -> anyhow::Result<()> {
    let alloc = rt.alloc();
    measure(rt, &mut Compiling { alloc, text })
}
