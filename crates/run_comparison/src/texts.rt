//! The rule texts of a comparison.

ghost use Rattle.std.specs.Prelude.{◌≡◌, IfOk};
ghost use Rattle.flight_core.specs.Compiled.{sources_of};
ghost use Rattle.run_comparison.specs.Comparing.{sources_in};

use packet_listing::{TextRules, rules_of_texts};
use rpn_compiler::RuleText;
use scenarios::{DeclaredItems, declared_in};
use std::alloc::{AllocError, Global};

/// The rule texts of a run, numbered from 0: the one that is compared, and those that the stream may bring. `name` is the first one's.
#[derive(Clone, Copy)]
pub struct Side<'a, 't> {
    pub name: &'a str,
    pub texts: &'a [RuleText<'t>],
}

/// The texts of both runs. Both have as many.
#[derive(Clone, Copy)]
pub struct Sides<'a, 't> {
    pub old: Side<'a, 't>,
    pub new: Side<'a, 't>,
}

/// The bytes of the texts.
pub fn bytes_of<'t>(alloc: Global, texts: &[RuleText<'t>]) -> Result<Vec<&'t [u8]>, AllocError>
    ensures { IfOk result (λ all. sources_of all.items ≡ sources_in texts.now) }
{
    let mut all = Vec::new(alloc);
    for text in texts {
        all.push(text.bytes)?;
    }
    Ok(all)
}

/// What the texts of a run call their rules, in requests, events and commands.
#[derive(Drop)]
pub struct RunWords<'a> {
    rules: Vec<TextRules<'a>>,
    declared: Vec<DeclaredItems<'a>>,
    nothing: DeclaredItems<'a>,
}

/// What each text declares, alone among texts.
fn declared_alone<'t>(
    alloc: Global,
    texts: &[RuleText<'t>],
) -> Result<Vec<DeclaredItems<'t>>, AllocError> {
    let mut all = Vec::new(alloc);
    for number in 0..texts.len() {
        all.push(declared_in(alloc, &texts[number..number + 1])?)?;
    }
    Ok(all)
}

impl<'a> RunWords<'a> {
    /// The words of these texts. Out of memory is the only error.
    pub fn new(alloc: Global, texts: &[RuleText<'a>]) -> Result<RunWords<'a>, AllocError> {
        Ok(RunWords {
            rules: rules_of_texts(alloc, texts)?,
            declared: declared_alone(alloc, texts)?,
            nothing: declared_in(alloc, &texts[..0])?,
        })
    }

    /// The rules of the text of this number, alone among texts; none without a text.
    pub fn rules(&self, text: Option<usize>) -> &[TextRules<'a>] {
        match text {
            Some(text) if text < self.rules.len() => &self.rules.as_slice()[text..text + 1],
            _ => &[],
        }
    }

    /// What the text of this number declares; nothing without a text.
    pub fn declared(&self, text: Option<usize>) -> &DeclaredItems<'a> {
        let Some(text) = text else {
            return &self.nothing;
        };
        let Some(declared) = self.declared.as_slice().get(text) else {
            return &self.nothing;
        };
        declared
    }
}

/// What the texts of both runs call their rules.
#[derive(Drop)]
pub struct BothWords<'a> {
    pub old: RunWords<'a>,
    pub new: RunWords<'a>,
}

impl<'a> BothWords<'a> {
    /// The words of the texts of both runs. Out of memory is the only error.
    pub fn new(alloc: Global, sides: Sides<'_, 'a>) -> Result<BothWords<'a>, AllocError> {
        Ok(BothWords {
            old: RunWords::new(alloc, sides.old.texts)?,
            new: RunWords::new(alloc, sides.new.texts)?,
        })
    }
}
