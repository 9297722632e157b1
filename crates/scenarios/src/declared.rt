//! The declarations of rule texts.

ghost use Rattle.std.specs.Prelude.{◌≡◌, ◌<◌, ◌≤◌, ◌+◌, ◌^◌, IfOk, List, ℕ};
ghost use Rattle.rule_parser.specs.Syntax.{item_of, items_of};
ghost use Rattle.rpn_compiler.specs.TextParts.{AreTextsOf};
ghost use Rattle.scenarios.specs.Rules.{numbers_differ, rule_numbered};
ghost use Rattle.scenarios.specs.Declarations.{AreDeclared, next_behind, nothing_declared, with_item, with_items};

use crate::named::{Packet, Rule, ScenarioField, short};
use crate::rules::{number_of_rule, numbers_differ};
use rpn_compiler::RuleText;
use rule_parser::Item;
use std::alloc::{AllocError, Global};
use std::marker::Model;

/// The packets, fields and rules of rule texts, those of the first text first. Contracts see all (`Declarations`).
#[derive(Drop)]
pub struct DeclaredItems<'a> {
    packets: Vec<Packet<'a>>,
    fields: Vec<ScenarioField<'a>>,
    rules: Vec<Rule<'a>>,
}

impl<'a> Model for DeclaredItems<'a> {
    ghost use Rattle.scenarios.specs.Declarations.{Declarations};

    ghost Value = { Declarations };

    ghost view = { λ d. record {
      packets = d.packets.items;
      fields = d.fields.items;
      rules = d.rules.items;
    } };
}

impl<'a> DeclaredItems<'a> {
    /// No declarations.
    fn new(alloc: Global) -> DeclaredItems<'a>
        ensures { result ≡ nothing_declared }
    {
        DeclaredItems {
            packets: Vec::new(alloc),
            fields: Vec::new(alloc),
            rules: Vec::new(alloc),
        }
    }

    pub(crate) fn packets(&self) -> &[Packet<'a>]
        ensures { result.now ≡ self.now.packets }
    {
        self.packets.as_slice()
    }

    pub(crate) fn fields(&self) -> &[ScenarioField<'a>]
        ensures { result.now ≡ self.now.fields }
    {
        self.fields.as_slice()
    }

    pub(crate) fn rules(&self) -> &[Rule<'a>]
        ensures { result.now ≡ self.now.rules }
    {
        self.rules.as_slice()
    }

    /// The number, in its text, of the rule that a word names; `force` is the number of the text in force. `NAME` is that text's rule, or
    /// the first of that name in any text if no text is in force or that text has no such rule. `TEXT:NAME` is the rule of that text.
    /// `None` if there is no such rule.
    pub fn rule_number(&self, force: Option<usize>, word: &[u8]) -> Option<u16>
        ensures { result ≡ rule_numbered self.now force word.now }
    {
        number_of_rule(self.rules(), force, word)
    }

    /// Whether rules of this name have different numbers in their texts, so that the number of `NAME` depends on the text in force.
    pub fn numbers_differ(&self, name: &[u8]) -> bool
        ensures { result ≡ numbers_differ self.now name.now }
    {
        numbers_differ(self.rules(), name)
    }

    /// Adds an item of the text with this number; `next` is the number of the text's next rule.
    fn with_item(
        self,
        alloc: Global,
        text: usize,
        next: usize,
        item: &Item<'a>,
    ) -> Result<DeclaredItems<'a>, AllocError>
        ensures { IfOk result
            (λ after. after ≡ with_item text next (item_of item.now) self.entry) }
    {
        let DeclaredItems {
            mut packets,
            mut fields,
            mut rules,
        } = self;
        match item {
            Item::Packet(item) => packets.push(Packet::from_item(alloc, item)?)?,
            Item::Field(item) => fields.push(ScenarioField::from_item(item))?,
            Item::Rule(item) => rules.push(Rule::new(item.name.text, text, short(next as u64)))?,
        }
        Ok(DeclaredItems {
            packets,
            fields,
            rules,
        })
    }
}

/// The number of the next rule after an item.
fn next_behind(item: &Item<'_>, next: usize) -> usize
    requires { next < 2 ^ 63 }
    ensures next { result ≡ next_behind (item_of item.now) next }
    ensures one_more { result ≤ next + 1 }
{
    match item {
        Item::Rule(_) => next + 1,
        Item::Packet(_) | Item::Field(_) => next,
    }
}

/// Adds the items of the text with this number.
fn with_items<'a>(
    alloc: Global,
    start: DeclaredItems<'a>,
    text: usize,
    items: &[Item<'a>],
) -> Result<DeclaredItems<'a>, AllocError>
    ensures { IfOk result
        (λ after. after ≡ with_items text 0 (items_of items.now) start.entry) }
{
    let mut declared = start;
    let mut next = 0;
    for item in items {
        declared = declared.with_item(alloc, text, next, item)?;
        next = next_behind(item, next);
    }
    Ok(declared)
}

/// The declarations of rule texts, which are numbered from 0. The only error is a lack of memory.
pub fn declared_in<'a>(
    alloc: Global,
    texts: &[RuleText<'a>],
) -> Result<DeclaredItems<'a>, AllocError>
    ensures { (sources : List (List ℕ)) → AreTextsOf sources texts.now →
        IfOk result (λ declared. AreDeclared sources nothing_declared declared) }
{
    let mut declared = DeclaredItems::new(alloc);
    for (number, text) in texts.iter().enumerate() {
        declared = with_items(alloc, declared, number, text.file.items.as_slice())?;
    }
    Ok(declared)
}
