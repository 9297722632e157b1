//! The rule text whose rule a word names.

ghost use Rattle.std.specs.Prelude.{◌≡◌, ◌≤◌, length, slice_get};
ghost use Rattle.std.specs.List.{position, position_or_len};
ghost use Rattle.lc_model.specs.Rule.{rules_of};
ghost use Rattle.scenarios.specs.Rules.{is_colon};
ghost use Rattle.scenario_trial.specs.Origin.{has_named, has_rule, has_rule_at, text_named, text_with};

use crate::expectation_words::is;
use lc_model::Rule;
use rpn_compiler::RuleText;
use stream_script::decimal_number;

/// Whether one of some rules has this name.
fn has_named(rules: &[Rule], name: &[u8]) -> bool
    ensures { result ≡ has_named name.now (rules_of rules.now) }
{
    for rule in rules {
        if is(rule.name.as_slice(), name) {
            return true;
        }
    }
    false
}

/// Whether a rule text has a rule of this name.
fn has_rule(text: &RuleText<'_>, name: &[u8]) -> bool
    ensures { result ≡ has_rule name.now text.now }
{
    has_named(text.rules.rules.as_slice(), name)
}

/// Whether the text with this number has a rule of this name.
fn has_rule_at(texts: &[RuleText<'_>], number: usize, name: &[u8]) -> bool
    ensures { result ≡ has_rule_at name.now (slice_get texts.now number) }
{
    match texts.get(number) {
        Some(text) => has_rule(text, name),
        None => false,
    }
}

/// The number of the first text that has a rule of this name.
fn first_with(texts: &[RuleText<'_>], name: &[u8]) -> Option<usize>
    ensures { result ≡ position (has_rule name.now) texts.now }
{
    texts.iter().position(|text| has_rule(text, name))
}

/// The number of the text whose rule a name without a text's number names: the text in force if it has such a rule, or else the first
/// text that has one.
fn text_with(texts: &[RuleText<'_>], force: usize, name: &[u8]) -> Option<usize>
    ensures { result ≡ text_with texts.now force name.now }
{
    if has_rule_at(texts, force, name) {
        return Some(force);
    }
    first_with(texts, name)
}

/// The number of bytes before the first `:`.
fn text_length(word: &[u8]) -> usize
    ensures place { result ≡ position_or_len is_colon word.now }
    ensures inside { result ≤ length word.now }
{
    word.iter().take_while(|byte| **byte != b':').count()
}

/// The number of the text whose rule a word names, `NAME` or `TEXT:NAME`; `force` is the number of the text in force.
pub fn text_named(texts: &[RuleText<'_>], force: usize, word: &[u8]) -> Option<usize>
    ensures { result ≡ text_named texts.now force word.now }
{
    let (number, rest) = word.split_at(text_length(word));
    match rest {
        [] => text_with(texts, force, word),
        [_, ..] => match decimal_number(number) {
            Some(number) => Some(number as usize),
            None => None,
        },
    }
}
