//! Finds rules by name.

ghost use Rattle.std.specs.Prelude.{◌≡◌, ◌≤◌, ◌&&◌, ◌==◌, not, bytes_eq, length};
ghost use Rattle.std.specs.List.{list_any, position_or_len};
ghost use Rattle.scenarios.specs.Named.{NamedRule};
ghost use Rattle.scenarios.specs.Rules.{differ_from, first_rule, is_colon, number_of, rule_by_number, rule_in_force, rule_named, rule_of_text};
ghost use Rattle.stream_script.specs.Number as number;

use crate::named::Rule;
use stream_script::decimal_number;

/// The number of the first rule of a name.
fn first_number(rules: &[Rule<'_>], name: &[u8]) -> Option<u16>
    ensures { result ≡ number_of (first_rule name.now rules.now) }
{
    for rule in rules {
        if rule.is_named(name) {
            return Some(rule.number());
        }
    }
    None
}

/// The number of the rule of a name in the text with this number.
fn number_in_text(rules: &[Rule<'_>], text: usize, name: &[u8]) -> Option<u16>
    ensures { result ≡ number_of (rule_of_text text name.now rules.now) }
{
    for rule in rules {
        if rule.is_of_text(text, name) {
            return Some(rule.number());
        }
    }
    None
}

/// The number of the rule of a name in the text in force. Without such a text or rule, that of the first rule of that name.
fn number_in_force(rules: &[Rule<'_>], force: Option<usize>, name: &[u8]) -> Option<u16>
    ensures { result ≡ number_of (rule_in_force force name.now rules.now) }
{
    let Some(text) = force else {
        return first_number(rules, name);
    };
    match number_in_text(rules, text, name) {
        Some(number) => Some(number),
        None => first_number(rules, name),
    }
}

/// The number of the rule of a name in the text whose number a word writes.
fn number_by_number(rules: &[Rule<'_>], text: &[u8], name: &[u8]) -> Option<u16>
    ensures { result ≡
        number_of (rule_by_number (number.decimal_number text.now) name.now rules.now) }
{
    match decimal_number(text) {
        Some(text) => number_in_text(rules, text as usize, name),
        None => None,
    }
}

/// The number of bytes before the first `:`.
fn text_length(word: &[u8]) -> usize
    ensures place { result ≡ position_or_len is_colon word.now }
    ensures inside { result ≤ length word.now }
{
    word.iter().take_while(|byte| **byte != b':').count()
}

/// The number of the rule that a word names, `NAME` or `TEXT:NAME`; `force` is the text in force.
pub(crate) fn number_of_rule(rules: &[Rule<'_>], force: Option<usize>, word: &[u8]) -> Option<u16>
    ensures { result ≡ number_of (rule_named force word.now rules.now) }
{
    let (text, rest) = word.split_at(text_length(word));
    match rest {
        [] => number_in_force(rules, force, word),
        [_, name @ ..] => number_by_number(rules, text, name),
    }
}

/// Whether a rule of this name has another number than this one.
fn has_other_number(rules: &[Rule<'_>], name: &[u8], number: u16) -> bool
    ensures { result ≡ list_any
        (λ (r : NamedRule). bytes_eq r.name name.now && not (r.number == number)) rules.now }
{
    rules
        .iter()
        .any(|rule| rule.is_named(name) && rule.number() != number)
}

/// Whether the rules of a name have different numbers in their texts.
pub(crate) fn numbers_differ(rules: &[Rule<'_>], name: &[u8]) -> bool
    ensures { result ≡
        differ_from (number_of (first_rule name.now rules.now)) name.now rules.now }
{
    match first_number(rules, name) {
        Some(number) => has_other_number(rules, name, number),
        None => false,
    }
}
