//! The numbers of requests and events that rule texts can lead to.

ghost use Rattle.std.specs.Prelude.{◌≡◌};
ghost use Rattle.std.specs.List.{list_any};
ghost use Rattle.lc_model.specs.Rule.{rule_of, rules_of};
ghost use Rattle.scenario_trial.specs.Numbers.{is_known, is_own, sends, text_sends};

use crate::expectation::{ArrivalKind, What};
use lc_model::Rule;
use rpn_compiler::RuleText;

/// The events of the Limit Checker that are no rule's have the numbers 1 to 11 (docs/FORMATS.md).
const OWN_EVENTS: u16 = 11;

/// Whether something of this number comes whatever the rules are.
pub fn is_own(kind: ArrivalKind, number: u16) -> bool
    ensures { result ≡ is_own kind number }
{
    match kind {
        ArrivalKind::Sequence => false,
        ArrivalKind::Event => 1 <= number && number <= OWN_EVENTS,
        ArrivalKind::HostEvent => true,
    }
}

/// Whether a rule requests the sequence of this number, or has the event of this number.
fn sends(rule: &Rule, kind: ArrivalKind, number: u16) -> bool
    ensures { result ≡ sends kind number (rule_of rule.now) }
{
    match kind {
        ArrivalKind::Sequence => rule.sequence == number,
        ArrivalKind::Event => rule.event_id == number,
        ArrivalKind::HostEvent => false,
    }
}

/// Whether a rule leads to something of this kind and number, or of any number.
pub fn leads_to(rule: &Rule, what: What) -> bool {
    match what.number {
        Some(number) => sends(rule, what.kind, number),
        None => what.kind.number() == ArrivalKind::Sequence.number(),
    }
}

/// Whether one of some rules does.
fn some_sends(rules: &[Rule], kind: ArrivalKind, number: u16) -> bool
    ensures { result ≡ list_any (sends kind number) (rules_of rules.now) }
{
    for rule in rules {
        if sends(rule, kind, number) {
            return true;
        }
    }
    false
}

/// Whether a rule of a text does.
fn text_sends(text: &RuleText<'_>, kind: ArrivalKind, number: u16) -> bool
    ensures { result ≡ text_sends kind number text.now }
{
    some_sends(text.rules.rules.as_slice(), kind, number)
}

/// Whether a rule of one of these texts does.
fn some_text_sends(texts: &[RuleText<'_>], kind: ArrivalKind, number: u16) -> bool
    ensures { result ≡ list_any (text_sends kind number) texts.now }
{
    texts.iter().any(|text| text_sends(text, kind, number))
}

/// Whether something of this kind and number can come of a run of these texts: without a number, something can.
pub fn is_known(texts: &[RuleText<'_>], what: What) -> bool
    ensures { result ≡ is_known texts.now what }
{
    match what.number {
        Some(number) => is_own(what.kind, number) || some_text_sends(texts, what.kind, number),
        None => true,
    }
}
