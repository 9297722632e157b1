//! All warnings of a rule text.

ghost use Rattle.std.specs.Prelude.{◌≡◌, [], None, IfOk, map};
ghost use Rattle.lc_model.specs.Tables.Compiling.{limit_refusal};
ghost use Rattle.lc_model.specs.Tables.InForce.{limits};
ghost use Rattle.lc_model.specs.Text.Meaning.{faults};
ghost use Rattle.rpn_compiler.specs.TextParts.{IsRuleText};
ghost use Rattle.rule_parser.specs.Syntax.{items_of};
ghost use Rattle.rule_lints.specs.Warned.{AreWarned, found, named, seen, told};

use crate::comments::{keep_known, spare_quiets, without_quiet};
use crate::declarations::declaration_warnings;
use crate::judged_rules::judge_all;
use crate::judging::{Judged, add_judged};
use crate::sentences::{JudgedText, explain};
use crate::warning::{Warning, Warnings};
use diagnostics::Message;
use rpn_compiler::RuleText;
use rule_parser::Item;
use schedules::Schedule;
use std::alloc::{AllocError, Global};

/// All warnings, including those that are kept quiet.
fn all_warnings(
    alloc: Global,
    text: &[u8],
    items: &[Item<'_>],
    all: &Judged,
) -> Result<Vec<Warning>, AllocError>
    requires { faults (items_of items.now) ≡ [] }
    ensures { IfOk result (λ list. list.items ≡ found text.now (items_of items.now) all.now) }
{
    let mut found = declaration_warnings(alloc, items, text.len())?;
    add_judged(alloc, items, all, &mut found)?;
    Ok(found)
}

/// The warnings that are reported, with those of comments that keep nothing quiet.
fn reported_warnings(
    alloc: Global,
    text: &[u8],
    items: &[Item<'_>],
    all: &Judged,
    has_plan: bool,
) -> Result<Vec<Warning>, AllocError>
    requires { faults (items_of items.now) ≡ [] }
    ensures { IfOk result (λ list. list.items ≡
        told has_plan text.now (items_of items.now) all.now) }
{
    let found = all_warnings(alloc, text, items, all)?;
    let mut told = without_quiet(alloc, text, &found)?;
    let mut spare = Vec::new(alloc);
    spare_quiets(alloc, text, &found, &mut spare)?;
    let known = keep_known(alloc, has_plan, text, &spare)?;
    told.extend_from_slice(known.as_slice())?;
    Ok(told)
}

/// The warnings in words.
fn explain_all(
    alloc: Global,
    subject: &JudgedText<'_, '_>,
    told: &[Warning],
) -> Result<Vec<Message>, AllocError>
    ensures { IfOk result (λ messages. map seen messages.items ≡ map named told.now) }
{
    let mut messages = Vec::new(alloc);
    for warning in told {
        messages.push(explain(alloc, subject, *warning)?)?;
    }
    Ok(messages)
}

/// The warnings about a valid rule text: fields and packets that no rule uses, that share bits or have one message id, rules whose events
/// are off or whose sequence another rule has, the judgements of rules before any packet comes, and with a schedule the rules that it
/// never samples. A comment `# quiet: NAME, ..` alone on the line above keeps the warnings of these names quiet; one that keeps nothing
/// quiet has a warning itself.
///
/// Condition: the text compiles, as any text that `RuleText::read_valid` returns. The only error is a lack of memory.
pub fn warnings(
    alloc: Global,
    text: &RuleText<'_>,
    plan: Option<&Schedule>,
) -> Result<Warnings, AllocError>
    requires reads { IsRuleText text.now }
    requires within { limit_refusal limits text.now.rules.rules ≡ None }
    ensures { IfOk result (λ warnings. AreWarned text.now.bytes.now plan.entry warnings) }
{
    let all = judge_all(alloc, &text.rules.rules, plan)?;
    let items = text.file.items.as_slice();
    let told = reported_warnings(alloc, text.bytes, items, &all, plan.is_some())?;
    let subject = JudgedText::new(alloc, text, &all)?;
    let messages = explain_all(alloc, &subject, told.as_slice())?;
    Ok(Warnings {
        messages,
        unsettled_pairs: all.unsettled_pairs,
        unsettled_comparisons: all.unsettled_comparisons,
    })
}
