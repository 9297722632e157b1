//! Expectations that nothing comes, and whether they could fail: what the records of their seconds showed of the rules.

ghost use Rattle.run_stepper.specs.Stepping.{IsAtRest};

use crate::expectation::{ArrivalKind, Coming, Expectation};
use crate::expectation_lines::Placed;
use crate::numbers::{is_known, is_own, leads_to};
use crate::warning::TrialWarning;
use lc_model::{ApMode, ApResult, Rule};
use limit_engine::Engine;
use rpn_compiler::RuleText;
use run_account::{Requests, is_sampled, result_of};
use run_stepper::{Stepping, moment_of};
use scenarios::Plain;
use std::alloc::{AllocError, Global};

/// What records showed of the rules that lead to something.
#[derive(Clone, Copy)]
struct RuleLook {
    /// One was sampled.
    is_sampled: bool,
    /// One passed or failed.
    is_judged: bool,
    /// And its event could be sent.
    is_sent: bool,
}

/// Nothing was shown.
const NOTHING: RuleLook = RuleLook {
    is_sampled: false,
    is_judged: false,
    is_sent: false,
};

/// A rule was as the script wants it, or nothing is known.
const ALL: RuleLook = RuleLook {
    is_sampled: true,
    is_judged: true,
    is_sent: true,
};

impl RuleLook {
    /// What two records showed.
    fn or(self, other: RuleLook) -> RuleLook {
        RuleLook {
            is_sampled: self.is_sampled || other.is_sampled,
            is_judged: self.is_judged || other.is_judged,
            is_sent: self.is_sent || other.is_sent,
        }
    }

    /// The warning of line `n`, if nothing could come.
    fn warning(self, n: usize, has_samples: bool) -> Option<TrialWarning> {
        if !self.is_sampled {
            return if has_samples {
                Some(TrialWarning::RuleNotSampled { n })
            } else {
                None
            };
        }
        if !self.is_judged {
            return Some(TrialWarning::RuleStale { n });
        }
        if !self.is_sent {
            return Some(TrialWarning::TypeOff { n });
        }
        None
    }
}

/// An expectation that nothing comes, with its line in the plain script, and what the records of its seconds showed.
#[derive(Clone, Copy)]
struct Row {
    n: usize,
    coming: Coming,
    has_record: bool,
    shown: RuleLook,
}

/// Whether a state is one in which a rule is not sampled.
fn is_off(state: ApMode) -> bool {
    match state {
        ApMode::Active | ApMode::Passive => false,
        ApMode::Disabled | ApMode::PermOff => true,
    }
}

/// Whether a command switched off a rule that begins on: then the script wants it so.
fn is_switched_off(rule: &Rule, engine: Option<&Engine>, number: usize) -> bool {
    match engine {
        Some(engine) if number < engine.rule_count() => {
            is_off(engine.standing(number).state) && !is_off(rule.mode)
        }
        _ => false,
    }
}

/// What a record that brought these requests showed of a rule of the text in force.
fn rule_shown(
    stepping: &Stepping,
    requests: Requests<'_>,
    rule: &Rule,
    number: usize,
    kind: ArrivalKind,
) -> RuleLook
    requires { IsAtRest stepping.now }
{
    let engine = stepping.checker();
    if is_switched_off(rule, engine, number) {
        return ALL;
    }
    match result_of(&requests, engine, number) {
        None => NOTHING,
        Some(ApResult::Stale | ApResult::Error) => RuleLook {
            is_sampled: true,
            ..NOTHING
        },
        Some(ApResult::Pass | ApResult::Fail) => RuleLook {
            is_sent: kind.number() == ArrivalKind::Sequence.number()
                || stepping.is_type_on(rule.event_kind),
            ..ALL
        },
    }
}

/// What a record showed of the rules of the text in force that lead to something.
fn text_shown(
    stepping: &Stepping,
    requests: Requests<'_>,
    text: &RuleText<'_>,
    coming: Coming,
) -> RuleLook
    requires { IsAtRest stepping.now }
{
    let mut shown = NOTHING;
    for (number, rule) in text.rules.rules.as_slice().iter().enumerate() {
        if leads_to(rule, coming.what) {
            let now = rule_shown(stepping, requests, rule, number, coming.what.kind);
            shown = shown.or(now);
        }
    }
    shown
}

/// What a record showed of the rules of the text in force that lead to something. With samples under tables of none of these texts nothing is
/// known.
fn record_shown(
    texts: &[RuleText<'_>],
    stepping: &Stepping,
    requests: Requests<'_>,
    force: Option<usize>,
    coming: Coming,
) -> RuleLook
    requires { IsAtRest stepping.now }
{
    let text = match force {
        Some(force) => texts.get(force),
        None => None,
    };
    match text {
        Some(text) => text_shown(stepping, requests, text, coming),
        None if is_sampled(&requests, stepping.checker()) => ALL,
        None => NOTHING,
    }
}

/// Expectations that nothing comes, and what the records of their seconds showed, up to the newest record.
#[derive(Drop)]
pub struct Unfailing {
    rows: Vec<Row>,
}

/// Whether an expectation is one that nothing comes of which a rule decides: nothing of a sequence, or of a rule's event.
fn of_rules(placed: &Placed<'_>) -> Option<Coming> {
    let Expectation::Absent(coming) = placed.expectation else {
        return None;
    };
    match (coming.what.kind, coming.what.number) {
        (ArrivalKind::Sequence, _) => Some(coming),
        (ArrivalKind::Event, Some(number)) if !is_own(ArrivalKind::Event, number) => Some(coming),
        _ => None,
    }
}

impl Unfailing {
    /// The expectations before the first record of a run. The only error is a lack of memory.
    pub fn new(alloc: Global, expectations: &[Placed<'_>]) -> Result<Unfailing, AllocError> {
        let mut rows = Vec::new(alloc);
        for placed in expectations {
            if let Some(coming) = of_rules(placed) {
                rows.push(Row {
                    n: placed.n,
                    coming,
                    has_record: false,
                    shown: NOTHING,
                })?;
            }
        }
        Ok(Unfailing { rows })
    }

    /// Takes the record that was handled last in a run of these texts. It brought these requests; `force` is the number of the text in
    /// force after it.
    pub fn add(
        &mut self,
        texts: &[RuleText<'_>],
        stepping: &Stepping,
        requests: Requests<'_>,
        force: Option<usize>,
    )
        requires { IsAtRest stepping.now }
    {
        let second = moment_of(stepping.last_record()).seconds;
        for row in self.rows.iter_mut() {
            if row.coming.span.holds(second) {
                row.has_record = true;
                let now = record_shown(texts, stepping, requests, force, row.coming);
                row.shown = row.shown.or(now);
            }
        }
    }

    /// The warnings of the lines whose expectation could not fail, though records came in its seconds and a text has its number. Of a run
    /// without a sample that is not said line by line. The only error is a lack of memory.
    pub fn warnings(
        &self,
        alloc: Global,
        plain: &Plain,
        texts: &[RuleText<'_>],
        has_samples: bool,
    ) -> Result<Vec<TrialWarning>, AllocError> {
        let mut warnings = Vec::new(alloc);
        for row in &self.rows {
            if row.has_record && is_known(texts, row.coming.what) {
                if let Some(warning) = row.shown.warning(plain.line(row.n), has_samples) {
                    warnings.push(warning)?;
                }
            }
        }
        Ok(warnings)
    }
}
