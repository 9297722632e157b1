//! What became of a rule, in words.

use crate::situation_words::{BothNames, ShownSituation};
use diagnostics::Many;
use lc_model::{Rule, Term};
use rule_analysis::comparisons_of;
use rule_changes::{Chance, ChangedParts, ConditionChange, Situation, Unsettled};
use std::alloc::{AllocError, Global};

/// A sentence of parts with `; ` between them.
#[derive(Drop)]
pub(crate) struct Parts {
    alloc: Global,
    pub text: String,
}

/// A rule that both texts have, with the names of their fields.
#[derive(Drop)]
pub(crate) struct KeptRule<'n> {
    names: BothNames<'n>,
    terms: Vec<Term>,
}

impl Parts {
    /// A sentence without a part.
    pub fn new(alloc: Global) -> Parts {
        Parts {
            alloc,
            text: String::new(alloc),
        }
    }

    /// Adds a part. The only error is a lack of memory.
    pub fn add(&mut self, part: &str) -> Result<(), AllocError> {
        if !self.text.is_empty() {
            self.text.push_str("; ")?;
        }
        self.text.push_str(part)
    }

    /// Adds a number that changed.
    fn add_numbers(&mut self, what: &str, both: Option<(u16, u16)>) -> Result<(), AllocError> {
        match both {
            Some((old, new)) => {
                let part = format!(in self.alloc; "{what} {new}, was {old}")?;
                self.add(part.as_str())
            }
            None => Ok(()),
        }
    }

    /// Adds a word that changed.
    fn add_words(&mut self, what: &str, both: Option<(&str, &str)>) -> Result<(), AllocError> {
        match both {
            Some((old, new)) => {
                let part = format!(in self.alloc; "{what} {new}, was {old}")?;
                self.add(part.as_str())
            }
            None => Ok(()),
        }
    }

    /// Adds that the rule has another number. Commands and sample requests name rules by number.
    pub fn add_place(&mut self, old: usize, new: usize) -> Result<(), AllocError> {
        if old == new {
            return Ok(());
        }
        let part = format!(in self.alloc;
            "is rule {new}, was {old}: commands and samples of these numbers mean another rule"
        )?;
        self.add(part.as_str())
    }

    /// Adds the numbers that changed.
    fn add_counts(&mut self, parts: &ChangedParts) -> Result<(), AllocError> {
        if let Some((old, new)) = parts.fails {
            let now = Many(usize::from(new), "failure");
            let part = format!(in self.alloc; "requests after {now}, was {old}")?;
            self.add(part.as_str())?;
        }
        self.add_numbers("requests sequence", parts.sequence)?;
        self.add_numbers("event number", parts.event_id)
    }

    /// Adds the parts of a rule that changed, apart from its condition.
    pub fn add_parts(&mut self, parts: &ChangedParts) -> Result<(), AllocError> {
        let state = parts.mode.map(|both| (both.0.word(), both.1.word()));
        self.add_words("begins", state)?;
        self.add_counts(parts)?;
        let kind = parts.event_kind.map(|both| (both.0.word(), both.1.word()));
        self.add_words("event type", kind)?;
        if parts.is_text {
            self.add("another event text")?;
        }
        if parts.report.is_some() {
            self.add("other numbers of `report`")?;
        }
        Ok(())
    }
}

/// Why something isn't known.
fn why(reason: Unsettled) -> &'static str {
    match reason {
        Unsettled::Size | Unsettled::Steps => "too many comparisons",
        Unsettled::Situation => "no packets were found for it",
        Unsettled::NoTelemetry => "a comparison reads message id 0",
    }
}

impl<'n> KeptRule<'n> {
    /// A rule of both texts. The only error is a lack of memory.
    pub fn of(
        alloc: Global,
        names: BothNames<'n>,
        old: &Rule,
        new: &Rule,
    ) -> Result<KeptRule<'n>, AllocError> {
        let mut terms = comparisons_of(alloc, &new.cond)?;
        terms.extend_from_slice(&comparisons_of(alloc, &old.cond)?)?;
        Ok(KeptRule { names, terms })
    }

    /// A situation, between the words before and after it.
    fn around(
        &self,
        alloc: Global,
        before: &str,
        situation: &Situation,
        after: &str,
    ) -> Result<String, AllocError> {
        let shown = ShownSituation {
            names: self.names,
            terms: self.terms.as_slice(),
            situation,
        };
        format!(in alloc; "{before}{shown}{after}")
    }

    /// Adds whether the rule fails where it did not.
    fn add_gained(&self, chance: &Chance, parts: &mut Parts) -> Result<(), AllocError> {
        match chance {
            Chance::Never => parts.add("fails only where it failed"),
            Chance::Possible(situation) => {
                let part = self.around(parts.alloc, "fails for ", situation, ", where it did not")?;
                parts.add(part.as_str())
            }
            Chance::Unknown(reason) => {
                let why = why(*reason);
                let part = format!(in parts.alloc;
                    "it is not known whether it fails where it did not ({why})"
                )?;
                parts.add(part.as_str())
            }
        }
    }

    /// Adds whether the rule does not fail where it did.
    fn add_lost(&self, chance: &Chance, parts: &mut Parts) -> Result<(), AllocError> {
        match chance {
            Chance::Never => parts.add("fails wherever it failed"),
            Chance::Possible(situation) => {
                let part = self.around(parts.alloc, "not for ", situation, ", where it did")?;
                parts.add(part.as_str())
            }
            Chance::Unknown(reason) => {
                let why = why(*reason);
                let part = format!(in parts.alloc;
                    "it is not known whether it fails wherever it failed ({why})"
                )?;
                parts.add(part.as_str())
            }
        }
    }

    /// Adds how the condition changed; nothing if it has the same result whatever comes.
    pub fn add_condition(
        &self,
        condition: &ConditionChange,
        parts: &mut Parts,
    ) -> Result<(), AllocError> {
        match condition {
            ConditionChange::Same => Ok(()),
            ConditionChange::SameButForStaleAndError => {
                parts.add(
                    "has the same results, but may be stale where it was in error, or the reverse",
                )
            }
            ConditionChange::FailsAlike => parts.add(
                "fails at the same times, with other results between",
            ),
            ConditionChange::FailsOnlyWhere(lost) => {
                parts.add("fails only where it failed")?;
                let part = self.around(parts.alloc, "not for ", lost, ", where it did")?;
                parts.add(part.as_str())
            }
            ConditionChange::FailsWherever(gained) => {
                parts.add("fails wherever it failed")?;
                let part = self.around(parts.alloc, "also for ", gained, ", where it did not")?;
                parts.add(part.as_str())
            }
            ConditionChange::Differs { lost, gained } => {
                let part = self.around(parts.alloc, "fails for ", gained, ", where it did not")?;
                parts.add(part.as_str())?;
                let part = self.around(parts.alloc, "not for ", lost, ", where it did")?;
                parts.add(part.as_str())
            }
            ConditionChange::NotKnown { lost, gained } => {
                self.add_gained(gained, parts)?;
                self.add_lost(lost, parts)
            }
        }
    }
}
