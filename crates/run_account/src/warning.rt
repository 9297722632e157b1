//! What a person has to know of the account before a green line counts.

use crate::account::RunAccount;
use crate::counts::RuleRow;
use rpn_compiler::RuleText;
use std::alloc::{AllocError, Global};

/// A warning about what a run looked at. Texts and rules count from 0.
#[derive(Clone, Copy, Debug, PartialEq, Eq)]
pub enum AccountWarning {
    /// No rule was sampled in the whole run.
    NothingSampled,
    /// No rule of some texts was sampled, though rules of other tables were.
    TextsNotSampled,
    /// Some rules of this text were not sampled, though others were.
    RulesNotSampled { text: usize },
    /// Some rules of this text were stale in each of their samples.
    AlwaysStale { text: usize },
    /// No packet of this message id came, which this text names.
    NoPacket { text: usize, mid: u16 },
    /// The schedule asks for samples of the rules with this number, and of others, and none came for this time in 1/65,536 s.
    Unsampled { rule: usize, time: u64 },
    /// Records are earlier than the record before them.
    StepsBack { count: u64 },
    /// Samples were taken while the tables in force were of none of the run's texts.
    UngivenTables { samples: u64 },
}

impl RuleRow {
    /// Whether the rule was stale in each of its samples, of which there is one.
    pub(crate) fn is_always_stale(&self) -> bool {
        self.counts.stale > 0 && self.counts.sampled() == self.counts.stale
    }

    /// Whether the rule was never sampled.
    pub(crate) fn is_never_sampled(&self) -> bool {
        self.counts.sampled() == 0
    }
}

impl RunAccount<'_> {
    /// Whether no rule of a text was sampled.
    pub(crate) fn is_text_never_sampled(&self, text: usize) -> bool {
        (0..self.row_count()).all(|number| match self.row(number) {
            Some(row) => row.text != text || row.is_never_sampled(),
            None => true,
        })
    }

    /// Whether a rule with this number was sampled, of whichever text.
    fn is_sampled_somewhere(&self, rule: usize) -> bool {
        (0..self.row_count()).any(|number| match self.row(number) {
            Some(row) => row.rule == rule && !row.is_never_sampled(),
            None => false,
        })
    }

    /// Whether some rule of a text was never sampled, and whether some was stale in each of its samples.
    fn rule_faults(&self, text: usize) -> (bool, bool) {
        let mut faults = (false, false);
        for number in 0..self.row_count() {
            match self.row(number) {
                Some(row) if row.text == text => {
                    faults.0 |= row.is_never_sampled();
                    faults.1 |= row.is_always_stale();
                }
                _ => {}
            }
        }
        faults
    }

    /// The number of the rule with the longest time without a sample that the schedule asks for, and that time; none if there is none. Rules
    /// that were never sampled have a warning of their own, and would hide the others.
    fn longest_unsampled(&self, texts: &[RuleText<'_>]) -> Option<(usize, u64)> {
        let mut longest = None;
        let mut most = 0u64;
        for rule in 0..crate::texts::most_rules(texts) {
            let time = self.unsampled(rule);
            if time > most && self.is_sampled_somewhere(rule) {
                most = time;
                longest = Some((rule, time));
            }
        }
        longest
    }

    /// Whether no rule of one of the texts was sampled.
    fn has_text_never_sampled(&self, texts: &[RuleText<'_>]) -> bool {
        (0..texts.len()).any(|text| self.is_text_never_sampled(text))
    }

    /// Adds the warnings about the rules of a text.
    fn push_rules(
        &self,
        text: usize,
        warnings: &mut Vec<AccountWarning>,
    ) -> Result<(), AllocError> {
        let (has_unsampled, has_stale) = self.rule_faults(text);
        if has_unsampled && !self.is_text_never_sampled(text) {
            warnings.push(AccountWarning::RulesNotSampled { text })?;
        }
        if has_stale {
            warnings.push(AccountWarning::AlwaysStale { text })?;
        }
        Ok(())
    }

    /// Adds the warnings about packets that a text names and that did not come.
    fn push_packets(
        &self,
        text: usize,
        source: &RuleText<'_>,
        warnings: &mut Vec<AccountWarning>,
    ) -> Result<(), AllocError> {
        for count in self.packets() {
            let mid = count.mid;
            if count.packets == 0 && crate::texts::packet_name(source, mid).is_some() {
                warnings.push(AccountWarning::NoPacket { text, mid })?;
            }
        }
        Ok(())
    }

    /// The warnings about the run. Where nothing was sampled, only that is said of rules; where no record came, nothing else at all. The
    /// only error is a lack of memory.
    pub fn warnings(
        &self,
        alloc: Global,
        texts: &[RuleText<'_>],
    ) -> Result<Vec<AccountWarning>, AllocError> {
        let mut warnings = Vec::new(alloc);
        if self.samples() == 0 {
            warnings.push(AccountWarning::NothingSampled)?;
        } else if self.has_text_never_sampled(texts) {
            warnings.push(AccountWarning::TextsNotSampled)?;
        }
        if self.records() == 0 {
            return Ok(warnings);
        }
        for (text, source) in texts.iter().enumerate() {
            if self.samples() > 0 {
                self.push_rules(text, &mut warnings)?;
            }
            self.push_packets(text, source, &mut warnings)?;
        }
        if self.samples() > 0 {
            if let Some((rule, time)) = self.longest_unsampled(texts) {
                warnings.push(AccountWarning::Unsampled { rule, time })?;
            }
        }
        if self.steps_back() > 0 {
            let count = self.steps_back();
            warnings.push(AccountWarning::StepsBack { count })?;
        }
        if self.ungiven() > 0 {
            let samples = self.ungiven();
            warnings.push(AccountWarning::UngivenTables { samples })?;
        }
        Ok(warnings)
    }
}
