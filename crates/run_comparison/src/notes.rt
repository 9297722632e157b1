//! Rules that both texts have under other names.

use packet_listing::{TextField, TextRules};
use std::fmt::{self, Display, Formatter, Write};

/// The rules of both texts that request a sequence; it displays as a note.
#[derive(Clone, Copy)]
pub struct RenamedRules<'r, 't, 'n> {
    pub sequence: i64,
    pub old: &'r TextRules<'t>,
    pub new: &'r TextRules<'t>,
    pub old_name: &'n str,
    pub new_name: &'n str,
}

/// How many rules of a text request a sequence.
fn rule_count(rules: &TextRules<'_>, sequence: i64) -> usize {
    rules
        .rules
        .iter()
        .filter(|rule| rule.sequence == sequence)
        .count()
}

/// Whether a text has a rule of this name that requests this sequence.
fn has_rule(rules: &TextRules<'_>, sequence: i64, name: &[u8]) -> bool {
    rules
        .rules
        .iter()
        .any(|rule| rule.sequence == sequence && rule.name == name)
}

/// Whether all rules of a text that request this sequence are in another one by their names.
fn are_all_in(rules: &TextRules<'_>, sequence: i64, others: &TextRules<'_>) -> bool {
    rules.rules.iter().all(|rule| rule.sequence != sequence
        || has_rule(others, sequence, rule.name))
}

/// Writes the names of the rules of a text that request a sequence.
fn write_names<W: Write>(
    rules: &TextRules<'_>,
    sequence: i64,
    f: &mut Formatter<W>,
) -> fmt::Result {
    let mut sign = "";
    for rule in &rules.rules {
        if rule.sequence == sequence {
            write!(f, "{sign}{}", TextField(rule.name))?;
            sign = ", ";
        }
    }
    Ok(())
}

impl RenamedRules<'_, '_, '_> {
    /// Whether both texts have rules that request the sequence, and not all of the same names.
    pub fn are_renamed(&self) -> bool {
        let (old, new, sequence) = (self.old, self.new, self.sequence);
        rule_count(old, sequence) > 0
            && rule_count(new, sequence) > 0
            && !(are_all_in(old, sequence, new) && are_all_in(new, sequence, old))
    }

    /// Whether the sequence is that of the rule with this number of the old text, and of no rule before it.
    pub fn is_first(&self, number: usize) -> bool {
        let before = self
            .old
            .rules
            .iter()
            .position(|rule| rule.sequence == self.sequence);
        before == Some(number)
    }
}

impl Display for RenamedRules<'_, '_, '_> {
    fn fmt<W: Write>(&self, f: &mut Formatter<W>) -> fmt::Result {
        let are_single = rule_count(self.old, self.sequence) == 1
            && rule_count(self.new, self.sequence) == 1;
        let words = if are_single { "rule" } else { "rules" };
        let verb = if are_single { "is" } else { "are" };
        write!(f, "the {words} of sequence {} {verb} ", self.sequence)?;
        write_names(self.old, self.sequence, f)?;
        write!(f, " in {} and ", self.old_name)?;
        write_names(self.new, self.sequence, f)?;
        write!(f, " in {}", self.new_name)
    }
}
