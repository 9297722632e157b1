//! The lines about the rules of a text.

ghost use Rattle.std.specs.Prelude.{◌≡◌, ◌&&◌, not};
ghost use Rattle.analysis_listing.specs.Said.{is_never};

use crate::error::ListingError;
use crate::fields::FieldNames;
use crate::lines::{NameSource, ShownTerm, Title, Values};
use crate::said::{RuleFindings, said_of};
use lc_model::{Rule, Term};
use rpn_compiler::RuleText;
use rule_analysis::{
    ComparisonJudgement, Constancy, Finding, RuleJudgement, UnknownReason, bits_read, field_of,
    judge_condition,
};
use rule_parser::{Item, RuleItem};
use std::alloc::{AllocError, Global};
use std::io::Write;

/// Which lines are written.
#[derive(Clone, Copy, Debug, PartialEq, Eq)]
pub enum LineChoice {
    /// A line for each rule, and all warnings.
    All,
    /// Only warnings.
    Warnings,
}

/// The terms of a rule's comparisons, in order. The only error is a lack of memory.
pub fn terms_in(
    alloc: Global,
    comparisons: &[ComparisonJudgement],
) -> Result<Vec<Term>, AllocError> {
    let mut terms = Vec::new(alloc);
    for comparison in comparisons {
        terms.push(comparison.term)?;
    }
    Ok(terms)
}

/// The words for the part of its packet's header that a comparison reads, if a stream's packets have fixed bits there (CCSDS 133.0-B,
/// primary header).
fn header_part(term: &Term) -> Option<&'static str> {
    let field = field_of(term);
    if bits_read(&field, 0) != 0 || bits_read(&field, 1) != 0 {
        Some("a field shares bits with its packet's message id")
    } else if bits_read(&field, 2) & 0xC0 != 0 {
        Some("a field shares bits with its packet's sequence flags")
    } else if bits_read(&field, 4) != 0 || bits_read(&field, 5) != 0 {
        Some("a field shares bits with its packet's length")
    } else {
        None
    }
}

/// The words for the reason why something isn't known of a rule with these comparisons.
pub fn why(reason: UnknownReason, comparisons: &[ComparisonJudgement]) -> &'static str {
    if reason == UnknownReason::Steps {
        return "its fields have too many numbers";
    }
    for comparison in comparisons {
        if let Some(words) = header_part(&comparison.term) {
            return words;
        }
    }
    "its fields share bits"
}

/// The rule or actionpoint that a line is about.
#[derive(Clone, Copy)]
struct Subject<'a> {
    name: Title<'a>,
    names: NameSource<'a>,
    terms: &'a [Term],
}

impl<'a> Subject<'a> {
    /// The values of its fields in packets.
    fn values(&self, packets: &'a [Vec<u8>]) -> Values<'a> {
        Values {
            names: self.names,
            terms: self.terms,
            packets,
        }
    }
}

/// Writes whether a rule can fail, and whether it can pass.
fn write_rule<W: Write>(
    subject: Subject<'_>,
    judged: &RuleJudgement,
    which: LineChoice,
    out: &mut W,
) -> Result<(), ListingError> {
    let name = subject.name;
    match said_of(judged) {
        RuleFindings::FailsAndPasses { fails, passes } => {
            if which == LineChoice::All {
                let (fails, passes) = (subject.values(fails), subject.values(passes));
                writeln!(out, "{name}: fails for {fails}; passes for {passes}")?;
            }
        }
        RuleFindings::NeverFails(Some(passes)) => {
            let passes = subject.values(passes);
            writeln!(out, "warning: {name}: never fails; passes for {passes}")?;
        }
        RuleFindings::NeverFails(None) => writeln!(out, "warning: {name}: never fails")?,
        RuleFindings::AlwaysFails(fails) => {
            let fails = subject.values(fails);
            writeln!(out, "warning: {name}: always fails, for {fails}")?;
        }
        RuleFindings::NeverPasses => writeln!(out, "warning: {name}: never passes")?,
        RuleFindings::FailsUnknown(reason) => {
            let why = why(reason, &judged.comparisons);
            writeln!(out, "warning: {name}: not known whether it fails: {why}")?;
        }
        RuleFindings::PassesUnknown(reason) => {
            let why = why(reason, &judged.comparisons);
            writeln!(out, "warning: {name}: not known whether it passes: {why}")?;
        }
    }
    Ok(())
}

/// Writes a warning for a comparison that is true or false for all values.
fn write_comparison<W: Write>(
    subject: Subject<'_>,
    judged: &ComparisonJudgement,
    out: &mut W,
) -> Result<(), ListingError> {
    let what = match judged.says {
        Constancy::Always => "always",
        Constancy::Never => "never",
        Constancy::Varies => return Ok(()),
    };
    let name = subject.name;
    let term = ShownTerm {
        name: subject.names.name(&judged.term),
        term: judged.term,
    };
    writeln!(out, "warning: {name}: {term} {what} holds")?;
    Ok(())
}

/// Writes the lines about a rule or an actionpoint.
pub(crate) fn write_subject<W: Write>(
    alloc: Global,
    names: NameSource<'_>,
    name: Title<'_>,
    judged: &RuleJudgement,
    which: LineChoice,
    out: &mut W,
) -> Result<(), ListingError> {
    let terms = terms_in(alloc, &judged.comparisons)?;
    let subject = Subject {
        name,
        names,
        terms: &terms,
    };
    write_rule(subject, judged, which, out)?;
    for comparison in &judged.comparisons {
        write_comparison(subject, comparison, out)?;
    }
    Ok(())
}

/// Whether a rule may both fail and pass, as far as is known.
pub fn goes_both_ways(judged: &RuleJudgement) -> bool
    ensures { result ≡ (not (is_never judged.now.fails) && not (is_never judged.now.passes)) }
{
    !matches!(&judged.fails, Finding::Never) && !matches!(&judged.passes, Finding::Never)
}

/// Writes the values of its fields with which a rule fails and passes, if both are known.
fn write_outcome<W: Write>(
    alloc: Global,
    names: &FieldNames<'_>,
    rule: &Rule,
    judged: &RuleJudgement,
    out: &mut W,
) -> Result<(), ListingError> {
    if !matches!(said_of(judged), RuleFindings::FailsAndPasses { .. }) {
        return Ok(());
    }
    let terms = terms_in(alloc, &judged.comparisons)?;
    let subject = Subject {
        name: Title::Rule(rule.name.as_slice()),
        names: NameSource::Text(names),
        terms: &terms,
    };
    write_rule(subject, judged, LineChoice::All, out)
}

/// Judges the rule of an item, and writes its line if it is known to fail and to pass.
fn write_item<W: Write>(
    alloc: Global,
    names: &FieldNames<'_>,
    item: &RuleItem<'_>,
    rule: &Rule,
    out: &mut W,
) -> Result<(), ListingError> {
    let judged = judge_condition(alloc, &rule.cond)?;
    let names = names.first_in(alloc, &item.condition)?;
    write_outcome(alloc, &names, rule, &judged, out)
}

/// The rule with this number among items, counted from 0.
fn rule_item<'s, 'a>(items: &'s [Item<'a>], number: usize) -> Option<&'s RuleItem<'a>> {
    let mut left = number;
    for item in items {
        if let Item::Rule(rule) = item {
            if left == 0 {
                return Some(rule);
            }
            left -= 1;
        }
    }
    None
}

/// Writes the line of `list_outcomes` about the rule with this number, counted from 0; nothing if the text has none. Errors as there.
pub fn write_outcome_of<W: Write>(
    alloc: Global,
    text: &RuleText<'_>,
    number: usize,
    out: &mut W,
) -> Result<(), ListingError> {
    let item = rule_item(text.file.items.as_slice(), number);
    let rule = text.rules.rules.as_slice().get(number);
    let (Some(item), Some(rule)) = (item, rule) else {
        return Ok(());
    };
    let names = FieldNames::of(alloc, text)?;
    write_item(alloc, &names, item, rule, out)
}

/// Writes a line for each rule of a text that is known to fail and to pass, with values of its fields for both. Errors: `Memory`, or
/// `Write` if the writer refuses bytes.
pub fn list_outcomes<W: Write>(
    alloc: Global,
    text: &RuleText<'_>,
    out: &mut W,
) -> Result<(), ListingError> {
    let names = FieldNames::of(alloc, text)?;
    let rules = text.rules.rules.as_slice();
    let mut number = 0usize;
    for item in &text.file.items {
        let Item::Rule(item) = item else {
            continue;
        };
        if let Some(rule) = rules.get(number) {
            write_item(alloc, &names, item, rule, out)?;
        }
        number = number.saturating_add(1);
    }
    Ok(())
}
