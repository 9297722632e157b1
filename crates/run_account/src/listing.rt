//! The account as lines for a person and as JSON for a program.

use crate::account::RunAccount;
use crate::clock::SECOND;
use crate::counts::RuleRow;
use crate::texts::{packet_name, reads, rule_at};
use crate::warning::AccountWarning;
use rpn_compiler::RuleText;
use std::fmt::{self, Display, Formatter, Write};
use std::str;

/// A warning of an account, with the texts of the run and their names, as one sentence without a line's end.
#[derive(Clone, Copy)]
pub struct WarningLine<'a, 's, 't> {
    pub account: &'a RunAccount<'s>,
    pub texts: &'a [RuleText<'t>],
    pub warning: AccountWarning,
}

/// The account of a run of these texts as a JSON object.
#[derive(Clone, Copy)]
pub struct AccountJson<'a, 's, 't> {
    pub account: &'a RunAccount<'s>,
    pub texts: &'a [RuleText<'t>],
}

/// A name of a rule text, which has only ASCII characters.
#[derive(Clone, Copy)]
struct NameOf<'a>(&'a [u8]);

impl Display for NameOf<'_> {
    fn fmt<W: Write>(&self, f: &mut Formatter<W>) -> fmt::Result {
        match str::from_utf8(self.0) {
            Ok(name) => write!(f, "{name}"),
            Err(_) => Ok(()),
        }
    }
}

/// Writes the name of a rule, or its number if the text has no such rule.
fn write_rule<W: Write>(
    f: &mut Formatter<W>,
    texts: &[RuleText<'_>],
    text: usize,
    rule: usize,
) -> fmt::Result {
    match rule_at(texts, text, rule) {
        Some(found) => write!(f, "{}", NameOf(found.name.as_slice())),
        None => write!(f, "rule {rule}"),
    }
}

/// Whether a rule was stale in each of its samples, or was never sampled.
fn is_meant(row: RuleRow, are_stale: bool) -> bool {
    if are_stale {
        row.is_always_stale()
    } else {
        row.is_never_sampled()
    }
}

/// Writes the names of the rules of a text that never were sampled, or that always were stale.
fn write_rules<W: Write>(
    f: &mut Formatter<W>,
    account: &RunAccount<'_>,
    texts: &[RuleText<'_>],
    text: usize,
    are_stale: bool,
) -> fmt::Result {
    let mut sign = "";
    for number in 0..account.row_count() {
        match account.row(number) {
            Some(row) if row.text == text && is_meant(row, are_stale) => {
                write!(f, "{sign}")?;
                write_rule(f, texts, text, row.rule)?;
                sign = ", ";
            }
            _ => {}
        }
    }
    Ok(())
}

/// Writes the numbers of the texts of which no rule was sampled.
fn write_idle_texts<W: Write>(
    f: &mut Formatter<W>,
    account: &RunAccount<'_>,
    count: usize,
) -> fmt::Result {
    let mut sign = "";
    for text in 0..count {
        if account.is_text_never_sampled(text) {
            write!(f, "{sign} {text}")?;
            sign = ",";
        }
    }
    Ok(())
}

/// Writes the names of the rules of a text that compare a field of packets with this message id.
fn write_readers<W: Write>(f: &mut Formatter<W>, text: &RuleText<'_>, mid: u16) -> fmt::Result {
    let mut sign = ", which these rules compare: ";
    for rule in text.rules.rules.as_slice() {
        if reads(&rule.cond, mid) {
            write!(f, "{sign}{}", NameOf(rule.name.as_slice()))?;
            sign = ", ";
        }
    }
    Ok(())
}

impl Display for WarningLine<'_, '_, '_> {
    fn fmt<W: Write>(&self, f: &mut Formatter<W>) -> fmt::Result {
        let (account, texts) = (self.account, self.texts);
        match self.warning {
            AccountWarning::NothingSampled => write!(
                f,
                "warning[nothing-sampled]: records: {}, and no rule was sampled: is `LC` started and enabled, are there tables, \
                 ticks, `SCH` and a schedule that samples?",
                self.account.records()
            ),
            AccountWarning::TextsNotSampled => {
                write!(f, "warning[not-sampled]: no rule was sampled of text")?;
                write_idle_texts(f, account, texts.len())
            }
            AccountWarning::RulesNotSampled { text } => {
                write!(f, "warning[not-sampled]: not sampled: ")?;
                write_rules(f, account, texts, text, false)
            }
            AccountWarning::AlwaysStale { text } => {
                write!(f, "warning[always-stale]: stale in each sample: ")?;
                write_rules(f, account, texts, text, true)
            }
            AccountWarning::NoPacket { text, mid } => {
                write!(f, "warning[no-packet]: no packet 0x{mid:04x} came")?;
                match texts.get(text) {
                    Some(source) => write_readers(f, source, mid),
                    None => Ok(()),
                }
            }
            AccountWarning::Unsampled { rule, time } => {
                write!(f, "warning[unsampled]: ")?;
                write_rule(f, texts, 0, rule)?;
                write!(
                    f,
                    " was not sampled for {} s in all, though the schedule asks for it",
                    time / SECOND
                )
            }
            AccountWarning::StepsBack { count } => write!(
                f,
                "warning[steps-back]: records that are earlier than the one before: {count}"
            ),
            AccountWarning::UngivenTables { samples } => write!(
                f,
                "warning[ungiven-tables]: samples with tables of no given rule text: {samples}"
            ),
        }
    }
}

impl AccountJson<'_, '_, '_> {
    /// Writes the packets.
    fn write_packets<W: Write>(&self, f: &mut Formatter<W>) -> fmt::Result {
        let mut sign = "";
        for count in self.account.packets() {
            let (mid, packets) = (count.mid, count.packets);
            write!(f, "{sign}{{\"mid\":{mid},\"packets\":{packets}}}")?;
            sign = ",";
        }
        Ok(())
    }

    /// Writes the rules.
    fn write_rows<W: Write>(&self, f: &mut Formatter<W>) -> fmt::Result {
        let mut sign = "";
        for number in 0..self.account.row_count() {
            let Some(row) = self.account.row(number) else {
                break;
            };
            let (text, rule, counts) = (row.text, row.rule, row.counts);
            write!(f, "{sign}{{\"text\":{text},\"rule\":{rule},\"name\":\"")?;
            write_rule(f, self.texts, text, rule)?;
            write!(
                f,
                "\",\"sampled\":{},\"passed\":{},\"failed\":{},\"stale\":{},\"errors\":{},\"unsampled\":{}}}",
                counts.sampled(),
                counts.passed,
                counts.failed,
                counts.stale,
                counts.errors,
                self.account.unsampled(rule) / SECOND
            )?;
            sign = ",";
        }
        Ok(())
    }
}

impl Display for AccountJson<'_, '_, '_> {
    fn fmt<W: Write>(&self, f: &mut Formatter<W>) -> fmt::Result {
        let it = self.account;
        write!(
            f,
            "{{\"records\":{},\"samples\":{},\"ungiven\":{},\"steps_back\":{},\"packets\":[",
            it.records(),
            it.samples(),
            it.ungiven(),
            it.steps_back()
        )?;
        self.write_packets(f)?;
        write!(f, "],\"rules\":[")?;
        self.write_rows(f)?;
        write!(f, "]}}")
    }
}
