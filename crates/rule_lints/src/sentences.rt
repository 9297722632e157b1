//! Warnings in words.

ghost use Rattle.std.specs.Prelude.{IfOk};
ghost use Rattle.diagnostics.specs.Message.{IsWarning};
ghost use Rattle.rule_lints.specs.Names.{name_of};

use crate::comments::quiet_names;
use crate::judging::{Judged, places_of, rule_at};
use crate::lint::{LINTS, Lint};
use crate::warning::Warning;
use analysis_listing::{
    FieldName, FieldNames, NameSource, RuleFindings, ShownTerm, Values, said_of, terms_in, why,
};
use diagnostics::{Many, Mark, Message, around, nearest, written_line};
use lc_model::Term;
use rpn_compiler::RuleText;
use rule_analysis::{ComparisonJudgement, Constancy, RuleJudgement, SpareComparison};
use rule_lexer::{Token, TokenKind};
use rule_parser::{Item, PacketItem, RuleItem};
use std::alloc::{AllocError, Global};

/// A text with its judgements and the names of its fields.
#[derive(Drop)]
pub(crate) struct JudgedText<'s, 'a> {
    text: &'s RuleText<'a>,
    judged: &'s Judged,
    names: FieldNames<'a>,
}

/// The words of a warning: its head, its label, and a mark at another place.
#[derive(Drop)]
struct WarningWords {
    head: String,
    label: String,
    other: Option<Mark>,
}

/// Words without another place.
fn plain(head: String, label: String) -> WarningWords {
    WarningWords {
        head,
        label,
        other: None,
    }
}

/// A name between two parts of a sentence, and what to do.
fn of_name(
    alloc: Global,
    before: &str,
    name: &[u8],
    behind: &str,
    label: &str,
) -> Result<WarningWords, AllocError> {
    let head = around(alloc, before, name, behind)?;
    Ok(plain(head, String::from_str(alloc, label)?))
}

/// Two names, with the words between and after them.
fn two_names(
    alloc: Global,
    first: &[u8],
    between: &str,
    second: &[u8],
    behind: &str,
) -> Result<String, AllocError> {
    let mut text = around(alloc, "", first, between)?;
    let rest = around(alloc, "", second, behind)?;
    text.push_str(rest.as_str())?;
    Ok(text)
}

impl<'s, 'a> JudgedText<'s, 'a> {
    /// A text with its judgements. The only error is a lack of memory.
    pub fn new(
        alloc: Global,
        text: &'s RuleText<'a>,
        judged: &'s Judged,
    ) -> Result<JudgedText<'s, 'a>, AllocError> {
        Ok(JudgedText {
            text,
            judged,
            names: FieldNames::of(alloc, text)?,
        })
    }

    /// The number of the token at this place, or the number of tokens if there is none.
    fn number_at(&self, at: usize) -> usize {
        self.text
            .tokens
            .iter()
            .position(|token| token.at == at)
            .unwrap_or(self.text.tokens.len())
    }

    /// The token with this number.
    fn token(&self, number: usize) -> Option<Token<'a>> {
        self.text.tokens.get(number).copied()
    }

    /// The text of the token at this place.
    fn text_at(&self, at: usize) -> &'a [u8] {
        match self.token(self.number_at(at)) {
            Some(token) => token.text,
            None => &[],
        }
    }

    /// A mark under the name at this place.
    fn name_mark(&self, alloc: Global, at: usize, label: &str) -> Result<Mark, AllocError> {
        Ok(Mark {
            at,
            size: self.text_at(at).len(),
            label: String::from_str(alloc, label)?,
        })
    }

    /// The name of the rule with this number, and its place.
    fn rule_mark(
        &self,
        alloc: Global,
        number: usize,
        label: &str,
    ) -> Result<Option<Mark>, AllocError> {
        match rule_at(&self.text.file.items, number) {
            Some(rule) => Ok(Some(Mark {
                at: rule.name.at,
                size: rule.name.text.len(),
                label: String::from_str(alloc, label)?,
            })),
            None => Ok(None),
        }
    }

    /// The name of the rule with this number.
    fn rule_name(&self, number: usize) -> &'a [u8] {
        match rule_at(&self.text.file.items, number) {
            Some(rule) => rule.name.text,
            None => &[],
        }
    }
}

/// A text without a rule.
fn no_rules(alloc: Global) -> Result<WarningWords, AllocError> {
    let head = String::from_str(alloc, "the file has no rule")?;
    Ok(plain(head, String::from_str(alloc, "write a rule")?))
}

/// A field that no rule compares.
fn unused_field(alloc: Global, name: &[u8]) -> Result<WarningWords, AllocError> {
    let label = "leave it out, or compare it in a rule";
    of_name(alloc, "no rule uses the field ", name, "", label)
}

/// A packet of which no rule compares a field.
fn unused_packet(alloc: Global, name: &[u8]) -> Result<WarningWords, AllocError> {
    let label = "leave it out, or compare one of its fields in a rule";
    of_name(alloc, "no rule uses the packet ", name, "", label)
}

/// A packet whose message id an earlier packet has.
fn same_message_id(
    alloc: Global,
    subject: &JudgedText<'_, '_>,
    at: usize,
) -> Result<WarningWords, AllocError> {
    let items = subject.text.file.items.as_slice();
    let (packet, first) = packets_alike(items, at).ok_or(AllocError)?;
    let head = two_names(
        alloc,
        packet.name.text,
        " has the message id of ",
        first.name.text,
        "",
    )?;
    let label = "take another message id, or join the two packets";
    let mut words = plain(head, String::from_str(alloc, label)?);
    words.other = Some(subject.name_mark(alloc, first.name.at, "it has it, too")?);
    Ok(words)
}

/// The packet whose name is at this place.
fn packet_at<'f, 'a>(items: &'f [Item<'a>], at: usize) -> Option<&'f PacketItem<'a>> {
    for item in items {
        if let Item::Packet(packet) = item {
            if packet.name.at == at {
                return Some(packet);
            }
        }
    }
    None
}

/// The first packet with this message id.
fn first_with_id<'f, 'a>(items: &'f [Item<'a>], mid: i64) -> Option<&'f PacketItem<'a>> {
    for item in items {
        if let Item::Packet(packet) = item {
            if packet.mid.value == mid {
                return Some(packet);
            }
        }
    }
    None
}

/// The packet whose name is at this place, and the first one with its message id.
fn packets_alike<'f, 'a>(
    items: &'f [Item<'a>],
    at: usize,
) -> Option<(&'f PacketItem<'a>, &'f PacketItem<'a>)> {
    let packet = packet_at(items, at)?;
    let first = first_with_id(items, packet.mid.value)?;
    Some((packet, first))
}

/// A field that shares bits with an earlier one.
fn overlapping_fields(
    alloc: Global,
    subject: &JudgedText<'_, '_>,
    warning: Warning,
) -> Result<WarningWords, AllocError> {
    let head = two_names(
        alloc,
        subject.text_at(warning.at),
        " shares bits with ",
        subject.text_at(warning.about),
        "",
    )?;
    let label = "move one of them, or give them masks that share no bit";
    let mut words = plain(head, String::from_str(alloc, label)?);
    words.other = Some(subject.name_mark(alloc, warning.about, "the other one")?);
    Ok(words)
}

/// A rule whose event is off.
fn debug_event(
    alloc: Global,
    subject: &JudgedText<'_, '_>,
    at: usize,
) -> Result<WarningWords, AllocError> {
    let label = "such events are off until a command turns them on";
    let mut words = of_name(
        alloc,
        "the event of ",
        subject.text_at(at),
        " has the type `debug`",
        label,
    )?;
    words.other = subject.level_mark(alloc, at)?;
    Ok(words)
}

/// A rule whose sequence an earlier rule requests.
fn same_sequence(
    alloc: Global,
    subject: &JudgedText<'_, '_>,
    at: usize,
) -> Result<WarningWords, AllocError> {
    let Some(rule) = rule_asking(&subject.text.file.items, at) else {
        return Err(AllocError);
    };
    let mut words = of_name(
        alloc,
        "",
        rule.name.text,
        " requests the sequence of another rule",
        "take another sequence, or join the two rules",
    )?;
    words.other = subject.sequence_mark(alloc, rule.sequence.value)?;
    Ok(words)
}

/// The rule whose sequence number is at this place.
fn rule_asking<'f, 'a>(items: &'f [Item<'a>], at: usize) -> Option<&'f RuleItem<'a>> {
    for item in items {
        if let Item::Rule(rule) = item {
            if rule.sequence.at == at {
                return Some(rule);
            }
        }
    }
    None
}

/// The first rule that requests this sequence.
fn first_asking<'f, 'a>(items: &'f [Item<'a>], value: i64) -> Option<&'f RuleItem<'a>> {
    for item in items {
        if let Item::Rule(rule) = item {
            if rule.sequence.value == value {
                return Some(rule);
            }
        }
    }
    None
}

impl<'s, 'a> JudgedText<'s, 'a> {
    /// A mark under the event's type of the rule whose name is at this place.
    fn level_mark(&self, alloc: Global, at: usize) -> Result<Option<Mark>, AllocError> {
        let from = self.number_at(at);
        let level = self
            .text
            .tokens
            .iter()
            .skip(from)
            .find(|token| matches!(token.kind, TokenKind::Level(_)));
        match level {
            Some(level) => Ok(Some(Mark {
                at: level.at,
                size: level.text.len(),
                label: String::from_str(alloc, "its type")?,
            })),
            None => Ok(None),
        }
    }

    /// A mark under the sequence of the first rule that requests this one.
    fn sequence_mark(&self, alloc: Global, value: i64) -> Result<Option<Mark>, AllocError> {
        match first_asking(&self.text.file.items, value) {
            Some(rule) => Ok(Some(Mark {
                at: rule.sequence.at,
                size: self.text_at(rule.sequence.at).len(),
                label: around(alloc, "", rule.name.text, " requests it, too")?,
            })),
            None => Ok(None),
        }
    }

    /// The names of fields, with those first by which the rule with this number calls them.
    fn names_in(&self, alloc: Global, rule: usize) -> Result<FieldNames<'a>, AllocError> {
        match rule_at(&self.text.file.items, rule) {
            Some(rule) => self.names.first_in(alloc, &rule.condition),
            None => FieldNames::of(alloc, self.text),
        }
    }
}

/// The values of a rule's fields in packets, in words, by these names.
fn shown_values(
    alloc: Global,
    before: &str,
    names: &FieldNames<'_>,
    judged: &RuleJudgement,
    packets: &[Vec<u8>],
) -> Result<String, AllocError> {
    let terms = terms_in(alloc, &judged.comparisons)?;
    let values = Values {
        names: NameSource::Text(names),
        terms: &terms,
        packets,
    };
    format!(in alloc; "{before}{values}")
}

/// A comparison of the rule with this number, between backticks.
fn shown_term(
    alloc: Global,
    subject: &JudgedText<'_, '_>,
    rule: usize,
    term: Term,
    behind: &str,
) -> Result<String, AllocError> {
    let names = subject.names_in(alloc, rule)?;
    let shown = ShownTerm {
        name: NameSource::Text(&names).name(&term),
        term,
    };
    format!(in alloc; "`{shown}`{behind}")
}

/// The label of a rule that never or always fails.
fn rule_label(
    alloc: Global,
    subject: &JudgedText<'_, '_>,
    number: usize,
    judged: &RuleJudgement,
) -> Result<String, AllocError> {
    let names = subject.names_in(alloc, number)?;
    match said_of(judged) {
        RuleFindings::NeverFails(Some(packets)) => {
            shown_values(alloc, "it passes for ", &names, judged, packets)
        }
        RuleFindings::AlwaysFails(packets) => {
            shown_values(alloc, "as for ", &names, judged, packets)
        }
        RuleFindings::FailsUnknown(reason) | RuleFindings::PassesUnknown(reason) =>
            String::from_str(alloc, why(reason, &judged.comparisons)),
        RuleFindings::NeverPasses => String::from_str(alloc, "no packets make its condition false"),
        _ => String::from_str(alloc, "no packets make its condition true"),
    }
}

/// The words before and after the name of a judged rule.
fn rule_head(judged: &RuleJudgement) -> (&'static str, &'static str) {
    match said_of(judged) {
        RuleFindings::NeverFails(_) => ("", " never fails"),
        RuleFindings::AlwaysFails(_) => ("", " always fails"),
        RuleFindings::NeverPasses => ("", " never passes"),
        RuleFindings::PassesUnknown(_) => ("it is not known whether ", " passes"),
        _ => ("it is not known whether ", " fails"),
    }
}

/// A rule that is judged by itself.
fn judged_rule(
    alloc: Global,
    subject: &JudgedText<'_, '_>,
    number: usize,
) -> Result<WarningWords, AllocError> {
    let Some(judged) = subject.judged.rules.get(number) else {
        return Err(AllocError);
    };
    let (before, behind) = rule_head(judged);
    let head = around(alloc, before, subject.rule_name(number), behind)?;
    Ok(plain(head, rule_label(alloc, subject, number, judged)?))
}

impl<'s, 'a> JudgedText<'s, 'a> {
    /// The comparison at this place of the rule with this number.
    fn comparison_at(
        &self,
        alloc: Global,
        number: usize,
        at: usize,
    ) -> Result<Option<ComparisonJudgement>, AllocError> {
        let Some(rule) = rule_at(&self.text.file.items, number) else {
            return Ok(None);
        };
        let places = places_of(alloc, &rule.condition)?;
        let count = places.iter().take_while(|place| **place != at).count();
        match self.judged.rules.get(number) {
            Some(judged) => Ok(judged.comparisons.get(count).copied()),
            None => Ok(None),
        }
    }

    /// The size in bytes of the comparison that begins at this place.
    fn comparison_size(&self, at: usize) -> usize {
        match self.token(self.number_at(at).saturating_add(2)) {
            Some(value) => value.at.saturating_add(value.text.len()).saturating_sub(at),
            None => 0,
        }
    }

    /// A mark under the first comparison of a rule with this term.
    fn term_mark(
        &self,
        alloc: Global,
        number: usize,
        term: &Term,
    ) -> Result<Option<Mark>, AllocError> {
        let (Some(rule), Some(judged)) = (
            rule_at(&self.text.file.items, number),
            self.judged.rules.get(number),
        ) else {
            return Ok(None);
        };
        let places = places_of(alloc, &rule.condition)?;
        let count = judged
            .comparisons
            .iter()
            .take_while(|comparison| comparison.term != *term)
            .count();
        match places.get(count) {
            Some(place) => Ok(Some(Mark {
                at: *place,
                size: self.comparison_size(*place),
                label: String::from_str(alloc, "this comparison")?,
            })),
            None => Ok(None),
        }
    }
}

/// The number that was probably meant by one that lies below the field's mask, which does not shift: 0x30 for 3 under mask 0xF0.
fn number_in_mask(term: &Term) -> Option<u32> {
    let shift = term.mask.trailing_zeros();
    let number = u32::try_from(term.value).ok()?;
    let shifted = term.mask.checked_shr(shift)?;
    if shift == 0 || number == 0 || number & shifted != number {
        return None;
    }
    number.checked_shl(shift)
}

/// What to do about a comparison with the same outcome for all values.
fn constant_label(alloc: Global, term: &Term) -> Result<String, AllocError> {
    match number_in_mask(term) {
        Some(meant) => { format!(in alloc; "the mask does not shift: did you mean 0x{meant:X}?") }
        None => String::from_str(alloc, "take another number, or leave the comparison out"),
    }
}

/// A comparison with the same outcome for all values.
fn constant_comparison(
    alloc: Global,
    subject: &JudgedText<'_, '_>,
    warning: Warning,
) -> Result<WarningWords, AllocError> {
    let Some(comparison) = subject.comparison_at(alloc, warning.about, warning.at)? else {
        return Err(AllocError);
    };
    let holds = match comparison.says {
        Constancy::Never => " never holds",
        _ => " always holds",
    };
    let shown = ShownTerm {
        name: FieldName::Text(subject.text_at(warning.at)),
        term: comparison.term,
    };
    let head = format!(in alloc; "`{shown}`{holds}")?;
    Ok(plain(head, constant_label(alloc, &comparison.term)?))
}

/// The numbers of the rules of a group whose first rule has this number.
fn rules_of_group(alloc: Global, judged: &Judged, first: usize) -> Result<Vec<usize>, AllocError> {
    let mut numbers = Vec::new(alloc);
    numbers.push(first)?;
    for pair in &judged.groups {
        if pair.first == first {
            numbers.push(pair.second)?;
        }
    }
    Ok(numbers)
}

/// How many rules of a group are named.
const MOST_NAMED: usize = 3;

/// The names of the first of some rules, with `, ` between them and `last` before the last one.
fn named_rules(
    alloc: Global,
    subject: &JudgedText<'_, '_>,
    numbers: &[usize],
    last: &str,
) -> Result<String, AllocError> {
    let mut text = String::new(alloc);
    for (place, number) in numbers.iter().take(MOST_NAMED).enumerate() {
        let between = if place == 0 {
            ""
        } else if place.saturating_add(1) == numbers.len() {
            last
        } else {
            ", "
        };
        let name = around(alloc, between, subject.rule_name(*number), "")?;
        text.push_str(name.as_str())?;
    }
    Ok(text)
}

/// The head for rules that always fail together.
fn alike_head(
    alloc: Global,
    subject: &JudgedText<'_, '_>,
    numbers: &[usize],
) -> Result<String, AllocError> {
    let names = named_rules(alloc, subject, numbers, " and ")?;
    let more = numbers.len().saturating_sub(MOST_NAMED);
    if more == 0 {
        format!(in alloc; "{names} always fail together while their fields are known")
    } else {
        let others = Many(more, "other");
        format!(in alloc; "{names} and {others} always fail together while their fields are known")
    }
}

/// Rules that always fail together.
fn fails_alike(
    alloc: Global,
    subject: &JudgedText<'_, '_>,
    warning: Warning,
) -> Result<WarningWords, AllocError> {
    let numbers = rules_of_group(alloc, subject.judged, warning.about)?;
    let (label, other) = if numbers.len() > 2 {
        (
            "if their fields are known together, leave all but one out, unless their requests or states are needed",
            "the first one",
        )
    } else {
        (
            "if their fields are known together, leave one of the two out, unless its request or state is needed",
            "the other one",
        )
    };
    let head = alike_head(alloc, subject, &numbers)?;
    let mut words = plain(head, String::from_str(alloc, label)?);
    words.other = subject.rule_mark(alloc, warning.about, other)?;
    Ok(words)
}

/// A rule with another one that fails whenever it fails.
fn fails_wherever(
    alloc: Global,
    subject: &JudgedText<'_, '_>,
    warning: Warning,
) -> Result<WarningWords, AllocError> {
    let other = subject.rule_name(warning.about);
    let head = two_names(
        alloc,
        other,
        " fails wherever ",
        subject.text_at(warning.at),
        " does, while its fields are known",
    )?;
    let label =
        "both request the same sequence: you can remove it if the other is as active, needs no more failures, and its fields are known whenever this one's are";
    let mut words = plain(head, String::from_str(alloc, label)?);
    words.other = subject.rule_mark(alloc, warning.about, "fails there, too")?;
    Ok(words)
}

/// The head for a rule that can do without a comparison.
fn spare_head(
    alloc: Global,
    subject: &JudgedText<'_, '_>,
    spare: &SpareComparison,
) -> Result<String, AllocError> {
    let value = if spare.taken_as {
        " taken as true"
    } else {
        " taken as false"
    };
    let term = shown_term(alloc, subject, spare.rule, spare.term, value)?;
    let mut head = around(
        alloc,
        "while its fields are known, ",
        subject.rule_name(spare.rule),
        " has the same result with ",
    )?;
    head.push_str(term.as_str())?;
    Ok(head)
}

/// A rule that can do without a comparison.
fn spare_comparison(
    alloc: Global,
    subject: &JudgedText<'_, '_>,
    warning: Warning,
) -> Result<WarningWords, AllocError> {
    let Some(spare) = subject.judged.spare.get(warning.about) else {
        return Err(AllocError);
    };
    let head = spare_head(alloc, subject, spare)?;
    let label = String::from_str(alloc, "remove it, unless it has to make the rule stale")?;
    let mut words = plain(head, label);
    words.other = subject.term_mark(alloc, spare.rule, &spare.term)?;
    Ok(words)
}

/// A rule that the schedule never samples.
fn never_sampled(alloc: Global, name: &[u8], number: usize) -> Result<WarningWords, AllocError> {
    let head = around(alloc, "the schedule never samples ", name, "")?;
    let label = format!(in alloc; "sample it, as rule {number}, or leave it out")?;
    Ok(plain(head, label))
}

impl<'s, 'a> JudgedText<'s, 'a> {
    /// The line that begins at this place.
    fn line_at(&self, at: usize) -> &'a [u8] {
        written_line(self.text.bytes, at.min(self.text.bytes.len()))
    }
}

/// What to do about a name that no warning has.
fn no_lint_label(alloc: Global, name: &[u8]) -> Result<String, AllocError> {
    let mut names = Vec::new(alloc);
    for lint in LINTS {
        names.push(lint.name().as_bytes())?;
    }
    match nearest(alloc, name, names.as_slice())? {
        Some(meant) => around(alloc, "did you mean ", meant, "?"),
        None => String::from_str(alloc, "leave the name out"),
    }
}

/// A comment with a name that no warning has.
fn no_lint(alloc: Global, name: &[u8]) -> Result<WarningWords, AllocError> {
    let head = around(alloc, "no warning has the name ", name, "")?;
    Ok(plain(head, no_lint_label(alloc, name)?))
}

/// Whether a warning has this name.
fn is_lint(name: &[u8]) -> bool {
    LINTS.iter().any(|lint| lint.name().as_bytes() == name)
}

/// A comment that keeps nothing quiet.
fn unused_quiet(
    alloc: Global,
    subject: &JudgedText<'_, '_>,
    warning: Warning,
) -> Result<WarningWords, AllocError> {
    let names = quiet_names(alloc, subject.line_at(warning.at))?;
    let name: &[u8] = match names.get(warning.about) {
        Some(name) => *name,
        None => &[],
    };
    if !is_lint(name) {
        return no_lint(alloc, name);
    }
    of_name(
        alloc,
        "the next line has no warning ",
        name,
        " to silence",
        "leave the name out",
    )
}

/// The words of a warning about a declaration.
fn declared_words(
    alloc: Global,
    subject: &JudgedText<'_, '_>,
    warning: Warning,
) -> Result<WarningWords, AllocError> {
    let name = subject.text_at(warning.at);
    match warning.lint {
        Lint::NoRules => no_rules(alloc),
        Lint::UnusedField => unused_field(alloc, name),
        Lint::UnusedPacket => unused_packet(alloc, name),
        Lint::SameMessageId => same_message_id(alloc, subject, warning.at),
        Lint::OverlappingFields => overlapping_fields(alloc, subject, warning),
        Lint::DebugEvent => debug_event(alloc, subject, warning.at),
        Lint::SameSequence => same_sequence(alloc, subject, warning.at),
        Lint::NeverSampled => never_sampled(alloc, name, warning.about),
        _ => unused_quiet(alloc, subject, warning),
    }
}

/// The words of a warning.
fn words_of(
    alloc: Global,
    subject: &JudgedText<'_, '_>,
    warning: Warning,
) -> Result<WarningWords, AllocError> {
    match warning.lint {
        Lint::NeverFails | Lint::AlwaysFails | Lint::NeverPasses | Lint::NotKnown => judged_rule(
            alloc,
            subject,
            warning.about,
        ),
        Lint::ConstantComparison => constant_comparison(alloc, subject, warning),
        Lint::FailsAlike => fails_alike(alloc, subject, warning),
        Lint::FailsWherever => fails_wherever(alloc, subject, warning),
        Lint::SpareComparison => spare_comparison(alloc, subject, warning),
        _ => declared_words(alloc, subject, warning),
    }
}

/// The number of bytes that a warning marks.
fn size_of(subject: &JudgedText<'_, '_>, warning: Warning) -> usize {
    match warning.lint {
        Lint::ConstantComparison => subject.comparison_size(warning.at),
        Lint::UnusedQuiet => subject.line_at(warning.at).len(),
        _ => subject.text_at(warning.at).len(),
    }
}

/// A warning as a message.
pub(crate) fn explain(
    alloc: Global,
    subject: &JudgedText<'_, '_>,
    warning: Warning,
) -> Result<Message, AllocError>
    ensures { IfOk result (IsWarning (name_of warning.lint) warning.at) }
{
    let words = words_of(alloc, subject, warning)?;
    let first = Mark {
        at: warning.at,
        size: size_of(subject, warning),
        label: words.label,
    };
    Message::warning(alloc, warning.lint.name(), words.head, first).with(words.other)
}
