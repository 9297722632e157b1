//! Messages about a line of a schedule that should be an entry of a slot.

use crate::said::{LineMessage, advise, expect_word, expected_word, said_of, too_many};
use crate::word::{Word, are_digits, nth_word};
use schedules::MOST_DIGITS;
use std::alloc::{AllocError, Global};
use text_lines::decimal_number;

const VERBS: &[&[u8]] = &[b"sample", b"housekeeping"];

/// The possible last words of a sample.
pub const AGES: &[&[u8]] = &[b"age", b"keep"];

/// The advice for the last word of a sample.
pub const AGES_ADVICE: &str = "write `age` where watchpoints age after the sample, else `keep`";

/// The advice for the range of rules of a sample.
pub const RULES_ADVICE: &str = "write 0 to 175, or 65535 twice for all rules";

/// The greatest number of a rule.
const LAST_RULE: u64 = 175;

/// The number that stands for all rules.
const ALL_RULES: u64 = 65_535;

/// The number that a word writes; 2^64 - 1, which no schedule may have, if it writes none.
fn number(word: Word<'_>) -> u64 {
    decimal_number(MOST_DIGITS, word.text).unwrap_or(u64::MAX)
}

/// The message about a slot outside a schedule with this number of slots.
fn slot_said(alloc: Global, line: &[u8], slots: u64) -> Result<LineMessage, AllocError> {
    let slot = nth_word(line, 0);
    let last = slots.saturating_sub(1);
    let advice = format!(in alloc; "write 0 to {last}")?;
    if !are_digits(slot.text) {
        return expect_word(alloc, slot, "the number of a slot", advice.as_str());
    }
    let shown = slot.quote(alloc)?;
    let head = format!(in alloc; "there is no slot {shown}")?;
    advise(alloc, slot, head, advice.as_str())
}

/// Whether the number is a rule's, or stands for all rules.
fn is_rule(number: u64) -> bool {
    number <= LAST_RULE || number == ALL_RULES
}

/// The message about two numbers that are not a range of rules.
fn range_said(alloc: Global, line: &[u8]) -> Result<LineMessage, AllocError> {
    let (first, last) = (nth_word(line, 2), nth_word(line, 3));
    if !is_rule(number(first)) {
        let shown = first.quote(alloc)?;
        let head = format!(in alloc; "there is no rule {shown}")?;
        return advise(alloc, first, head, RULES_ADVICE);
    }
    let shown = last.quote(alloc)?;
    if !is_rule(number(last)) {
        let head = format!(in alloc; "there is no rule {shown}")?;
        return advise(alloc, last, head, RULES_ADVICE);
    }
    let begin = first.quote(alloc)?;
    let head = format!(in alloc; "{begin} to {shown} are no range of rules")?;
    if number(first) > LAST_RULE || number(last) > LAST_RULE {
        return advise(alloc, first, head, RULES_ADVICE);
    }
    let least = number(first);
    let label = format!(in alloc; "write {least} at least: the last rule is not before the first")?;
    Ok(said_of(last, head, label))
}

/// Whether the word is `age` or `keep`.
fn is_age(word: Word<'_>) -> bool {
    matches!(word.text, b"age" | b"keep")
}

/// The message about an invalid sample.
fn sample_said(alloc: Global, line: &[u8]) -> Result<LineMessage, AllocError> {
    let (first, last) = (nth_word(line, 2), nth_word(line, 3));
    if !are_digits(first.text) {
        return expect_word(alloc, first, "the first rule's number", RULES_ADVICE);
    }
    if !are_digits(last.text) {
        return expect_word(alloc, last, "the last rule's number", RULES_ADVICE);
    }
    let ages = nth_word(line, 4);
    if !is_age(ages) {
        return expected_word(alloc, ages, AGES, "`age` or `keep`", AGES_ADVICE);
    }
    let behind = nth_word(line, 5);
    if !behind.is_end() {
        return too_many(alloc, behind);
    }
    range_said(alloc, line)
}

/// The message about an invalid entry of a schedule with this number of slots. Error: out of memory.
pub fn entry_said(alloc: Global, line: &[u8], slots: u64) -> Result<LineMessage, AllocError> {
    if number(nth_word(line, 0)) >= slots {
        return slot_said(alloc, line, slots);
    }
    let verb = nth_word(line, 1);
    match verb.text {
        b"sample" => sample_said(alloc, line),
        b"housekeeping" => too_many(alloc, nth_word(line, 2)),
        _ => expected_word(
            alloc,
            verb,
            VERBS,
            "`sample` or `housekeeping`",
            "write `sample FIRST LAST age`, `sample FIRST LAST keep` or `housekeeping`",
        ),
    }
}

/// The message about the ninth entry of a slot. Error: out of memory.
pub fn full_said(alloc: Global, line: &[u8]) -> Result<LineMessage, AllocError> {
    let slot = nth_word(line, 0);
    let shown = slot.quote(alloc)?;
    let head = format!(in alloc; "slot {shown} has over 8 entries")?;
    advise(alloc, slot, head, "this is the 9th: take another slot")
}
