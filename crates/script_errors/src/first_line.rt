//! Messages about a line that should be `slots N`.

use crate::said::{LineMessage, MARK_ADVICE, advise, expect_word, expected_word, too_many};
use crate::word::{are_digits, nth_word};
use schedules::MOST_DIGITS;
use std::alloc::{AllocError, Global};
use text_lines::decimal_number;

/// The first word of a schedule.
const SLOTS: &[&[u8]] = &[b"slots"];

/// The advice for the number of slots.
const RANGE: &str = "write 1 to 64";

/// The number of slots in the first line with words; 0 if it has none.
pub fn slots_in(line: &[u8]) -> u64 {
    decimal_number(MOST_DIGITS, nth_word(line, 1).text).unwrap_or(0)
}

/// The message about an invalid number of slots.
fn number_said(alloc: Global, line: &[u8]) -> Result<LineMessage, AllocError> {
    let number = nth_word(line, 1);
    if !are_digits(number.text) {
        return expect_word(alloc, number, "the number of slots", RANGE);
    }
    let shown = number.quote(alloc)?;
    let head = format!(in alloc; "a schedule has 1 to 64 slots, and not {shown}")?;
    advise(alloc, number, head, RANGE)
}

/// The message about the first line with words, which is invalid. Error: out of memory.
pub fn first_said(alloc: Global, line: &[u8]) -> Result<LineMessage, AllocError> {
    let first = nth_word(line, 0);
    if first.has_order_mark() {
        return expect_word(alloc, first, "`slots`", MARK_ADVICE);
    }
    let is_slots = matches!(first.text, b"slots");
    if !is_slots {
        let advice = "a schedule begins with `slots` and their number";
        return expected_word(alloc, first, SLOTS, "`slots`", advice);
    }
    let behind = nth_word(line, 2);
    if (1..=64).contains(&slots_in(line)) && !behind.is_end() {
        return too_many(alloc, behind);
    }
    number_said(alloc, line)
}
