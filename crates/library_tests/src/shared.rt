//! Assertions of tests. A failed one ends the test and says what is wrong: a field, a place, or a row of a table.
//!
//! A test's proof grows with the square of the assertions that stand in it, so they stand here once.

use std::fmt::Debug;
use std::process::Abort;

/// What was found is what was expected.
pub fn same<R: Abort, W: Copy + Debug, T: Copy + Debug + PartialEq>(
    rt: &R,
    of: W,
    found: T,
    expected: T,
) {
    assert_eq!(rt; found, expected, "of {of:?}");
}

/// From each place on the bytes are these.
pub fn have<R: Abort>(rt: &R, bytes: &[u8], parts: &[(usize, &[u8])]) {
    for &(place, expected) in parts {
        let there = bytes.get(place..).unwrap_or_default();
        let front = there.get(..expected.len());
        same(rt, ("the bytes at", place), front, Some(expected));
    }
}

/// A text with one rule over one watchpoint: two samples in a row below 2,400 request command sequence 7.
pub const LOW_VOLTS: &[u8] = b"packet P = mid 0x0883 length 16; field V = P u16be at 12 stale 2; \
    rule LOW active fails 2 sequence 7 event error 1001 \"low volts\" when V < 2400;";
