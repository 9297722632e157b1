//! What a test claims.

use std::fmt::Debug;
use std::process::Abort;

/// What was found is what was expected.
pub fn same<R: Abort, W: Copy + Debug, T: Copy + Debug + PartialEq>(
    rt: &R,
    of: W,
    found: T,
    expected: T,
) {
    assert_eq!(rt; found, expected, "of {of:?}");
}
