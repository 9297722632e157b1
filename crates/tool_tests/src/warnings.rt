//! The line about what was not looked at to the end.

use crate::claims::same;
use rule_lints::Warnings;
use std::process::Abort;

/// How many pairs of rules and how many comparisons are not known, and the line.
const LINES: &[(usize, usize, Option<&str>)] = &[
    (0, 0, None),
    (1, 0, Some("1 pair of rules was not looked at to the end")),
    (2, 0, Some("2 pairs of rules were not looked at to the end")),
    (0, 1, Some("1 comparison was not looked at to the end")),
    (0, 3, Some("3 comparisons were not looked at to the end")),
    (
        1,
        1,
        Some("1 pair of rules and 1 comparison were not looked at to the end"),
    ),
    (
        2,
        1,
        Some("2 pairs of rules and 1 comparison were not looked at to the end"),
    ),
];

#[test]
fn what_is_not_known_is_counted(rt: HostRuntime) {
    for (pairs, comparisons, line) in LINES {
        let warnings = Warnings {
            messages: Vec::new(rt.alloc()),
            unsettled_pairs: *pairs,
            unsettled_comparisons: *comparisons,
        };
        let said = warnings
            .undecided_line(rt.alloc())
            .expect(&rt, "memory for a line");
        same(
            &rt,
            (*pairs, *comparisons),
            said.as_ref().map(|text| text.as_str()),
            *line,
        );
    }
}
