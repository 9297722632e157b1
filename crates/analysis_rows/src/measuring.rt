//! Measures how long it takes to judge full tables.

use crate::making::full_table;
use crate::random::Random;
use lc_model::FieldType;
use rule_analysis::{Field, judge, judge_pairs, spare_comparisons};
use std::alloc::{AllocError, Global};
use std::time::Instant;

/// A number of fields of 16 bits, one after the other from byte 12 on.
fn fields(alloc: Global, count: u16) -> Result<Vec<Field>, AllocError> {
    let mut fields = Vec::new(alloc);
    for i in 0..count {
        fields.push(Field {
            kind: FieldType::U16Be,
            mid: 0x0883,
            offset: 12 + 2 * u32::from(i),
            mask: 0xFFFF,
        })?;
    }
    Ok(fields)
}

/// Prints the times for a full table over `count` fields: to judge its rules, its pairs and its spare comparisons.
fn measure_table(rt: &HostRuntime, count: u16) -> anyhow::Result<()> {
    let alloc = rt.alloc();
    let fields = fields(alloc, count)?;
    let rules = full_table(alloc, &fields, true, &mut Random::from_seed(50))?;
    let start = Instant::now(rt)?;
    let _judgement = judge(alloc, &rules)?;
    let judged = start.elapsed(rt)?.as_micros();
    let start = Instant::now(rt)?;
    let pairs = judge_pairs(alloc, &rules)?.related.len();
    let paired = start.elapsed(rt)?.as_micros();
    let start = Instant::now(rt)?;
    let spare = spare_comparisons(alloc, &rules)?.spare.len();
    let spared = start.elapsed(rt)?.as_micros();
    println!(rt;
        "176 rules of 16 comparisons over {count} fields, in microseconds: rules {judged}"
    )?;
    println!(rt; "  pairs of one sequence {paired} ({pairs} told)")?;
    println!(rt; "  spare comparisons {spared} ({spare} told)")?;
    Ok(())
}

/// Prints the time for the pairs with a common field, in a full table whose rules have a sequence each.
fn measure_pairs(rt: &HostRuntime, count: u16) -> anyhow::Result<()> {
    let alloc = rt.alloc();
    let fields = fields(alloc, count)?;
    let rules = full_table(alloc, &fields, false, &mut Random::from_seed(50))?;
    let start = Instant::now(rt)?;
    let pairs = judge_pairs(alloc, &rules)?.related.len();
    let paired = start.elapsed(rt)?.as_micros();
    println!(rt; "  pairs of a common field among {count} fields {paired} ({pairs} told)")?;
    Ok(())
}

/// Prints the times, in microseconds, for tables over 176, 16, 4 fields and one. The error is a lack of memory or of
/// output.
pub fn measure(rt: &HostRuntime) -> anyhow::Result<()> {
    for count in [176, 16, 4, 1] {
        measure_table(rt, count)?;
        measure_pairs(rt, count)?;
    }
    Ok(())
}
