//! Which rules a schedule samples.

ghost use Rattle.std.specs.Prelude.{◌≡◌, ◌++◌, IfOk, OnOk, filter, flat_map, not};
ghost use Rattle.lc_model.specs.Tables.Image.{numbers_below};
ghost use Rattle.rule_analysis.specs.Reach.{is_sampled};
ghost use Rattle.schedules.specs.Entry.{entries_of};
ghost use Rattle.analysis_listing.specs.Requests.{request_in, requests_of};

use lc_model::SampleRequest;
use rule_analysis::never_sampled;
use schedules::{Entry, Schedule};
use std::alloc::{AllocError, Global};

/// Appends the sample requests of a slot.
fn push_requests(entries: &[Entry], requests: &mut Vec<SampleRequest>) -> Result<(), AllocError>
    ensures { OnOk result (requests.new.items ≡
        requests.old.items ++ flat_map request_in (entries_of entries.now)) }
{
    for entry in entries {
        if let Entry::Sample { first, last, ages } = *entry {
            requests.push(SampleRequest { first, last, ages })?;
        }
    }
    Ok(())
}

/// The sample requests of all slots.
fn requests_of(alloc: Global, schedule: &Schedule) -> Result<Vec<SampleRequest>, AllocError>
    ensures { IfOk result (λ requests. requests.items ≡ requests_of schedule.now) }
{
    let mut requests = Vec::new(alloc);
    for slot in 0..schedule.len() {
        push_requests(schedule.entries(slot), &mut requests)?;
    }
    Ok(requests)
}

/// The rules that the schedule samples at no tick, by number from 0; `rules` is the number of rules. The only error is a lack of
/// memory.
pub fn unsampled_rules(
    alloc: Global,
    rules: usize,
    schedule: &Schedule,
) -> Result<Vec<usize>, AllocError>
    ensures { IfOk result (λ numbers. numbers.items ≡ filter (λ rule.
        not (is_sampled (requests_of schedule.now) rule)) (numbers_below rules)) }
{
    let requests = requests_of(alloc, schedule)?;
    never_sampled(alloc, rules, &requests)
}
