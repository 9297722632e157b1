//! The samples that a record requests.

use run_account::Requests;
use schedules::Entry;

/// Whether an entry of the schedule requests a sample.
fn is_sample(entry: Entry) -> bool {
    match entry {
        Entry::Sample { .. } => true,
        Entry::Housekeeping => false,
    }
}

/// The number of samples that are requested.
pub fn sample_count(requests: Requests<'_>) -> usize {
    match requests {
        Requests::Nothing => 0,
        Requests::Slot(entries) => entries.iter().filter(|entry| is_sample(**entry)).count(),
        Requests::One(_) => 1,
    }
}
