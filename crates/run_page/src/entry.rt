//! The entries that lists get at a place.

use bounded_history::{Content, Entry};
use run_summary::{Met, Place, Stand};

/// The entry of a field that has this value from this place on. Without a value its least number is greater than its greatest.
pub fn value_entry(place: Place, met: Met) -> Entry {
    let (low, high) = match met.value {
        Some(value) => (value, value),
        None => (i64::MAX, i64::MIN),
    };
    Entry {
        from: place.record,
        time: place.time,
        told: Content {
            results: 0,
            states: 0,
            low,
            high,
        },
        changes: 1,
    }
}

/// The entry of a rule that has this result and state from this place on.
pub fn stand_entry(place: Place, stand: Stand) -> Entry {
    Entry {
        from: place.record,
        time: place.time,
        told: Content {
            results: stand.result,
            states: stand.state,
            low: 0,
            high: 0,
        },
        changes: 1,
    }
}
