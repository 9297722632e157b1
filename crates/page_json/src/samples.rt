//! The samples of each lane in a page's data.

use crate::json::{Item, Json};
use run_summary::Place;
use std::fmt::Write;

/// A gap in which a sample of a lane was due and none came; or several gaps, with what lies between them.
#[derive(Clone, Copy)]
pub struct Gap {
    /// Where it begins.
    pub from: Place,
    /// Where it ends: at the next sample, or after the last record.
    pub to: Place,
    /// The number of gaps.
    pub count: u64,
}

/// The samples of the rules with one number.
#[derive(Drop)]
pub struct LaneSamples {
    /// Whether the schedule samples rules with this number.
    pub is_due: bool,
    /// The number of records in which the rule was sampled.
    pub records: u64,
    /// The gaps in which a sample was due and none came.
    pub gaps: Vec<Gap>,
}

impl Gap {
    /// Two gaps as one.
    pub fn join(self, other: Gap) -> Gap {
        Gap {
            from: self.from,
            to: other.to,
            count: self.count.saturating_add(other.count),
        }
    }
}

const GAP: &[&str] = &["[", ",", ",", ",", ",", "]"];

/// Gaps, in order.
fn put_gaps<W: Write>(json: &mut Json<'_, W>, gaps: &[Gap]) {
    for gap in gaps {
        let items = [
            Item::Natural(gap.from.record),
            Item::Time(gap.from.time),
            Item::Natural(gap.to.record),
            Item::Time(gap.to.time),
            Item::Natural(gap.count),
        ];
        json.member(GAP, &items);
    }
}

const LANE: &[&str] = &["{\"due\":", ",\"sampled\":"];

/// The samples of all lanes.
pub fn put_sampling<W: Write>(json: &mut Json<'_, W>, lanes: &[LaneSamples]) {
    for lane in lanes {
        let due = if lane.is_due { "true" } else { "false" };
        json.member(LANE, &[Item::Word(due), Item::Natural(lane.records)]);
        json.open(",\"gaps\":[");
        put_gaps(json, lane.gaps.as_slice());
        json.text("]}");
    }
}
