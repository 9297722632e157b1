//! What is known of fields from the packets that came.

use crate::figures::count;
use crate::place::{Place, is_place};
use crate::texts::Field;
use crate::values::value_in;
use lc_model::packet::{message_id, stream_fault};
use std::alloc::{AllocError, Global};

/// What a comparison meets of a field.
#[derive(Clone, Copy)]
pub struct Met {
    /// The field's value; `None` if there is no packet or the packet ended before the field.
    pub value: Option<i64>,
    /// The place of the packet; `None` if the Limit Checker took none since tables came into force.
    pub place: Option<Place>,
}

/// What a comparison meets before the Limit Checker takes a packet.
pub(crate) const NOTHING: Met = Met {
    value: None,
    place: None,
};

/// What is known of a field from the packets that came.
#[derive(Clone, Copy)]
pub struct Seen<'a> {
    /// The field.
    pub field: Field<'a>,
    /// The number of packets of its message id that the host accepted, up to 2^64 - 1.
    pub packets: u64,
    /// The place of the last of them.
    pub last: Option<Place>,
    /// The field's value in the last of them; `None` if none came or it ended before the field.
    pub value: Option<i64>,
    /// What comparisons meet of it: the last of them that the Limit Checker took, too.
    pub met: Met,
}

impl<'a> Seen<'a> {
    /// A field before its first packet.
    fn new(field: Field<'a>) -> Seen<'a> {
        Seen {
            field,
            packets: 0,
            last: None,
            value: None,
            met: NOTHING,
        }
    }

    /// Takes a packet of the field's message id. Comparisons meet it if the Limit Checker takes it, too.
    fn take(&mut self, packet: &[u8], place: Place, is_taken: bool) {
        count(&mut self.packets);
        self.last = Some(place);
        self.value = value_in(&self.field, packet);
        if is_taken {
            self.met = Met {
                value: self.value,
                place: self.last,
            };
        }
    }

    /// Takes a packet with this message id if it is the field's. Returns whether it is.
    fn see(&mut self, mid: u16, packet: &[u8], place: Place, is_taken: bool) -> bool {
        let is_own = self.field.mid == u32::from(mid);
        if is_own {
            self.take(packet, place, is_taken);
        }
        is_own
    }

    /// The field's value in its last packet, if that is of this place; else `None`.
    pub fn come_in(&self, place: Place) -> Option<Met> {
        match self.last {
            Some(last) if is_place(last, place) => Some(Met {
                value: self.value,
                place: self.last,
            }),
            _ => None,
        }
    }

    /// Counts the packets anew.
    fn count_anew(&mut self) {
        self.packets = 0;
        self.last = None;
        self.value = None;
    }

    /// Clears what comparisons meet.
    fn forget(&mut self) {
        self.met = NOTHING;
    }
}

/// These fields before their first packets. The only error is a lack of memory.
pub(crate) fn all_unseen<'a>(
    alloc: Global,
    fields: &[Field<'a>],
) -> Result<Vec<Seen<'a>>, AllocError> {
    let mut all = Vec::new(alloc);
    for field in fields {
        all.push(Seen::new(*field))?;
    }
    Ok(all)
}

/// Where the fields lie of which a record brought values: from this index on, before that one. Others may lie between them.
#[derive(Clone, Copy)]
pub struct FieldRange {
    pub first: usize,
    pub end: usize,
}

/// Of no field.
pub(crate) const NO_FIELDS: FieldRange = FieldRange { first: 0, end: 0 };

/// Takes a telemetry packet, unless the host refuses it: the fields of its message id get new values. `is_taken` says whether the Limit
/// Checker takes the packets that it watches. Returns where these fields lie.
pub(crate) fn see_all(
    all: &mut [Seen<'_>],
    packet: &[u8],
    place: Place,
    is_taken: bool,
) -> FieldRange {
    if packet.len() < 2 || stream_fault(packet).is_some() {
        return NO_FIELDS;
    }
    let mid = message_id(packet);
    let mut range = NO_FIELDS;
    for (index, seen) in all.iter_mut().enumerate() {
        if seen.see(mid, packet, place, is_taken) {
            if range.end == 0 {
                range.first = index;
            }
            range.end = index.saturating_add(1);
        }
    }
    range
}

/// Clears what comparisons meet of all fields.
pub(crate) fn forget_all(all: &mut [Seen<'_>]) {
    for seen in all.iter_mut() {
        seen.forget();
    }
}

/// Counts the packets of all fields anew.
pub(crate) fn count_all_anew(all: &mut [Seen<'_>]) {
    for seen in all.iter_mut() {
        seen.count_anew();
    }
}

/// What a comparison meets of the field with this index.
pub(crate) fn met_of(all: &[Seen<'_>], number: usize) -> Met {
    match all.get(number) {
        Some(seen) => seen.met,
        None => NOTHING,
    }
}
