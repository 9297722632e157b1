//! The newest values of fields, for the requests that come after them.

use crate::place::Place;
use crate::plans::Part;
use crate::seen::{FieldRange, Seen};
use std::alloc::{AllocError, Global};
use std::collections::VecDeque;

/// The most values that are kept of a field, and with a request.
const MOST: usize = 4;

/// A field's value from a place on; `None` if the packet ended before the field.
#[derive(Clone, Copy)]
pub struct ValueFrom {
    /// The place of the packet.
    pub place: Place,
    /// The value.
    pub value: Option<i64>,
}

/// The newest changes of a field's value.
#[derive(Drop)]
pub(crate) struct Recent {
    values: VecDeque<ValueFrom>,
}

/// The newest changes of the value of a field up to a request.
#[derive(Drop)]
pub struct FieldValues {
    /// The index of the field among `Account::seen`.
    pub field: usize,
    /// The changes, in order.
    pub values: Vec<ValueFrom>,
}

impl Recent {
    fn new(alloc: Global) -> Recent {
        Recent {
            values: VecDeque::new(alloc),
        }
    }

    /// Whether the newest value is this one.
    fn is_last(&self, value: Option<i64>) -> bool {
        match self.values.back() {
            Some(last) => last.value == value,
            None => false,
        }
    }

    /// Takes the value in a packet. The only error is a lack of memory.
    fn take(&mut self, place: Place, value: Option<i64>) -> Result<(), AllocError> {
        if self.is_last(value) {
            return Ok(());
        }
        if self.values.len() >= MOST {
            let _oldest = self.values.pop_front();
        }
        self.values.push_back(ValueFrom { place, value })?;
        Ok(())
    }

    /// The last `most` of the values. The only error is a lack of memory.
    fn last(&self, alloc: Global, most: usize) -> Result<Vec<ValueFrom>, AllocError> {
        let mut values = Vec::new(alloc);
        let before = self.values.len().saturating_sub(most);
        let (front, back) = self.values.as_slices();
        for value in front.iter().chain(back.iter()).skip(before) {
            values.push(*value)?;
        }
        Ok(values)
    }
}

/// No values, for this number of fields. The only error is a lack of memory.
pub(crate) fn no_values(alloc: Global, fields: usize) -> Result<Vec<Recent>, AllocError> {
    let mut all = Vec::new(alloc);
    for _ in 0..fields {
        all.push(Recent::new(alloc))?;
    }
    Ok(all)
}

/// Takes the values that the packet at this place brought, of the fields in this range. The only error is a lack of memory.
pub(crate) fn take_values(
    seen: &[Seen<'_>],
    range: FieldRange,
    place: Place,
    all: &mut [Recent],
) -> Result<(), AllocError> {
    let FieldRange { first, end } = range;
    let (Some(all), Some(seen)) = (all.get_mut(first..end), seen.get(first..end)) else {
        return Ok(());
    };
    for (recent, seen) in all.iter_mut().zip(seen.iter()) {
        if let Some(met) = seen.come_in(place) {
            recent.take(place, met.value)?;
        }
    }
    Ok(())
}

/// Drops all values.
pub(crate) fn drop_values(all: &mut [Recent]) {
    for recent in all.iter_mut() {
        recent.values.clear();
    }
}

/// The fields of these comparisons, each once, `MOST` at most. The only error is a lack of memory.
fn fields_in(alloc: Global, parts: &[Part]) -> Result<Vec<usize>, AllocError> {
    let mut fields = Vec::new(alloc);
    for part in parts {
        if fields.len() < MOST && !fields.contains(&part.field) {
            fields.push(part.field)?;
        }
    }
    Ok(fields)
}

/// The newest values of the fields of these comparisons: `MOST` in all, as many of each. The only error is a lack of memory.
pub(crate) fn values_around(
    alloc: Global,
    parts: &[Part],
    all: &[Recent],
) -> Result<Vec<FieldValues>, AllocError> {
    let fields = fields_in(alloc, parts)?;
    let most = MOST / fields.len().max(1);
    let mut around = Vec::new(alloc);
    for field in &fields {
        if let Some(recent) = all.get(*field) {
            let values = recent.last(alloc, most)?;
            around.push(FieldValues {
                field: *field,
                values,
            })?;
        }
    }
    Ok(around)
}
