//! Places of a text in any order.

use crate::json_text::JsonText;
use crate::shapes::write_range;
use editor_text::{UnitPlace, Walk};
use std::alloc::{AllocError, Global};

/// The places of some bytes of a text.
#[derive(Drop)]
pub struct Places {
    /// The bytes, in the order of the text.
    bytes: Vec<usize>,
    /// The place of each.
    places: Vec<UnitPlace>,
}

impl Places {
    /// The places of these bytes, each given by the number of bytes before it. All cost one walk through the text.
    pub fn of(alloc: Global, text: &[u8], mut bytes: Vec<usize>) -> Result<Places, AllocError> {
        bytes.sort()?;
        let mut walk = Walk::new(text);
        let mut places = Vec::new(alloc);
        for at in &bytes {
            places.push(walk.place_at(*at))?;
        }
        Ok(Places { bytes, places })
    }

    /// The place of one of the bytes; the text's begin for another.
    fn place_at(&self, at: usize) -> UnitPlace {
        let found = self.bytes.binary_search(&at).ok();
        found
            .and_then(|number| self.places.get(number))
            .copied()
            .unwrap_or(UnitPlace { line: 0, unit: 0 })
    }

    /// Writes the member of this name: the range from one of the bytes up to another.
    pub fn write_named_range(&self, json: &mut JsonText, name: &str, from: usize, to: usize) {
        json.name(name);
        write_range(json, self.place_at(from), self.place_at(to));
    }

    /// Writes the member `range`: from one of the bytes up to another.
    pub fn write_range(&self, json: &mut JsonText, from: usize, to: usize) {
        self.write_named_range(json, "range", from, to);
    }
}
