//! The lists of a page: the changes of each rule, and then of each field.

use crate::entry::stand_entry;
use bounded_history::{Changes, Entry, Pool};
use run_summary::{Place, Stand, stand_in};
use std::alloc::{AllocError, Global};

/// The most entries of all lists.
const ENTRIES: usize = 9_600;

/// A list for each lane, and after them one for each field. A lane shows the rules with one number in all texts.
#[derive(Drop)]
pub struct Lists {
    pool: Pool,
    lanes: usize,
}

/// Adds `count` empty lists. The only error is a lack of memory.
fn push_all(pool: &mut Pool, count: usize) -> Result<(), AllocError> {
    for _ in 0..count {
        pool.push()?;
    }
    Ok(())
}

impl Lists {
    /// Empty lists for this number of lanes and of fields. The only error is a lack of memory.
    pub fn new(alloc: Global, lanes: usize, fields: usize) -> Result<Lists, AllocError> {
        let mut pool = Pool::new(alloc, ENTRIES);
        push_all(&mut pool, lanes)?;
        push_all(&mut pool, fields)?;
        Ok(Lists { pool, lanes })
    }

    /// The number of lanes.
    pub fn lanes(&self) -> usize {
        self.lanes
    }

    /// The lists of the lanes, and the lists of the fields.
    pub fn parts(&self) -> (&[Changes], &[Changes]) {
        let lists = self.pool.lists();
        lists.split_at(self.lanes.min(lists.len()))
    }

    /// Adds an entry to the list of a field. The only error is a lack of memory.
    pub fn value(&mut self, field: usize, entry: Entry) -> Result<(), AllocError> {
        self.pool.add(self.lanes.saturating_add(field), entry)
    }

    /// Adds an entry to each lane: the rules' results and states from a record on. The only error is a lack of memory.
    pub fn stand(&mut self, place: Place, stands: &[Stand]) -> Result<(), AllocError> {
        for rule in 0..self.lanes {
            let entry = stand_entry(place, stand_in(stands, rule));
            self.pool.add(rule, entry)?;
        }
        Ok(())
    }
}
