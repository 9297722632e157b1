//! What applications of the tests count together.

use std::alloc::{AllocError, Global};
use std::cell::Cell;
use std::rc::Rc;

/// The starts and retirements of objects, and those that were dropped, all in all and before the last retirement.
#[derive(Drop)]
struct Numbers {
    starts: Cell<u32>,
    retirements: Cell<u32>,
    drops: Cell<u32>,
    drops_before_retirement: Cell<u32>,
}

/// The same counts for all who hold one of its copies.
#[derive(Drop)]
pub struct Tally {
    counts: Rc<Numbers>,
}

impl Tally {
    /// Creates counts of 0. Out of memory is the only error.
    pub fn new(alloc: Global) -> Result<Tally, AllocError> {
        let counts = Rc::new(
            alloc,
            Numbers {
                starts: Cell::new(0),
                retirements: Cell::new(0),
                drops: Cell::new(0),
                drops_before_retirement: Cell::new(0),
            },
        )?;
        Ok(Tally { counts })
    }

    /// Another holder of the same counts. An error where there are too many holders.
    pub fn share(&self) -> Result<Tally, AllocError> {
        Ok(Tally {
            counts: self.counts.clone()?,
        })
    }

    /// How many objects were dropped so far.
    pub fn drops(&self) -> u32 {
        self.counts.drops.get()
    }

    /// Whether `spares` objects were dropped once each, those that started were retired as often, and no more had been dropped
    /// before the last retirement than before the close.
    pub fn have_left(&self, spares: usize, dropped: u32) -> bool {
        self.drops() as usize == spares
            && self.counts.retirements.get() == self.counts.starts.get()
            && self.counts.drops_before_retirement.get() <= dropped
    }

    /// Counts a start.
    pub fn count_start(&self) {
        add_one(&self.counts.starts);
    }

    /// Counts a retirement.
    pub fn count_retirement(&self) {
        add_one(&self.counts.retirements);
        self.counts.drops_before_retirement.set(self.drops());
    }

    /// Counts a drop.
    pub fn count_drop(&self) {
        add_one(&self.counts.drops);
    }
}

fn add_one(count: &Cell<u32>) {
    count.set(count.get().saturating_add(1));
}
