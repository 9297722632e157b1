//! A list of which only the first and the last items are kept.

use std::alloc::{AllocError, Global};
use std::collections::VecDeque;

/// The items that are left out between the first and the last.
#[derive(Clone, Copy)]
pub struct Left {
    /// The number of items, up to 2^64 - 1.
    pub count: u64,
    /// The record of the first of them.
    pub from: u64,
    /// The record of the last of them.
    pub to: u64,
}

/// The first and the last items of a list, and what is left out between them.
#[derive(Drop)]
pub struct Ends<T: Drop> {
    front: usize,
    back: usize,
    first: Vec<T>,
    last: VecDeque<T>,
    left: Option<Left>,
}

/// What is left out, with one item more of this record.
fn left_with(left: Option<Left>, number: u64) -> Left {
    match left {
        Some(left) => Left {
            count: left.count.saturating_add(1),
            from: left.from,
            to: number,
        },
        None => Left {
            count: 1,
            from: number,
            to: number,
        },
    }
}

impl<T: Drop> Ends<T> {
    /// The ends of an empty list, which keeps at most `front` first and `back` last items.
    pub(crate) fn new(alloc: Global, front: usize, back: usize) -> Ends<T> {
        Ends {
            front,
            back,
            first: Vec::new(alloc),
            last: VecDeque::new(alloc),
            left: None,
        }
    }

    /// The first items, in order.
    pub fn first(&self) -> &[T] {
        self.first.as_slice()
    }

    /// The last items, in order: those of the first slice, then those of the second.
    pub fn last(&self) -> (&[T], &[T]) {
        self.last.as_slices()
    }

    /// What is left out between the first and the last; `None` if nothing is.
    pub fn omission(&self) -> Option<Left> {
        self.left
    }

    /// Adds an item, and returns the one that leaves the list for it. The only error is a lack of memory.
    pub(crate) fn add(&mut self, item: T) -> Result<Option<T>, AllocError> {
        if self.first.len() < self.front {
            self.first.push(item)?;
            return Ok(None);
        }
        if self.last.len() < self.back {
            self.last.push_back(item)?;
            return Ok(None);
        }
        let gone = self.last.pop_front();
        self.last.push_back(item)?;
        Ok(gone)
    }

    /// Counts an item of this record as left out, if there is one.
    pub(crate) fn leave(&mut self, number: Option<u64>) {
        if let Some(number) = number {
            self.left = Some(left_with(self.left, number));
        }
    }
}
