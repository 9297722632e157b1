//! The progress of a report.

/// Receives the progress of a report.
pub trait Progress {
    /// Called after each record with the number of stream bytes handled so far.
    fn update(&mut self, bytes: u64);
}

/// A receiver that ignores the progress.
#[derive(Clone, Copy)]
pub struct Silent;

impl Progress for Silent {
    fn update(&mut self, _bytes: u64) {}
}
