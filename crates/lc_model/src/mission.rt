//! The mission that events and table files name (this project's own).

/// The spacecraft's number.
pub const SPACECRAFT: u32 = 66;

/// The processor's number.
pub const PROCESSOR: u32 = 1;
