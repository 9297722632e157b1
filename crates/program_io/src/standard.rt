//! The names of the process's own streams: as messages have them, and as words of a command line.

/// Standard input.
pub const STANDARD_INPUT: &str = "standard input";

/// Standard output.
pub const STANDARD_OUTPUT: &str = "standard output";

/// The word for standard input among files that are read, and for standard output where a command writes to it.
pub const STANDARD: &str = "-";
