//! The version that `flight_tools --version` and the data of a run's page print.

/// The version of the whole repository: the promise, the rule language, formats and programs (CHANGELOG.md).
pub const VERSION: &str = "0.10.0";
