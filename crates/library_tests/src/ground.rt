//! Tests of the crates on the ground, by public calls alone. They test what no contract says: bytes and tokens from
//! outside, that calls which allocate succeed, what `Memory` is returned for, and the text of errors.

#[cfg(test)]
mod files;
#[cfg(test)]
mod ground_team;
pub mod judging;
#[cfg(test)]
mod memory;
#[cfg(test)]
mod messages;
#[cfg(test)]
mod tokens;
