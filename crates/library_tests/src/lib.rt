//! The tests of the libraries by public calls alone: those that compile on the ground, those that fly, and the public interface as it was
//! asked for.
#![tactic(auto)]

#[cfg(test)]
mod board;
pub mod ground;
#[cfg(test)]
mod shared;
#[cfg(test)]
mod surface;
