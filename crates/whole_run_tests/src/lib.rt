//! The tests of `run` that rows of data can't express: a call whose premises are met by proof, devices and memory that fail,
//! what retires at the end, and how many calls a record takes. Whole runs are the rows of the program `run_rows`.
#![tactic(auto)]

#[cfg(test)]
mod by_hand;
#[cfg(test)]
mod closing;
#[cfg(test)]
mod devices;
#[cfg(test)]
mod flying;
#[cfg(test)]
mod leaving;
#[cfg(test)]
mod looking;
pub mod low_volts;
#[cfg(test)]
mod memory;
#[cfg(test)]
mod speed;
#[cfg(test)]
mod steps;
#[cfg(test)]
mod two_failures;
pub mod two_texts;
pub mod with_stock;
