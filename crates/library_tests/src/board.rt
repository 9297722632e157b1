//! The tests of the crates that fly, and of the sources and sinks of `lc_model` below them, by public calls alone.
//!
//! What a contract says exactly isn't tested again. The tests cover what comes from outside (files, packets and records byte
//! by byte, from the formats and the guides), and what no contract says: that a call that allocates succeeds, what `Memory` is
//! returned for, what errors read like, and what calls cost.

#[cfg(test)]
mod command_lines;
#[cfg(test)]
mod devices;
#[cfg(test)]
mod engine;
#[cfg(test)]
mod files;
#[cfg(test)]
mod images;
#[cfg(test)]
mod memory;
#[cfg(test)]
mod messages;
#[cfg(test)]
mod packets;
#[cfg(test)]
mod records;
#[cfg(test)]
mod speed;
#[cfg(test)]
mod values;
