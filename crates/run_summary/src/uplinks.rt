//! The ground commands, files and halves of rule texts that a stream brings: the first and the last of them.

use crate::ends::Ends;
use crate::place::Place;
use lc_model::packet::LONGEST_PACKET;
use lc_model::stream::HEADER;
use std::alloc::{AllocError, Global};
use stream_script::write_listing_from;

/// The number of first, and of last, uplinks that are kept.
pub(crate) const UPLINKS: usize = 300;

/// The most bytes of a record that brings a command.
const LONGEST: usize = HEADER + LONGEST_PACKET;

/// A record that brings a ground command, a file or a half of a rule text.
#[derive(Drop)]
pub struct Uplink {
    /// Its place.
    pub place: Place,
    /// The number of the text in force when it came, if it is known.
    pub text: Option<usize>,
    /// All its bytes; empty if they are more than a command has (2,059).
    pub bytes: Vec<u8>,
    /// What a listing says of it, from its kind on.
    pub listed: Vec<u8>,
}

/// The number of bytes before the first space.
fn space_place(text: &[u8]) -> usize {
    text.iter().take_while(|byte| **byte != b' ').count()
}

/// What follows the first space.
fn behind_space(text: &[u8]) -> &[u8] {
    let behind = space_place(text).saturating_add(1).min(text.len());
    text.split_at(behind).1
}

/// The text without its last byte.
fn without_last(text: &[u8]) -> &[u8] {
    text.split_at(text.len().saturating_sub(1)).0
}

/// What a listing says of a record, from its kind on. The only error is a lack of memory.
fn listed(alloc: Global, bytes: &[u8]) -> Result<Vec<u8>, AllocError> {
    let line = write_listing_from(alloc, 0, bytes)?;
    let words = behind_space(behind_space(behind_space(line.as_slice())));
    Vec::from_slice(alloc, without_last(words))
}

/// The bytes of a record, if a command has at most that many; else none.
fn command_bytes(bytes: &[u8]) -> &[u8] {
    if bytes.len() <= LONGEST { bytes } else { &[] }
}

impl Uplink {
    /// The record with these bytes at a place, with this text in force. The only error is a lack of memory.
    fn new(
        alloc: Global,
        place: Place,
        text: Option<usize>,
        bytes: &[u8],
    ) -> Result<Uplink, AllocError> {
        let listed = listed(alloc, bytes)?;
        let bytes = Vec::from_slice(alloc, command_bytes(bytes))?;
        Ok(Uplink {
            place,
            text,
            bytes,
            listed,
        })
    }

    fn record(&self) -> u64 {
        self.place.record
    }
}

/// Adds the record with these bytes. The only error is a lack of memory.
pub(crate) fn keep_uplink(
    alloc: Global,
    uplinks: &mut Ends<Uplink>,
    place: Place,
    text: Option<usize>,
    bytes: &[u8],
) -> Result<(), AllocError> {
    let uplink = Uplink::new(alloc, place, text, bytes)?;
    let number = match uplinks.add(uplink)? {
        None => None,
        Some(gone) => Some(gone.record()),
    };
    uplinks.leave(number);
    Ok(())
}
