//! What comes of the bytes that a client has sent.

use crate::failure::ErrorKind;
use crate::framing::{Frame, first_frame};
use crate::replies::Outbox;
use crate::session::Session;
use serde_json::Value;
use std::alloc::AllocError;

/// What was done with the front of a client's bytes.
#[derive(Drop)]
pub struct Received {
    /// How many bytes are done with; 0 if more have to be read.
    pub size: usize,
    /// The messages that are to be sent, each with its header.
    pub replies: Vec<u8>,
}

impl Session {
    /// Handles what stands in front of a client's bytes: a message, or bytes that are none.
    pub fn receive(&mut self, held: &[u8]) -> Result<Received, AllocError> {
        let mut outbox = Outbox::new(self.alloc());
        let size = match first_frame(held) {
            Frame::Part => 0,
            Frame::Junk(size) => size,
            Frame::TooLong(size) => {
                let sentence = "a message has over 67,108,864 bytes";
                outbox.refuse(&Value::Null, ErrorKind::NoJson, sentence)?;
                size
            }
            Frame::Whole { from, to } => {
                let to = to.min(held.len());
                self.handle(&held[from.min(to)..to], &mut outbox)?;
                to
            }
        };
        Ok(Received {
            size,
            replies: outbox.into_bytes(),
        })
    }
}
