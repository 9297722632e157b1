//! Event services (cFE user's guide, event services): the senders of events with their types and filters, the packets of the
//! events that are sent, and a buffer for their texts.
#![tactic(auto)]

mod error;
mod event_text;
mod filter;
mod name;
mod packet;
mod sender;
mod service;
mod types;

pub use error::EventError;
pub use event_text::{EventText, MAX_TEXT};
pub use packet::{EventPacket, PACKET_SIZE};
pub use service::Events;
pub use types::EventTypes;
