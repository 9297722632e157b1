//! Packets built from their parts: headers, checksum and payload (CCSDS 133.0-B; cFE user's guide, message headers).
#![tactic(auto)]

mod outgoing;

pub use outgoing::{build_command, build_telemetry};
