//! Lists the packets that a host writes, one line each, and reads them.
#![tactic(auto)]

mod command_word;
mod display;
mod event;
mod housekeeping;
mod listing;
mod named_line;
mod named_packet;
mod naming;
mod rule_output;
mod sent;
mod text_front;

pub use display::{TextField, Time};
pub use listing::list_named;
pub use named_line::{NamedLine, PacketLine};
pub use named_packet::NamedPacket;
pub use naming::{TextRules, rules_of, rules_of_texts};
pub use rule_output::RuleOutput;
pub use sent::{Event, Sent, read_packet};
