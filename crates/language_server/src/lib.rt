//! A language server for rule texts, schedules and scenarios (Language Server Protocol 3.17): it reads messages from a client, and writes
//! responses and diagnostics. One message is handled after the other.
#![tactic(auto)]

mod actions;
mod capabilities;
mod diagnostics_of;
mod document;
mod failure;
mod formatting;
mod framing;
mod incoming;
mod json_text;
mod judging;
mod methods;
mod names;
mod naming;
mod outlines;
mod places;
mod receiving;
mod replies;
mod session;
mod shapes;
mod syncing;
mod tokens;

pub use receiving::Received;
pub use session::Session;
