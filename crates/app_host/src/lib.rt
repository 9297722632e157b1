//! The executive (cFE user's guide, executive services): the host's applications, boxed behind one interface, the services that
//! they share, and the step that handles one record of a stream.
#![tactic(auto)]

mod app;
mod boxed;
mod capacities;
mod counts;
mod deliveries;
mod departure;
mod error;
mod event_commands;
mod filing;
mod host;
pub mod laws;
mod numbers;
mod objects;
mod orders;
mod outgoing;
mod own_events;
mod places;
mod publication;
pub mod publishing;
mod resubscribing;
mod seat;
pub mod sending;
mod services;
mod step;
mod succession;
mod table_commands;
mod texts;

pub use app::App;
pub use capacities::HostCapacities;
pub use counts::Counts;
pub use error::{HostError, WriteFault};
pub use host::Host;
pub use outgoing::Outgoing;
pub use resubscribing::{subscribe_to, unsubscribe_from};
pub use seat::subscribe;
pub use services::Services;
