//! The account of a run: what it brought and sent, record by record, in memory that doesn't grow with the run. The caller gives the
//! rules' results and states after each record as plain numbers.
#![tactic(auto)]

mod about;
mod account;
mod asking;
mod bands;
mod brought;
mod ends;
mod figures;
mod holds;
mod packets;
mod place;
mod plans;
mod recent;
mod samples;
mod seen;
mod sent;
mod texts;
mod uplinks;
mod values;

pub use account::Account;
pub use bands::{Bands, How, ModeFrom, TablesFrom};
pub use ends::{Ends, Left};
pub use figures::Figures;
pub use holds::{Hold, TypesOn};
pub use place::{ABSENT, Place, Stand, result_bit, stand_in, state_bit};
pub use plans::Part;
pub use recent::{FieldValues, ValueFrom};
pub use samples::{Sample, verdict};
pub use seen::{FieldRange, Met, Seen};
pub use sent::{Request, SeenEvent, Sending};
pub use texts::{Field, condition_tokens, rule_at, rule_count, token_bytes};
pub use uplinks::Uplink;
