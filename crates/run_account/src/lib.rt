//! What a run looked at: the packets that came, the rules that were sampled and with which results, and the time without samples. All
//! programs that judge a run give this account, so that nothing is green over what nobody looked at.
#![tactic(auto)]

mod account;
mod clock;
mod counts;
mod force;
mod lanes;
mod listing;
mod packets;
mod repeats;
mod requests;
mod results;
mod texts;
mod warning;

pub use account::RunAccount;
pub use clock::RunClock;
pub use counts::{RuleCounts, RuleRow};
pub use force::may_change;
pub use lanes::Lane;
pub use listing::{AccountJson, WarningLine};
pub use packets::PacketCount;
pub use requests::{Requests, is_sampled, requests_in, result_of};
pub use warning::AccountWarning;
