//! The watchpoints of some rules: each once, in the order of first mention, with the numbers that each rule mentions.
#![tactic(auto)]

mod error;
mod shared;
mod sharing;

pub use error::ShareError;
pub use shared::Shared;
pub use sharing::share;
