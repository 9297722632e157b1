//! The checker of rule texts: items become the rules that they mean, with each name replaced by what it names, or the
//! first fault that stops it. Names are looked up in ordered maps, so a check takes time near-linear in the text.
#![tactic(auto)]

mod checker;
mod error;
mod fault;
mod faults;
mod field;
mod index;
mod item;
mod key;
mod meaning;
mod names;
mod number;
mod number_place;
mod packet;
mod rule;

pub use checker::check;
pub use error::CheckError;
pub use number::RuleNumber;
pub use number_place::number_at;
