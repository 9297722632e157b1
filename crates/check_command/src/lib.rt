//! The commands `check`, which reports the faults and warnings of rule texts before any packet comes and explains them, and `changes`.
#![tactic(auto)]

mod change_words;
mod changing;
mod checking;
mod explaining;
mod explanations;
mod explanations_0;
mod explanations_1;
mod explanations_2;
mod outcomes;
mod refused;
mod situation_words;
mod totals;

pub use crate::changing::compare_texts;
pub use crate::checking::check;
pub use crate::explaining::explain;
pub use crate::refused::told;
pub use crate::totals::CheckOptions;
