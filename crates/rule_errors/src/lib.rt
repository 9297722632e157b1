//! The messages for a rule text that doesn't compile: the compiler's refusal, with the place, what was found and what was expected, and
//! further faults that don't follow from it.
#![tactic(auto)]

mod advice;
mod bytes;
mod checks;
mod explaining;
mod faults;
mod fields;
mod grammar;
mod grammar_errors;
mod item_faults;
mod marks;
mod mistakes;
mod naming;
mod nearest;
mod numbers;
mod packets;
mod rules;
mod source;
mod strays;
mod tables;
mod token_faults;
mod tokens;
mod wanted;

pub use faults::messages;
pub use source::{Declaration, NameKind, Source, TokenRange};
pub use tokens::{Mended, mend};
