//! The faults that end a command, each with its exit status and its text; and access to the files, rule texts and standard
//! output that cause them.
#![tactic(auto)]

mod epoch;
mod fault;
mod files;
mod given;
mod output;
mod rule_texts;
mod telling;

pub use crate::epoch::epoch_of;
pub use crate::fault::Fault;
pub use crate::files::{
    LONGEST_TABLE, LONGEST_WHOLE, check_apart, fault_at, read, read_text, read_whole_text,
};
pub use crate::given::{schedule_in, schedule_of, texts_in};
pub use crate::output::{input_fault, listing_result, output_fault, written_fault};
pub use crate::rule_texts::{rule_text_of, rule_texts_of};
pub use crate::telling::{
    MOST_WARNINGS, alone, judgement_fault, line_fault, line_mark, refusal_fault, write_messages,
    write_warnings,
};
