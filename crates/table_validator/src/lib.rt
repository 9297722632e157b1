//! The validator of table images. It returns a sound image, or the fault by which the image is refused. `table_file`
//! reads what is returned, and its equations can be evaluated without further tests.
#![tactic(auto)]

mod actionpoint;
mod entry;
mod equation_words;
mod fault;
mod image;
mod operands;
mod preamble;
mod watchpoint;

pub use fault::{FaultCode, TableFault, WHOLE_IMAGE};
pub use image::{ValidImage, judged_before, validate};
