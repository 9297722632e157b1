//! What the library for C calls, below its archives: rule texts are compiled into a caller's room, a host runs from memory to
//! memory, and one is fed record by record. Each call takes its memory by an allocator of the caller's program, and gives it
//! back before it returns; only a host that is fed keeps memory, until it is closed.
#![tactic(auto)]

mod asking;
mod compiling;
mod ending;
mod error_sentences;
mod expected_words;
mod feeding;
mod handle;
mod lasting;
mod loose;
mod refusal;
mod room;
mod running;
mod sentence;
mod stream;
mod texts;
mod wording;

pub use asking::{Figures, RuleReading, tell_figures, tell_rule};
pub use compiling::{ADT, Compiled, WDT, compile_files};
pub use feeding::{Handled, Made, close_host, feed_host, make_host};
pub use handle::Handle;
pub use refusal::Refusal;
pub use running::{Run, run_texts};
pub use sentence::Sentence;
