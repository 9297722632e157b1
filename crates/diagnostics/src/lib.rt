//! Messages to people about a text: where a byte of it stands, how its line is shown, how words and numbers are written into a
//! sentence, the nearest known word, and messages with marks, as they are printed and as JSON (RFC 8259, an object a line).
#![tactic(auto)]

mod character;
mod columns;
mod cutting;
mod excerpt;
mod grouped;
mod likeness;
mod line;
mod message;
mod object;
mod object_line;
mod page;
mod parts;
mod place;
mod quoting;
mod spot;

pub use character::front_character;
pub use grouped::{Grouped, Many, Signed};
pub use likeness::nearest;
pub use line::{line_of, line_start, written_line};
pub use message::{Edit, Mark, Message};
pub use object_line::{message_line, note_line};
pub use page::{MOST_TOLD, page_of, warnings_page_of};
pub use parts::{behind, front};
pub use quoting::{around, choice_of, printable, push_quoted, quote};
