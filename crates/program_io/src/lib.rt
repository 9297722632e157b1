//! Files and command lines, for both programs: reads files up to a bound or in pieces, compares, creates and writes them under temporary
//! names. No contract covers the contents of files; the rows in `rows/` test it. Contracts see the calls over a `Disk` in order.
#![tactic(auto)]

mod arguments;
mod disk;
mod draft;
mod error;
mod feed;
mod identity;
mod lasting;
mod leftover;
mod named;
mod noting;
mod replaced;
mod replacing;
mod shell;
mod standard;
mod whole_files;
mod why;
mod writing;

pub use arguments::{ArgumentsError, arguments_error, arguments_of, lend_words};
pub use disk::Disk;
pub use draft::{Draft, begin, discard, keep};
pub use error::{FileError, error_at};
pub use feed::{Feed, feed_of, feed_over};
pub use identity::{is_one_file, is_standard_output};
pub use lasting::Lasting;
pub use named::{check_apart, read_text, read_texts, read_whole_text, write_file};
pub use noting::Noting;
pub use replaced::{check_archive_place, check_page_place, check_stream_place};
pub use replacing::Replacing;
pub use shell::Shell;
pub use standard::{STANDARD, STANDARD_INPUT, STANDARD_OUTPUT};
pub use whole_files::{read_all, read_front};
pub use why::{FileFault, Why, fault_of, reason_for};
pub use writing::write_all_to;
