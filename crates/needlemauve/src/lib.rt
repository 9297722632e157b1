//! The library for C: rule texts are compiled into table files, a host runs from memory to memory, and one is fed record by
//! record. Each call takes its memory by an allocator of the caller's program, and gives it back before it returns; only a
//! host that is fed keeps memory, until it is closed.
#![tactic(auto)]

mod asking;
mod compiling;
mod feeding;
mod running;

pub use asking::{needlemauve_host_figures, needlemauve_host_rule, needlemauve_version};
pub use compiling::needlemauve_compile;
pub use feeding::{needlemauve_host_close, needlemauve_host_feed, needlemauve_host_new};
pub use running::needlemauve_run;
