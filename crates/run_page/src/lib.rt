//! A run as one page (page/DATA.md): the account of the run, taken after each record in memory that doesn't grow, and the page's own
//! HTML, style and script, which tools/gate/page_constants makes from page/.
#![tactic(auto)]

mod behind;
mod clock;
mod entry;
mod error;
mod intake;
mod lanes;
mod lists;
mod observer;
mod page_front;
mod page_script_0;
mod page_script_1;
mod page_script_2;
mod page_script_3;
mod part;
mod progress;
mod report;
mod running;
mod sampling;
mod shown_part;
mod telling;

pub use error::ReportError;
pub use intake::Taken;
pub use page_json::{Run, Source};
pub use part::{Part, WHOLE};
pub use progress::{Progress, Silent};
pub use report::{MadePage, write_page};
pub use running::{PageRun, watch_run};
pub use shown_part::{PartStart, ShownPart};
pub use telling::Telling;
