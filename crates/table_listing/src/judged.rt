//! As which table an image is judged, and the lines of faults.

ghost use Rattle.std.specs.Prelude.{◌≡◌};
ghost use Rattle.table_listing.specs.Judged.{kind_judged};

use lc_model::Kind;
use std::fmt::{self, Display, Formatter, Write};
use table_file::{FileError, Layout, preamble};
use table_validator::{TableFault, WHOLE_IMAGE};

/// The length of an image's preamble in bytes.
pub const PREAMBLE: usize = 40;

/// Returns the table as which an image is judged. The kind in its preamble decides if it is 1 or 2; else an image
/// with the length of an actionpoint image is judged as one, and any other as a watchpoint image.
pub fn kind_of_image(image: &[u8]) -> Kind
    ensures { result ≡ kind_judged image.now }
{
    if image.len() >= PREAMBLE {
        match preamble::kind_code(image) {
            1 => return Kind::Wdt,
            2 => return Kind::Adt,
            _ => {}
        }
    }
    match Layout::of_image(Kind::Adt, image) {
        Some(_) => Kind::Adt,
        None => Kind::Wdt,
    }
}

/// The line of a file that can't be opened; it displays as `refused 52: no cFE file`.
#[derive(Clone, Copy)]
pub struct RefusalLine(pub FileError);

impl Display for RefusalLine {
    fn fmt<W: Write>(&self, f: &mut Formatter<W>) -> fmt::Result {
        let error = self.0;
        match error.code() {
            Some(code) => write!(f, "refused {code}: {error}"),
            None => write!(f, "refused: {error}"),
        }
    }
}

/// The line of an image's fault, with its entry counted from 0 if it has one; it displays as
/// `fault 66 entry 3: no such type`, or `fault 62 image: another table's kind`.
#[derive(Clone, Copy)]
pub struct FaultLine(pub TableFault);

impl Display for FaultLine {
    fn fmt<W: Write>(&self, f: &mut Formatter<W>) -> fmt::Result {
        let TableFault { code, entry } = self.0;
        let number = code.number();
        if entry == WHOLE_IMAGE {
            write!(f, "fault {number} image: {code}")
        } else {
            write!(f, "fault {number} entry {entry}: {code}")
        }
    }
}
