//! Opens a table file and judges its image.

ghost use Rattle.std.specs.Prelude.{◌≡◌};
ghost use Rattle.needlemauve_board.specs.Verdict.{kind_of, verdict, verdict_of_image, verdict_of_number};

use lc_model::Kind;
use table_file::open;
use table_validator::{WHOLE_IMAGE, validate};

/// The code for a table number that no table has.
const NO_TABLE: u32 = 251;

/// The verdict on a table file, as C sees it (`include/needlemauve.h`).
#[repr(C)]
#[derive(Clone, Copy, Debug, PartialEq, Eq)]
pub struct Verdict {
    /// 0 if the file is sound, else the number of its one fault: 51 to 56, 61 to 81, or 251 for a table number that no table
    /// has.
    pub code: u32,
    /// The image's entry that has the fault, counted from 0, or 65,535 if no entry has one.
    pub entry: u32,
}

impl Verdict {
    fn of_all(code: u32) -> Verdict
        ensures { result ≡ record { code = code; entry = 65_535 } }
    {
        Verdict {
            code,
            entry: WHOLE_IMAGE as u32,
        }
    }
}

/// Judges an image.
fn judge_image(kind: Kind, image: &[u8]) -> Verdict
    ensures { result ≡ verdict_of_image kind image.now }
{
    match validate(kind, image) {
        Ok(_) => Verdict::of_all(0),
        Err(fault) => Verdict {
            code: fault.code.number() as u32,
            entry: fault.entry as u32,
        },
    }
}

/// Judges a file.
fn judge(kind: Kind, file: &[u8]) -> Verdict
    ensures { result ≡ verdict kind file.now }
{
    match open(file) {
        Ok(opened) => judge_image(kind, opened.image()),
        Err(error) => Verdict::of_all(error.code().unwrap_or(0) as u32),
    }
}

/// The kind of the table with this number: 1 is watchpoints, 2 actionpoints.
fn kind_numbered(number: u32) -> Option<Kind>
    ensures { result ≡ kind_of number }
{
    match number {
        1 => Some(Kind::Wdt),
        2 => Some(Kind::Adt),
        _ => None,
    }
}

/// Judges a table file as the host does on board, writes the verdict to `told` and returns its code. 0: sound; 51 to 56: its
/// headers; 61 to 81: its image; 251: `kind` is neither 1 (watchpoints) nor 2 (actionpoints). It allocates no memory.
#[unsafe(no_mangle)]
pub extern "C" fn needlemauve_validate(kind: u32, file: &[u8], told: &mut Verdict) -> u32
    ensures told { told.new ≡ verdict_of_number kind file.now }
    ensures answered { result ≡ told.new.code }
{
    *told = match kind_numbered(kind) {
        Some(kind) => judge(kind, file),
        None => Verdict::of_all(NO_TABLE),
    };
    told.code
}
