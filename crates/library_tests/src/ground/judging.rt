//! How a ground team judges a file before its uplink: without memory, and in the same way as on board.

ghost use Rattle.std.specs.Prelude.{◌≡◌, Ok, IfOk, IsOk};
ghost use Rattle.lc_model.specs.Tables.File as model;
ghost use Rattle.lc_model.specs.Tables.File.{opened};
ghost use Rattle.lc_model.specs.Tables.Image.{IsSound};
ghost use Rattle.lc_model.specs.Tables.InForce.{layouts};

use lc_model::Kind;
use table_file::FileError;
use table_validator::TableFault;

/// Why a file may not go up.
#[derive(Clone, Copy, Debug, PartialEq, Eq)]
pub enum Unfit {
    /// The file doesn't open.
    File(FileError),
    /// The image has this fault.
    Table(TableFault),
}

/// Judges whether a file may go up as the table of this kind. The error is the fault of the file or of its image.
pub fn judge(kind: Kind, file: &[u8]) -> Result<(), Unfit>
    ensures sound { IfOk result (λ _. (table : model.TableFile) × (opened file.now ≡ Ok table) ×
        IsSound layouts kind table.image) }
    ensures accepts { (table : model.TableFile) → opened file.now ≡ Ok table →
        IsSound layouts kind table.image → IsOk result }
{
    let file = table_file::open(file).map_err(Unfit::File)?;
    table_validator::validate(kind, file.image()).map_err(Unfit::Table)?;
    Ok(())
}
