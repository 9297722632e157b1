//! The lines about the actionpoints of a table.

ghost use Rattle.std.specs.Prelude.{◌≡◌, ◌≤◌, IfOk, length};
ghost use Rattle.lc_model.specs.declared.kind.Kind.TheVariants.{Adt, Wdt};
ghost use Rattle.lc_model.specs.Codes.{table_entries};
ghost use Rattle.lc_model.specs.Tables.Image.{watchpoint_count};

use crate::error::ListingError;
use crate::lines::{NameSource, Title};
use crate::listing::{LineChoice, write_subject};
use crate::tables::{condition_at, terms_of};
use lc_model::{Kind, Term};
use rule_analysis::judge_condition;
use std::alloc::Global;
use std::io::Write;
use table_file::{open, preamble};
use table_validator::{ValidImage, validate};

/// Whether the images are of the same rule text.
fn are_of_one_text(watchpoints: &ValidImage<'_>, actionpoints: &ValidImage<'_>) -> bool {
    preamble::hash(watchpoints.image()) == preamble::hash(actionpoints.image())
}

/// Writes the lines about each actionpoint over these watchpoints.
fn write_actionpoints<W: Write>(
    alloc: Global,
    terms: &[Term],
    actionpoints: &ValidImage<'_>,
    which: LineChoice,
    out: &mut W,
) -> Result<(), ListingError>
    requires kind { actionpoints.now.kind ≡ Adt }
    requires watchpoints { watchpoint_count actionpoints.now.bytes ≡ length terms.now }
    requires few { length terms.now ≤ table_entries }
{
    let count = usize::from(preamble::own_count(actionpoints.image()));
    for number in 0..count {
        let condition = condition_at(alloc, terms, actionpoints, number)?;
        let judged = judge_condition(alloc, &condition)?;
        let name = Title::Actionpoint(number);
        write_subject(alloc, NameSource::Table(terms), name, &judged, which, out)?;
    }
    Ok(())
}

/// Writes the analysis of the actionpoints in a pair of table files: whether each can fail and pass, with values of its fields, and
/// which comparisons are true or false for all values. A field is named by the first watchpoint that reads it, as `w0`.
///
/// Errors: `File` or `Table` for the first fault of a file; `Apart` if they are of different rule texts; `Memory`; `Write` if the
/// writer refuses bytes.
pub fn list_actionpoints<W: Write>(
    alloc: Global,
    watchpoints: &[u8],
    actionpoints: &[u8],
    which: LineChoice,
    out: &mut W,
) -> Result<(), ListingError> {
    let (watchpoints, actionpoints) = (open(watchpoints)?, open(actionpoints)?);
    let watchpoints = validate(Kind::Wdt, watchpoints.image())?;
    let actionpoints = validate(Kind::Adt, actionpoints.image())?;
    let terms = terms_of(alloc, &watchpoints)?;
    let count = usize::from(preamble::watchpoint_count(actionpoints.image()));
    if count != terms.len() || !are_of_one_text(&watchpoints, &actionpoints) {
        return Err(ListingError::Apart);
    }
    write_actionpoints(alloc, &terms, &actionpoints, which, out)
}
