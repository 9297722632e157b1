//! Decides whether values of its fields make a condition true.

ghost use Rattle.std.specs.Prelude.{◌≡◌, IfOk, IsTrue, None, Some, false, length, true};
ghost use Rattle.std.specs.List.{AllByRecursion};
ghost use Rattle.lc_model.specs.Condition.{condition_of};
ghost use Rattle.lc_model.specs.Tables.Equation.{mentions};
ghost use Rattle.rule_analysis.specs.Fields.{HasField, field_number};
ghost use Rattle.rule_analysis.specs.Search.{AreRepresented};
ghost use Rattle.rule_analysis.specs.Findings.{IsDecided, IsSought};
ghost use Rattle.rule_analysis.specs.declared.deciding.Decision.TheVariants.{Never};
ghost use Rattle.rule_analysis.specs.Judgement.{HoldsForSome, NeverFails};
ghost use Rattle.rule_analysis.specs.Steps.{AreFewByNames, AreNotMany};

use crate::classes::rows_of;
use crate::fields::{Field, collect, fields_of};
use crate::open::open_of;
use crate::walk::{Outcome, walk};
use lc_model::{Cond, Term};
use std::alloc::{AllocError, Global};

/// Whether values of its fields make a condition true.
#[derive(Drop)]
pub enum Decision {
    /// No values make it true.
    Never,
    /// It is true if the first of these fields have these bits, whatever the other fields have.
    Holds {
        /// The fields that it reads, each once.
        fields: Vec<Field>,
        /// Bits of the first of them, at most one for each.
        bits: Vec<u32>,
    },
    /// Unknown: more steps are needed.
    Spent,
}

/// Whether no values make the condition true.
pub(crate) fn is_never(decision: &Decision) -> bool
    ensures { IsTrue result → decision.now ≡ Never }
{
    match decision {
        Decision::Never => true,
        Decision::Holds { .. } | Decision::Spent => false,
    }
}

/// Looks for bits of the fields that make the condition true in at most `steps` steps; subtracts the steps that it takes. `terms` are
/// the condition's comparisons, and `rows` the candidates for their fields.
fn find(
    alloc: Global,
    cond: &Cond,
    terms: &[Term],
    fields: &[Field],
    rows: &[Vec<u32>],
    steps: &mut u32,
) -> Result<(Outcome, Vec<u32>), AllocError>
    requires terms { terms.now ≡ mentions (condition_of cond.now) }
    requires all { AllByRecursion (λ t. HasField fields.now t) terms.now }
    requires represented { AreRepresented (field_number fields.now) terms.now rows.now }
    requires few { AreNotMany (field_number fields.now) terms.now rows.now }
    requires each { length rows.now ≡ length fields.now }
    ensures { IfOk result (λ both.
        IsSought (condition_of cond.now) fields.now steps.old both.0 both.1.items) }
{
    let left = open_of(alloc, cond, fields)?;
    let mut bits = Vec::new(alloc);
    let mut dead = Vec::new(alloc);
    let outcome = walk(
        alloc, fields, terms, rows, &left, &mut bits, &mut dead, steps,
    )?;
    Ok((outcome, bits))
}

/// Looks for bits of its fields that make the condition true, in at most `steps` steps; subtracts the steps that it takes. Each field
/// is free, also one that shares bits with another. The only error is a lack of memory.
pub fn decide(alloc: Global, cond: &Cond, steps: &mut u32) -> Result<Decision, AllocError>
    ensures { IfOk result (λ decision. IsDecided (condition_of cond.now) steps.old decision) }
{
    let mut terms = Vec::new(alloc);
    collect(cond, &mut terms)?;
    let fields = fields_of(alloc, &terms)?;
    let rows = rows_of(alloc, &terms, &fields)?;
    match find(alloc, cond, &terms, &fields, &rows, steps)? {
        (Outcome::Found, bits) => Ok(Decision::Holds { fields, bits }),
        (Outcome::Excluded, _) => Ok(Decision::Never),
        (Outcome::Spent, _) => Ok(Decision::Spent),
    }
}

/// Whether some values of its fields make the condition true if each field is free; `None` if it isn't known.
pub(crate) fn holds_for_some(
    alloc: Global,
    cond: &Cond,
    steps: &mut u32,
) -> Result<Option<bool>, AllocError>
    ensures some { IfOk result (λ some. some ≡ Some true → HoldsForSome (condition_of cond.now)) }
    ensures never { IfOk result (λ some. some ≡ Some false → NeverFails (condition_of cond.now)) }
    ensures none { IfOk result (λ some. some ≡ None →
        AreFewByNames (condition_of cond.now) steps.old) }
{
    match decide(alloc, cond, steps)? {
        Decision::Holds { .. } => Ok(Some(true)),
        Decision::Never => Ok(Some(false)),
        Decision::Spent => Ok(None),
    }
}
