//! The outcome of a comparison for a field's bits.

ghost use Rattle.std.specs.Prelude.{◌≡◌, Some};
ghost use Rattle.rule_analysis.specs.Classes.{truth_there};
ghost use Rattle.rule_analysis.specs.Steps.{holds_of, says_alike};

use lc_model::{Term, Truth};

/// The outcome of the term's comparison for these bits.
pub(crate) fn outcome(term: &Term, bits: u32) -> Truth
    ensures { result ≡ truth_there term.now (Some bits) }
{
    let value = term.kind.signed_value(bits & term.mask);
    if term.op.holds(value, term.value) {
        Truth::True
    } else {
        Truth::False
    }
}

/// Whether the term's comparison is true for these bits.
pub(crate) fn holds(term: &Term, bits: u32) -> bool
    ensures { result ≡ holds_of term.now bits }
{
    let value = term.kind.signed_value(bits & term.mask);
    term.op.holds(value, term.value)
}

/// Whether each of these comparisons has the same outcome for both.
pub(crate) fn says_the_same(terms: &[Term], one: u32, other: u32) -> bool
    ensures { result ≡ says_alike terms.now one other }
{
    if one == other {
        return true;
    }
    for term in terms {
        if holds(term, one) != holds(term, other) {
            return false;
        }
    }
    true
}
