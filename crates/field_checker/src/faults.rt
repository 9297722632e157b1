//! The first of the faults that the checks found so far.

ghost use Rattle.std.specs.Prelude.{◌≡◌, ◌||◌, List, None, Some, [], ◌∷◌, int_lt, pos, true};
ghost use Rattle.lc_model.specs.Text.Syntax.{Item};
ghost use Rattle.lc_model.specs.Text.Meaning.{fault_if, fault_outside, number_range};
ghost use Rattle.rule_parser.specs.Syntax.{number_of};
ghost use Rattle.field_checker.specs.Fault.{error_of, fault_of, number_of_check};
ghost use Rattle.field_checker.specs.Faults.{NamesItsFault, after, first_of};
ghost use Rattle.field_checker.specs.Number.{NamesItsNumber, StandsOutside, is_out_of_range, least_of, most_of};

use crate::fault::{Check, CheckFault};
use crate::number::RuleNumber;
use rule_parser::Number;

/// Whether the number isn't `low`, `high` or between them.
fn is_outside(number: Number, low: u32, high: u32) -> bool
    ensures { result ≡ (int_lt number.value (pos low) || int_lt (pos high) number.value) }
{
    number.value < i64::from(low) || i64::from(high) < number.value
}

/// What the checks found: only the first of all faults.
#[derive(Clone, Copy)]
pub(crate) struct Faults {
    pub first: Option<CheckFault>,
}

impl Faults {
    /// Creates the state before the first check.
    pub fn none() -> Faults
        ensures { result.first ≡ None }
    {
        Faults { first: None }
    }

    /// Adds a fault.
    #[tactic(auto, unfolding(crate::specs::Faults::after))]
    fn meet(&mut self, fault: CheckFault)
        ensures faults { first_of self.new ≡ after (first_of self.old) (fault_of fault ∷ []) }
        ensures names { (items : List Item) → NamesItsFault items self.old.first →
            NamesItsFault items (Some fault) → NamesItsFault items self.new.first }
    {
        if self.first.is_none_or(|first| fault.precedes(first)) {
            self.first = Some(fault);
        }
    }

    /// Adds this fault if the test holds.
    #[tactic(auto, unfolding(crate::specs::Faults::after))]
    pub fn refuse_if(&mut self, refused: bool, check: Check, at: usize)
        ensures faults { first_of self.new ≡
            after (first_of self.old) (fault_if refused (number_of_check check) at) }
        ensures names { (items : List Item) → NamesItsFault items self.old.first
            → (refused ≡ true →
            NamesItsNumber items (error_of (record { check = check; at = at }))) →
            NamesItsFault items self.new.first }
    {
        if refused {
            self.meet(CheckFault { check, at });
        }
    }

    /// Adds this fault if the number isn't `low`, `high` or between them.
    pub fn refuse_outside(&mut self, number: Number, low: u32, high: u32, check: Check)
        ensures faults { first_of self.new ≡
            after (first_of self.old)
            (fault_outside low high (number_of_check check) (number_of number)) }
        ensures names { (items : List Item) → NamesItsFault items self.old.first
            → ((int_lt number.value (pos low) || int_lt (pos high) number.value) ≡ true →
            NamesItsNumber items (error_of (record { check = check; at = number.at })))
            → NamesItsFault items self.new.first }
    {
        self.refuse_if(is_outside(number, low, high), check, number.at);
    }

    /// Adds a fault if this number is out of its range.
    pub fn refuse_number(&mut self, number: Number, kind: RuleNumber)
        ensures faults { first_of self.new ≡
            after (first_of self.old)
            (fault_outside (least_of kind) (most_of kind) number_range (number_of number)) }
        ensures names { (items : List Item) → NamesItsFault items self.old.first
            → (is_out_of_range kind (number_of number) ≡ true →
            StandsOutside items kind number.at) → NamesItsFault items self.new.first }
    {
        self.refuse_outside(number, kind.least(), kind.most(), Check::NumberRange);
    }
}
