//! The checks, their faults, and the order of faults.

ghost use Rattle.std.specs.Prelude.{◌≡◌};
ghost use Rattle.lc_model.specs.Text.Meaning.{precedes};
ghost use Rattle.field_checker.specs.Fault.{fault_of, number_of_check};

/// The checks of items.
#[derive(Clone, Copy)]
pub(crate) enum Check {
    DuplicateName,
    UnknownName,
    MidRange,
    ReservedMid,
    FieldOutside,
    MaskRange,
    ConstRange,
    NumberRange,
    LengthRange,
}

impl Check {
    /// The refusal's number, 21 to 29, by which the checks at one place are ordered.
    fn number(self) -> u8
        ensures { result ≡ number_of_check self }
    {
        match self {
            Check::DuplicateName => 21,
            Check::UnknownName => 22,
            Check::MidRange => 23,
            Check::ReservedMid => 24,
            Check::FieldOutside => 25,
            Check::MaskRange => 26,
            Check::ConstRange => 27,
            Check::NumberRange => 28,
            Check::LengthRange => 29,
        }
    }
}

/// A fault: the check that it fails, and the number of bytes of the text before it.
#[derive(Clone, Copy)]
pub(crate) struct CheckFault {
    pub check: Check,
    pub at: usize,
}

impl CheckFault {
    /// Whether this fault is the one of the two to return: it stands at the lesser place, or has at most the other's
    /// number at the same place.
    pub fn precedes(self, other: CheckFault) -> bool
        ensures { result ≡ precedes (fault_of self) (fault_of other) }
    {
        self.at < other.at || self.at == other.at && self.check.number() <= other.check.number()
    }
}
