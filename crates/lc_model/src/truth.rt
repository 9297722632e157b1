//! The four truth values (cFS Limit Checker user's guide, watchpoint results; the tables are this project's own).

ghost use Rattle.std.specs.Prelude.{◌≡◌};
ghost use Rattle.lc_model.specs.Truth.{truth_and, truth_or, truth_xor, truth_not};

/// The result of a watchpoint or a condition.
#[derive(Clone, Copy, Debug, Default, PartialEq, Eq)]
pub enum Truth {
    /// The comparison or condition holds.
    True,
    /// It does not hold.
    False,
    /// Too long without a packet, or none yet.
    #[default]
    Stale,
    /// The packet was too short for the field.
    Error,
}

impl Truth {
    /// Both: false wins, then error, then stale.
    pub fn and(self, other: Truth) -> Truth
        ensures { result ≡ truth_and self other }
    {
        match (self, other) {
            (Truth::False, _) | (_, Truth::False) => Truth::False,
            (Truth::Error, _) | (_, Truth::Error) => Truth::Error,
            (Truth::Stale, _) | (_, Truth::Stale) => Truth::Stale,
            (Truth::True, Truth::True) => Truth::True,
        }
    }

    /// Either: true wins, then error, then stale.
    pub fn or(self, other: Truth) -> Truth
        ensures { result ≡ truth_or self other }
    {
        match (self, other) {
            (Truth::True, _) | (_, Truth::True) => Truth::True,
            (Truth::Error, _) | (_, Truth::Error) => Truth::Error,
            (Truth::Stale, _) | (_, Truth::Stale) => Truth::Stale,
            (Truth::False, Truth::False) => Truth::False,
        }
    }

    /// Exactly one: error wins, then stale.
    pub fn xor(self, other: Truth) -> Truth
        ensures { result ≡ truth_xor self other }
    {
        match (self, other) {
            (_, Truth::Error) | (Truth::Error, _) => Truth::Error,
            (Truth::Stale, _) | (_, Truth::Stale) => Truth::Stale,
            (Truth::True, Truth::True) | (Truth::False, Truth::False) => Truth::False,
            (Truth::True, Truth::False) | (Truth::False, Truth::True) => Truth::True,
        }
    }

    /// True and false change places; stale and error stay.
    #[allow(clippy::should_implement_trait)]
    pub fn not(self) -> Truth
        ensures { result ≡ truth_not self }
    {
        match self {
            Truth::True => Truth::False,
            Truth::False => Truth::True,
            Truth::Stale => Truth::Stale,
            Truth::Error => Truth::Error,
        }
    }
}
