//! The kinds of warnings and their names.

ghost use Rattle.std.specs.Prelude.{◌≡◌};
ghost use Rattle.rule_lints.specs.Names.{name_of};

/// A kind of warning. Its name never changes, since comments of rule texts use it.
#[derive(Clone, Copy)]
pub enum Lint {
    /// The text has no rule.
    NoRules,
    /// No rule compares the field.
    UnusedField,
    /// No rule compares a field of the packet.
    UnusedPacket,
    /// An earlier packet has the same message id.
    SameMessageId,
    /// The field shares bits with an earlier one, and neither is a part of the other.
    OverlappingFields,
    /// The rule's event is of type `debug`, which is off until a command turns it on.
    DebugEvent,
    /// An earlier rule requests the same sequence.
    SameSequence,
    /// The rule never fails.
    NeverFails,
    /// The rule fails whenever its fields are known.
    AlwaysFails,
    /// The rule never passes, and it isn't known whether it fails.
    NeverPasses,
    /// It isn't known whether the rule fails, or whether it passes.
    NotKnown,
    /// The comparison has the same outcome for all values of its field.
    ConstantComparison,
    /// The rule and others always fail together, if the fields of all are known.
    FailsAlike,
    /// Another rule fails whenever this one fails, if its own fields are known.
    FailsWherever,
    /// The rule can do without one of its comparisons.
    SpareComparison,
    /// The schedule never samples the rule.
    NeverSampled,
    /// A comment keeps nothing quiet.
    UnusedQuiet,
}

/// All kinds of warnings.
pub const LINTS: &[Lint] = &[
    Lint::NoRules,
    Lint::UnusedField,
    Lint::UnusedPacket,
    Lint::SameMessageId,
    Lint::OverlappingFields,
    Lint::DebugEvent,
    Lint::SameSequence,
    Lint::NeverFails,
    Lint::AlwaysFails,
    Lint::NeverPasses,
    Lint::NotKnown,
    Lint::ConstantComparison,
    Lint::FailsAlike,
    Lint::FailsWherever,
    Lint::SpareComparison,
    Lint::NeverSampled,
    Lint::UnusedQuiet,
];

impl Lint {
    /// The name of the warning, as comments have it.
    pub fn name(self) -> &'static str
        ensures { result.now ≡ name_of self }
    {
        match self {
            Lint::NoRules => "no-rules",
            Lint::UnusedField => "unused-field",
            Lint::UnusedPacket => "unused-packet",
            Lint::SameMessageId => "same-message-id",
            Lint::OverlappingFields => "overlapping-fields",
            Lint::DebugEvent => "debug-event",
            Lint::SameSequence => "same-sequence",
            Lint::NeverFails => "never-fails",
            Lint::AlwaysFails => "always-fails",
            Lint::NeverPasses => "never-passes",
            Lint::NotKnown => "not-known",
            Lint::ConstantComparison => "constant-comparison",
            Lint::FailsAlike => "fails-alike",
            Lint::FailsWherever => "fails-wherever",
            Lint::SpareComparison => "spare-comparison",
            Lint::NeverSampled => "never-sampled",
            Lint::UnusedQuiet => "unused-quiet",
        }
    }
}
