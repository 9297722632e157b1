//! The finding that a line about a rule states.

ghost use Rattle.std.specs.Prelude.{◌≡◌};
ghost use Rattle.analysis_listing.specs.Said.{kind_of, line_of};

use rule_analysis::{Finding, RuleJudgement, UnknownReason};

/// Whether a rule can fail and can pass, with packets that show it, listed latest first.
#[derive(Clone, Copy, Debug)]
pub enum RuleFindings<'a> {
    /// It fails with the packets `fails` and passes with the packets `passes`.
    FailsAndPasses {
        fails: &'a [Vec<u8>],
        passes: &'a [Vec<u8>],
    },
    /// It never fails. It passes with these packets, if some are known.
    NeverFails(Option<&'a [Vec<u8>]>),
    /// It never passes, and fails with these packets.
    AlwaysFails(&'a [Vec<u8>]),
    /// It never passes, and it isn't known whether it can fail.
    NeverPasses,
    /// It isn't known whether it can fail, for this reason.
    FailsUnknown(UnknownReason),
    /// It can fail, but it isn't known whether it can pass, for this reason.
    PassesUnknown(UnknownReason),
}

/// The finding of a judged rule.
pub fn said_of<'a>(judged: &'a RuleJudgement) -> RuleFindings<'a>
    ensures { kind_of result ≡ line_of judged.now.fails judged.now.passes }
{
    match (&judged.fails, &judged.passes) {
        (Finding::Possible(fails), Finding::Possible(passes)) => {
            RuleFindings::FailsAndPasses { fails, passes }
        }
        (Finding::Never, Finding::Possible(passes)) => RuleFindings::NeverFails(Some(passes)),
        (Finding::Never, _) => RuleFindings::NeverFails(None),
        (Finding::Possible(fails), Finding::Never) => RuleFindings::AlwaysFails(fails),
        (_, Finding::Never) => RuleFindings::NeverPasses,
        (Finding::Unknown(reason), _) => RuleFindings::FailsUnknown(*reason),
        (_, Finding::Unknown(reason)) => RuleFindings::PassesUnknown(*reason),
    }
}
