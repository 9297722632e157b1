//! The laws of judgements, each stated by a function with an empty body.

ghost use Rattle.rule_analysis.specs.Judgement.{TablesKeep, NeverHoldsNeverFails, NeverNotIsAlways, NeverButIsWherever};
ghost use Rattle.std.specs.Prelude.{List};
ghost use Rattle.lc_model.specs.Tables.HalvesAndBytes.{as_bytes, as_halves};
ghost use Rattle.lc_model.specs.Tables.Image.{Layout};
ghost use Rattle.lc_model.specs.Host.Promise.{Mission};
ghost use Rattle.rule_analysis.specs.Bits.{TextsReadTelemetry};
ghost use Rattle.rule_analysis.specs.Called.{IsNeverCalledFor, IsNeverWritten};
ghost use Rattle.rule_analysis.specs.Quiet.{NobodyRequests, QuietRulesStayQuiet, StartsQuiet};

/// States that a known result of a condition stays when more fields become known, and that a condition that no values make true is
/// true for no history.
pub fn numbers_judge_histories()
    ensures tables { TablesKeep }
    ensures never { NeverHoldsNeverFails }
    ensures always { NeverNotIsAlways }
    ensures wherever { NeverButIsWherever }
{}

/// States that the comparisons of a valid text read fields of telemetry packets, as `UnknownReason::Overlap` presumes.
pub fn texts_read_telemetry()
    ensures { TextsReadTelemetry }
{}

/// States that a rule that never fails requests nothing.
pub fn quiet_rules_stay_quiet()
    ensures { QuietRulesStayQuiet }
{}

/// States that a sequence is never requested, whatever packets come, if only rules that never fail request it.
pub fn nobody_requests_quiet_sequences()
    ensures start_by_texts { (layouts : List Layout) → StartsQuiet (as_halves layouts) }
    ensures start_by_bytes { (layouts : List Layout) → StartsQuiet (as_bytes layouts) }
    ensures texts { (layouts : List Layout) → NobodyRequests (as_halves layouts) }
    ensures bytes { (layouts : List Layout) → NobodyRequests (as_bytes layouts) }
{}

/// States the same of a mission: if each rule with a sequence never fails in any of its texts, its texts call for no request of that
/// sequence, whatever the stream.
pub fn quiet_sequences_are_not_called_for()
    ensures { (mission : Mission) → IsNeverCalledFor mission }
{}

/// States the same of a run that writes what the texts call for (`run`'s promise `by_texts`): none of its packets requests that
/// sequence.
pub fn quiet_sequences_are_not_written()
    ensures { IsNeverWritten }
{}
