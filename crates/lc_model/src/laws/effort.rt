//! Laws of the Limit Checker's effort.

ghost use Rattle.lc_model.specs.Laws.Effort.{ProbesAreComparisons, ProbesAreFew, SamplesAreBounded, SearchesAreBounded};

/// A sample evaluates at most the words of its rules, and a telemetry packet's message id is compared at most eight times, once
/// if it is watched.
pub fn effort_is_bounded()
    // At most `words` words a rule: 5,632 for 176 rules of 32 words.
    ensures words { SamplesAreBounded }
    ensures searches { SearchesAreBounded }

    // The comparisons: the first is at the id's own place if it is watched, else at the middle; each further one at the middle of
    // the ids that are left.
    ensures comparisons { ProbesAreComparisons }

    // For a table: at most eight comparisons, at least one if there is a watchpoint, exactly one if the id is watched.
    ensures probes { ProbesAreFew }
{}
