//! Laws of the definitions: the packets of each record, the output of a run, and what a watched run shows at a place.

ghost use Rattle.run_stepper.specs.Places.{RunsAreSeenThrough};
ghost use Rattle.run_stepper.specs.Steps.{StepsAreARun};
ghost use Rattle.run_stepper.specs.Trace.{PartsAreTheOutput};

/// The packets that the records of a stream lead to, one after the other, are the output of a run over the stream.
pub fn parts_are_the_output()
    ensures { PartsAreTheOutput }
{}

/// A new host that handles the records of a stream one by one has run over the stream: each record led to the packets that the
/// definitions call for.
pub fn steps_are_a_run()
    ensures { StepsAreARun }
{}

/// What a watched run shows at a place of its stream is what stands after the bytes before that place.
pub fn runs_are_seen_through()
    ensures { RunsAreSeenThrough }
{}
