//! Laws of the definitions: the stream of a script without its expectations, and the lines for which the text in force is asked.

ghost use Rattle.scenario_trial.specs.Reading.{SilencedSaysTheRest};
ghost use Rattle.scenario_trial.specs.Settled.{StatesAreMarked};

/// A script whose expectations are comments gives the same stream, or the same error, as its other lines.
pub fn silenced_scripts_say_the_rest()
    ensures { SilencedSaysTheRest }
{}

/// Each line that a scenario's `state` becomes in the plain script is one for which the text in force is asked.
pub fn states_are_marked()
    ensures { StatesAreMarked }
{}
