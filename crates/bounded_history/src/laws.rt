//! The laws of reducing by columns, each stated by a function with an empty body.

ghost use Rattle.bounded_history.specs.Laws.{KeepsGreatest, KeepsLast, KeepsLeast, KeepsResults, KeepsStates, KeepsWider, ToldAgain};

/// States that a column keeps exactly the bits of its results.
pub fn no_result_is_lost()
    ensures { KeepsResults }
{}

/// States that a column keeps exactly the bits of its states.
pub fn no_state_is_lost()
    ensures { KeepsStates }
{}

/// States that a column keeps its least value.
pub fn the_least_stays()
    ensures { KeepsLeast }
{}

/// States that a column keeps its greatest value.
pub fn the_greatest_stays()
    ensures { KeepsGreatest }
{}

/// States that a column keeps its last entry.
pub fn the_last_stands()
    ensures { KeepsLast }
{}

/// States that reducing by columns, and then by columns twice as wide, is the same as reducing by the wider ones at
/// once.
pub fn the_width_says_it_all()
    ensures { KeepsWider }
{}

/// States that an entry which repeats the last one changes nothing in a list.
pub fn told_again_is_told()
    ensures { ToldAgain }
{}
