//! Laws of equations.

ghost use Rattle.lc_model.specs.Condition.{condition_of};
ghost use Rattle.lc_model.specs.Laws.Equations.{EquationsAreSpelled, IsLight, LoweredWordsRun, NeedIsMostWaiting, SoundWordsSpell, WordsRun, WordsSpellConditions};

use crate::condition::Cond;

/// The words of a condition spell it, and their stack depth is its `need`.
pub fn words_spell_conditions()
    ensures { WordsSpellConditions }
{}

/// Words are an equation over some watchpoints exactly if they spell a condition over these, with the same `need`.
pub fn equations_are_spelled()
    ensures { EquationsAreSpelled }
{}

/// The `need` of an equation is the most operands on the stack after any number of its words.
pub fn need_is_most_waiting()
    ensures { NeedIsMostWaiting }
{}

/// With the heavier operand first, a condition of at most 20 words needs at most 4 operands on the stack, one of at most 32 words
/// at most 5.
pub fn heavier_first_is_light(c: &Cond)
    ensures { IsLight (condition_of c.now) }
{}

/// The validator's tests of an equation find no fault exactly if its words spell a condition with a `need` of at most 8.
pub fn sound_words_spell()
    ensures { SoundWordsSpell }
{}

/// The words of a condition with a `need` of at most 8 run without a fault, and give that condition.
pub fn words_run()
    ensures { WordsRun }
{}

/// If rules are within the limits, there are at most 176 of them and of their watchpoints, and the words of each, heavier operand
/// first, run without a fault.
pub fn lowered_words_run()
    ensures { LoweredWordsRun }
{}
