//! The laws of decompiled equations, each stated by a function with an empty body.

ghost use Rattle.table_listing.specs.Laws.{OneTree, TreesMeanAsTheirWords, CompiledAgainMeansTheSame, CompiledAgainIsTheSame};
ghost use Rattle.table_listing.specs.Reading.{TextsAreTheirSymbols, TextsReadAsTheirTrees};

/// States that an equation's words have at most one tree.
pub fn words_have_one_tree()
    ensures { OneTree }
{}

/// States that the tree of a sound equation has the value of the condition that the words spell.
pub fn trees_mean_as_their_words()
    ensures { TreesMeanAsTheirWords }
{}

/// States that the tree of a sound equation, compiled again, always has the same value.
pub fn compiled_again_means_the_same()
    ensures { CompiledAgainMeansTheSame }
{}

/// States when the tree, compiled again, gives the same words: the heavier operand stands first in each pair, and
/// watchpoints keep their numbers.
pub fn compiled_again_is_the_same()
    ensures { CompiledAgainIsTheSame }
{}

/// States that the grammar reads the text of a condition as its tree, and as nothing else.
pub fn texts_read_as_their_trees()
    ensures { TextsReadAsTheirTrees }
{}

/// States that the text of a condition is that of its symbols, with blanks between them.
pub fn texts_are_their_symbols()
    ensures { TextsAreTheirSymbols }
{}
