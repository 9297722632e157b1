//! The laws of the lexer's definitions, each stated by a function with an empty body.

ghost use Rattle.std.specs.Prelude.{List, ℕ};
ghost use Rattle.rule_lexer.specs.Laws.{AtMostOneFault, KindsDecideClasses};

/// States that a text has at most one fault of the lexer, and none if it splits into tokens.
pub fn has_at_most_one_fault()
    ensures { (text : List ℕ) → AtMostOneFault text }
{}

/// States that a token's kind decides to which classes of the grammar it belongs.
pub fn kinds_decide_classes()
    ensures { KindsDecideClasses }
{}
