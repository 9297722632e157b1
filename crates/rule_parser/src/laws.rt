//! The laws of the parser's definitions, each stated by a function with an empty body.

ghost use Rattle.std.specs.Prelude.{List, ℕ};
ghost use Rattle.lc_model.specs.Text.Token.{Token};
ghost use Rattle.lc_model.specs.Laws.Reading.{OneAnswer, ParsesOrFails};
ghost use Rattle.rule_parser.specs.Laws.{AtMostOneParse};

/// States that any tokens have a parse or a fault of the parser.
pub fn tokens_parse_or_fail()
    ensures { ParsesOrFails }
{}

/// States that tokens have at most one parse and at most one fault, and never both.
pub fn tokens_have_at_most_one_parse()
    ensures { (end : ℕ) (tokens : List Token) → AtMostOneParse end tokens }
{}

/// States that each text has one answer: its rules, or one refusal.
pub fn text_has_one_answer()
    ensures { (text : List ℕ) → OneAnswer text }
{}
