//! The laws of the layout, each stated by a function with an empty body.

ghost use Rattle.rule_layout.specs.Laws.{FormatsOnce, KeepsParts, KeepsRules};

/// States that formatting keeps the tokens and comments of a text, in their order.
pub fn formatting_keeps_parts()
    ensures { KeepsParts }
{}

/// States that formatting twice is formatting once.
pub fn formatting_twice_is_once()
    ensures { FormatsOnce }
{}

/// States that formatting keeps the rules of a text.
pub fn formatting_keeps_rules()
    ensures { KeepsRules }
{}
