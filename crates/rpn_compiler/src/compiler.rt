//! From a text to the files of its two tables.

ghost use Rattle.std.specs.Prelude.{◌≡◌, List, IfErr, IfOk, MatchResult};
ghost use Rattle.lc_model.specs.Rule.{NamedRule};
ghost use Rattle.lc_model.specs.Text.Reading.{TextRefusal};
ghost use Rattle.lc_model.specs.Tables.Compiling.{Compiles, IsRefused};
ghost use Rattle.lc_model.specs.Tables.InForce.{limits};
ghost use Rattle.rpn_compiler.specs.declared.error.CompileError.TheVariants.{Memory};
ghost use Rattle.rpn_compiler.specs.Fault.{Refuses};
ghost use Rattle.rpn_compiler.specs.Naming.{NamesTheNumberIn};
ghost use Rattle.rpn_compiler.specs.Pair.{AreTables};

use crate::error::CompileError;
use crate::files::TablePair;
use crate::rule_text::RuleText;
use std::alloc::Global;

/// Compiles a rule text to the files of its two tables: its watchpoints in order of first mention, its rules in the order of
/// the text, each equation in postfix form, and in both files the SHA-256 of the text. Of two operands the one that needs more
/// room on the stack comes first; if both need the same, they stay in the text's order. So an equation of 32 words needs at
/// most 5 operands on the stack, and no rule is refused for its depth.
///
/// Errors: the first refusal. The whole text is lexed, then parsed, then checked; then its watchpoints are counted, then its
/// rules, and last the words of each rule. `Memory` comes only if there is no memory for the files or for what is made on the
/// way to them.
pub fn compile(alloc: Global, text: &[u8]) -> Result<TablePair, CompileError>
    ensures compiles { IfOk result (λ pair. (rules : List NamedRule) ×
        Compiles limits text.now rules × AreTables text.now rules pair) }
    ensures refused { IfErr result (Refuses (IsRefused limits text.now)) }
    // If the error is 28, the text has a number that is out of its range at the error's place.
    ensures named { IfErr result (NamesTheNumberIn text.now) }
    ensures accepts { (rules : List NamedRule) → Compiles limits text.now rules →
        MatchResult result (AreTables text.now rules) (λ error. error ≡ Memory) }
    ensures refuses { (refusal : TextRefusal) → IsRefused limits text.now refusal →
        MatchResult result (λ _. ⊥) (Refuses (λ found. found ≡ refusal)) }
{
    let text = RuleText::read(alloc, text)?;
    let pair = text.compile(alloc);
    pair
}
