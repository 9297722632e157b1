//! The number of operands that wait while an equation is evaluated.

ghost use Rattle.std.specs.Prelude.{◌≡◌, ◌+◌, ◌<◌, ◌^◌, false};
ghost use Rattle.std.specs.Int.{is_in_range};
ghost use Rattle.lc_model.specs.Tables.Equation as equation;
ghost use Rattle.lc_model.specs.Tables.Image as model;
ghost use Rattle.table_validator.specs.Scan.{operands_waiting, word_counted};

use lc_model::equation_words::{AND, EQUAL, NOT, XOR};
use lc_model::{MOST_WAITING, TABLE_ENTRIES};

/// Whether the word is a watchpoint's number, below 176.
pub fn is_mention(word: u16) -> bool
    ensures { result ≡ equation.is_mention word }
{
    (word as usize) < TABLE_ENTRIES
}

/// Whether the word is an operator with two operands: AND, OR or XOR, which have consecutive codes.
fn is_binary(word: u16) -> bool
    ensures { result ≡ equation.is_binary word }
{
    (AND..=XOR).contains(&word)
}

/// Whether the word is an operator: AND, OR, XOR or NOT.
pub fn is_operator(word: u16) -> bool
    ensures { result ≡ is_in_range AND NOT word }
{
    (AND..=NOT).contains(&word)
}

/// The number of operands that a word takes.
fn operands_of(word: u16) -> usize
    ensures { result ≡ model.operands_of word }
{
    match word {
        AND..=XOR => 2,
        NOT | EQUAL => 1,
        _ => 0,
    }
}

/// The operands after some words. Each mention adds one, and each binary operator turns two into one, so mentions less
/// binary operators wait. If an operand was missing that number is meaningless, but the codes that it decides are
/// greater than `MissingOperand` and aren't chosen.
#[derive(Clone, Copy)]
pub struct OperandCount {
    mentions: usize,
    /// The number of binary operators.
    joins: usize,
    /// Whether a word had fewer operands than it takes.
    pub missing: bool,
    /// Whether more than eight operands waited at once.
    pub crowded: bool,
}

impl OperandCount {
    /// Creates the count before the first word.
    pub fn new() -> OperandCount
        ensures { result ≡ record { mentions = 0; joins = 0; missing = false; crowded = false } }
    {
        OperandCount {
            mentions: 0,
            joins: 0,
            missing: false,
            crowded: false,
        }
    }

    /// Returns the number of operands that wait.
    pub fn waiting(&self) -> usize
        ensures { result ≡ operands_waiting self.now }
    {
        self.mentions.saturating_sub(self.joins)
    }

    /// Counts one more word.
    pub fn count(&mut self, word: u16)
        requires mentions { self.old.mentions + 1 < 2 ^ 64 }
        requires joins { self.old.joins + 1 < 2 ^ 64 }
        ensures { self.new ≡ word_counted self.old word }
    {
        let waiting = self.waiting();
        self.missing = self.missing || waiting < operands_of(word);
        self.crowded = self.crowded || waiting > MOST_WAITING;
        self.mentions += usize::from(is_mention(word));
        self.joins += usize::from(is_binary(word));
    }
}
