//! The faults of an actionpoint's words. One pass finds all faults, and then the least code is chosen.

ghost use Rattle.std.specs.Prelude.{◌≡◌, ◌+◌, ◌<◌, ◌^◌, ◌==◌, ℕ, true, false, not, drop, fold, option_map};
ghost use Rattle.std.specs.List.{list_all};
ghost use Rattle.lc_model.specs.Tables.Image.{first_code, all_words};
ghost use Rattle.table_validator.specs.Fault.{code_number};
ghost use Rattle.table_validator.specs.Scan.{unread, word_read, scan_tests, word_tests};

use crate::fault::FaultCode;
use crate::operands::{OperandCount, is_mention, is_operator};
use lc_model::equation_words::EQUAL;
use table_file::ActionpointEntry;

/// What a pass over an entry's words has found so far.
#[derive(Clone, Copy)]
struct WordScan {
    /// Whether EQUAL was read.
    ended: bool,
    /// Whether a word other than 0 follows it.
    word_behind: bool,
    unknown_word: bool,
    unknown_watchpoint: bool,
    operands: OperandCount,
}

impl WordScan {
    /// Creates the scan before the first word.
    fn new() -> WordScan
        ensures { result ≡ unread }
    {
        WordScan {
            ended: false,
            word_behind: false,
            unknown_word: false,
            unknown_watchpoint: false,
            operands: OperandCount::new(),
        }
    }

    /// Reads one more word of an equation over `watchpoints` watchpoints. EQUAL must not have been read.
    fn read(&mut self, word: u16, watchpoints: u16)
        requires before_equal { self.old.ended ≡ false }
        requires mentions { self.old.operands.mentions + 1 < 2 ^ 64 }
        requires joins { self.old.operands.joins + 1 < 2 ^ 64 }
        ensures { self.new ≡ word_read watchpoints self.old word }
    {
        self.operands.count(word);
        if word == EQUAL {
            self.ended = true;
        } else {
            self.unknown_word = self.unknown_word || !(is_mention(word) || is_operator(word));
            self.unknown_watchpoint = self.unknown_watchpoint
                || (is_mention(word) && watchpoints <= word);
        }
    }

    /// Reads all words from number `first` on. EQUAL must have been read.
    fn read_behind(&mut self, entry: &ActionpointEntry<'_>, first: usize)
        requires ended { self.old.ended ≡ true }
        ensures { (watchpoints : ℕ) → self.new ≡ fold (word_read watchpoints) self.old
            (drop first (all_words entry.now)) }
    {
        self.word_behind |= has_word_from(entry, first);
    }

    /// The least code among the faults so far.
    fn fault(&self) -> Option<FaultCode>
        ensures { option_map code_number result ≡ first_code (scan_tests self.now) }
    {
        if !self.ended {
            return Some(FaultCode::NoEqual);
        }
        if self.word_behind {
            return Some(FaultCode::WordAfterEqual);
        }
        if self.unknown_word {
            return Some(FaultCode::UnknownWord);
        }
        if self.unknown_watchpoint {
            return Some(FaultCode::UnknownWatchpoint);
        }
        if self.operands.missing {
            return Some(FaultCode::MissingOperand);
        }
        if self.operands.crowded {
            return Some(FaultCode::TooManyOperands);
        }
        if self.operands.waiting() > 1 {
            return Some(FaultCode::OperandsLeft);
        }
        None
    }
}

/// Returns the least code among the faults of an entry's words, or `None` if they have none. `watchpoints` is the
/// number of watchpoints that they may name.
pub fn words_fault(entry: &ActionpointEntry<'_>, watchpoints: u16) -> Option<FaultCode>
    ensures { option_map code_number result ≡
        first_code (word_tests watchpoints (all_words entry.now)) }
{
    let mut scan = WordScan::new();
    for number in 0..entry.word_count() {
        scan.read(entry.word(number), watchpoints);
        if scan.ended {
            scan.read_behind(entry, number + 1);
            return scan.fault();
        }
    }
    scan.fault()
}

/// Whether a word from number `first` on isn't 0. It reads all of them, so that the loop has no branch.
fn has_word_from(entry: &ActionpointEntry<'_>, first: usize) -> bool
    ensures { result ≡ not (list_all (◌==◌ 0) (drop first (all_words entry.now))) }
{
    let mut found = false;
    for number in first..entry.word_count() {
        found |= entry.word(number) != 0;
    }
    found
}
