//! The parts of a line.

ghost use Rattle.std.specs.Prelude.{◌≡◌, [], ◌∷◌, bytes_eq, codes, IfSome, option_map};
ghost use Rattle.lc_model.specs.Host.Schedule.{IsEntry};
ghost use Rattle.lc_model.specs.Command.{is_range};
ghost use Rattle.lc_model.specs.Host.ScheduleText.{ages_in, decimal_number, entry_in, slots_in};
ghost use Rattle.schedules.specs.Entry.{entry_of};
ghost use Rattle.schedules.specs.Line.{placed_of, sample_said};
ghost use Rattle.text_lines.specs.Lines.{texts_of};

use crate::entry::Entry;
use lc_model::{ALL_RULES, TABLE_ENTRIES};
use text_lines::decimal_number;

/// The most digits of a number in a schedule.
pub const MOST_DIGITS: usize = 5;

/// The number that one to five decimal digits write.
fn number_in(word: &[u8]) -> Option<u64>
    ensures { result ≡ decimal_number word.now }
{
    decimal_number(MOST_DIGITS, word)
}

/// The number of slots in `slots N`.
pub(crate) fn slots_in(words: &[&[u8]]) -> Option<u64>
    ensures { result ≡ slots_in (texts_of words.now) }
{
    match words {
        [b"slots", number] => number_in(number).filter(|slots| *slots != 0),
        _ => None,
    }
}

/// Whether the watchpoints age after a sample.
fn ages_in(word: &[u8]) -> Option<bool>
    ensures { result ≡ ages_in word.now }
{
    match word {
        b"age" => Some(true),
        b"keep" => Some(false),
        _ => None,
    }
}

/// Whether the word asks for housekeeping.
fn is_housekeeping(verb: &[u8]) -> bool
    ensures { result ≡ bytes_eq verb.now (codes "housekeeping") }
{
    let word: &[u8] = b"housekeeping";
    verb == word
}

/// Whether the word asks for a sample.
fn is_sample(verb: &[u8]) -> bool
    ensures { result ≡ bytes_eq verb.now (codes "sample") }
{
    let word: &[u8] = b"sample";
    verb == word
}

/// The slot and the entry in `S housekeeping`.
fn housekeeping_in(slot: &[u8], verb: &[u8]) -> Option<(usize, Entry)>
    ensures said { option_map placed_of result ≡ entry_in (slot.now ∷ verb.now ∷ []) }
    ensures fits { IfSome result (λ placed. IsEntry (entry_of placed.1)) }
{
    let slot = number_in(slot)?;
    if !is_housekeeping(verb) {
        return None;
    }
    Some((slot as usize, Entry::Housekeeping))
}

/// Whether these are all rules, or a range of numbers of a table's entries.
fn is_range(first: u64, last: u64) -> bool
    ensures { result ≡ is_range first last }
{
    let all = u64::from(ALL_RULES);
    first == all && last == all || first <= last && (last as usize) < TABLE_ENTRIES
}

/// The entry that samples a range of rules.
fn sample(verb: &[u8], first: u64, last: u64, ages: bool) -> Option<Entry>
    ensures said { option_map entry_of result ≡ sample_said verb.now first last ages }
    ensures fits { IfSome result (λ entry. IsEntry (entry_of entry)) }
{
    if !is_sample(verb) || !is_range(first, last) {
        return None;
    }
    Some(Entry::Sample {
        first: first as u16,
        last: last as u16,
        ages,
    })
}

/// The slot and the entry in `S sample START END age` and `S sample START END keep`.
fn sample_in(
    slot: &[u8],
    verb: &[u8],
    first: &[u8],
    last: &[u8],
    ages: &[u8],
) -> Option<(usize, Entry)>
    ensures said { option_map placed_of result ≡
        entry_in (slot.now ∷ verb.now ∷ first.now ∷ last.now ∷ ages.now ∷ []) }
    ensures fits { IfSome result (λ placed. IsEntry (entry_of placed.1)) }
{
    let slot = number_in(slot)?;
    let first = number_in(first)?;
    let last = number_in(last)?;
    let ages = ages_in(ages)?;
    let entry = sample(verb, first, last, ages)?;
    Some((slot as usize, entry))
}

/// The slot and the entry of a line with these words.
pub(crate) fn entry_in(words: &[&[u8]]) -> Option<(usize, Entry)>
    ensures said { option_map placed_of result ≡ entry_in (texts_of words.now) }
    ensures fits { IfSome result (λ placed. IsEntry (entry_of placed.1)) }
{
    match words {
        [slot, verb] => housekeeping_in(slot, verb),
        [slot, verb, first, last, ages] => sample_in(slot, verb, first, last, ages),
        _ => None,
    }
}
