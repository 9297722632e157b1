//! From a text to its schedule, line by line.

ghost use Rattle.std.specs.Prelude.{◌≡◌, ◌≢◌, ◌+◌, ◌<◌, ◌^◌, ◌∷◌, ℕ, List, Ok, Err, IfOk, IfErr, IsErr};
ghost use Rattle.lc_model.specs.Host.Schedule.{Schedule as Slots};
ghost use Rattle.lc_model.specs.Host.ScheduleText.{entry_added, entry_in, empty_slots, lines_read, schedule_in, slots_in, ScheduleFault};
ghost use Rattle.schedules.specs.Error.{IsRefused};
ghost use Rattle.schedules.specs.declared.error.ScheduleError.TheVariants.{Memory};
ghost use Rattle.text_lines.specs.Lines.{texts_of};

use crate::error::ScheduleError;
use crate::line;
use crate::schedule::{MOST_SLOTS, Schedule};
use crate::word::words;
use std::alloc::Global;
use text_lines::{first_line, is_silent};

/// The slots that the first line with words asks for, without entries.
fn empty_slots(alloc: Global, words: &[&[u8]], n: usize) -> Result<Schedule, ScheduleError>
    ensures said { IfOk result
        (λ schedule. empty_slots (slots_in (texts_of words.now)) n ≡ Ok schedule) }
    ensures refused { IfErr result (IsRefused (empty_slots (slots_in (texts_of words.now)) n)) }
{
    let slots = line::slots_in(words).ok_or(ScheduleError::BadLine { n })? as usize;
    if slots > MOST_SLOTS {
        return Err(ScheduleError::TooManySlots { n });
    }
    Ok(Schedule::new(alloc, slots)?)
}

/// A schedule with the entry of a further line.
fn with_entry(mut schedule: Schedule, words: &[&[u8]], n: usize) -> Result<Schedule, ScheduleError>
    ensures said { IfOk result
        (λ after. entry_added schedule (entry_in (texts_of words.now)) n ≡ Ok after) }
    ensures refused { IfErr result
        (IsRefused (entry_added schedule (entry_in (texts_of words.now)) n)) }
    // It allocates nothing, so it can't fail for lack of memory.
    ensures judged { IfErr result (λ error. error ≢ Memory) }
{
    let (slot, entry) = line::entry_in(words).ok_or(ScheduleError::BadLine { n })?;
    if slot >= schedule.len() {
        return Err(ScheduleError::BadLine { n });
    }
    if schedule.is_full(slot) {
        return Err(ScheduleError::TooManyEntries { n });
    }
    schedule.push(slot, entry);
    Ok(schedule)
}

/// The schedule so far, after this line.
fn read_line(
    alloc: Global,
    known: Option<Schedule>,
    text: &[u8],
    n: usize,
) -> Result<Option<Schedule>, ScheduleError>
    ensures said { IfOk result (λ after. (texts : List (List ℕ)) →
        lines_read known n (text.now ∷ texts) ≡ lines_read after (n + 1) texts) }
    ensures refused { IfErr result (λ error. (texts : List (List ℕ)) →
        IsRefused (lines_read known n (text.now ∷ texts)) error) }
{
    if is_silent(text) {
        return Ok(known);
    }
    let words = words(text);
    let schedule = match known {
        None => empty_slots(alloc, words.as_slice(), n)?,
        Some(schedule) => with_entry(schedule, words.as_slice(), n)?,
    };
    Ok(Some(schedule))
}

/// The schedule of a text. Lines end at a line feed or at the end of the text, and words are separated by spaces, tabs and
/// carriage returns; a line without words, or whose first word begins with `#`, is ignored. The first other line is `slots N`,
/// and each further one `S sample START END age`, `S sample START END keep` or `S housekeeping`, with S below N, START and END
/// as in a sample request, and numbers of one to five decimal digits.
///
/// Errors, at the first faulty line: `BadLine` for any other line, or with line 0 if all lines are ignored; `TooManySlots` if N
/// is over 64; `TooManyEntries` for the ninth entry of a slot. `Memory` comes only if there is none for the slots.
pub fn parse_schedule(alloc: Global, text: &[u8]) -> Result<Schedule, ScheduleError>
    ensures said { IfOk result (λ schedule. schedule_in text.now ≡ Ok schedule) }
    ensures refused { IfErr result (IsRefused (schedule_in text.now)) }
    ensures accepts { (schedule : Slots) → schedule_in text.now ≡ Ok schedule →
        IfErr result (λ error. error ≡ Memory) }
    ensures refuses { (fault : ScheduleFault) → schedule_in text.now ≡ Err fault → IsErr result }
{
    let mut known = None;
    let mut left = Some(text);
    let mut n = 0;
    while let Some(bytes) = left {
        let (text, rest) = first_line(bytes);
        n += 1;
        known = read_line(alloc, known, text, n)?;
        left = rest;
    }
    known.ok_or(ScheduleError::BadLine { n: 0 })
}
