//! Words of a line.

ghost use Rattle.lc_model.specs.Host.ScheduleText.{words_of};
ghost use Rattle.schedules.specs.Word.{SaySame};
ghost use Rattle.text_lines.specs.Lines.{texts_of};

use arrayvec::ArrayVec;
use text_lines::first_word;

/// One more word than any line of a schedule has.
const ENOUGH: usize = 6;

/// The words of a line that isn't silent. Of more than six, the first six: no line of a schedule has that many.
pub(crate) fn words(line: &[u8]) -> ArrayVec<&[u8], ENOUGH>
    ensures { SaySame (texts_of result.items) (words_of line.now) }
{
    let mut words = ArrayVec::new();
    let mut left = line;
    while !words.is_full() {
        let Some((word, rest)) = first_word(left) else {
            break;
        };
        words.push(word);
        left = rest;
    }
    words
}
