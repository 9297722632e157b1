//! Gaps: the blanks and comments between tokens.

ghost use Rattle.std.specs.Prelude.{◌≡◌, ◌<◌, ◌≤◌, IsTrue, length, take, drop};
ghost use Rattle.std.specs.List.{prefix_len};
ghost use Rattle.lc_model.specs.Text.Token.{IsComment};
ghost use Rattle.rule_lexer.specs.Front.{IsGap, begins, is_line_byte, is_number_sign};

use crate::bytes::{LINE_FEED, NUMBER_SIGN, is_blank};

/// The number of bytes before the next line feed, or of all bytes if there is none.
fn line_length(rest: &[u8]) -> usize
    ensures { result ≡ prefix_len is_line_byte rest.now }
{
    rest.iter().take_while(|byte| **byte != LINE_FEED).count()
}

/// The length of the comment at the start, in bytes: from `#` up to the next line feed or the end.
fn comment_length(rest: &[u8]) -> usize
    requires { IsTrue (begins is_number_sign rest.now) }
    ensures within { result ≤ length rest.now }
    ensures some { 0 < result }
    ensures comment { IsComment (take result rest.now) (drop result rest.now) }
{
    line_length(rest)
}

/// Returns the number of bytes of the blanks and comments at the start of `rest`, 0 if there are none.
pub fn gap_length(rest: &[u8]) -> usize
    ensures { IsGap rest.now result }
{
    let mut count = 0;
    while count < rest.len() {
        let byte = rest[count];
        if is_blank(byte) {
            count += 1;
        } else if byte == NUMBER_SIGN {
            count += comment_length(&rest[count..]);
        } else {
            break;
        }
    }
    count
}
