//! Lines of a text. A line ends with a line feed, which isn't one of its bytes, or with the text.

ghost use Rattle.std.specs.Prelude.{◌≡◌, ◌+◌, ◌≤◌, ◌&&◌, length, nat_lt, take, drop, count_by};
ghost use Rattle.std.specs.List.{prefix_len};
ghost use Rattle.diagnostics.specs.Line.{ends_in_return, is_line_byte, is_line_feed, line_number, line_of, line_start, written_line};

const LINE_FEED: u8 = b'\n';

const CARRIAGE_RETURN: u8 = b'\r';

/// How many bytes of a text stand before the line of this place. The text's end is a place, too.
pub fn line_start(text: &[u8], at: usize) -> usize
    requires { at ≤ length text.now }
    ensures start { result ≡ line_start text.now at }
    ensures within { result ≤ at }
{
    let mut start = at;
    while start > 0 {
        if text[start - 1] == LINE_FEED {
            break;
        }
        start -= 1;
    }
    start
}

/// The number of the line, from 1.
pub fn line_number(text: &[u8], at: usize) -> usize
    requires { at ≤ length text.now }
    ensures { result ≡ line_number text.now at }
{
    text[..at].iter().filter(|byte| **byte == LINE_FEED).count() + 1
}

/// The bytes in front of the next line feed, or all of them.
fn line_length(rest: &[u8]) -> usize
    ensures value { result ≡ prefix_len is_line_byte rest.now }
    ensures within { result ≤ length rest.now }
{
    rest.iter().take_while(|byte| **byte != LINE_FEED).count()
}

/// The bytes of the line in which this place stands: after the last line feed before the place, up to the next one or the end.
pub fn line_of(text: &[u8], at: usize) -> &[u8]
    requires { at ≤ length text.now }
    ensures { result.now ≡ line_of text.now at }
{
    let rest = text.split_at(line_start(text, at)).1;
    rest.split_at(line_length(rest)).0
}

/// Whether a carriage return is the last byte.
fn ends_in_return(line: &[u8]) -> bool
    ensures { result ≡ ends_in_return line.now }
{
    matches!(line.last(), Some(byte) if *byte == CARRIAGE_RETURN)
}

/// The bytes of the line without the carriage return right before its line feed.
pub fn written_line(text: &[u8], at: usize) -> &[u8]
    requires { at ≤ length text.now }
    ensures { result.now ≡ written_line text.now at }
{
    let line = line_of(text, at);
    let is_closed = line_start(text, at) + line.len() < text.len();
    if is_closed && ends_in_return(line) {
        &line[..line.len() - 1]
    } else {
        line
    }
}
