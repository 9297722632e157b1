//! Lines of a text.

ghost use Rattle.std.specs.Prelude.{◌≡◌, ◌∷◌, ◌≤◌, length};
ghost use Rattle.std.specs.List.{position_or_len};
ghost use Rattle.lc_model.specs.Host.ScheduleText.{lines_of};
ghost use Rattle.text_lines.specs.Lines.{is_feed, lines_in, most_lines};

/// The number of bytes before the first line feed.
fn line_length(text: &[u8]) -> usize
    ensures place { result ≡ position_or_len is_feed text.now }
    ensures inside { result ≤ length text.now }
{
    text.iter().take_while(|byte| **byte != b'\n').count()
}

/// The first line, and what follows its line feed, if it has one.
pub fn first_line(text: &[u8]) -> (&[u8], Option<&[u8]>)
    ensures lines { lines_of text.now ≡ result.0.now ∷ lines_in result.1 }
    ensures fewer { most_lines result.1 ≤ length text.now }
{
    let (line, rest) = text.split_at(line_length(text));
    if rest.is_empty() {
        return (line, None);
    }
    let (_, rest) = rest.split_at(1);
    (line, Some(rest))
}
