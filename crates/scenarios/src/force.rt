//! The rule text in force, line by line.

ghost use Rattle.std.specs.Prelude.{◌≡◌};
ghost use Rattle.scenarios.specs.Rules.{force_at};

/// A change of the text in force.
#[derive(Clone, Copy, Debug, PartialEq, Eq)]
pub struct ForceChange {
    /// The first line of the plain script with this text in force, counted from 1.
    pub line: usize,
    /// The number of the text in force, counted from 0; `None` if none is.
    pub text: Option<usize>,
}

/// The text in force at a line of the plain script. The changes are in the order of lines.
pub(crate) fn force_at(changes: &[ForceChange], line: usize) -> Option<usize>
    ensures { result ≡ force_at changes.now line }
{
    let mut text = None;
    for change in changes {
        if change.line > line {
            return text;
        }
        text = change.text;
    }
    text
}
