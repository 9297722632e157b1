//! Pieces of a rule text: its tokens and comments.

ghost use Rattle.std.specs.Prelude.{◌≡◌, bytes_eq};
ghost use Rattle.rule_layout.specs.Shapes.{is_comment};

/// A token or a comment of a rule text.
#[derive(Clone, Copy)]
pub(crate) struct Piece<'a> {
    /// Its bytes; those of a comment from `#` up to the end of its line.
    pub text: &'a [u8],
    /// The line feeds between the piece before it and this one; at most 2 are counted.
    pub lines: u8,
}

/// Whether the bytes are these.
pub(crate) fn is(text: &[u8], other: &[u8]) -> bool
    ensures { result ≡ bytes_eq text.now other.now }
{
    text == other
}

/// Whether a piece with this text is a comment: no token begins with `#`.
pub(crate) fn is_comment(text: &[u8]) -> bool
    ensures { result ≡ is_comment text.now }
{
    match text {
        [] => false,
        [first, ..] => *first == b'#',
    }
}
