//! The header of a stream's record (this project's own format): kind, seconds, subseconds and length of the body.

ghost use Rattle.std.specs.Prelude.{◌≡◌, ◌≤◌, true, length};
ghost use Rattle.lc_model.specs.Host.Stream.{all_kinds, body_size, fits_body, header_size, max_body, moment_of};

use crate::numbers::{u16_at, u32_at};
use crate::record::Moment;

/// The bytes of a record before its body.
pub const HEADER: usize = 11;

/// The bytes of a file's name.
pub const NAME: usize = 40;

/// The bytes of a body that names a half of a rule text: the file's name, the half and the text's number.
pub const HALF: usize = 43;

/// The most bytes of a body.
pub const LONGEST_BODY: usize = 65_536;

/// The most bytes of one read of a stream.
pub const PIECE: usize = 8_192;

/// The moment in the header of the next record.
pub fn moment_of(bytes: &[u8]) -> Moment
    requires { header_size ≤ length bytes.now }
    ensures { result ≡ moment_of bytes.now }
{
    Moment {
        seconds: u32_at(bytes, 1),
        subseconds: u16_at(bytes, 5),
    }
}

/// The number of bytes of the next record's body, from its header.
pub fn body_size(bytes: &[u8]) -> usize
    requires { header_size ≤ length bytes.now }
    ensures { result ≡ body_size bytes.now }
{
    u32_at(bytes, 7) as usize
}

/// Whether a record of this kind may have a body of this many bytes: 1, a packet, up to 65,536; 2, a tick, 0; 3, a file, 40 to
/// 65,536; 4, a half of a rule text, 43.
pub fn fits_body(kind: u8, size: usize) -> bool
    ensures exact { result ≡ fits_body all_kinds kind size }
    ensures longest { result ≡ true → size ≤ max_body }
{
    match kind {
        1 => size <= LONGEST_BODY,
        2 => size == 0,
        3 => (NAME..=LONGEST_BODY).contains(&size),
        4 => size == HALF,
        _ => false,
    }
}
