//! The fields before an image's entries. Condition of each: an image of at least 40 bytes.

ghost use Rattle.std.specs.Prelude.{◌≡◌, ◌≤◌, length};
ghost use Rattle.lc_model.specs.Bytes.{u16_at};
ghost use Rattle.lc_model.specs.Tables.Image as model;
ghost use Rattle.lc_model.specs.Tables.Image.{preamble_length};

use crate::layout::PREAMBLE_LENGTH;
use lc_model::u16_at;

/// The layout's version.
pub fn version(image: &[u8]) -> u16
    requires { preamble_length ≤ length image.now }
    ensures { result ≡ u16_at image.now 0 }
{
    u16_at(image, 0)
}

/// The number of the table's kind.
pub fn kind_code(image: &[u8]) -> u16
    requires { preamble_length ≤ length image.now }
    ensures { result ≡ u16_at image.now 2 }
{
    u16_at(image, 2)
}

/// The number of used entries.
pub fn own_count(image: &[u8]) -> u16
    requires { preamble_length ≤ length image.now }
    ensures { result ≡ model.own_count image.now }
{
    u16_at(image, 4)
}

/// The number of watchpoints of the rule text.
pub fn watchpoint_count(image: &[u8]) -> u16
    requires { preamble_length ≤ length image.now }
    ensures { result ≡ model.watchpoint_count image.now }
{
    u16_at(image, 6)
}

/// The SHA-256 of the rule text, 32 bytes.
pub fn hash(image: &[u8]) -> &[u8]
    requires { preamble_length ≤ length image.now }
    ensures { result.now ≡ model.hash_of image.now }
{
    &image[8..PREAMBLE_LENGTH]
}
