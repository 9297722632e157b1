//! The entries of an image, one after another.

ghost use Rattle.std.specs.Prelude.{◌≡◌, ◌<◌, ◌==◌, length, bytes_eq};
ghost use Rattle.std.specs.List.{list_all};
ghost use Rattle.lc_model.specs.Codes.{table_entries};
ghost use Rattle.lc_model.specs.Tables.Image.{image_length, entry_length, entry_at, blank_entry};
ghost use Rattle.table_file.specs.Layout.{layout_of};

use crate::layout::{Layout, PREAMBLE_LENGTH};

/// The bytes of entry `number` of an image.
pub fn entry_bytes(layout: Layout, image: &[u8], number: usize) -> &[u8]
    requires whole { length image.now ≡ image_length (layout_of layout) }
    requires within { number < table_entries }
    ensures bytes { result.now ≡ entry_at (layout_of layout) image.now number }
    ensures length { length result.now ≡ entry_length (layout_of layout) }
{
    let length = layout.entry_length();
    let start = PREAMBLE_LENGTH + number * length;
    &image[start..start + length]
}

/// Whether all bytes are zero, as they are after a text and in an entry that isn't used. All are read, so that several are
/// compared at once.
pub fn are_zeros(bytes: &[u8]) -> bool
    ensures { result ≡ list_all (λ b. b == 0) bytes.now }
{
    let mut are_zeros = true;
    for byte in bytes {
        are_zeros &= *byte == 0;
    }
    are_zeros
}

/// Whether an entry's bytes are those of one that isn't used: 0xFF, then zeros.
pub fn is_blank(layout: Layout, entry: &[u8]) -> bool
    requires { length entry.now ≡ entry_length (layout_of layout) }
    ensures { result ≡ bytes_eq entry.now (blank_entry (layout_of layout)) }
{
    entry[0] == 0xFF && are_zeros(&entry[1..])
}
