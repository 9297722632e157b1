//! Names in fields of fixed size (this project's own).

ghost use Rattle.std.specs.Prelude.{◌≡◌, ◌≤◌, ◌==◌, length};
ghost use Rattle.std.specs.List.{position_or_len};
ghost use Rattle.lc_model.specs.Name.{name_in};

/// The number of bytes before the first zero byte, or of all bytes.
fn name_length(field: &[u8]) -> usize
    ensures place { result ≡ position_or_len (λ b. b == 0) field.now }
    ensures inside { result ≤ length field.now }
{
    field.iter().take_while(|byte| **byte != 0).count()
}

/// The name in a field: the bytes before the first zero byte, or all of them.
pub fn name_in(field: &[u8]) -> &[u8]
    ensures name { result.now ≡ name_in field.now }
    ensures inside { length result.now ≤ length field.now }
{
    &field[..name_length(field)]
}
