//! Bytes within the room of a list: the list is made once, and neither moves nor grows. Memory after the bytes in use is
//! written only when it is first needed (this project's own).

ghost use Rattle.std.specs.Prelude.{◌≡◌, ℕ, ◌+◌, ◌≤◌, ◌++◌, length, take, vec_capacity};
ghost use Rattle.std.specs.Vec.{vec_ptr};

/// Lengthens the list by zeros until it has `size` bytes. Condition: it has room for them.
#[cold]
#[inline(never)]
fn lengthen(bytes: &mut Vec<u8>, size: usize)
    requires { size ≤ vec_capacity bytes.old }
    ensures front { (at : ℕ) →
        at ≤ length bytes.old.items → take at bytes.new.items ≡ take at bytes.old.items }
    ensures there { size ≤ length bytes.new.items }
    ensures capacity { vec_capacity bytes.new ≡ vec_capacity bytes.old }
    ensures place { vec_ptr bytes.new ≡ vec_ptr bytes.old }
{
    while bytes.len() < size {
        bytes.push_reserved(0);
    }
}

/// The `size` bytes of the list from place `at` on, which are there afterwards. Conditions: `at` is in the list or at its end,
/// and the list has room for them.
#[inline(always)]
pub fn make_place(bytes: &mut Vec<u8>, at: usize, size: usize)
    requires within { at ≤ length bytes.old.items }
    requires room { at + size ≤ vec_capacity bytes.old }
    ensures items { take at bytes.new.items ≡ take at bytes.old.items }
    ensures there { at + size ≤ length bytes.new.items }
    ensures capacity { vec_capacity bytes.new ≡ vec_capacity bytes.old }
    ensures place { vec_ptr bytes.new ≡ vec_ptr bytes.old }
{
    if bytes.len() < at + size {
        lengthen(bytes, at + size);
    }
}

/// Writes a part over the bytes of the list from place `at` on, and lengthens the list if it ends before the part does.
/// Conditions: `at` is in the list or at its end, and the list has room for the part.
#[inline(always)]
pub fn write_at(bytes: &mut Vec<u8>, at: usize, part: &[u8])
    requires within { at ≤ length bytes.old.items }
    requires room { at + length part.now ≤ vec_capacity bytes.old }
    ensures items { take (at + length part.now) bytes.new.items ≡
        take at bytes.old.items ++ part.now }
    ensures there { at + length part.now ≤ length bytes.new.items }
    ensures capacity { vec_capacity bytes.new ≡ vec_capacity bytes.old }
    ensures place { vec_ptr bytes.new ≡ vec_ptr bytes.old }
{
    make_place(bytes, at, part.len());
    bytes[at..at + part.len()].copy_from_slice(part);
}
