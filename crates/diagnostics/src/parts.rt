//! Parts of lists, by a count that may be greater than the list's.

ghost use Rattle.std.specs.Prelude.{◌≡◌, drop, take};

/// The first `count` items, or all if there are fewer.
pub fn front<T>(items: &[T], count: usize) -> &[T]
    ensures { result.now ≡ take count items.now }
{
    if count < items.len() {
        &items[..count]
    } else {
        items
    }
}

/// The items after the first `count`; none if there are fewer.
pub fn behind<T>(items: &[T], count: usize) -> &[T]
    ensures { result.now ≡ drop count items.now }
{
    if count < items.len() {
        &items[count..]
    } else {
        &[]
    }
}
