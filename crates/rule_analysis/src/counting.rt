//! Counts of what isn't known.

ghost use Rattle.std.specs.Prelude.{◌⊎◌, ◌≤◌, ◌<◌};

/// Adds one to a count, up to the greatest number.
pub(crate) fn count_one(count: &mut usize)
    ensures grows { count.old ≤ count.new }
    ensures counts { 0 < count.new }
{
    *count = count.saturating_add(1);
}

/// Adds one to a count if the other is not 0.
pub(crate) fn count_some(count: &mut usize, other: usize)
    ensures grows { count.old ≤ count.new }
    ensures counts { other ≤ 0 ⊎ 0 < count.new }
{
    if other > 0 {
        count_one(count);
    }
}
