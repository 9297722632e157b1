//! The numbers that a masked field may have.

ghost use Rattle.rule_analysis.specs.Numbers.{IsNextBits};

/// The least number that is at least `from` and has no bit outside the mask; `None` if there is none.
pub(crate) fn next_bits(mask: u64, from: u64) -> Option<u64>
    ensures { IsNextBits mask from result }
{
    if from == 0 {
        return Some(0);
    }
    if mask < from {
        return None;
    }
    if from & mask == from {
        return Some(from);
    }
    if mask % 2 == 1 {
        match next_bits(mask / 2, from / 2) {
            None => None,
            Some(half) => {
                let even = 2 * half;
                if even < from {
                    Some(even + 1)
                } else {
                    Some(even)
                }
            }
        }
    } else {
        match next_bits(mask / 2, from / 2 + from % 2) {
            None => None,
            Some(half) => Some(2 * half),
        }
    }
}
