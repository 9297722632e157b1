//! The value of a field in a packet (cFS Limit Checker user's guide, watchpoint evaluation; how the mask is taken is this project's
//! own).

use crate::texts::Field;

/// The field's value: its masked bits, read with its sign. `None` if the packet ends before the field does.
pub(crate) fn value_in(field: &Field<'_>, packet: &[u8]) -> Option<i64> {
    let start = field.at as usize;
    let end = start + field.kind.width();
    if packet.len() < end {
        return None;
    }
    let bits = field.kind.bits_in(&packet[start..end]);
    Some(field.kind.signed_value(bits & field.bits))
}
