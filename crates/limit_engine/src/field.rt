//! Comparisons of fields with numbers, as ranges of their bits (cFS Limit Checker user's guide, watchpoint evaluation).

ghost use Rattle.std.specs.Prelude.{◌≡◌, IsTrue, length};
ghost use Rattle.std.specs.Int.{w32, from_be_bytes};
ghost use Rattle.lc_model.specs.Field.{is_in_type};
ghost use Rattle.limit_engine.specs.Bytes.{is_by_four};
ghost use Rattle.limit_engine.specs.Ranges.{ordered, range_of, holds_in};

use byteorder::{BigEndian, ByteOrder};
use lc_model::{CmpOp, FieldType};

/// Four bytes as a big-endian number.
pub(crate) fn four_bytes(bytes: &[u8]) -> u32
    requires { length bytes.now ≡ 4 }
    ensures { result ≡ from_be_bytes w32 bytes.now }
{
    BigEndian::read_u32(bytes)
}

/// Whether the field can be read as the low end of four big-endian bytes: it is big-endian and ends at byte 4 of the packet or later.
pub(crate) fn is_by_four(kind: FieldType, need: usize) -> bool
    ensures { result ≡ is_by_four kind need }
{
    !kind.is_little() && 4 <= need
}

/// The bits of a number of the type with the sign bit inverted: as unsigned numbers they have the order of the numbers.
fn order_key(kind: FieldType, value: i64) -> u32
    requires { IsTrue (is_in_type kind value) }
    ensures { result ≡ ordered kind value }
{
    (i64::from(kind.sign_weight()) + value) as u32
}

/// The range `low` to `low + span` of a field's bits in which a comparison holds, or outside which it holds. The sign bit is
/// inverted.
#[derive(Clone, Copy, Debug)]
pub(crate) struct Range {
    pub(crate) low: u32,
    pub(crate) span: u32,
    /// The comparison holds outside the range.
    pub(crate) flip: bool,
}

impl Range {
    /// The range of a comparison with a number of the type.
    pub(crate) fn of(kind: FieldType, op: CmpOp, value: i64) -> Range
        requires { IsTrue (is_in_type kind value) }
        ensures { result ≡ range_of kind op value }
    {
        let end = order_key(kind, value);
        let (low, span) = match op {
            CmpOp::Less | CmpOp::GreaterOrEqual => (end, u32::MAX - end),
            CmpOp::LessOrEqual | CmpOp::Greater => (0, end),
            CmpOp::Equal | CmpOp::NotEqual => (end, 0),
        };
        let flip = match op {
            CmpOp::Less | CmpOp::Greater | CmpOp::NotEqual => true,
            CmpOp::LessOrEqual | CmpOp::Equal | CmpOp::GreaterOrEqual => false,
        };
        Range { low, span, flip }
    }

    /// Whether the comparison holds for these bits, with the sign bit inverted.
    pub(crate) fn holds(&self, bits: u32) -> bool
        ensures { result ≡ holds_in self.now bits }
    {
        (bits.wrapping_sub(self.low) <= self.span) != self.flip
    }
}
