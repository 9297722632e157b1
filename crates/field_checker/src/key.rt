//! Keys of names, with their 64-bit FNV-1a hash.

ghost use Rattle.std.specs.Prelude.{◌≡◌, fold};
ghost use Rattle.field_checker.specs.Index.{begin, spread, spread_with};

/// The hash of no bytes.
const BEGIN: u64 = 0xCBF2_9CE4_8422_2325;

/// The factor at each byte.
const PRIME: u64 = 0x0000_0100_0000_01B3;

/// The FNV-1a hash of a name, which differs for nearly any two names.
#[tactic(auto, unfolding(crate::specs::Index::spread))]
fn spread(name: &[u8]) -> u64
    ensures { result ≡ spread name.now }
{
    let mut number = BEGIN;
    for byte in name {
        number = (number ^ u64::from(*byte)).wrapping_mul(PRIME);
    }
    number
}

/// The key of a name in an ordered map: its hash, by which two names nearly always differ, and then its bytes. So names that are
/// chosen to collide don't slow the look-up down to more than a search in an ordered map.
pub fn key<'a>(name: &'a [u8]) -> (u64, &'a [u8])
    ensures number { result.0 ≡ spread name.now }
    ensures bytes { result.1.now ≡ name.now }
{
    (spread(name), name)
}
