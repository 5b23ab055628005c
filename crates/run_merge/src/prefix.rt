//! A record's prefix as two numbers, so that two prefixes are compared in two steps at most.
ghost use Rattle.std.specs.Prelude.{◌≡◌, length};
ghost use Rattle.std.specs.Cmp.Lexicographic.{slice_cmp};
ghost use Rattle.std.specs.Ordering.{nat_cmp};
ghost use Rattle.std.specs.Int.{to_be_bytes, w64};
ghost use Rattle.run_merge.specs.Prefixes.{bytes_of, written};

use std::cmp::Ordering;

/// The 16 bytes of a prefix: the number that the first eight write, and that of the others.
#[derive(Clone, Copy, Debug)]
pub struct Prefix {
    pub(crate) high: u64,
    pub(crate) low: u64,
}

/// The numbers that the bytes of a prefix write.
pub(crate) fn numbers_of(bytes: [u8; 16]) -> Prefix
    ensures { written result ≡ bytes }
{
    let high = number_of(&bytes[..8]);
    let low = number_of(&bytes[8..]);
    Prefix { high, low }
}

/// The number that eight bytes write, the high one first.
fn number_of(bytes: &[u8]) -> u64
    requires { length bytes.now ≡ 8 }
    ensures { to_be_bytes w64 result ≡ bytes.now }
{
    match bytes.first_chunk::<8>() {
        Some(chunk) => u64::from_be_bytes(*chunk),
        None => unreachable!(),
    }
}

/// The order of the bytes of two prefixes.
pub(crate) fn by_prefix(one: Prefix, other: Prefix) -> Ordering
    ensures { result ≡ slice_cmp nat_cmp (written one) (written other) }
{
    by_numbers(one.high, one.low, other.high, other.low)
}

/// The same of their numbers.
fn by_numbers(high: u64, low: u64, other_high: u64, other_low: u64) -> Ordering
    ensures { result ≡ slice_cmp nat_cmp (bytes_of high low) (bytes_of other_high other_low) }
{
    match high.cmp(&other_high) {
        Ordering::Equal => low.cmp(&other_low),
        decided => decided,
    }
}
