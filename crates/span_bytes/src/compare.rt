ghost use Rattle.std.specs.Prelude.{◌≡◌};
ghost use Rattle.std.specs.Cmp.Lexicographic.{slice_cmp};
ghost use Rattle.std.specs.Ordering.{nat_cmp};

use crate::span::Span;
use std::cmp::Ordering;

/// The order of bytes: that of the first ones that differ, and else a proper front stands first. They are
/// compared in place, piece by piece, up to the first byte that differs.
pub fn compare_bytes<A: Span, B: Span>(a: &A, b: &B) -> Ordering
    ensures { result ≡ slice_cmp nat_cmp (A.seen a.now) (B.seen b.now) }
{
    let a_len = a.len();
    let b_len = b.len();
    let mut at = 0;
    'pieces: while at < a_len && at < b_len {
        let left = a.piece(at);
        let right = b.piece(at);
        let count = left.len().min(right.len());
        match left[..count].cmp(&right[..count]) {
            Ordering::Equal => at += count,
            decided => return decided,
        }
    }
    a_len.cmp(&b_len)
}
