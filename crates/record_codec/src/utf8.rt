ghost use Rattle.std.specs.Prelude.{◌≡◌, ℕ, ◌+◌, ◌-◌, ◌<◌, ◌≤◌, ◌↔◌, length, take, drop, IsTrue};
ghost use Rattle.std.specs.Str.{IsUtf8};

use span_bytes::span::Span;
use std::str;

/// Whether the bytes from `start` to `end` are UTF-8. Each piece is tested where it lies; a character
/// that the end of a piece cuts is put together from up to four bytes.
pub(crate) fn is_utf8<X: Span>(row: &X, start: usize, end: usize) -> bool
    requires order { start ≤ end }
    requires inside { end ≤ length (X.seen row.now) }
    ensures { IsTrue result ↔ IsUtf8 (take (end - start) (drop start (X.seen row.now))) }
{
    let mut at = start;
    while at < end {
        let whole = whole_at(row, at, end);
        if whole == 0 {
            return false;
        }
        at += whole;
    }
    true
}

/// The length of some whole characters from `at` on, of at least one where there is one: 0 only where
/// the bytes up to `end` are no UTF-8.
fn whole_at<X: Span>(row: &X, at: usize, end: usize) -> usize
    requires order { at < end }
    requires inside { end ≤ length (X.seen row.now) }
    ensures bound { result ≤ end - at }
    ensures whole { IsUtf8 (take result (drop at (X.seen row.now))) }
    ensures none { result ≡ 0 → ¬ IsUtf8 (take (end - at) (drop at (X.seen row.now))) }
{
    let piece = row.piece(at);
    let whole = valid_len(&piece[..piece.len().min(end - at)]);
    if 0 < whole {
        return whole;
    }
    whole_at_seam(row, at, end)
}

/// The same where the character from `at` on may lie in several pieces: it has four bytes at most.
fn whole_at_seam<X: Span>(row: &X, at: usize, end: usize) -> usize
    requires order { at < end }
    requires inside { end ≤ length (X.seen row.now) }
    ensures bound { result ≤ end - at }
    ensures whole { IsUtf8 (take result (drop at (X.seen row.now))) }
    ensures none { result ≡ 0 → ¬ IsUtf8 (take (end - at) (drop at (X.seen row.now))) }
{
    let mut front = [0; 4];
    let count = (end - at).min(4);
    for i in 0..count {
        front[i] = row.at(at + i);
    }
    valid_len(&front[..count])
}

/// The length of the longest front that is UTF-8.
fn valid_len(bytes: &[u8]) -> usize
    ensures bound { result ≤ length bytes.now }
    ensures valid { IsUtf8 (take result bytes.now) }
    ensures longest { (n : ℕ) → result < n → n ≤ length bytes.now → ¬ IsUtf8 (take n bytes.now) }
{
    match str::from_utf8(bytes) {
        Ok(_) => bytes.len(),
        Err(error) => error.valid_up_to(),
    }
}
