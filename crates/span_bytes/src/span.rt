ghost use Rattle.std.specs.Prelude.{◌≡◌, ◌<◌, All, ℕ, Bool, true, List, length, take, drop, slice_index, is_some, IfSome};

/// Bytes that may lie in several pieces, as a record does that crosses pages. They are seen as one list.
pub trait Span {
    ghost seen: { Self → List ℕ };

    // Whether one slice is all of them.
    ghost is_one_piece: { Self → Bool };

    /// How many bytes there are.
    fn len(&self) -> usize
        ensures { result ≡ length (seen self.now) };

    /// The byte at a place from 0.
    fn at(&self, i: usize) -> u8
        requires { i < length (seen self.now) }
        ensures { result ≡ slice_index (seen self.now) i };

    /// The bytes from a place on, as far as they lie in one piece: at least one where there is one. So
    /// copies, hashes and comparisons go by pieces and not by bytes.
    fn piece(&self, from: usize) -> &[u8]
        requires { from < length (seen self.now) }
        ensures some { 0 < length result.now }
        ensures bytes { result.now ≡ take (length result.now) (drop from (seen self.now)) };

    /// All bytes in one slice, exactly where they lie in one piece. So a call may look once how the
    /// bytes lie, and then go over a slice.
    fn whole(&self) -> Option<&[u8]>
        ensures one { is_some result ≡ is_one_piece self.now }
        ensures bytes { IfSome result (λ s. s.now ≡ seen self.now) };
}

/// A slice is one piece.
impl Span for &[u8] {
    ghost seen = { λ s. s.now };

    ghost is_one_piece = { λ _. true };

    fn len(&self) -> usize {
        (*self).len()
    }

    fn at(&self, i: usize) -> u8 {
        self[i]
    }

    fn piece(&self, from: usize) -> &[u8] {
        &self[from..]
    }

    fn whole(&self) -> Option<&[u8]> {
        Some(*self)
    }
}

/// Goes over the pieces once. What is shown of a span is a list of numbers, and that these are bytes is
/// known of pieces that were read: so a call that doesn't read each byte learns it here, at the cost
/// of a look at each piece.
pub fn read_pieces<X: Span>(row: &X)
    ensures { All (λ b. b < 256) (X.seen row.now) }
{
    let len = row.len();
    let mut at = 0;
    while at < len {
        at += byte_count(row.piece(at));
    }
}

// How many bytes a slice has. Its first clause serves the proof alone.
fn byte_count(bytes: &[u8]) -> usize
    ensures bytes { All (λ b. b < 256) bytes.now }
    ensures count { result ≡ length bytes.now }
{
    bytes.len()
}
