ghost use Rattle.std.specs.Prelude.{◌≡◌, ◌+◌, ◌≤◌, length, take, drop};

use crate::span::Span;

/// Some of a span's bytes, where they lie: those from a place on, so many. It copies no byte.
#[derive(Drop)]
pub struct Part<'a, X: Span> {
    row: &'a X,
    start: usize,
    len: usize,
    ghost inside: { start + len ≤ length (X.seen row.now) },
}

impl<'a, X: Span> Part<'a, X> {
    /// The `len` bytes from the place `start` on.
    pub fn of(row: &'a X, start: usize, len: usize) -> Part<'a, X>
        requires { start + len ≤ length (X.seen row.now) }
        ensures { take result.len (drop result.start (X.seen result.row.now)) ≡ take len (drop start (X.seen row.now)) }
    {
        Part { row, start, len }
    }
}

impl<X: Span> Span for Part<'_, X> {
    ghost seen = { λ p. take p.len (drop p.start (X.seen p.row.now)) };

    ghost is_one_piece = { λ p. X.is_one_piece p.row.now };

    fn len(&self) -> usize {
        self.len
    }

    fn at(&self, i: usize) -> u8 {
        // So that the place is seen not to overflow.
        let end = self.row.len();
        prove!(self.start <= end && i < end - self.start);
        self.row.at(self.start + i)
    }

    fn piece(&self, from: usize) -> &[u8] {
        // So that the place is seen not to overflow.
        let end = self.row.len();
        prove!(self.start <= end && from < end - self.start);
        let piece = self.row.piece(self.start + from);
        &piece[..piece.len().min(self.len - from)]
    }

    fn whole(&self) -> Option<&[u8]> {
        match self.row.whole() {
            Some(bytes) => Some(&bytes[self.start..self.start + self.len]),
            None => None,
        }
    }
}
