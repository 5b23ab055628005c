ghost use Rattle.std.specs.Prelude.{false};

use span_bytes::span::Span;

/// Bytes in pieces of at most `size`, and of at least one byte. They are never shown whole.
#[derive(Clone, Copy)]
pub struct Pieces<'a> {
    pub bytes: &'a [u8],
    pub size: usize,
}

impl<'a> Span for Pieces<'a> {
    ghost seen = { λ p. p.bytes.now };

    ghost is_one_piece = { λ p. false };

    fn len(&self) -> usize {
        self.bytes.len()
    }

    fn at(&self, i: usize) -> u8 {
        self.bytes[i]
    }

    fn piece(&self, from: usize) -> &[u8] {
        let rest = &self.bytes[from..];
        &rest[..rest.len().min(self.size.max(1))]
    }

    fn whole(&self) -> Option<&[u8]> {
        None
    }
}
