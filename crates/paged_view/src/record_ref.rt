ghost use Rattle.std.specs.Prelude.{◌≡◌, ◌+◌, ◌-◌, ◌<◌, ◌≤◌, ◌++◌, length, take, drop, MatchResult};
ghost use Rattle.paged_view.specs.Shares.{shares};

use crate::share::{Share, bytes_of};
use segment_core::Segment;
use span_bytes::span::Span;

/// A record that is borrowed from where it lies, in one piece or in several. It copies no byte.
#[derive(Clone, Copy)]
pub struct RecordRef<'a> {
    first: &'a [u8],
    near: &'a [Segment],
    far: &'a [Segment],
    share: Share,
    len: usize,
    ghost fits: { len ≤ length first.now + (length (shares share near.now) + length (shares share far.now)) },
}

impl<'a> RecordRef<'a> {
    ghost use Rattle.paged_view.specs.Seen.{seen_in};

    /// The record of `len` bytes that begins in `first` and goes on in the segments of `near` and
    /// then of `far`, in their bytes by `share`.
    pub fn of(
        first: &'a [u8],
        near: &'a [Segment],
        far: &'a [Segment],
        share: Share,
        len: usize,
    ) -> RecordRef<'a>
        requires { len ≤ length first.now + (length (shares share near.now) + length (shares share far.now)) }
        ensures { seen_in result
            ≡ take len (first.now ++ (shares share near.now ++ shares share far.now)) }
    {
        RecordRef {
            first,
            near,
            far,
            share,
            len,
        }
    }

    // The bytes from a place on, as far as they lie in one piece. It may show bytes behind the record's
    // end.
    fn tail(&self, from: usize) -> &'a [u8]
        requires { from < length self.now.first.now
            + (length (shares self.now.share self.now.near.now) + length (shares self.now.share self.now.far.now)) }
        ensures some { 0 < length result.now }
        ensures bytes { result.now ≡ take (length result.now) (drop from (self.now.first.now
            ++ (shares self.now.share self.now.near.now ++ shares self.now.share self.now.far.now))) }
    {
        if from < self.first.len() {
            return &self.first[from..];
        }
        match find(self.near, self.share, from - self.first.len()) {
            Ok(piece) => piece,
            Err(left) => match find(self.far, self.share, left) {
                Ok(piece) => piece,
                Err(_) => unreachable!(),
            },
        }
    }
}

impl Span for RecordRef<'_> {
    ghost use Rattle.paged_view.specs.Seen.{seen_in, lies_in_first};

    ghost seen = { seen_in };

    ghost is_one_piece = { lies_in_first };

    fn len(&self) -> usize {
        self.len
    }

    fn at(&self, i: usize) -> u8 {
        self.tail(i)[0]
    }

    fn piece(&self, from: usize) -> &[u8] {
        let tail = self.tail(from);
        &tail[..tail.len().min(self.len - from)]
    }

    fn whole(&self) -> Option<&[u8]> {
        if self.len <= self.first.len() {
            Some(&self.first[..self.len])
        } else {
            None
        }
    }
}

// The bytes of segments from a place on, as far as they lie in one segment, or how far behind their
// end the place is.
fn find(segments: &[Segment], share: Share, from: usize) -> Result<&[u8], usize>
    ensures { MatchResult result
        (λ piece. (0 < length piece.now)
        × (piece.now ≡ take (length piece.now) (drop from (shares share segments.now))))
        (λ left. from ≡ length (shares share segments.now) + left) }
{
    let mut left = from;
    for segment in segments {
        let bytes = bytes_of(segment, share);
        if left < bytes.len() {
            return Ok(&bytes[left..]);
        }
        left -= bytes.len();
    }
    Err(left)
}
