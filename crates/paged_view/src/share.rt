ghost use Rattle.std.specs.Prelude.{◌≡◌, ◌≤◌, length};
ghost use Rattle.paged_view.specs.Shares.{share_of};

use crate::page::{body_of, used_bytes};
use segment_core::Segment;

/// Which bytes of a segment hold records.
#[derive(Clone, Copy, Debug, PartialEq, Eq)]
pub enum Share {
    /// The used bytes behind the header, as the header says.
    Used,
    /// All bytes behind the header.
    Body,
    /// All bytes: the segment has no header.
    Whole,
}

/// The bytes of a segment that hold records. It costs nothing.
pub fn bytes_of(segment: &Segment, share: Share) -> &[u8]
    ensures value { result.now ≡ share_of share segment.now }
    ensures most { length result.now ≤ 32768 }
{
    match share {
        Share::Used => used_bytes(segment),
        Share::Body => body_of(segment),
        Share::Whole => segment.bytes(),
    }
}
