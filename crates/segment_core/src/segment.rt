ghost use Rattle.std.specs.Prelude.{◌≡◌, ◌≤◌, length};
ghost use Rattle.std.specs.Borrow.{sem};

use std::marker::Model;

/// The fewest bytes of a segment.
pub const SMALLEST_SIZE: u32 = 4_096;

/// The most bytes of a segment.
pub const LARGEST_SIZE: u32 = 32_768;

/// A block of memory with an id of its own. Only a pool makes one and only a pool ends one. It isn't
/// copied and may not be let go: whoever has one has to hand it on.
pub struct Segment {
    id: u32,
    bytes: Vec<u8>,
}

impl Model for Segment {
    ghost use Rattle.std.specs.Prelude.{◌≤◌, vec_len};
    ghost use Rattle.segment_core.specs.Segments.{SegmentView};
    ghost use Rattle.segment_core.specs.declared.segment.TheConstants.{SMALLEST_SIZE, LARGEST_SIZE};

    ghost Value = { SegmentView };

    ghost view = { λ s. record { id = s.id; bytes = s.bytes.items } };

    ghost invariant = { λ s. (SMALLEST_SIZE ≤ vec_len s.bytes) × (vec_len s.bytes ≤ LARGEST_SIZE) };
}

impl Segment {
    ghost use Rattle.segment_core.specs.Lending.{LendsBytes};

    // The segment of this id, which takes the bytes as its memory.
    pub(super) fn of_bytes(id: u32, bytes: Vec<u8>) -> Segment
        requires smallest { SMALLEST_SIZE ≤ length bytes.items }
        requires largest { length bytes.items ≤ LARGEST_SIZE }
        ensures { result ≡ record { id = id; bytes = bytes.items } }
    {
        let _len = bytes.len();
        Segment { id, bytes }
    }

    /// Which segment of its pool it is, from 0.
    pub fn id(&self) -> u32
        ensures { result ≡ self.now.id }
    {
        self.id
    }

    /// Its bytes: 4,096, 8,192, 16,384 or 32,768 of them.
    pub fn bytes(&self) -> &[u8]
        ensures value { result.now ≡ self.now.bytes }
        ensures smallest { SMALLEST_SIZE ≤ length self.now.bytes }
        ensures largest { length self.now.bytes ≤ LARGEST_SIZE }
    {
        self.bytes.as_slice()
    }

    /// Its bytes, to be written. Their number stays, and so does the id.
    pub fn bytes_mut(&mut self) -> &mut [u8]
        ensures* writes_back { sem 𝓛 (LendsBytes self.entry result) }
        ensures value { result.now ≡ self.old.bytes }
    {
        self.bytes.as_mut_slice()
    }

    // Gives the segment's memory back.
    pub(super) fn destroy(self) {
        let Segment { id: _, bytes: _ } = self;
    }
}
