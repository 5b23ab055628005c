ghost use Rattle.std.specs.Prelude.{◌≡◌};
ghost use Rattle.flow_types.specs.Segments.{segment_bytes};

/// The size of a segment, one of four.
#[derive(Clone, Copy, Debug, PartialEq, Eq)]
pub enum SegSize {
    K4,
    K8,
    K16,
    K32,
}

impl SegSize {
    /// The size in bytes.
    pub fn bytes(self) -> u32
        ensures { result ≡ segment_bytes self }
    {
        match self {
            SegSize::K4 => 4_096,
            SegSize::K8 => 8_192,
            SegSize::K16 => 16_384,
            SegSize::K32 => 32_768,
        }
    }
}
