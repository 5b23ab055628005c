ghost use Rattle.std.specs.Prelude.{◌≡◌, ◌+◌, ◌^◌, ◌<◌, ◌≤◌, length};
ghost use Rattle.paged_view.specs.Pages.{body, used, used_bytes, IsSameSegment};
ghost use Rattle.paged_view.specs.Writing.{written};

use segment_core::Segment;

/// How many bytes a page's header has.
pub const HEADER_SIZE: usize = 16;

/// The bytes of a page behind its header. It costs nothing.
pub fn body_of(page: &Segment) -> &[u8]
    ensures value { result.now ≡ body page.now }
    ensures some { 0 < length result.now }
    ensures most { length result.now ≤ 32752 }
{
    &page.bytes()[HEADER_SIZE..]
}

/// The used bytes of a page: as many behind its header as the header says, and all of them where it
/// says more. It costs nothing.
pub fn used_bytes(page: &Segment) -> &[u8]
    ensures value { result.now ≡ used_bytes page.now }
    ensures most { length result.now ≤ 32752 }
{
    let bytes = page.bytes();
    let used = u32::from_be_bytes([bytes[0], bytes[1], bytes[2], bytes[3]]) as usize;
    let body = &bytes[HEADER_SIZE..];
    &body[..used.min(body.len())]
}

// Writes bytes over those of a page from place `at` on.
pub(crate) fn write_at(page: &mut Segment, at: usize, bytes: &[u8])
    requires { at + length bytes.now ≤ length page.old.bytes }
    ensures { page.new ≡ written page.old at bytes.now }
{
    page.bytes_mut()[at..at + bytes.len()].copy_from_slice(bytes);
}

// Says in a page's header how many bytes are used.
pub(crate) fn set_used(page: &mut Segment, count: usize)
    requires { count < 2 ^ 32 }
    ensures used { used page.new ≡ count }
    ensures body { body page.new ≡ body page.old }
    ensures same { IsSameSegment page.old page.new }
{
    let _len = page.bytes().len();
    write_at(page, 0, &(count as u32).to_be_bytes());
}
