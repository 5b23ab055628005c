ghost use Rattle.std.specs.Prelude.{◌≡◌, ◌+◌, ◌-◌, ◌^◌, ◌<◌, ◌≤◌, ◌↔◌, [], ◌++◌, min, length, take, IsTrue};
ghost use Rattle.flow_types.specs.Records.{framed};
ghost use Rattle.paged_view.specs.Pages.{body, used_bytes, used, IsSameSegment};

use crate::page::{HEADER_SIZE, body_of, set_used, used_bytes, write_at};
use segment_core::Segment;
use span_bytes::span::Span;

/// Writes as many of these bytes behind the used ones of a page as it has room for. How many.
pub fn add_bytes(page: &mut Segment, bytes: &[u8]) -> usize
    requires { used page.old ≤ length (body page.old) }
    ensures count { result ≡ min (length bytes.now) (length (body page.old) - used page.old) }
    ensures used { used page.new ≡ used page.old + result }
    ensures used_bytes { used_bytes page.new ≡ used_bytes page.old ++ take result bytes.now }
    ensures same { IsSameSegment page.old page.new }
{
    let filled = used_bytes(page).len();
    let count = bytes.len().min(body_of(page).len() - filled);
    if count == 0 {
        return 0;
    }
    write_at(page, HEADER_SIZE + filled, &bytes[..count]);
    set_used(page, filled + count);
    count
}

/// Forgets what the page holds.
pub fn clear(page: &mut Segment)
    ensures used { used page.new ≡ 0 }
    ensures used_bytes { used_bytes page.new ≡ [] }
    ensures same { IsSameSegment page.old page.new }
{
    set_used(page, 0);
}

/// Says in the header how many bytes are used, where it said more than there are. How many they are.
pub fn trim(page: &mut Segment) -> usize
    ensures used { used page.new ≡ result }
    ensures within { used page.new ≤ length (body page.new) }
    ensures used_bytes { used_bytes page.new ≡ used_bytes page.old }
    ensures count { result ≡ length (used_bytes page.old) }
    ensures same { IsSameSegment page.old page.new }
{
    let filled = used_bytes(page).len();
    set_used(page, filled);
    filled
}

/// Whether the page has room for another byte.
pub fn has_space(page: &Segment) -> bool
    requires { used page.now ≤ length (body page.now) }
    ensures { IsTrue result ↔ (used page.now < length (body page.now)) }
{
    used_bytes(page).len() < body_of(page).len()
}

/// Whether the page has room for so many bytes more.
pub fn has_room(page: &Segment, need: usize) -> bool
    requires { used page.now ≤ length (body page.now) }
    ensures { IsTrue result ↔ (used page.now + need ≤ length (body page.now)) }
{
    need <= body_of(page).len() - used_bytes(page).len()
}

/// Writes a record behind the used bytes of a page that has room for it, its length first. Each byte is copied once.
pub fn add_record<X: Span>(page: &mut Segment, row: &X)
    requires len { length (X.seen row.now) < 2 ^ 32 }
    requires room { used page.old + (4 + length (X.seen row.now)) ≤ length (body page.old) }
    ensures used_bytes { used_bytes page.new ≡ used_bytes page.old ++ framed (X.seen row.now) }
    ensures used { used page.new ≡ used page.old + (4 + length (X.seen row.now)) }
    ensures same { IsSameSegment page.old page.new }
{
    let len = row.len();
    add_bytes(page, &(len as u32).to_be_bytes());
    add_span(page, row);
}

// Writes all bytes of a record behind the used ones of a page that has room for them.
fn add_span<X: Span>(page: &mut Segment, row: &X)
    requires { used page.old + length (X.seen row.now) ≤ length (body page.old) }
    ensures used_bytes { used_bytes page.new ≡ used_bytes page.old ++ X.seen row.now }
    ensures used { used page.new ≡ used page.old + length (X.seen row.now) }
    ensures same { IsSameSegment page.old page.new }
{
    let len = row.len();
    let mut at = 0;
    'pieces: while at < len {
        let piece = row.piece(at);
        add_bytes(page, piece);
        at += piece.len();
    }
}
