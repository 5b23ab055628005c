ghost use Rattle.std.specs.Prelude.{◌≡◌, ◌↔◌, ◌<◌, ◌≤◌, IsTrue, length};
ghost use Rattle.paged_view.specs.Pages.{body, used_bytes, used, IsSameSegment};
ghost use Rattle.spool.specs.Headers.{IsSound, as_page, header_number, next_of, number_of, stamped, with_header};

use paged_view::page::HEADER_SIZE;
use segment_core::Segment;

/// How many numbers of pages a header can hold.
const NUMBERS: u64 = 1 << 32;

/// Whether these bytes may be the page of this number in a run.
pub(crate) fn is_sound(page: &[u8], number: u64) -> bool
    requires { HEADER_SIZE ≤ length page.now }
    ensures { IsTrue result ↔ IsSound number page.now }
{
    let used = used_in(page) as usize;
    let body = body_len(page);
    used > 0 && used <= body && number_in(page) == as_header_number(number)
}

/// The number that stands in the header of this page of a run.
fn as_header_number(number: u64) -> u32
    ensures { result ≡ header_number number }
{
    (number % NUMBERS) as u32
}

/// How many of its bytes are used, as the page's header says.
fn used_in(page: &[u8]) -> u32
    requires { HEADER_SIZE ≤ length page.now }
    ensures { result ≡ used (as_page page.now) }
{
    u32::from_be_bytes([page[0], page[1], page[2], page[3]])
}

/// How many bytes stand behind the page's header.
fn body_len(page: &[u8]) -> usize
    requires { HEADER_SIZE ≤ length page.now }
    ensures { result ≡ length (body (as_page page.now)) }
{
    page.len() - HEADER_SIZE
}

/// The page's number in its run, as its header says.
fn number_in(page: &[u8]) -> u32
    requires { HEADER_SIZE ≤ length page.now }
    ensures { result ≡ number_of page.now }
{
    u32::from_be_bytes([page[4], page[5], page[6], page[7]])
}

/// The next page's block, as its header says.
pub(crate) fn next_block(page: &[u8]) -> u64
    requires { HEADER_SIZE ≤ length page.now }
    ensures { result ≡ next_of page.now }
{
    u64::from_be_bytes([
        page[8], page[9], page[10], page[11], page[12], page[13], page[14], page[15],
    ])
}

/// Writes a page's number and the next page's block into its header.
pub(crate) fn stamp(page: &mut Segment, number: u64, next: u64)
    ensures bytes { page.new.bytes ≡ stamped page.old.bytes number next }
    ensures same { IsSameSegment page.old page.new }
    ensures text { used_bytes page.new ≡ used_bytes page.old }
    ensures names { next_of page.new.bytes ≡ next }
    ensures sound { 0 < used page.old → used page.old ≤ length (body page.old) →
        IsSound number page.new.bytes }
{
    let _len = page.bytes().len();
    write_header(page.bytes_mut(), as_header_number(number), next);
}

/// Writes both over bytes 4 to 15.
fn write_header(bytes: &mut [u8], number: u32, next: u64)
    requires { HEADER_SIZE ≤ length bytes.old }
    ensures { bytes.new ≡ with_header bytes.old number next }
{
    bytes[4..8].copy_from_slice(&number.to_be_bytes());
    bytes[8..16].copy_from_slice(&next.to_be_bytes());
}
