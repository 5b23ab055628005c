ghost use Rattle.std.specs.Prelude.{◌≡◌, ◌+◌, ◌≤◌, IfOk, length, vec_len};

use paged_view::record_ref::RecordRef;
use span_bytes::span::Span;
use std::alloc::{AllocError, Global};

/// The numbers 0 to 250, over and over.
pub(crate) fn pattern(alloc: Global, count: usize) -> Result<Vec<u8>, AllocError>
    ensures { IfOk result (λ bytes. vec_len bytes ≡ count) }
{
    let mut bytes = Vec::new(alloc);
    for i in 0..count {
        bytes.push((i % 251) as u8)?;
    }
    Ok(bytes)
}

/// The record of a number: so many bytes of the pattern, from the number's place on.
pub(crate) fn row_of(bytes: &[u8], number: usize, len: usize) -> &[u8]
    requires { len + 251 ≤ length bytes.now }
    ensures { length result.now ≡ len }
{
    let start = number % 251;
    &bytes[start..start + len]
}

/// The framed records of the first numbers, so many of them.
pub(crate) fn framed_rows(
    alloc: Global,
    bytes: &[u8],
    count: usize,
    len: u32,
) -> Result<Vec<u8>, AllocError>
    requires { len + 251 ≤ length bytes.now }
{
    let mut all = Vec::new(alloc);
    for number in 0..count {
        all.extend_from_slice(&len.to_be_bytes())?;
        all.extend_from_slice(row_of(bytes, number, len as usize))?;
    }
    Ok(all)
}

/// Whether a record is this one.
pub(crate) fn is_row(seen: &RecordRef<'_>, row: &[u8]) -> bool {
    let len = seen.len();
    if len != row.len() {
        return false;
    }
    for i in 0..len {
        if seen.at(i) != row[i] {
            return false;
        }
    }
    true
}
