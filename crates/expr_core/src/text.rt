ghost use Rattle.std.specs.Prelude.{◌≡◌, ◌+◌, ◌^◌, ◌≤◌, ◌<◌, length, take, drop, IsTrue};
ghost use Rattle.std.specs.Cmp.Lexicographic.{slice_cmp};
ghost use Rattle.std.specs.Ordering.{nat_cmp};
ghost use Rattle.flow_types.specs.Expressions.{cut, goes_on, cut_place};
ghost use Rattle.expr_core.specs.Places.{text_bytes, is_text_inside, held_by, lies_apart};

use crate::seen::{Origin, TextPlace};
use crate::source::Source;
use record_codec::encode::write_bytes;
use span_bytes::compare::compare_bytes;
use span_bytes::span::Span;
use std::cmp::Ordering;

/// The bytes of a text from a place on, as far as they lie in one piece.
fn piece<'a, R: Source>(text: &TextPlace<'a>, from: usize, row: &'a R, room: &'a [u8]) -> &'a [u8]
    requires inside { IsTrue (is_text_inside (R.seen row.now) room.now text.now) }
    requires from { from < text.now.len }
    ensures some { 0 < length result.now }
    ensures bound { from + length result.now ≤ text.now.len }
    ensures bytes { result.now ≡ take (length result.now) (drop from (text_bytes (R.seen row.now) room.now text.now)) }
{
    let len = usize::from(text.len);
    match text.origin {
        Origin::Record(start) => {
            let piece = row.piece(usize::from(start) + from);
            &piece[..piece.len().min(len - from)]
        }
        Origin::Literal(bytes) => &bytes[from..len],
        Origin::Room => &room[from..len],
    }
}

/// The bytes of a text, where they lie.
#[derive(Drop)]
struct TextBytes<'a, R: Source> {
    text: TextPlace<'a>,
    row: &'a R,
    room: &'a [u8],
    ghost inside: { IsTrue (is_text_inside (R.seen row.now) room.now text) },
}

impl<R: Source> Span for TextBytes<'_, R> {
    ghost seen = { λ t. text_bytes (R.seen t.row.now) t.room.now t.text };

    ghost is_one_piece = { λ t. lies_apart t.text.origin };

    fn len(&self) -> usize {
        usize::from(self.text.len)
    }

    fn at(&self, i: usize) -> u8 {
        piece(&self.text, i, self.row, self.room)[0]
    }

    fn piece(&self, from: usize) -> &[u8] {
        piece(&self.text, from, self.row, self.room)
    }

    fn whole(&self) -> Option<&[u8]> {
        let len = usize::from(self.text.len);
        match self.text.origin {
            Origin::Record(_) => None,
            Origin::Literal(bytes) => Some(&bytes[..len]),
            Origin::Room => Some(&self.room[..len]),
        }
    }
}

/// The order of two texts by their bytes. They are compared in place, piece by piece, up to the first
/// byte that differs.
pub(crate) fn compare_texts<'a, R: Source>(
    a: &TextPlace<'a>,
    b: &TextPlace<'a>,
    row: &'a R,
    room: &'a [u8],
    rest: &'a [u8],
) -> Ordering
    requires a_inside { IsTrue (is_text_inside (R.seen row.now) room.now a.now) }
    requires b_inside { IsTrue (is_text_inside (R.seen row.now) rest.now b.now) }
    ensures { result
        ≡ slice_cmp nat_cmp (text_bytes (R.seen row.now) room.now a.now) (text_bytes (R.seen row.now) rest.now b.now) }
{
    let left = TextBytes {
        text: *a,
        row,
        room,
    };
    let right = TextBytes {
        text: *b,
        row,
        room: rest,
    };
    compare_bytes(&left, &right)
}

/// The longest front of a text of at most so many bytes that ends between code points. No byte is
/// copied.
pub(crate) fn cut<'e, R: Source>(
    text: &TextPlace<'e>,
    most: u16,
    row: &R,
    room: &[u8],
) -> TextPlace<'e>
    requires { IsTrue (is_text_inside (R.seen row.now) room.now text.now) }
    ensures bytes { text_bytes (R.seen row.now) room.now result
        ≡ cut most (text_bytes (R.seen row.now) room.now text.now) }
    ensures inside { IsTrue (is_text_inside (R.seen row.now) room.now result) }
    ensures held { held_by result.len result.origin ≤ held_by text.now.len text.now.origin }
{
    if text.len <= most {
        return *text;
    }
    let len = place_to_cut(&*text, most, row, room);
    TextPlace {
        origin: text.origin,
        len,
    }
}

/// The greatest place at most `most` at which a text can be cut between code points.
fn place_to_cut<'a, R: Source>(text: &TextPlace<'a>, most: u16, row: &'a R, room: &'a [u8]) -> u16
    requires inside { IsTrue (is_text_inside (R.seen row.now) room.now text.now) }
    requires longer { most < text.now.len }
    ensures place { result ≡ cut_place (text_bytes (R.seen row.now) room.now text.now) most }
    ensures bound { result ≤ most }
{
    let mut len = most;
    while 0 < len && goes_on(piece(text, usize::from(len), row, room)[0]) {
        len -= 1;
    }
    len
}

/// Whether a byte goes on with a code point.
fn goes_on(byte: u8) -> bool
    ensures { result ≡ goes_on byte }
{
    128 <= byte && byte < 192
}

/// Brings a text to the front of the room, where it doesn't lie there already.
pub(crate) fn bring<R: Source>(text: &TextPlace<'_>, row: &R, room: &mut [u8])
    requires inside { IsTrue (is_text_inside (R.seen row.now) room.old text.now) }
    requires space { text.now.len ≤ length room.old }
    ensures front { take text.now.len room.new ≡ text_bytes (R.seen row.now) room.old text.now }
    ensures rest { drop text.now.len room.new ≡ drop text.now.len room.old }
{
    match text.origin {
        Origin::Record(start) => copy_record(usize::from(start), usize::from(text.len), row, room),
        Origin::Literal(bytes) => {
            write_bytes(room, 0, &bytes[..usize::from(text.len)]);
        }
        Origin::Room => {}
    }
}

/// Copies bytes of the record to the front of the room, piece by piece.
fn copy_record<R: Source>(start: usize, len: usize, row: &R, room: &mut [u8])
    requires inside { len ≤ length (drop start (R.seen row.now)) }
    requires space { len ≤ length room.old }
    requires small { start + len < 2 ^ 32 }
    ensures front { take len room.new ≡ take len (drop start (R.seen row.now)) }
    ensures rest { drop len room.new ≡ drop len room.old }
{
    let mut at = 0;
    while at < len {
        let piece = row.piece(start + at);
        let count = piece.len().min(len - at);
        at = write_bytes(room, at, &piece[..count]);
    }
}
