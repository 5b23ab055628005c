ghost use Rattle.std.specs.Prelude.{◌≡◌, ℕ, List, ◌+◌, ◌≤◌, ◌++◌, length, take, drop, IsTrue};
ghost use Rattle.flow_types.specs.declared.value.Value.TheVariants as value;
ghost use Rattle.flow_types.specs.Limits.{text_limit};
ghost use Rattle.flow_types.specs.Values.{bytes_of, value_cmp};
ghost use Rattle.flow_types.specs.Expressions.{apply_one, apply_two, cut};
ghost use Rattle.expr_core.specs.Places.{text_bytes, value_in, is_inside, is_text_inside, held, held_by};

use crate::seen::{Origin, Seen, TextPlace};
use crate::source::Source;
use crate::text::{bring, compare_texts, cut};
use flow_types::arithmetic::{difference, product, quotient, remainder, sum};
use flow_types::expr::{BinOp, UnOp};
use std::cmp::Ordering;

/// An operation on one value.
pub(crate) fn apply_one<'e>(op: UnOp, a: &Seen<'_>) -> Seen<'e>
    ensures value { (bytes room : List ℕ) → IsTrue (is_inside bytes room a.now) → value_in bytes room result
        ≡ apply_one op (value_in bytes room a.now) }
    ensures inside { (bytes room : List ℕ) → IsTrue (is_inside bytes room result) }
{
    match op {
        UnOp::Not => Seen::Bool(!a.flag()),
        UnOp::Len => Seen::Long(i64::from(a.text().len)),
    }
}

/// An operation on two values. What the first takes of the room stands at its front, and what the
/// second takes behind that.
pub(crate) fn apply_two<'e, R: Source>(
    op: BinOp,
    a: &Seen<'e>,
    b: &Seen<'e>,
    row: &R,
    room: &mut [u8],
) -> Seen<'e>
    requires a_inside { IsTrue (is_inside (R.seen row.now) room.old a.now) }
    requires b_inside { IsTrue (is_inside (R.seen row.now) (drop (held a.now) room.old) b.now) }
    requires space { text_limit ≤ length room.old }
    requires short { length (bytes_of (apply_two op (value_in (R.seen row.now) room.old a.now)
        (value_in (R.seen row.now) (drop (held a.now) room.old) b.now))) ≤ text_limit }
    ensures value { value_in (R.seen row.now) room.new result
        ≡ apply_two op (value_in (R.seen row.now) room.old a.now) (value_in (R.seen row.now)
        (drop (held a.now) room.old) b.now) }
    ensures inside { IsTrue (is_inside (R.seen row.now) room.new result) }
{
    match op {
        BinOp::Add => Seen::Long(sum(a.long(), b.long())),
        BinOp::Sub => Seen::Long(difference(a.long(), b.long())),
        BinOp::Mul => Seen::Long(product(a.long(), b.long())),
        BinOp::Div => Seen::Long(quotient(a.long(), b.long())),
        BinOp::Rem => Seen::Long(remainder(a.long(), b.long())),
        BinOp::Eq => Seen::Bool(compare(a, b, row, room).is_eq()),
        BinOp::Ne => Seen::Bool(compare(a, b, row, room).is_ne()),
        BinOp::Lt => Seen::Bool(compare(a, b, row, room).is_lt()),
        BinOp::Le => Seen::Bool(compare(a, b, row, room).is_le()),
        BinOp::Gt => Seen::Bool(compare(a, b, row, room).is_gt()),
        BinOp::Ge => Seen::Bool(compare(a, b, row, room).is_ge()),
        BinOp::And => Seen::Bool(a.flag() && b.flag()),
        BinOp::Or => Seen::Bool(a.flag() || b.flag()),
        BinOp::Cat => Seen::Str(cat(&a.text(), &b.text(), row, room)),
    }
}

/// The order of two values, texts compared where they lie.
fn compare<'a, R: Source>(a: &Seen<'a>, b: &Seen<'a>, row: &'a R, room: &'a [u8]) -> Ordering
    requires a_inside { IsTrue (is_inside (R.seen row.now) room.now a.now) }
    requires b_inside { IsTrue (is_inside (R.seen row.now) (drop (held a.now) room.now) b.now) }
    ensures { result
        ≡ value_cmp (value_in (R.seen row.now) room.now a.now) (value_in (R.seen row.now)
        (drop (held a.now) room.now) b.now) }
{
    match a {
        Seen::Long(x) => match b {
            Seen::Long(y) => x.cmp(y),
            Seen::Bool(_) | Seen::Str(_) => Ordering::Less,
        },
        Seen::Bool(x) => match b {
            Seen::Long(_) => Ordering::Greater,
            Seen::Bool(y) => x.cmp(y),
            Seen::Str(_) => Ordering::Less,
        },
        Seen::Str(x) => match b {
            Seen::Long(_) | Seen::Bool(_) => Ordering::Greater,
            Seen::Str(y) => compare_texts(x, y, row, room, &room[x.held()..]),
        },
    }
}

/// The longest front of a text of at most so many bytes that ends between code points.
pub(crate) fn cut_seen<'e, R: Source>(a: &Seen<'e>, most: u16, row: &R, room: &[u8]) -> Seen<'e>
    requires { IsTrue (is_inside (R.seen row.now) room.now a.now) }
    ensures value { value_in (R.seen row.now) room.now result
        ≡ value.Str (cut most (bytes_of (value_in (R.seen row.now) room.now a.now))) }
    ensures inside { IsTrue (is_inside (R.seen row.now) room.now result) }
{
    Seen::Str(cut(&a.text(), most, row, room))
}

/// One text followed by another, at the front of the room. A text that lies there already isn't
/// copied.
fn cat<'e, R: Source>(
    a: &TextPlace<'_>,
    b: &TextPlace<'_>,
    row: &R,
    room: &mut [u8],
) -> TextPlace<'e>
    requires a_inside { IsTrue (is_text_inside (R.seen row.now) room.old a.now) }
    requires b_inside { IsTrue (is_text_inside (R.seen row.now)
        (drop (held_by a.now.len a.now.origin) room.old) b.now) }
    requires space { text_limit ≤ length room.old }
    requires short { a.now.len + b.now.len ≤ text_limit }
    ensures bytes { text_bytes (R.seen row.now) room.new result
        ≡ text_bytes (R.seen row.now) room.old a.now
        ++ text_bytes (R.seen row.now) (drop (held_by a.now.len a.now.origin) room.old) b.now }
    ensures inside { IsTrue (is_text_inside (R.seen row.now) room.new result) }
{
    put_behind(b, a.held(), usize::from(a.len), row, room);
    bring(a, row, room);
    TextPlace {
        origin: Origin::Room,
        len: a.len + b.len,
    }
}

/// Brings a text to a place of the room. Where it lies in the room, it lies behind what is held there,
/// at most so far from the front.
fn put_behind<R: Source>(text: &TextPlace<'_>, held: usize, place: usize, row: &R, room: &mut [u8])
    requires inside { IsTrue (is_text_inside (R.seen row.now) (drop held room.old) text.now) }
    requires order { held ≤ place }
    requires space { place + text.now.len ≤ length room.old }
    ensures bytes { take text.now.len (drop place room.new)
        ≡ text_bytes (R.seen row.now) (drop held room.old) text.now }
    ensures front { take place room.new ≡ take place room.old }
{
    match text.origin {
        Origin::Room => move_up(room, held, usize::from(text.len), place),
        Origin::Record(_) | Origin::Literal(_) => bring(text, row, &mut room[place..]),
    }
}

/// Moves bytes of the room up to a place.
fn move_up(room: &mut [u8], from: usize, len: usize, place: usize)
    requires order { from ≤ place }
    requires space { place + len ≤ length room.old }
    ensures bytes { take len (drop place room.new) ≡ take len (drop from room.old) }
    ensures front { take place room.new ≡ take place room.old }
{
    if from == place {
        return;
    }
    room.copy_within(from..from + len, place);
}
