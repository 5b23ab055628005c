ghost use Rattle.std.specs.Prelude.{◌≡◌, ◌≤◌, ◌++◌, map, option_map, take, IsTrue, IfSome, Some, length};
ghost use Rattle.flow_types.specs.declared.value.Value.TheVariants as value;
ghost use Rattle.flow_types.specs.Limits.{record_limit};
ghost use Rattle.flow_types.specs.Values.{flag_of};
ghost use Rattle.flow_types.specs.Records.{form, tuple_of, IsRecord};
ghost use Rattle.flow_types.specs.Expressions.{val};
ghost use Rattle.flow_types.specs.ExprTypes.{type_of, typing_of, is_limited};
ghost use Rattle.expr_core.specs.Needs.{are_typed, widest_of, scratch_bytes};
ghost use Rattle.expr_core.specs.Joined.{joined_fields, joined_tuple};

use crate::columns::write_columns;
use crate::eval::eval;
use crate::scratch::Scratch;
use crate::source::{One, Two};
use flow_types::expr::Expr;
use flow_types::field_type::FieldType;
use flow_types::schema::Schema;
use span_bytes::span::Span;

/// Whether an expression of type Bool is true of a record. The record is looked at in place: a field
/// costs a step for each field before it, texts are compared up to the first byte that differs, and
/// only texts that are joined are written to the scratch. No memory is taken.
pub fn test<X: Span>(e: &Expr, left: &X, ls: &Schema, s: &mut Scratch) -> bool
    requires whole { IsRecord ls.now (X.seen left.now) }
    requires bool { type_of ls.now e.now ≡ Some FieldType.Bool }
    requires narrow { IsTrue (typing_of ls.now e.now).narrow }
    requires limited { IsTrue (is_limited e.now) }
    ensures value { val (tuple_of ls.now (X.seen left.now)) e.now ≡ value.Bool result }
    ensures flag { result ≡ flag_of (val (tuple_of ls.now (X.seen left.now)) e.now) }
{
    match left.whole() {
        Some(bytes) => test_in(e, &bytes, ls, s.bytes.as_mut_slice()),
        None => test_in(e, left, ls, s.bytes.as_mut_slice()),
    }
}

/// The same, whether the bytes lie in one piece or in several, with the room of the scratch.
fn test_in<X: Span>(e: &Expr, left: &X, ls: &Schema, room: &mut [u8]) -> bool
    requires whole { IsRecord ls.now (X.seen left.now) }
    requires bool { type_of ls.now e.now ≡ Some FieldType.Bool }
    requires narrow { IsTrue (typing_of ls.now e.now).narrow }
    requires limited { IsTrue (is_limited e.now) }
    requires space { length room.old ≡ scratch_bytes }
    ensures value { val (tuple_of ls.now (X.seen left.now)) e.now ≡ value.Bool result }
    ensures flag { result ≡ flag_of (val (tuple_of ls.now (X.seen left.now)) e.now) }
{
    let row = One {
        row: left,
        schema: ls,
    };
    eval(e, &row, room).flag()
}

/// The record of the columns' values at a record, or at two: then the columns are over the left
/// fields followed by the right ones. It lies in the scratch until that is used again. Each byte of it is
/// written once, and a byte of a joined text up to once more for each list around it; no memory is taken.
pub fn columns_into<'s, A: Span, B: Span>(
    cols: &[Expr],
    left: &A,
    ls: &Schema,
    right: Option<&B>,
    rs: &Schema,
    s: &'s mut Scratch,
) -> &'s [u8]
    requires left_whole { IsRecord ls.now (A.seen left.now) }
    requires right_whole { IfSome right (λ r. IsRecord rs.now (B.seen r.now)) }
    requires typed { IsTrue (are_typed (joined_fields ls.now rs.now (option_map (λ r. B.seen r.now) right)) cols.now) }
    requires small { widest_of (joined_fields ls.now rs.now (option_map (λ r. B.seen r.now) right)) cols.now
        ≤ record_limit }
    ensures bytes { result.now
        ≡ form (map (λ e. val (joined_tuple ls.now (A.seen left.now) rs.now (option_map
        (λ r. B.seen r.now) right.entry)) e) cols.now) }
    ensures small { length result.now ≤ record_limit }
{
    let len = write_record(cols, left, ls, right, rs, s.bytes.as_mut_slice());
    &s.bytes.as_slice()[..len]
}

/// Writes that record to the front of the room, and gives its length.
fn write_record<A: Span, B: Span>(
    cols: &[Expr],
    left: &A,
    ls: &Schema,
    right: Option<&B>,
    rs: &Schema,
    room: &mut [u8],
) -> usize
    requires left_whole { IsRecord ls.now (A.seen left.now) }
    requires right_whole { IfSome right (λ r. IsRecord rs.now (B.seen r.now)) }
    requires typed { IsTrue (are_typed (joined_fields ls.now rs.now (option_map (λ r. B.seen r.now) right)) cols.now) }
    requires small { widest_of (joined_fields ls.now rs.now (option_map (λ r. B.seen r.now) right)) cols.now
        ≤ record_limit }
    requires space { length room.old ≡ scratch_bytes }
    ensures bytes { take result room.new
        ≡ form (map (λ e. val (joined_tuple ls.now (A.seen left.now) rs.now (option_map
        (λ r. B.seen r.now) right.entry)) e) cols.now) }
    ensures small { result ≤ record_limit }
{
    match left.whole() {
        Some(bytes) => write_joined(cols, &bytes, ls, right, rs, room),
        None => write_joined(cols, left, ls, right, rs, room),
    }
}

/// The same, whether the left bytes lie in one piece or in several.
fn write_joined<A: Span, B: Span>(
    cols: &[Expr],
    left: &A,
    ls: &Schema,
    right: Option<&B>,
    rs: &Schema,
    room: &mut [u8],
) -> usize
    requires left_whole { IsRecord ls.now (A.seen left.now) }
    requires right_whole { IfSome right (λ r. IsRecord rs.now (B.seen r.now)) }
    requires typed { IsTrue (are_typed (joined_fields ls.now rs.now (option_map (λ r. B.seen r.now) right)) cols.now) }
    requires small { widest_of (joined_fields ls.now rs.now (option_map (λ r. B.seen r.now) right)) cols.now
        ≤ record_limit }
    requires space { length room.old ≡ scratch_bytes }
    ensures bytes { take result room.new
        ≡ form (map (λ e. val (joined_tuple ls.now (A.seen left.now) rs.now (option_map
        (λ r. B.seen r.now) right.entry)) e) cols.now) }
    ensures small { result ≤ record_limit }
{
    match right {
        None => {
            let row = One {
                row: left,
                schema: ls,
            };
            write_columns(cols, &row, room)
        }
        Some(right) => match right.whole() {
            Some(bytes) => write_two(cols, left, ls, &bytes, rs, room),
            None => write_two(cols, left, ls, right, rs, room),
        },
    }
}

/// The same of two records, whether the right bytes lie in one piece or in several.
fn write_two<A: Span, B: Span>(
    cols: &[Expr],
    left: &A,
    ls: &Schema,
    right: &B,
    rs: &Schema,
    room: &mut [u8],
) -> usize
    requires left_whole { IsRecord ls.now (A.seen left.now) }
    requires right_whole { IsRecord rs.now (B.seen right.now) }
    requires typed { IsTrue (are_typed (ls.now ++ rs.now) cols.now) }
    requires small { widest_of (ls.now ++ rs.now) cols.now ≤ record_limit }
    requires space { length room.old ≡ scratch_bytes }
    ensures bytes { take result room.new
        ≡ form (map (λ e. val (tuple_of ls.now (A.seen left.now) ++ tuple_of rs.now (B.seen right.now)) e) cols.now) }
    ensures small { result ≤ record_limit }
{
    let row = Two {
        left,
        left_schema: ls,
        right,
        right_schema: rs,
    };
    write_columns(cols, &row, room)
}
