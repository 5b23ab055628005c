ghost use Rattle.std.specs.Prelude.{◌≡◌, ◌+◌, ◌≤◌, ◌&&◌, length, take, drop, map, IsTrue};
ghost use Rattle.flow_types.specs.Limits.{text_limit, record_limit};
ghost use Rattle.flow_types.specs.Values.{bytes_of};
ghost use Rattle.flow_types.specs.Types.{fits};
ghost use Rattle.flow_types.specs.Records.{form, value_form};
ghost use Rattle.flow_types.specs.Expressions.{val};
ghost use Rattle.flow_types.specs.ExprTypes.{is_limited};
ghost use Rattle.expr_core.specs.Places.{value_in, is_inside};
ghost use Rattle.expr_core.specs.Needs.{is_typed, are_typed, widest_of, column_room};

use crate::eval::eval;
use crate::seen::Seen;
use crate::source::Source;
use crate::text::bring;
use flow_types::expr::Expr;
use record_codec::encode::write_bytes;

/// Writes the record of the columns' values to the front of the room, and gives its length.
pub(crate) fn write_columns<R: Source>(columns: &[Expr], row: &R, room: &mut [u8]) -> usize
    requires whole { R.IsWhole row.now }
    requires fitting { IsTrue (fits (R.fields row.now) (R.tuple row.now)) }
    requires typed { IsTrue (are_typed (R.fields row.now) columns.now) }
    requires small { widest_of (R.fields row.now) columns.now ≤ record_limit }
    requires space { record_limit + column_room ≤ length room.old }
    ensures bytes { take result room.new ≡ form (map (λ e. val (R.tuple row.now) e) columns.now) }
    ensures small { result ≤ record_limit }
{
    let mut start = 0;
    for column in columns {
        start += write_column(column, row, &mut room[start..]);
    }
    start
}

/// Writes the form of a column's value to the front of the room, and gives its length.
fn write_column<R: Source>(column: &Expr, row: &R, room: &mut [u8]) -> usize
    requires whole { R.IsWhole row.now }
    requires fitting { IsTrue (fits (R.fields row.now) (R.tuple row.now)) }
    requires typed { IsTrue (is_typed (R.fields row.now) column.now && is_limited column.now) }
    requires space { column_room ≤ length room.old }
    ensures bytes { take result room.new ≡ value_form (val (R.tuple row.now) column.now) }
    ensures len { result ≡ length (value_form (val (R.tuple row.now) column.now)) }
{
    let seen = eval(column, row, &mut room[2..]);
    write_form(&seen, row, room)
}

/// Writes the form of a value to the front of the room, behind whose first two bytes it was evaluated.
fn write_form<R: Source>(seen: &Seen<'_>, row: &R, room: &mut [u8]) -> usize
    requires inside { IsTrue (is_inside (R.seen row.now) (drop 2 room.old) seen.now) }
    requires short { length (bytes_of (value_in (R.seen row.now) (drop 2 room.old) seen.now)) ≤ text_limit }
    requires space { record_limit ≤ length room.old }
    ensures bytes { take result room.new ≡ value_form (value_in (R.seen row.now) (drop 2 room.old) seen.now) }
    ensures len { result ≡ length (value_form (value_in (R.seen row.now) (drop 2 room.old) seen.now)) }
{
    match seen {
        Seen::Long(number) => write_bytes(room, 0, &number.to_be_bytes()),
        Seen::Bool(flag) => write_bytes(room, 0, &[u8::from(*flag)]),
        Seen::Str(text) => {
            bring(text, row, &mut room[2..]);
            write_bytes(room, 0, &text.len.to_be_bytes()) + usize::from(text.len)
        }
    }
}
