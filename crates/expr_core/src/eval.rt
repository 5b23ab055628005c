ghost use Rattle.std.specs.Prelude.{◌≡◌, ◌≤◌, length, IsTrue};
ghost use Rattle.flow_types.specs.Limits.{text_limit};
ghost use Rattle.flow_types.specs.Values.{bytes_of};
ghost use Rattle.flow_types.specs.Types.{fits};
ghost use Rattle.flow_types.specs.Expressions.{val};
ghost use Rattle.expr_core.specs.Places.{value_in, is_inside};
ghost use Rattle.expr_core.specs.Needs.{is_typed, room_of};

use crate::operation::{apply_one, apply_two, cut_seen};
use crate::seen::{Seen, literal};
use crate::source::Source;
use flow_types::expr::Expr;

/// The value of an expression, seen where it lies. Texts are written to the room only where they are
/// joined; what of the room is behind the value's own bytes has no meaning then.
#[tactic(auto, using(crate::proofs::ExprLemmas::short_value))]
pub(crate) fn eval<'e, R: Source>(expr: &'e Expr, row: &R, room: &mut [u8]) -> Seen<'e>
    requires whole { R.IsWhole row.now }
    requires fitting { IsTrue (fits (R.fields row.now) (R.tuple row.now)) }
    requires typed { IsTrue (is_typed (R.fields row.now) expr.now) }
    requires space { room_of expr.now ≤ length room.old }
    ensures value { value_in (R.seen row.now) room.new result ≡ val (R.tuple row.now) expr.now }
    ensures inside { IsTrue (is_inside (R.seen row.now) room.new result) }
    ensures short { length (bytes_of (val (R.tuple row.now) expr.now)) ≤ text_limit }
{
    match expr {
        Expr::Lit(value) => literal(value),
        Expr::Field(number) => row.field(*number),
        Expr::Un(op, a) => {
            let a = eval(a.get(), row, room);
            apply_one(*op, &a)
        }
        Expr::Bin(op, a, b) => {
            let a = eval(a.get(), row, room);
            let b = eval(b.get(), row, &mut room[a.held()..]);
            apply_two(*op, &a, &b, row, room)
        }
        Expr::If(c, a, b) => {
            let c = eval(c.get(), row, room);
            if c.flag() {
                eval(a.get(), row, room)
            } else {
                eval(b.get(), row, room)
            }
        }
        Expr::Cut(a, most) => {
            let a = eval(a.get(), row, room);
            cut_seen(&a, *most, row, room)
        }
    }
}
