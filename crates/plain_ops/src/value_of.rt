ghost use Rattle.std.specs.Prelude.{◌≡◌, ◌++◌, IfOk};
ghost use Rattle.flow_types.specs.declared.value.Value.TheVariants as value;
ghost use Rattle.flow_types.specs.Values.{bytes_of};
ghost use Rattle.flow_types.specs.Expressions.{cut, apply_one, apply_two, val};

use crate::cut::cut;
use crate::values::{copy_field, flag_of, long_of, str_value, text_of};
use flow_outside::failure::Memory;
use flow_types::arithmetic::{difference, product, quotient, remainder, sum};
use flow_types::expr::{BinOp, Expr, UnOp};
use flow_types::value::{Value, compare};
use std::alloc::Global;

/// The value of an expression at a tuple. A text that passes a text's limit, which no expression of
/// an accepted plan has, is answered as want of memory. The cost is a copy of each text on the way.
pub fn value_of(alloc: Global, expr: &Expr, tuple: &[Value]) -> Result<Value, Memory>
    ensures { IfOk result (λ v. v ≡ val tuple.now expr.now) }
{
    match expr {
        Expr::Lit(value) => value.copy(alloc),
        Expr::Field(number) => copy_field(alloc, tuple, *number),
        Expr::Un(op, a) => {
            let a = value_of(alloc, a.get(), tuple)?;
            Ok(apply_one(*op, &a))
        }
        Expr::Bin(op, a, b) => {
            let a = value_of(alloc, a.get(), tuple)?;
            let b = value_of(alloc, b.get(), tuple)?;
            apply_two(alloc, *op, &a, &b)
        }
        Expr::If(c, a, b) => {
            let c = value_of(alloc, c.get(), tuple)?;
            let side = if flag_of(&c) { a.get() } else { b.get() };
            value_of(alloc, side, tuple)
        }
        Expr::Cut(a, most) => {
            let a = value_of(alloc, a.get(), tuple)?;
            cut_value(alloc, &a, *most)
        }
    }
}

/// An operation on one value.
fn apply_one(op: UnOp, a: &Value) -> Value
    ensures { result ≡ apply_one op a.now }
{
    match op {
        UnOp::Not => Value::Bool(!flag_of(a)),
        UnOp::Len => Value::Long(text_of(a).len() as i64),
    }
}

/// An operation on two values.
fn apply_two(alloc: Global, op: BinOp, a: &Value, b: &Value) -> Result<Value, Memory>
    ensures { IfOk result (λ v. v ≡ apply_two op a.now b.now) }
{
    match op {
        BinOp::Add => Ok(Value::Long(sum(long_of(a), long_of(b)))),
        BinOp::Sub => Ok(Value::Long(difference(long_of(a), long_of(b)))),
        BinOp::Mul => Ok(Value::Long(product(long_of(a), long_of(b)))),
        BinOp::Div => Ok(Value::Long(quotient(long_of(a), long_of(b)))),
        BinOp::Rem => Ok(Value::Long(remainder(long_of(a), long_of(b)))),
        BinOp::Eq => Ok(Value::Bool(compare(a, b).is_eq())),
        BinOp::Ne => Ok(Value::Bool(compare(a, b).is_ne())),
        BinOp::Lt => Ok(Value::Bool(compare(a, b).is_lt())),
        BinOp::Le => Ok(Value::Bool(compare(a, b).is_le())),
        BinOp::Gt => Ok(Value::Bool(compare(a, b).is_gt())),
        BinOp::Ge => Ok(Value::Bool(compare(a, b).is_ge())),
        BinOp::And => Ok(Value::Bool(flag_of(a) && flag_of(b))),
        BinOp::Or => Ok(Value::Bool(flag_of(a) || flag_of(b))),
        BinOp::Cat => cat(alloc, a, b),
    }
}

/// One text after the other.
fn cat(alloc: Global, a: &Value, b: &Value) -> Result<Value, Memory>
    ensures { IfOk result (λ v. v ≡ value.Str (bytes_of a.now ++ bytes_of b.now)) }
{
    let Ok(mut text) = String::from_str(alloc, text_of(a)) else {
        return Err(Memory);
    };
    match text.push_str(text_of(b)) {
        Ok(()) => str_value(text),
        Err(_) => Err(Memory),
    }
}

/// The longest prefix of at most so many bytes that ends between code points.
fn cut_value(alloc: Global, a: &Value, most: u16) -> Result<Value, Memory>
    ensures { IfOk result (λ v. v ≡ value.Str (cut most (bytes_of a.now))) }
{
    match String::from_str(alloc, cut(text_of(a), usize::from(most))) {
        Ok(text) => str_value(text),
        Err(_) => Err(Memory),
    }
}
