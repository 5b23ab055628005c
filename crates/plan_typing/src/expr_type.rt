ghost use Rattle.std.specs.Prelude.{◌≡◌, option_map, option_and_then};
ghost use Rattle.flow_types.specs.ExprTypes.{type_of_value, widened, compared, both_long, both_bool, joined, type_of_one, type_of_two, type_of_choice, type_of_cut, is_narrow_type, typing_of};
ghost use Rattle.plan_typing.specs.Told.{capped, told, told_type, told_one, told_two, told_choice, told_cut};

use crate::schemas::field_at;
use crate::widen::widened;
use flow_types::expr::{BinOp, Expr, UnOp};
use flow_types::field_type::FieldType;
use flow_types::value::Value;

/// What is known of an expression: its type, where it has one, and whether no part of it, itself
/// included, is a text whose bound exceeds 16,382. A bound above 65,535 is told as 65,535.
#[derive(Clone, Copy)]
pub struct ExprType {
    pub found: Option<FieldType>,
    pub narrow: bool,
}

/// An expression's type over the fields of a schema. The cost is proportional to its parts.
#[tactic(auto, using(crate::proofs::ToldLemmas::told_bin, crate::proofs::ToldLemmas::told_if))]
pub fn type_of(fields: &[FieldType], expr: &Expr) -> ExprType
    ensures { result ≡ told (typing_of fields.now expr.now) }
{
    match expr {
        Expr::Lit(value) => told_type(Some(type_of_value(value)), true),
        Expr::Field(number) => told_type(field_at(fields, *number), true),
        Expr::Un(op, a) => one(*op, type_of(fields, a.get())),
        Expr::Bin(op, a, b) => two(*op, type_of(fields, a.get()), type_of(fields, b.get())),
        Expr::If(c, a, b) => choice(
            type_of(fields, c.get()),
            type_of(fields, a.get()),
            type_of(fields, b.get()),
        ),
        Expr::Cut(a, most) => cut(*most, type_of(fields, a.get())),
    }
}

/// What is known by the type that was found, and by whether the parts are narrow.
fn told_type(found: Option<FieldType>, narrow: bool) -> ExprType
    ensures { result ≡ told_type found narrow }
{
    let fits = match found {
        Some(field_type) => field_type.is_bounded(),
        None => true,
    };
    ExprType {
        found,
        narrow: narrow && fits,
    }
}

/// The type of a value: a text has its own length as its bound.
fn type_of_value(value: &Value) -> FieldType
    ensures { result ≡ type_of_value value.now }
{
    match value {
        Value::Long(_) => FieldType::Long,
        Value::Bool(_) => FieldType::Bool,
        Value::Str(text) => FieldType::Str(text.as_str().len() as u16),
    }
}

/// An operation on one expression.
fn one(op: UnOp, a: ExprType) -> ExprType
    ensures { result ≡ told_one op a }
{
    match a.found {
        Some(x) => told_type(type_of_one(op, x), a.narrow),
        None => told_type(None, a.narrow),
    }
}

/// An operation on two expressions.
#[tactic(auto, using(crate::proofs::ToldLemmas::told_capped))]
fn two(op: BinOp, a: ExprType, b: ExprType) -> ExprType
    ensures { result ≡ told_two op a b }
{
    told_type(found_of_two(op, a.found, b.found), a.narrow && b.narrow)
}

/// A choice between two expressions.
fn choice(c: ExprType, a: ExprType, b: ExprType) -> ExprType
    ensures { result ≡ told_choice c a b }
{
    let narrow = c.narrow && a.narrow && b.narrow;
    told_type(found_of_choice(c.found, a.found, b.found), narrow)
}

/// A text cut to at most so many bytes.
fn cut(most: u16, a: ExprType) -> ExprType
    ensures { result ≡ told_cut most a }
{
    match a.found {
        Some(x) => told_type(type_of_cut(most, x), a.narrow),
        None => told_type(None, a.narrow),
    }
}

/// The type of an operation on a value of this type.
fn type_of_one(op: UnOp, a: FieldType) -> Option<FieldType>
    ensures { result ≡ type_of_one op a }
{
    match (op, a) {
        (UnOp::Not, FieldType::Bool) => Some(FieldType::Bool),
        (UnOp::Len, FieldType::Str(_)) => Some(FieldType::Long),
        _ => None,
    }
}

/// The type of an operation on values of two types, where both are there.
fn found_of_two(op: BinOp, a: Option<FieldType>, b: Option<FieldType>) -> Option<FieldType>
    ensures { result ≡ option_map capped
        (option_and_then (λ x. option_and_then (λ y. type_of_two op x y) b) a) }
{
    let x = a?;
    let y = b?;
    type_of_two(op, x, y)
}

/// The type of an operation on values of these types.
fn type_of_two(op: BinOp, a: FieldType, b: FieldType) -> Option<FieldType>
    ensures { result ≡ option_map capped (type_of_two op a b) }
{
    match op {
        BinOp::Add | BinOp::Sub | BinOp::Mul | BinOp::Div | BinOp::Rem => both_long(a, b),
        BinOp::Eq | BinOp::Ne | BinOp::Lt | BinOp::Le | BinOp::Gt | BinOp::Ge => compared(a, b),
        BinOp::And | BinOp::Or => both_bool(a, b),
        BinOp::Cat => joined(a, b),
    }
}

/// A Long of two Longs.
fn both_long(a: FieldType, b: FieldType) -> Option<FieldType>
    ensures { result ≡ option_map capped (both_long a b) }
{
    match (a, b) {
        (FieldType::Long, FieldType::Long) => Some(FieldType::Long),
        _ => None,
    }
}

/// A Bool of two Bools.
fn both_bool(a: FieldType, b: FieldType) -> Option<FieldType>
    ensures { result ≡ option_map capped (both_bool a b) }
{
    match (a, b) {
        (FieldType::Bool, FieldType::Bool) => Some(FieldType::Bool),
        _ => None,
    }
}

/// A Bool where two types have one kind.
fn compared(a: FieldType, b: FieldType) -> Option<FieldType>
    ensures { result ≡ option_map capped (compared a b) }
{
    match (a, b) {
        (FieldType::Long, FieldType::Long)
        | (FieldType::Bool, FieldType::Bool)
        | (FieldType::Str(_), FieldType::Str(_)) => Some(FieldType::Bool),
        _ => None,
    }
}

/// A text of two texts, whose bound is the sum of theirs.
fn joined(a: FieldType, b: FieldType) -> Option<FieldType>
    ensures { result ≡ option_map capped (joined a b) }
{
    match (a, b) {
        (FieldType::Str(m), FieldType::Str(n)) => Some(FieldType::Str(m.saturating_add(n))),
        _ => None,
    }
}

/// The type of a choice between values of two types, where all are there.
fn found_of_choice(
    c: Option<FieldType>,
    a: Option<FieldType>,
    b: Option<FieldType>,
) -> Option<FieldType>
    ensures { result ≡ option_and_then
        (λ x. option_and_then (λ y. option_and_then (λ z. type_of_choice x y z) b) a) c }
{
    let x = c?;
    let y = a?;
    let z = b?;
    match x {
        FieldType::Bool => widened(y, z),
        FieldType::Long | FieldType::Str(_) => None,
    }
}

/// The type of a text cut to at most so many bytes.
fn type_of_cut(most: u16, a: FieldType) -> Option<FieldType>
    ensures { result ≡ type_of_cut most a }
{
    match a {
        FieldType::Str(bound) => Some(FieldType::Str(most.min(bound))),
        FieldType::Long | FieldType::Bool => None,
    }
}
