// An expression's type and extent, told by a walk over it. `test` and `columns_into` may be called where it
// tells that their conditions hold.
ghost use Rattle.std.specs.Prelude.{◌≡◌, ◌≤◌, ◌&&◌, IfSome, IsTrue, Some, slice_get};
ghost use Rattle.flow_types.specs.Limits.{record_limit};
ghost use Rattle.flow_types.specs.ExprTypes.{type_of, typing_of, is_limited, type_of_value, type_of_one, type_of_two, type_of_choice, type_of_cut, widened};
ghost use Rattle.expr_core.specs.Needs.{is_typed, are_typed, width_of_type, widest_of};
ghost use Rattle.worked_exprs.specs.Known.{IsKnown, IsTold};

use flow_types::expr::{BinOp, Expr, UnOp};
use flow_types::field_type::FieldType;
use flow_types::schema::RECORD_LIMIT;
use flow_types::value::Value;

/// What a walk over an expression tells of it.
#[derive(Clone, Copy)]
pub struct Known {
    pub kind: FieldType,
    pub parts: u16,
    pub lists: u16,
}

/// What is known of an expression over fields; `None` where it has no type or passes a limit.
pub fn known_of(e: &Expr, fields: &[FieldType]) -> Option<Known>
    ensures { IfSome result (λ k. IsKnown fields.now e.now k.kind k.parts k.lists) }
{
    match e {
        Expr::Lit(value) => told(kind_of(value), 1, 0),
        Expr::Field(number) => told(kind_of_field(fields, *number)?, 1, 1),
        Expr::Un(op, a) => {
            let a = known_of(a.get(), fields)?;
            told(
                kind_of_one(*op, a.kind)?,
                a.parts.checked_add(1)?,
                a.lists.checked_add(1)?,
            )
        }
        Expr::Bin(op, a, b) => {
            let a = known_of(a.get(), fields)?;
            let b = known_of(b.get(), fields)?;
            let parts = a.parts.checked_add(b.parts)?.checked_add(1)?;
            told(
                kind_of_two(*op, a.kind, b.kind)?,
                parts,
                a.lists.max(b.lists).checked_add(1)?,
            )
        }
        Expr::If(c, a, b) => {
            let c = known_of(c.get(), fields)?;
            let a = known_of(a.get(), fields)?;
            let b = known_of(b.get(), fields)?;
            let parts = c
                .parts
                .checked_add(a.parts)?
                .checked_add(b.parts)?
                .checked_add(1)?;
            let lists = c.lists.max(a.lists.max(b.lists)).checked_add(1)?;
            told(kind_of_choice(c.kind, a.kind, b.kind)?, parts, lists)
        }
        Expr::Cut(a, most) => {
            let a = known_of(a.get(), fields)?;
            told(
                kind_of_cut(*most, a.kind)?,
                a.parts.checked_add(1)?,
                a.lists.checked_add(1)?,
            )
        }
    }
}

/// What is told of an expression of a type and an extent within the limits.
fn told(kind: FieldType, parts: u16, lists: u16) -> Option<Known>
    ensures { IfSome result (λ k. IsTold k.kind kind k.parts k.lists parts lists) }
{
    if !kind.is_bounded() {
        return None;
    }
    Some(Known { kind, parts, lists })
}

/// The type of a literal.
fn kind_of(value: &Value) -> FieldType
    ensures { result ≡ type_of_value value.now }
{
    match value {
        Value::Long(_) => FieldType::Long,
        Value::Bool(_) => FieldType::Bool,
        Value::Str(text) => FieldType::Str(text.as_str().len() as u16),
    }
}

/// The type of a field, by its number from 0.
fn kind_of_field(fields: &[FieldType], number: u16) -> Option<FieldType>
    ensures { result ≡ slice_get fields.now number }
{
    match fields.get(usize::from(number)) {
        Some(kind) => Some(*kind),
        None => None,
    }
}

/// The type of an operation on one value.
fn kind_of_one(op: UnOp, a: FieldType) -> Option<FieldType>
    ensures { IfSome result (λ kind. type_of_one op a ≡ Some kind) }
{
    match (op, a) {
        (UnOp::Not, FieldType::Bool) => Some(FieldType::Bool),
        (UnOp::Len, FieldType::Str(_)) => Some(FieldType::Long),
        _ => None,
    }
}

/// The type of an operation on two values.
fn kind_of_two(op: BinOp, a: FieldType, b: FieldType) -> Option<FieldType>
    ensures { IfSome result (λ kind. type_of_two op a b ≡ Some kind) }
{
    match op {
        BinOp::Add | BinOp::Sub | BinOp::Mul | BinOp::Div | BinOp::Rem => both(
            a,
            b,
            FieldType::Long,
        ),
        BinOp::And | BinOp::Or => both(a, b, FieldType::Bool),
        BinOp::Cat => match (a, b) {
            (FieldType::Str(m), FieldType::Str(n)) => Some(FieldType::Str(m.checked_add(n)?)),
            _ => None,
        },
        _ => match widest(a, b) {
            Some(_) => Some(FieldType::Bool),
            None => None,
        },
    }
}

/// A type that is no text, where both are it.
fn both(a: FieldType, b: FieldType, kind: FieldType) -> Option<FieldType>
    ensures { IfSome result (λ k. (k ≡ kind) × (a ≡ kind) × (b ≡ kind)) }
{
    if a == kind && b == kind {
        Some(kind)
    } else {
        None
    }
}

/// The type that has the values of both.
fn widest(a: FieldType, b: FieldType) -> Option<FieldType>
    ensures { result ≡ widened a b }
{
    match (a, b) {
        (FieldType::Long, FieldType::Long) => Some(FieldType::Long),
        (FieldType::Bool, FieldType::Bool) => Some(FieldType::Bool),
        (FieldType::Str(m), FieldType::Str(n)) => Some(FieldType::Str(m.max(n))),
        _ => None,
    }
}

/// The type of a choice.
fn kind_of_choice(c: FieldType, a: FieldType, b: FieldType) -> Option<FieldType>
    ensures { IfSome result (λ kind. type_of_choice c a b ≡ Some kind) }
{
    match c {
        FieldType::Bool => widest(a, b),
        _ => None,
    }
}

/// The type of a text that is cut.
fn kind_of_cut(most: u16, a: FieldType) -> Option<FieldType>
    ensures { IfSome result (λ kind. type_of_cut most a ≡ Some kind) }
{
    match a {
        FieldType::Str(m) => Some(FieldType::Str(m.min(most))),
        _ => None,
    }
}

/// Whether an expression is a test of a record of these fields.
pub fn is_test(e: &Expr, fields: &[FieldType]) -> bool
    ensures kind { IsTrue result → type_of fields.now e.now ≡ Some FieldType.Bool }
    ensures narrow { IsTrue result → IsTrue (typing_of fields.now e.now).narrow }
    ensures limited { IsTrue result → IsTrue (is_limited e.now) }
{
    match known_of(e, fields) {
        Some(known) => known.kind == FieldType::Bool && known.parts <= 256 && known.lists <= 32,
        None => false,
    }
}

/// The bytes of the widest value of a column, where it is within the limits.
fn column_width(e: &Expr, fields: &[FieldType]) -> Option<u32>
    ensures width { IfSome result (λ n. n ≡ width_of_type (type_of fields.now e.now)) }
    ensures small { IfSome result (λ n. n ≤ 65_537) }
    ensures typed { IfSome result (λ n. IsTrue (is_typed fields.now e.now && is_limited e.now)) }
{
    match known_of(e, fields) {
        Some(known) => {
            if known.parts > 256 || known.lists > 32 {
                return None;
            }
            Some(known.kind.width())
        }
        None => None,
    }
}

/// Whether columns over these fields are within the limits, and their widest record is.
pub fn are_columns(columns: &[Expr], fields: &[FieldType]) -> bool
    ensures typed { IsTrue result → IsTrue (are_typed fields.now columns.now) }
    ensures small { IsTrue result → widest_of fields.now columns.now ≤ record_limit }
{
    let mut total = 0;
    for column in columns {
        let Some(width) = column_width(column, fields) else {
            return false;
        };
        total += width;
        if total > RECORD_LIMIT {
            return false;
        }
    }
    true
}
