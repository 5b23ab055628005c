ghost use Rattle.std.specs.Prelude.{◌≡◌, IfOk, option_and_then};
ghost use Rattle.flow_types.specs.ExprTypes.{typing_of};
ghost use Rattle.flow_model.specs.Schemas.{is_bool, is_test, tested};
ghost use Rattle.plan_typing.specs.Typing.{in_types};
ghost use Rattle.plan_typing.specs.Told.{ColumnTypes, told_columns, behind_test, told_branch, both_columns, told_branches, schema_of_columns};

use crate::expr_type::type_of;
use crate::schemas::{Typed, push, schema_like, schema_of};
use crate::widen::both_widened;
use flow_model::op::Branch;
use flow_model::plan_code::PlanCode;
use flow_outside::failure::Memory;
use flow_types::expr::Expr;
use flow_types::field_type::FieldType;
use flow_types::schema::Schema;
use std::alloc::Global;
use std::marker::Model;

/// The types of columns, and whether no part of any is wider than a text. A bound above 65,535 is
/// told as 65,535.
#[derive(Drop)]
pub struct Columns {
    types: Vec<FieldType>,
    narrow: bool,
}

impl Model for Columns {
    ghost use Rattle.plan_typing.specs.Told.{ColumnTypes};

    ghost Value = { ColumnTypes };

    ghost view = { λ c. record { types = c.types.items; narrow = c.narrow } };
}

/// What is told of columns over fields; `None` exactly where one of them has no type. The cost is one
/// list, and proportional to the columns' parts.
pub fn columns_of(
    alloc: Global,
    fields: &[FieldType],
    columns: &[Expr],
) -> Result<Option<Columns>, Memory>
    ensures { IfOk result (λ r. r ≡ told_columns fields.now columns.now) }
{
    let mut types = Vec::new(alloc);
    let mut narrow = true;
    for column in columns {
        let told = type_of(fields, column);
        let Some(field_type) = told.found else {
            return Ok(None);
        };
        push(&mut types, field_type)?;
        narrow = narrow && told.narrow;
    }
    Ok(Some(Columns { types, narrow }))
}

/// Whether a type was found, and is Bool.
fn is_bool(found: Option<FieldType>) -> bool
    ensures { result ≡ is_bool found }
{
    matches!(found, Some(FieldType::Bool))
}

/// The schema of rows that pass a test: their own. `BadTypes` where the test isn't of a Bool, and else
/// `BadWidth` where a part of it is wider than a text. The cost is one list, and proportional to the
/// test's parts.
#[tactic(auto, using(crate::proofs::ColumnLemmas::bool_told))]
pub fn tested(alloc: Global, fields: &[FieldType], test: &Expr) -> Result<Typed<Schema>, Memory>
    ensures { IfOk result
        (λ r. r ≡ in_types (is_test fields.now test.now) (tested fields.now test.now)) }
{
    let told = type_of(fields, test);
    if !is_bool(told.found) {
        return Ok(Err(PlanCode::BadTypes));
    }
    if !told.narrow {
        return Ok(Err(PlanCode::BadWidth));
    }
    schema_like(alloc, fields)
}

/// Columns behind a test: `None` where it isn't of a Bool; they are narrow where the test is too.
#[tactic(auto, using(crate::proofs::ColumnLemmas::bool_told))]
fn behind_test(fields: &[FieldType], test: &Expr, columns: Columns) -> Option<Columns>
    ensures { result ≡ behind_test fields.now test.now columns }
{
    let told = type_of(fields, test);
    if !is_bool(told.found) {
        return None;
    }
    let Columns { types, narrow } = columns;
    Some(Columns {
        types,
        narrow: told.narrow && narrow,
    })
}

/// What is told of a branch; `None` where its test isn't of a Bool or a column has no type.
fn branch_of(
    alloc: Global,
    fields: &[FieldType],
    branch: &Branch,
) -> Result<Option<Columns>, Memory>
    ensures { IfOk result (λ r. r ≡ told_branch fields.now branch.now) }
{
    match columns_of(alloc, fields, branch.columns.as_slice())? {
        Some(columns) => Ok(behind_test(fields, &branch.when, columns)),
        None => Ok(None),
    }
}

/// The columns of two branches, widened; `None` where they differ in number or in kinds.
fn both_columns(alloc: Global, a: &Columns, b: &Columns) -> Result<Option<Columns>, Memory>
    ensures { IfOk result (λ r. r ≡ both_columns a.now b.now) }
{
    match both_widened(alloc, a.types.as_slice(), b.types.as_slice())? {
        Some(types) => Ok(Some(Columns {
            types,
            narrow: a.narrow && b.narrow,
        })),
        None => Ok(None),
    }
}

/// What is told of all branches, widened; `None` of no branch, where a test isn't of a Bool, a column
/// has no type, or two branches differ in number or in kinds. The cost is two lists for each branch,
/// and proportional to the parts of their expressions.
pub fn branches_of(
    alloc: Global,
    fields: &[FieldType],
    branches: &[Branch],
) -> Result<Option<Columns>, Memory>
    ensures { IfOk result (λ r. r ≡ told_branches fields.now branches.now) }
{
    match branches {
        [] => Ok(None),
        [only] => branch_of(alloc, fields, only),
        [first, rest @ ..] => {
            let Some(others) = branches_of(alloc, fields, rest)? else {
                return Ok(None);
            };
            let Some(own) = branch_of(alloc, fields, first)? else {
                return Ok(None);
            };
            both_columns(alloc, &own, &others)
        }
    }
}

/// The schema of columns; `BadTypes` of those that have no types, and else `BadWidth` where a part is
/// wider than a text or the types are no schema's.
pub fn schema_of_columns(columns: Option<Columns>) -> Typed<Schema>
    ensures { result ≡ schema_of_columns columns }
{
    match columns {
        None => Err(PlanCode::BadTypes),
        Some(Columns { types, narrow }) => {
            if narrow {
                schema_of(types)
            } else {
                Err(PlanCode::BadWidth)
            }
        }
    }
}
