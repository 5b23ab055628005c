ghost use Rattle.std.specs.Prelude.{◌≡◌, IfOk};
ghost use Rattle.flow_model.specs.Schemas.{columns_type};
ghost use Rattle.plan_typing.specs.Typing.{have_types, in_types};
ghost use Rattle.plan_typing.specs.Ops.{typed_map, typed_filter, typed_flat_map, typed_union, typed_group, typed_ranked};
ghost use Rattle.plan_typing.specs.Sides.{sides_of, have_pair_types, pairs_type, typed_join, typed_probe, typed_cogroup};

use crate::columns::{branches_of, columns_of, schema_of_columns, tested};
use crate::keys::{
    Sides, are_as_long, are_folds, default_fits, fields_at, joined_fields, keys_type,
};
use crate::schemas::{Typed, push_longs, schema_like, schema_of};
use crate::widen::all_widened;
use crate::within::{
    are_branches_within, are_folds_within, are_within, has_order, is_key_within, is_within,
};
use flow_model::op::{Branch, ExprList};
use flow_model::plan_code::PlanCode;
use flow_outside::failure::Memory;
use flow_types::agg::Agg;
use flow_types::expr::Expr;
use flow_types::field_type::FieldType;
use flow_types::order_item::OrderItem;
use flow_types::row::Row;
use flow_types::schema::Schema;
use std::alloc::Global;

/// The schema of columns over fields whose numbers are right.
#[tactic(auto, using(crate::proofs::OpLemmas::columns_schema))]
fn typed_columns(
    alloc: Global,
    fields: &[FieldType],
    columns: &[Expr],
) -> Result<Typed<Schema>, Memory>
    ensures { IfOk result
        (λ r. r ≡ in_types (have_types fields.now columns.now) (columns_type fields.now columns.now)) }
{
    let columns = columns_of(alloc, fields, columns)?;
    Ok(schema_of_columns(columns))
}

/// The schema of a map's rows.
pub fn type_map(
    alloc: Global,
    fields: &[FieldType],
    columns: &[Expr],
) -> Result<Typed<Schema>, Memory>
    ensures { IfOk result (λ r. r ≡ typed_map fields.now columns.now) }
{
    if !are_within(fields.len(), columns) {
        return Ok(Err(PlanCode::BadField));
    }
    typed_columns(alloc, fields, columns)
}

/// The schema of a filter's rows.
pub fn type_filter(
    alloc: Global,
    fields: &[FieldType],
    test: &Expr,
) -> Result<Typed<Schema>, Memory>
    ensures { IfOk result (λ r. r ≡ typed_filter fields.now test.now) }
{
    if !is_within(fields.len(), test) {
        return Ok(Err(PlanCode::BadField));
    }
    tested(alloc, fields, test)
}

/// The schema of a flat map's rows.
#[tactic(auto, using(crate::proofs::BranchLemmas::branches_schema))]
pub fn type_flat_map(
    alloc: Global,
    fields: &[FieldType],
    rows: &[Branch],
) -> Result<Typed<Schema>, Memory>
    ensures { IfOk result (λ r. r ≡ typed_flat_map fields.now rows.now) }
{
    if !are_branches_within(fields.len(), rows) {
        return Ok(Err(PlanCode::BadField));
    }
    let columns = branches_of(alloc, fields, rows)?;
    Ok(schema_of_columns(columns))
}

/// The schema of a union's rows.
pub fn type_union(alloc: Global, inputs: &[Schema]) -> Result<Typed<Schema>, Memory>
    ensures { IfOk result (λ r. r ≡ typed_union inputs.now) }
{
    match all_widened(alloc, inputs)? {
        Some(types) => Ok(schema_of(types)),
        None => Ok(Err(PlanCode::BadTypes)),
    }
}

/// The schema of groups.
#[tactic(auto, using(crate::proofs::OpLemmas::key_within))]
pub fn type_group(
    alloc: Global,
    fields: &[FieldType],
    key: &[u16],
    folds: &[Agg],
) -> Result<Typed<Schema>, Memory>
    ensures { IfOk result (λ r. r ≡ typed_group fields.now key.now folds.now) }
{
    let Some(mut types) = fields_at(alloc, fields, key)? else {
        return Ok(Err(PlanCode::BadField));
    };
    if !are_folds_within(fields.len(), folds) {
        return Ok(Err(PlanCode::BadField));
    }
    if !are_folds(fields, folds) {
        return Ok(Err(PlanCode::BadTypes));
    }
    push_longs(&mut types, folds.len())?;
    Ok(schema_of(types))
}

/// The schema of rows that are ranked by key and order: their own.
#[tactic(auto, using(crate::proofs::OpLemmas::ranked_schema))]
pub fn type_ranked(
    alloc: Global,
    fields: &[FieldType],
    key: &[u16],
    order: &[OrderItem],
) -> Result<Typed<Schema>, Memory>
    ensures { IfOk result (λ r. r ≡ typed_ranked fields.now key.now order.now) }
{
    if !is_key_within(fields.len(), key) || !has_order(fields, order) {
        return Ok(Err(PlanCode::BadField));
    }
    schema_like(alloc, fields)
}

/// The schema of columns over rows of both sides that have one key, where the field numbers are right;
/// `fit` says whether the defaults fit.
#[tactic(auto, using(crate::proofs::OpLemmas::pairs_schema, crate::proofs::OpLemmas::pairs_unfit))]
fn typed_pairs(
    alloc: Global,
    sides: &Sides<'_>,
    columns: &[Expr],
    fit: bool,
) -> Result<Typed<Schema>, Memory>
    ensures { IfOk result (λ r. r ≡ in_types
        (have_pair_types (sides_of sides.now) columns.now fit)
        (pairs_type (sides_of sides.now) columns.now fit)) }
{
    let Some(_) = keys_type(alloc, sides)? else {
        return Ok(Err(PlanCode::BadTypes));
    };
    if !fit {
        return Ok(Err(PlanCode::BadTypes));
    }
    let fields = joined_fields(alloc, sides)?;
    typed_columns(alloc, fields.as_slice(), columns)
}

/// The schema of a join's rows.
#[tactic(auto, using(crate::proofs::OpLemmas::join_schema))]
pub fn type_join(
    alloc: Global,
    sides: &Sides<'_>,
    columns: &ExprList,
    left_default: &Option<Row>,
    right_default: &Option<Row>,
) -> Result<Typed<Schema>, Memory>
    ensures { IfOk result
        (λ r. r ≡ typed_join (sides_of sides.now) columns.now left_default.now right_default.now) }
{
    let left_count = sides.left.len();
    let right_count = sides.right.len();
    if !is_key_within(left_count, sides.left_key)
        || !is_key_within(right_count, sides.right_key)
        || !are_as_long(sides.left_key, sides.right_key)
        || !are_within(left_count + right_count, columns.as_slice())
    {
        return Ok(Err(PlanCode::BadField));
    }
    let fit = default_fits(sides.left, left_default) && default_fits(sides.right, right_default);
    typed_pairs(alloc, sides, columns.as_slice(), fit)
}

/// The schema of a probe's rows, whose right side is the solution of the iteration that it stands in.
pub fn type_probe(
    alloc: Global,
    sides: &Sides<'_>,
    columns: &[Expr],
) -> Result<Typed<Schema>, Memory>
    ensures { IfOk result (λ r. r ≡ typed_probe (sides_of sides.now) columns.now) }
{
    let count = sides.left.len() + sides.right.len();
    if !is_key_within(sides.left.len(), sides.left_key)
        || !are_as_long(sides.left_key, sides.right_key)
        || !are_within(count, columns)
    {
        return Ok(Err(PlanCode::BadField));
    }
    typed_pairs(alloc, sides, columns, true)
}

/// The schema of a cogroup's rows.
pub fn type_cogroup(
    alloc: Global,
    sides: &Sides<'_>,
    left_folds: &[Agg],
    right_folds: &[Agg],
) -> Result<Typed<Schema>, Memory>
    ensures { IfOk result
        (λ r. r ≡ typed_cogroup (sides_of sides.now) left_folds.now right_folds.now) }
{
    if !is_key_within(sides.left.len(), sides.left_key)
        || !is_key_within(sides.right.len(), sides.right_key)
        || !are_as_long(sides.left_key, sides.right_key)
        || !are_folds_within(sides.left.len(), left_folds)
        || !are_folds_within(sides.right.len(), right_folds)
    {
        return Ok(Err(PlanCode::BadField));
    }
    let Some(mut types) = keys_type(alloc, sides)? else {
        return Ok(Err(PlanCode::BadTypes));
    };
    if !are_folds(sides.left, left_folds) || !are_folds(sides.right, right_folds) {
        return Ok(Err(PlanCode::BadTypes));
    }
    push_longs(&mut types, left_folds.len())?;
    push_longs(&mut types, right_folds.len())?;
    Ok(schema_of(types))
}
