ghost use Rattle.std.specs.Prelude.{◌≡◌, [], ◌∷◌, ◌++◌, IfOk, if◌then◌else◌};
ghost use Rattle.flow_types.specs.Values.{flag_of};
ghost use Rattle.flow_types.specs.Expressions.{val};
ghost use Rattle.flow_model.specs.Rows.{columns_of, map_rows, filter_rows, branch_rows, flat_map_rows};

use crate::lists::{push_if, push_row, push_value};
use crate::value_of::value_of;
use crate::values::flag_of;
use flow_model::op::Branch;
use flow_outside::failure::Memory;
use flow_types::expr::Expr;
use flow_types::row::Row;
use flow_types::value::Value;
use std::alloc::Global;

/// The values of columns at a tuple.
pub fn columns_of(alloc: Global, columns: &[Expr], tuple: &[Value]) -> Result<Row, Memory>
    ensures { IfOk result (λ row. row ≡ columns_of columns.now tuple.now) }
{
    let mut values = Vec::new(alloc);
    for column in columns {
        let value = value_of(alloc, column, tuple)?;
        push_value(&mut values, value)?;
    }
    Ok(Row::of(values))
}

/// Whether a test is true of a tuple.
pub fn passes(alloc: Global, test: &Expr, tuple: &[Value]) -> Result<bool, Memory>
    ensures { IfOk result (λ passes. passes ≡ flag_of (val tuple.now test.now)) }
{
    let value = value_of(alloc, test, tuple)?;
    Ok(flag_of(&value))
}

/// Map: the columns of each row, in order.
pub fn map_rows(alloc: Global, columns: &[Expr], rows: &[Row]) -> Result<Vec<Row>, Memory>
    ensures { IfOk result (λ mapped. mapped.items ≡ map_rows columns.now rows.now) }
{
    let mut mapped = Vec::new(alloc);
    for row in rows {
        let row = columns_of(alloc, columns, row.values())?;
        push_row(&mut mapped, row)?;
    }
    Ok(mapped)
}

/// Filter: copies of the rows whose test is true, in order.
pub fn filter_rows(alloc: Global, test: &Expr, rows: &[Row]) -> Result<Vec<Row>, Memory>
    ensures { IfOk result (λ kept. kept.items ≡ filter_rows test.now rows.now) }
{
    let mut kept = Vec::new(alloc);
    for row in rows {
        let keep = passes(alloc, test, row.values())?;
        push_if(alloc, &mut kept, row, keep)?;
    }
    Ok(kept)
}

/// Flat map: for each row in order, the rows of its branches.
pub fn flat_map_rows(alloc: Global, branches: &[Branch], rows: &[Row]) -> Result<Vec<Row>, Memory>
    ensures { IfOk result (λ mapped. mapped.items ≡ flat_map_rows branches.now rows.now) }
{
    let mut mapped = Vec::new(alloc);
    for row in rows {
        push_branches(alloc, &mut mapped, branches, row.values())?;
    }
    Ok(mapped)
}

/// Adds the columns of each branch whose `when` is true of a tuple.
fn push_branches(
    alloc: Global,
    rows: &mut Vec<Row>,
    branches: &[Branch],
    tuple: &[Value],
) -> Result<(), Memory>
    ensures { IfOk result
        (λ _. rows.new.items ≡ rows.old.items ++ branch_rows branches.now tuple.now) }
{
    for branch in branches {
        push_branch(alloc, rows, branch, tuple)?;
    }
    Ok(())
}

/// Adds the columns of a branch where its `when` is true of a tuple.
fn push_branch(
    alloc: Global,
    rows: &mut Vec<Row>,
    branch: &Branch,
    tuple: &[Value],
) -> Result<(), Memory>
    ensures { IfOk result
        (λ _. rows.new.items ≡ rows.old.items
        ++ (if flag_of (val tuple.now branch.now.when) then columns_of branch.now.columns tuple.now ∷ [] else [])) }
{
    let passes = passes(alloc, &branch.when, tuple)?;
    if !passes {
        return Ok(());
    }
    let row = columns_of(alloc, branch.columns.as_slice(), tuple)?;
    push_row(rows, row)
}
