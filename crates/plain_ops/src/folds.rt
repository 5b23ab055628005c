ghost use Rattle.std.specs.Prelude.{◌≡◌, ◌++◌, IfOk, pos, length};
ghost use Rattle.flow_types.specs.Expressions.{wrap};
ghost use Rattle.flow_types.specs.Folds.{long_at, sum_of, lesser, greater, least_of, greatest_of, number_or, fold_of};
ghost use Rattle.flow_model.specs.Rows.{folds_of};

use crate::lists::push_value;
use crate::values::{field_or, long_of};
use flow_outside::failure::Memory;
use flow_types::agg::Agg;
use flow_types::arithmetic::sum;
use flow_types::row::Row;
use flow_types::value::Value;

/// Adds the values of folds over rows.
pub fn push_folds(values: &mut Vec<Value>, aggs: &[Agg], rows: &[Row]) -> Result<(), Memory>
    ensures { IfOk result
        (λ _. values.new.items ≡ values.old.items ++ folds_of aggs.now rows.now) }
{
    for agg in aggs {
        push_value(values, Value::Long(fold_of(*agg, rows)))?;
    }
    Ok(())
}

/// The value of a fold over rows.
pub fn fold_of(agg: Agg, rows: &[Row]) -> i64
    ensures { result ≡ fold_of agg rows.now }
{
    match agg {
        Agg::Sum(number) => sum_of(number, rows),
        Agg::Min(number, empty) => least_of(number, rows).unwrap_or(empty),
        Agg::Max(number, empty) => greatest_of(number, rows).unwrap_or(empty),
        Agg::Count => count_of(rows),
    }
}

/// The number of a field that is a Long.
fn long_at(number: u16, row: &Row) -> i64
    ensures { result ≡ long_at number row.now }
{
    let zero = Value::Long(0);
    long_of(field_or(row.values(), number, &zero))
}

/// The sum of a field, modulo 2^64.
fn sum_of(number: u16, rows: &[Row]) -> i64
    ensures { result ≡ wrap (sum_of number rows.now) }
{
    let mut total = 0;
    for row in rows {
        total = sum(total, long_at(number, row));
    }
    total
}

/// The number of rows, modulo 2^64.
fn count_of(rows: &[Row]) -> i64
    ensures { result ≡ wrap (pos (length rows.now)) }
{
    rows.len() as i64
}

/// The least of a field; none of no rows.
fn least_of(number: u16, rows: &[Row]) -> Option<i64>
    ensures { result ≡ least_of number rows.now }
{
    let mut best = None;
    for row in rows {
        best = Some(lesser(best, long_at(number, row)));
    }
    best
}

/// The greatest of a field; none of no rows.
fn greatest_of(number: u16, rows: &[Row]) -> Option<i64>
    ensures { result ≡ greatest_of number rows.now }
{
    let mut best = None;
    for row in rows {
        best = Some(greater(best, long_at(number, row)));
    }
    best
}

/// The lesser of a number and one that was found before, where there is one.
fn lesser(best: Option<i64>, number: i64) -> i64
    ensures { result ≡ lesser best number }
{
    match best {
        None => number,
        Some(best) => best.min(number),
    }
}

/// The greater of a number and one that was found before, where there is one.
fn greater(best: Option<i64>, number: i64) -> i64
    ensures { result ≡ greater best number }
{
    match best {
        None => number,
        Some(best) => best.max(number),
    }
}
