ghost use Rattle.std.specs.Prelude.{◌≡◌, ◌++◌, map, IfOk};
ghost use Rattle.flow_types.specs.Tuples.{key_of};
ghost use Rattle.flow_model.specs.Rows.{each_once, keys_in, keys_of_both};

use crate::lists::{push_row, push_value};
use crate::values::copy_field;
use flow_outside::failure::Memory;
use flow_types::row::{Row, compare_rows, sort_rows};
use flow_types::value::Value;
use std::alloc::Global;

/// The values of a tuple at a key's field numbers.
pub fn key_of(alloc: Global, numbers: &[u16], tuple: &[Value]) -> Result<Row, Memory>
    ensures { IfOk result (λ key. key ≡ key_of numbers.now tuple.now) }
{
    let mut values = Vec::new(alloc);
    for number in numbers {
        let value = copy_field(alloc, tuple, *number)?;
        push_value(&mut values, value)?;
    }
    Ok(Row::of(values))
}

/// Puts rows into ascending order, each once.
pub fn keep_each_once(rows: &mut Vec<Row>) -> Result<(), Memory>
    ensures { IfOk result (λ _. rows.new.items ≡ each_once rows.old.items) }
{
    sort_rows(rows)?;
    rows.dedup_by(|row, last| compare_rows(row, last).is_eq());
    Ok(())
}

/// Adds the keys of rows.
fn push_keys(
    alloc: Global,
    keys: &mut Vec<Row>,
    numbers: &[u16],
    rows: &[Row],
) -> Result<(), Memory>
    ensures { IfOk result
        (λ _. keys.new.items ≡ keys.old.items ++ map (key_of numbers.now) rows.now) }
{
    for row in rows {
        let key = key_of(alloc, numbers, row.values())?;
        push_row(keys, key)?;
    }
    Ok(())
}

/// The keys that rows have, in ascending order, each once.
pub fn keys_in(alloc: Global, numbers: &[u16], rows: &[Row]) -> Result<Vec<Row>, Memory>
    ensures { IfOk result (λ keys. keys.items ≡ keys_in numbers.now rows.now) }
{
    let mut keys = Vec::new(alloc);
    push_keys(alloc, &mut keys, numbers, rows)?;
    keep_each_once(&mut keys)?;
    Ok(keys)
}

/// The keys that rows of either side have, in ascending order, each once.
pub fn keys_of_both(
    alloc: Global,
    left_key: &[u16],
    right_key: &[u16],
    left: &[Row],
    right: &[Row],
) -> Result<Vec<Row>, Memory>
    ensures { IfOk result
        (λ keys. keys.items ≡ keys_of_both left_key.now right_key.now left.now right.now) }
{
    let mut keys = Vec::new(alloc);
    push_keys(alloc, &mut keys, left_key, left)?;
    push_keys(alloc, &mut keys, right_key, right)?;
    keep_each_once(&mut keys)?;
    Ok(keys)
}
