ghost use Rattle.std.specs.Prelude.{◌≡◌, [], ◌∷◌, ◌++◌, IfOk, if◌then◌else◌};

use flow_outside::failure::Memory;
use flow_types::row::Row;
use flow_types::value::Value;
use std::alloc::Global;

/// Adds a row at the end.
pub fn push_row(rows: &mut Vec<Row>, row: Row) -> Result<(), Memory>
    ensures { IfOk result (λ _. rows.new.items ≡ rows.old.items ++ row ∷ []) }
{
    match rows.push(row) {
        Ok(()) => Ok(()),
        Err(_) => Err(Memory),
    }
}

/// Adds a copy of a row at the end where `keep` says so.
pub fn push_if(alloc: Global, rows: &mut Vec<Row>, row: &Row, keep: bool) -> Result<(), Memory>
    ensures { IfOk result
        (λ _. rows.new.items ≡ rows.old.items ++ (if keep then row.now ∷ [] else [])) }
{
    if !keep {
        return Ok(());
    }
    let row = row.copy(alloc)?;
    push_row(rows, row)
}

/// Moves rows to the end of others.
pub fn append_rows(rows: &mut Vec<Row>, mut more: Vec<Row>) -> Result<(), Memory>
    ensures { IfOk result (λ _. rows.new.items ≡ rows.old.items ++ more.items) }
{
    match rows.append(&mut more) {
        Ok(()) => Ok(()),
        Err(_) => Err(Memory),
    }
}

/// Adds copies of rows at the end of others; one allocation for each row's list and for each text.
pub fn append_copies(alloc: Global, rows: &mut Vec<Row>, more: &[Row]) -> Result<(), Memory>
    ensures { IfOk result (λ _. rows.new.items ≡ rows.old.items ++ more.now) }
{
    for row in more {
        let row = row.copy(alloc)?;
        push_row(rows, row)?;
    }
    Ok(())
}

/// Copies of rows.
pub fn copy_rows(alloc: Global, rows: &[Row]) -> Result<Vec<Row>, Memory>
    ensures { IfOk result (λ copied. copied.items ≡ rows.now) }
{
    let mut copied = Vec::new(alloc);
    append_copies(alloc, &mut copied, rows)?;
    Ok(copied)
}

/// Adds a value at the end.
pub fn push_value(values: &mut Vec<Value>, value: Value) -> Result<(), Memory>
    ensures { IfOk result (λ _. values.new.items ≡ values.old.items ++ value ∷ []) }
{
    match values.push(value) {
        Ok(()) => Ok(()),
        Err(_) => Err(Memory),
    }
}

/// Adds copies of values at the end of others.
pub fn append_values(alloc: Global, values: &mut Vec<Value>, more: &[Value]) -> Result<(), Memory>
    ensures { IfOk result (λ _. values.new.items ≡ values.old.items ++ more.now) }
{
    for value in more {
        let value = value.copy(alloc)?;
        push_value(values, value)?;
    }
    Ok(())
}

/// One tuple after another, as one.
pub fn joined(alloc: Global, left: &[Value], right: &[Value]) -> Result<Row, Memory>
    ensures { IfOk result (λ row. row ≡ left.now ++ right.now) }
{
    let mut values = Vec::new(alloc);
    append_values(alloc, &mut values, left)?;
    append_values(alloc, &mut values, right)?;
    Ok(Row::of(values))
}
