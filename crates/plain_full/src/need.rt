ghost use Rattle.std.specs.Prelude.{◌≡◌, ◌+◌, ◌≤◌, [], ◌∷◌, length, IfOk};
ghost use Rattle.flow_types.specs.Records.{value_form, size};
ghost use Rattle.flow_model.specs.Full.{own_entries, packed_bytes};

use crate::hash::part_of;
use flow_outside::failure::Memory;
use flow_types::row::Row;
use flow_types::value::Value;

/// The bytes that a worker's entries need: 8 and the bytes of its record for each. A number that 64 bits
/// don't hold, which no rows in memory have, is answered as want of memory. Each entry's key is hashed.
pub fn need_of(key: &[u16], workers: u32, worker: u32, entries: &[Row]) -> Result<u64, Memory>
    requires { 1 ≤ workers }
    ensures { IfOk result
        (λ need. need ≡ packed_bytes (own_entries key.now workers worker entries.now)) }
{
    let mut need = 0;
    for entry in entries {
        let more = need_of_entry(key, workers, worker, entry)?;
        need = added(need, more)?;
    }
    Ok(need)
}

/// The bytes that one entry needs, where it is the worker's; else none.
fn need_of_entry(key: &[u16], workers: u32, worker: u32, entry: &Row) -> Result<u64, Memory>
    requires { 1 ≤ workers }
    ensures { IfOk result
        (λ need. need ≡ packed_bytes (own_entries key.now workers worker (entry.now ∷ []))) }
{
    let values = entry.values();
    if part_of(key, values, workers) != u64::from(worker) {
        return Ok(0);
    }
    let bytes = record_size(values)?;
    added(8, bytes)
}

/// The bytes of a tuple's record.
fn record_size(values: &[Value]) -> Result<u64, Memory>
    ensures { IfOk result (λ bytes. bytes ≡ size values.now) }
{
    let mut bytes = 0;
    for value in values {
        bytes = added(bytes, value_size(value))?;
    }
    Ok(bytes)
}

/// The bytes of a value's record.
fn value_size(value: &Value) -> u64
    ensures { result ≡ length (value_form value.now) }
{
    match value {
        Value::Long(_) => 8,
        Value::Bool(_) => 1,
        Value::Str(text) => 2 + text.as_str().len() as u64,
    }
}

/// A sum, or want of memory where 64 bits don't hold it.
fn added(a: u64, b: u64) -> Result<u64, Memory>
    ensures { IfOk result (λ sum. sum ≡ a + b) }
{
    match a.checked_add(b) {
        Some(sum) => Ok(sum),
        None => Err(Memory),
    }
}
