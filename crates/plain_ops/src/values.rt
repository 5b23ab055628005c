ghost use Rattle.std.specs.Prelude.{◌≡◌, ◌≤◌, IfOk, length, slice_index_or, string_bytes};
ghost use Rattle.flow_types.specs.declared.value.Value.TheVariants as value;
ghost use Rattle.flow_types.specs.Limits.{text_limit};
ghost use Rattle.flow_types.specs.Values.{long_of, flag_of, bytes_of, value_cmp};
ghost use Rattle.flow_types.specs.Tuples.{field};

use flow_outside::failure::Memory;
use flow_types::text::Text;
use flow_types::value::{Value, compare};
use std::alloc::Global;
use std::cmp::Ordering;

/// The number of a Long; 0 of another kind.
pub fn long_of(value: &Value) -> i64
    ensures { result ≡ long_of value.now }
{
    match value {
        Value::Long(number) => *number,
        Value::Bool(_) | Value::Str(_) => 0,
    }
}

/// The truth of a Bool; false of another kind.
pub fn flag_of(value: &Value) -> bool
    ensures { result ≡ flag_of value.now }
{
    match value {
        Value::Bool(flag) => *flag,
        Value::Long(_) | Value::Str(_) => false,
    }
}

/// The text of a Str, of at most 16,382 bytes; the empty text of another kind.
pub fn text_of(value: &Value) -> &str
    ensures value { result.now ≡ bytes_of value.now }
    ensures bound { length result.now ≤ text_limit }
{
    match value {
        Value::Str(text) => text.as_str(),
        Value::Long(_) | Value::Bool(_) => "",
    }
}

/// The Str of a text. One above a text's limit is answered as want of memory.
pub fn str_value(text: String) -> Result<Value, Memory>
    ensures { IfOk result (λ v. v ≡ value.Str (string_bytes text)) }
{
    match Text::of(text) {
        Some(text) => Ok(Value::Str(text)),
        None => Err(Memory),
    }
}

/// A field, by its number from 0; `missing` where the tuple ends before it.
pub fn field_or<'a>(tuple: &'a [Value], number: u16, missing: &'a Value) -> &'a Value
    ensures { result.now ≡ slice_index_or tuple.now number missing.now }
{
    let place = usize::from(number);
    if place < tuple.len() {
        &tuple[place]
    } else {
        missing
    }
}

/// The order of a field, by its number from 0, and a value; the field is the Long 0 where the tuple
/// ends before it.
pub fn compare_field(tuple: &[Value], number: u16, value: &Value) -> Ordering
    ensures { result ≡ value_cmp (field number tuple.now) value.now }
{
    let zero = Value::Long(0);
    compare(field_or(tuple, number, &zero), value)
}

/// The order of two tuples by a field, by its number from 0; the field is the Long 0 where a tuple
/// ends before it.
pub fn compare_fields(number: u16, a: &[Value], b: &[Value]) -> Ordering
    ensures { result ≡ value_cmp (field number a.now) (field number b.now) }
{
    let zero = Value::Long(0);
    compare(field_or(a, number, &zero), field_or(b, number, &zero))
}

/// A copy of a field, by its number from 0; the Long 0 where the tuple ends before it.
pub fn copy_field(alloc: Global, tuple: &[Value], number: u16) -> Result<Value, Memory>
    ensures { IfOk result (λ v. v ≡ field number tuple.now) }
{
    let zero = Value::Long(0);
    field_or(tuple, number, &zero).copy(alloc)
}
