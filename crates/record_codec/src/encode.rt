ghost use Rattle.std.specs.Prelude.{◌≡◌, ◌+◌, ◌≤◌, ◌&&◌, nat_le, if◌then◌else◌, ◌++◌, length, take, drop, IsTrue, IfSome, is_some, Some, None};
ghost use Rattle.std.specs.List.{list_all};
ghost use Rattle.flow_types.specs.Limits.{field_limit, record_limit};
ghost use Rattle.flow_types.specs.Values.{is_value};
ghost use Rattle.flow_types.specs.Types.{fits};
ghost use Rattle.flow_types.specs.Records.{form, size, value_form, IsRecordOf};

use flow_types::field_type::FieldType;
use flow_types::row::Row;
use flow_types::schema::Schema;
use flow_types::value::Value;

/// Writes a row's record at the front of `out` and gives its length, or `None` exactly where the row
/// doesn't fit the schema or `out` is shorter than the record; then `out` stays as it was. The values
/// are gone over once for their sizes, and each byte is written once.
pub fn encode_into(out: &mut [u8], schema: &Schema, row: &Row) -> Option<usize>
    ensures answer { result ≡ (if fits schema.now row.now && nat_le (size row.now) (length out.old) then Some (size row.now) else None) }
    ensures bytes { IfSome result (λ n. out.new ≡ form row.now ++ drop n out.old) }
    ensures unchanged { result ≡ None → out.new ≡ out.old }
    ensures record { IfSome result (λ n. IsRecordOf schema.now row.now (form row.now)) }
{
    let size = record_size(schema, row)?;
    if out.len() < size {
        return None;
    }
    write_values(out, row.values());
    Some(size)
}

/// The bytes of a row's record, at most 16,384, or `None` exactly where the row doesn't fit the schema.
/// The values are gone over once, and no byte of a text is read.
pub fn record_size(schema: &Schema, row: &Row) -> Option<usize>
    ensures fits { is_some result ≡ fits schema.now row.now }
    ensures size { IfSome result (λ n. n ≡ size row.now) }
    ensures small { IfSome result (λ n. n ≤ record_limit) }
{
    size_of(schema.fields(), row.values())
}

/// The bytes of the record of values that fit the fields, or `None` exactly where they don't.
fn size_of(fields: &[FieldType], values: &[Value]) -> Option<usize>
    requires { length fields.now ≤ field_limit }
    ensures fits { is_some result ≡ fits fields.now values.now }
    ensures size { IfSome result (λ n. n ≡ size values.now) }
{
    if fields.len() != values.len() {
        return None;
    }
    let mut total = 0;
    for i in 0..fields.len() {
        if !fields[i].fits(&values[i]) {
            return None;
        }
        total += size_of_value(&values[i]);
    }
    Some(total)
}

/// The bytes of a value's form.
fn size_of_value(value: &Value) -> usize
    ensures size { result ≡ length (value_form value.now) }
    ensures small { result ≤ record_limit }
{
    match value {
        Value::Long(_) => 8,
        Value::Bool(_) => 1,
        Value::Str(text) => 2 + text.as_str().len(),
    }
}

/// Writes the record of values at the front, which has room for it.
fn write_values(out: &mut [u8], values: &[Value])
    requires { size values.now ≤ length out.old }
    ensures bytes { out.new ≡ form values.now ++ drop (size values.now) out.old }
    ensures values { IsTrue (list_all is_value values.now) }
{
    let mut start = 0;
    for value in values {
        start = write_value(out, start, value);
    }
}

/// Writes a value's form from a place on, and gives the place behind it.
fn write_value(out: &mut [u8], start: usize, value: &Value) -> usize
    requires { start + length (value_form value.now) ≤ length out.old }
    ensures end { result ≡ start + length (value_form value.now) }
    ensures bytes { out.new ≡ take start out.old ++ value_form value.now ++ drop result out.old }
    ensures value { IsTrue (is_value value.now) }
{
    match value {
        Value::Long(n) => write_bytes(out, start, &n.to_be_bytes()),
        Value::Bool(b) => write_bytes(out, start, &[u8::from(*b)]),
        Value::Str(text) => {
            let text = text.as_str().as_bytes();
            let len = (text.len() as u16).to_be_bytes();
            let start = write_bytes(out, start, &len);
            write_bytes(out, start, text)
        }
    }
}

/// Writes bytes over others from a place on, and gives the place behind them. Each byte is copied once.
pub fn write_bytes(out: &mut [u8], start: usize, bytes: &[u8]) -> usize
    requires { start + length bytes.now ≤ length out.old }
    ensures end { result ≡ start + length bytes.now }
    ensures bytes { out.new ≡ take start out.old ++ bytes.now ++ drop result out.old }
{
    let end = start + bytes.len();
    out[start..end].copy_from_slice(bytes);
    end
}
