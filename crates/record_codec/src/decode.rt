ghost use Rattle.std.specs.Prelude.{◌≡◌, ◌+◌, ◌-◌, ◌≤◌, [], ◌∷◌, ◌++◌, length, take, drop, IfOk};
ghost use Rattle.std.specs.Str.{IsUtf8};
ghost use Rattle.flow_types.specs.Limits.{record_limit, text_limit};
ghost use Rattle.flow_types.specs.Records.{IsRecord, first_value, tuple_of};
ghost use Rattle.record_codec.specs.Prefixes.{BeginsWith, StandsFrom};

use crate::number::{length_at, long_at};
use crate::place::next_start;
use flow_outside::failure::Memory;
use flow_types::field_type::FieldType;
use flow_types::row::Row;
use flow_types::schema::Schema;
use flow_types::text::Text;
use flow_types::value::Value;
use span_bytes::span::Span;
use std::alloc::Global;

/// The row of a record. The cost is one allocation for the list of values and one for each text, whose
/// bytes are copied piece by piece and are once more tested to be UTF-8.
pub fn decode<X: Span>(alloc: Global, row: &X, schema: &Schema) -> Result<Row, Memory>
    requires { IsRecord schema.now (X.seen row.now) }
    ensures { IfOk result (λ r. r ≡ tuple_of schema.now (X.seen row.now)) }
{
    let fields = schema.fields();
    let mut values = Vec::with_capacity(alloc, fields.len())?;
    let mut start = 0;
    for field in fields {
        start = push_value(alloc, &mut values, row, *field, start)?;
    }
    Ok(Row::of(values))
}

/// Adds the value of a field that begins at a place to those before it, and gives the place behind.
fn push_value<X: Span>(
    alloc: Global,
    values: &mut Vec<Value>,
    row: &X,
    field: FieldType,
    start: usize,
) -> Result<usize, Memory>
    requires begins { BeginsWith field (drop start (X.seen row.now)) }
    requires small { length (X.seen row.now) ≤ record_limit }
    requires inside { start ≤ length (X.seen row.now) }
    ensures stands { IfOk result (StandsFrom field (X.seen row.now) start) }
    ensures pushed { IfOk result (λ _. values.new.items ≡ values.old.items ++ first_value field (drop start (X.seen row.now)) ∷ []) }
{
    let value = value_at(alloc, row, field, start)?;
    values.push(value)?;
    Ok(next_start(row, field, start))
}

/// The value of a field that begins at a place.
fn value_at<X: Span>(
    alloc: Global,
    row: &X,
    field: FieldType,
    start: usize,
) -> Result<Value, Memory>
    requires begins { BeginsWith field (drop start (X.seen row.now)) }
    requires small { length (X.seen row.now) ≤ record_limit }
    requires inside { start ≤ length (X.seen row.now) }
    ensures { IfOk result (λ v. v ≡ first_value field (drop start (X.seen row.now))) }
{
    match field {
        FieldType::Long => Ok(Value::Long(long_at(row, start))),
        FieldType::Bool => Ok(Value::Bool(row.at(start) != 0)),
        FieldType::Str(_) => {
            let len = usize::from(length_at(row, start));
            Ok(Value::Str(text_at(alloc, row, start + 2, len)?))
        }
    }
}

/// The text whose bytes lie from a place on.
fn text_at<X: Span>(alloc: Global, row: &X, start: usize, len: usize) -> Result<Text, Memory>
    requires utf8 { IsUtf8 (take len (drop start (X.seen row.now))) }
    requires short { len ≤ text_limit }
    requires small { length (X.seen row.now) ≤ record_limit }
    requires inside { start + len ≤ length (X.seen row.now) }
    ensures { IfOk result (λ t. t ≡ take len (drop start (X.seen row.now))) }
{
    let bytes = copy_of(alloc, row, start, start + len)?;
    match String::from_utf8(bytes) {
        Ok(text) => match Text::of(text) {
            Some(text) => Ok(text),
            None => unreachable!(),
        },
        Err(_) => unreachable!(),
    }
}

/// The bytes from `start` to `end`, copied piece by piece.
fn copy_of<X: Span>(alloc: Global, row: &X, start: usize, end: usize) -> Result<Vec<u8>, Memory>
    requires order { start ≤ end }
    requires inside { end ≤ length (X.seen row.now) }
    ensures { IfOk result (λ v. v.items ≡ take (end - start) (drop start (X.seen row.now))) }
{
    let mut bytes = Vec::with_capacity(alloc, end - start)?;
    let mut at = start;
    while at < end {
        let piece = row.piece(at);
        let count = piece.len().min(end - at);
        bytes.extend_from_slice(&piece[..count])?;
        at += count;
    }
    Ok(bytes)
}
