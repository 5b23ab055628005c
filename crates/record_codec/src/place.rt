ghost use Rattle.std.specs.Prelude.{◌≡◌, ◌+◌, ◌<◌, ◌≤◌, length, take, drop};
ghost use Rattle.flow_types.specs.Limits.{record_limit};
ghost use Rattle.flow_types.specs.Tuples.{field};
ghost use Rattle.flow_types.specs.Records.{IsRecord, first_value, tuple_of};
ghost use Rattle.record_codec.specs.Prefixes.{BeginsWith, StandsFrom};
ghost use Rattle.record_codec.specs.Places.{content, place_in, place_of, start_of};

use crate::number::length_at;
use flow_types::field_type::FieldType;
use flow_types::schema::Schema;
use span_bytes::span::Span;

/// Where a field's content lies in a record: the bytes of its value, those of a text without its
/// length.
#[derive(Clone, Copy, Debug, PartialEq, Eq)]
pub struct Place {
    /// The place of the first byte, from 0.
    pub start: usize,
    /// How many bytes there are.
    pub len: usize,
}

/// Where the content of field `i` lies, by its number from 0. Before the first text a field's place is
/// looked up in the schema; behind it the cost is a step for each field before it, of which only the
/// lengths of texts are read.
pub fn field_at<X: Span>(row: &X, schema: &Schema, i: usize) -> Place
    requires record { IsRecord schema.now (X.seen row.now) }
    requires exists { i < length schema.now }
    ensures place { result ≡ place_of schema.now (X.seen row.now) i }
    ensures inside { result.start + result.len ≤ length (X.seen row.now) }
    ensures bytes { take result.len (drop result.start (X.seen row.now))
        ≡ content (field i (tuple_of schema.now (X.seen row.now))) }
{
    match row.whole() {
        Some(bytes) => place_at(&bytes, schema, i),
        None => place_at(row, schema, i),
    }
}

/// The same, whether the bytes lie in one piece or in several.
fn place_at<X: Span>(row: &X, schema: &Schema, i: usize) -> Place
    requires record { IsRecord schema.now (X.seen row.now) }
    requires exists { i < length schema.now }
    ensures place { result ≡ place_of schema.now (X.seen row.now) i }
    ensures inside { result.start + result.len ≤ length (X.seen row.now) }
    ensures bytes { take result.len (drop result.start (X.seen row.now))
        ≡ content (field i (tuple_of schema.now (X.seen row.now))) }
{
    let start = start_at(row, schema, i);
    first_place(row, schema.fields()[i], start)
}

/// Where a field begins, with a text's length.
fn start_at<X: Span>(row: &X, schema: &Schema, i: usize) -> usize
    requires record { IsRecord schema.now (X.seen row.now) }
    requires exists { i < length schema.now }
    ensures start { result ≡ start_of (take i schema.now) (X.seen row.now) }
    ensures inside { result ≤ length (X.seen row.now) }
    ensures rest { IsRecord (drop i schema.now) (drop result (X.seen row.now)) }
    ensures small { length (X.seen row.now) ≤ record_limit }
{
    let fields = schema.fields();
    match schema.start_of(i) {
        Some(start) => usize::from(start),
        None => field_start(row, fields, i),
    }
}

/// Where field `i` begins, with a text's length.
fn field_start<X: Span>(row: &X, fields: &[FieldType], i: usize) -> usize
    requires record { IsRecord fields.now (X.seen row.now) }
    requires small { length (X.seen row.now) ≤ record_limit }
    requires count { i ≤ length fields.now }
    ensures start { result ≡ start_of (take i fields.now) (X.seen row.now) }
    ensures inside { result ≤ length (X.seen row.now) }
    ensures rest { IsRecord (drop i fields.now) (drop result (X.seen row.now)) }
{
    let mut start = 0;
    for k in 0..i {
        start = next_start(row, fields[k], start);
    }
    start
}

/// The place behind a field that begins at a place.
pub(crate) fn next_start<X: Span>(row: &X, field: FieldType, start: usize) -> usize
    requires begins { BeginsWith field (drop start (X.seen row.now)) }
    requires small { length (X.seen row.now) ≤ record_limit }
    requires inside { start ≤ length (X.seen row.now) }
    ensures { StandsFrom field (X.seen row.now) start result }
{
    match field {
        FieldType::Long => start + 8,
        FieldType::Bool => start + 1,
        FieldType::Str(_) => start + 2 + usize::from(length_at(row, start)),
    }
}

/// Where the content of a field lies that begins at a place.
fn first_place<X: Span>(row: &X, field: FieldType, start: usize) -> Place
    requires begins { BeginsWith field (drop start (X.seen row.now)) }
    requires small { length (X.seen row.now) ≤ record_limit }
    requires inside { start ≤ length (X.seen row.now) }
    ensures place { result ≡ place_in field start (X.seen row.now) }
    ensures inside { result.start + result.len ≤ length (X.seen row.now) }
    ensures bytes { take result.len (drop result.start (X.seen row.now))
        ≡ content (first_value field (drop start (X.seen row.now))) }
{
    match field {
        FieldType::Long => Place { start, len: 8 },
        FieldType::Bool => Place { start, len: 1 },
        FieldType::Str(_) => Place {
            start: start + 2,
            len: usize::from(length_at(row, start)),
        },
    }
}
