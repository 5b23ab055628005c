//! The fields of a key, hashed where their bytes lie in a record.
ghost use Rattle.std.specs.Prelude.{◌≡◌, ◌-◌, ◌≤◌, fold, length, take, drop};
ghost use Rattle.flow_types.specs.Tuples.{field, key_of};
ghost use Rattle.flow_types.specs.Records.{IsRecord, form, tuple_of, value_form};
ghost use Rattle.flow_types.specs.Hash.{hash_more};

use crate::fnv::hash_bytes;
use flow_types::field_type::FieldType;
use flow_types::schema::Schema;
use record_codec::place::field_at;
use span_bytes::span::Span;

/// A key's record hashed after other bytes. How the row's bytes lie is looked up once.
pub(crate) fn hash_row<X: Span>(hash: u64, row: &X, schema: &Schema, key: &[u16]) -> u64
    requires { IsRecord schema.now (X.seen row.now) }
    ensures { result ≡ fold hash_more hash (form (key_of key.now (tuple_of schema.now (X.seen row.now)))) }
{
    match row.whole() {
        Some(bytes) => hash_key(hash, &bytes, schema, key),
        None => hash_key(hash, row, schema, key),
    }
}

/// The same: the forms of the key's fields, in the key's order. Of a number past the fields that is the
/// form of the Long 0.
fn hash_key<X: Span>(hash: u64, row: &X, schema: &Schema, key: &[u16]) -> u64
    requires { IsRecord schema.now (X.seen row.now) }
    ensures { result ≡ fold hash_more hash (form (key_of key.now (tuple_of schema.now (X.seen row.now)))) }
{
    let mut so_far = hash;
    for number in key {
        so_far = hash_field(so_far, row, schema, usize::from(*number));
    }
    so_far
}

/// A field's form hashed after other bytes, by the field's number from 0: its content, and for a text the
/// two bytes of its length before that. Past the fields it is the form of the Long 0.
fn hash_field<X: Span>(hash: u64, row: &X, schema: &Schema, number: usize) -> u64
    requires { IsRecord schema.now (X.seen row.now) }
    ensures { result ≡ fold hash_more hash (value_form (field number (tuple_of schema.now (X.seen row.now)))) }
{
    let fields = schema.fields();
    if number >= fields.len() {
        return hash_bytes(hash, &[0; 8]);
    }
    let place = field_at(row, schema, number);
    let end = place.start + place.len;
    match fields[number] {
        FieldType::Long | FieldType::Bool => hash_span(hash, row, place.start, end),
        FieldType::Str(_) => hash_span(hash, row, place.start - 2, end),
    }
}

/// The bytes from `start` to `end` hashed after others, piece by piece.
fn hash_span<X: Span>(hash: u64, row: &X, start: usize, end: usize) -> u64
    requires order { start ≤ end }
    requires inside { end ≤ length (X.seen row.now) }
    ensures { result ≡ fold hash_more hash (take (end - start) (drop start (X.seen row.now))) }
{
    let mut so_far = hash;
    let mut at = start;
    while at < end {
        let piece = row.piece(at);
        let count = piece.len().min(end - at);
        so_far = hash_bytes(so_far, &piece[..count]);
        at += count;
    }
    so_far
}
