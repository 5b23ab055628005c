ghost use Rattle.std.specs.Prelude.{◌≡◌, ◌<◌, ◌≤◌, ◌↔◌, All, length, drop, IsTrue, IfSome};
ghost use Rattle.std.specs.List.{list_all};
ghost use Rattle.flow_types.specs.Types.{is_bounded};
ghost use Rattle.flow_types.specs.Limits.{text_limit};
ghost use Rattle.flow_types.specs.Records.{IsRecord};
ghost use Rattle.record_codec.specs.Prefixes.{BeginsWith, StandsFrom};

use crate::number::length_at;
use crate::utf8::is_utf8;
use flow_types::field_type::FieldType;
use flow_types::schema::Schema;
use span_bytes::span::{Span, read_pieces};

/// Whether bytes are the record of a row of the schema: its fields' forms one after the other, and
/// nothing behind them. Of a Bool and of a text each byte is read once, but for those of a character that
/// the end of a piece cuts; any eight bytes are a Long, so only the length tells of Longs. No memory is
/// taken.
pub fn check_bytes<X: Span>(row: &X, schema: &Schema) -> bool
    ensures { IsTrue result ↔ IsRecord schema.now (X.seen row.now) }
{
    match row.whole() {
        Some(bytes) => check_slice(bytes, schema.fields()),
        None => check_pieces(row, schema.fields()),
    }
}

/// The same of bytes in one piece, for the fields of a schema.
fn check_slice(bytes: &[u8], fields: &[FieldType]) -> bool
    requires { IsTrue (list_all is_bounded fields.now) }
    ensures { IsTrue result ↔ IsRecord fields.now bytes.now }
{
    check_fields(&bytes, fields)
}

/// The same of bytes in several pieces.
fn check_pieces<X: Span>(row: &X, fields: &[FieldType]) -> bool
    requires { IsTrue (list_all is_bounded fields.now) }
    ensures { IsTrue result ↔ IsRecord fields.now (X.seen row.now) }
{
    read_pieces(row);
    check_fields(row, fields)
}

/// The same where it is known that all bytes are bytes.
fn check_fields<X: Span>(row: &X, fields: &[FieldType]) -> bool
    requires bounded { IsTrue (list_all is_bounded fields.now) }
    requires bytes { All (λ b. b < 256) (X.seen row.now) }
    ensures { IsTrue result ↔ IsRecord fields.now (X.seen row.now) }
{
    let mut start = 0;
    for field in fields {
        match field_end(row, *field, start) {
            Some(end) => start = end,
            None => return false,
        }
    }
    start == row.len()
}

/// The place behind the value of a field that stands from a place on, `None` exactly where none does.
fn field_end<X: Span>(row: &X, field: FieldType, start: usize) -> Option<usize>
    requires bounded { IsTrue (is_bounded field) }
    requires bytes { All (λ b. b < 256) (X.seen row.now) }
    requires inside { start ≤ length (X.seen row.now) }
    ensures found { IfSome result (StandsFrom field (X.seen row.now) start) }
    ensures none { result ≡ None → ¬ BeginsWith field (drop start (X.seen row.now)) }
{
    match field {
        FieldType::Long => long_end(row, start),
        FieldType::Bool => bool_end(row, start),
        FieldType::Str(bound) => text_end(row, bound, start),
    }
}

/// The place behind a Long: any eight bytes are one.
fn long_end<X: Span>(row: &X, start: usize) -> Option<usize>
    requires bytes { All (λ b. b < 256) (X.seen row.now) }
    requires inside { start ≤ length (X.seen row.now) }
    ensures found { IfSome result (StandsFrom FieldType.Long (X.seen row.now) start) }
    ensures none { result ≡ None → ¬ BeginsWith FieldType.Long (drop start (X.seen row.now)) }
{
    if row.len() - start < 8 {
        return None;
    }
    Some(start + 8)
}

/// The place behind a Bool.
fn bool_end<X: Span>(row: &X, start: usize) -> Option<usize>
    requires { start ≤ length (X.seen row.now) }
    ensures found { IfSome result (StandsFrom FieldType.Bool (X.seen row.now) start) }
    ensures none { result ≡ None → ¬ BeginsWith FieldType.Bool (drop start (X.seen row.now)) }
{
    if start == row.len() {
        return None;
    }
    if row.at(start) > 1 {
        return None;
    }
    Some(start + 1)
}

/// The place behind a text of at most `bound` bytes.
fn text_end<X: Span>(row: &X, bound: u16, start: usize) -> Option<usize>
    requires bounded { bound ≤ text_limit }
    requires inside { start ≤ length (X.seen row.now) }
    ensures found { IfSome result (StandsFrom (FieldType.Str bound) (X.seen row.now) start) }
    ensures none { result ≡ None → ¬ BeginsWith (FieldType.Str bound) (drop start (X.seen row.now)) }
{
    let left = row.len() - start;
    if left < 2 {
        return None;
    }
    let len = length_at(row, start);
    if len > bound || left - 2 < usize::from(len) {
        return None;
    }
    let end = start + 2 + usize::from(len);
    if !is_utf8(row, start + 2, end) {
        return None;
    }
    Some(end)
}
