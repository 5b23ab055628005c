//! Normal forms, written from a record's bytes where they lie.
ghost use Rattle.std.specs.Prelude.{◌≡◌, ◌-◌, ◌≤◌, length, map, take, drop};
ghost use Rattle.flow_types.specs.declared.value.Value.TheVariants as value;
ghost use Rattle.flow_types.specs.Tuples.{field};
ghost use Rattle.flow_types.specs.Records.{IsRecord, tuple_of};
ghost use Rattle.normal_key.specs.Comparisons.{ascending};
ghost use Rattle.normal_key.specs.NormalForms.{Adds, directed_form, escaped, items_form, turned, whole_form};

use crate::prefix::Prefix;
use flow_types::field_type::FieldType;
use flow_types::order_item::OrderItem;
use flow_types::schema::Schema;
use record_codec::number::long_at;
use record_codec::place::field_at;
use span_bytes::span::Span;

/// The forms of a key's fields, ascending.
pub(crate) fn write_key<X: Span>(prefix: &mut Prefix, row: &X, schema: &Schema, key: &[u16])
    requires { IsRecord schema.now (X.seen row.now) }
    ensures { Adds prefix.old prefix.new (items_form (map ascending key.now) (tuple_of schema.now (X.seen row.now))) }
{
    for number in key {
        write_field(prefix, row, schema, usize::from(*number), false);
    }
}

/// The forms of the fields that items compare.
pub(crate) fn write_items<X: Span>(
    prefix: &mut Prefix,
    row: &X,
    schema: &Schema,
    items: &[OrderItem],
)
    requires { IsRecord schema.now (X.seen row.now) }
    ensures { Adds prefix.old prefix.new (items_form items.now (tuple_of schema.now (X.seen row.now))) }
{
    for item in items {
        write_field(prefix, row, schema, usize::from(item.field), item.down);
    }
}

/// The forms of all fields, where the whole row is compared.
pub(crate) fn write_whole<X: Span>(prefix: &mut Prefix, row: &X, schema: &Schema, whole: bool)
    requires { IsRecord schema.now (X.seen row.now) }
    ensures { Adds prefix.old prefix.new (whole_form whole (tuple_of schema.now (X.seen row.now))) }
{
    if !whole {
        return;
    }
    for number in 0..schema.fields().len() {
        write_field(prefix, row, schema, number, false);
    }
}

/// The form of a field, by its number from 0; past the fields that of the Long 0. Where the prefix is full,
/// the field isn't sought.
fn write_field<X: Span>(prefix: &mut Prefix, row: &X, schema: &Schema, number: usize, down: bool)
    requires { IsRecord schema.now (X.seen row.now) }
    ensures { Adds prefix.old prefix.new (directed_form down (field number (tuple_of schema.now (X.seen row.now)))) }
{
    if prefix.is_full() {
        return;
    }
    let fields = schema.fields();
    if number >= fields.len() {
        write_long(prefix, 0, down);
        return;
    }
    let place = field_at(row, schema, number);
    let end = place.start + place.len;
    match fields[number] {
        FieldType::Long => write_long(prefix, long_at(row, place.start), down),
        FieldType::Bool => write_flag(prefix, row.at(place.start) != 0, down),
        FieldType::Str(_) => write_text(prefix, row, place.start, end, down),
    }
}

/// The form of a Long.
fn write_long(prefix: &mut Prefix, number: i64, down: bool)
    ensures { Adds prefix.old prefix.new (directed_form down (value.Long number)) }
{
    let bytes = number.cast_unsigned().wrapping_add(1 << 63).to_be_bytes();
    write_bytes(prefix, &bytes, down);
}

/// The form of a Bool.
fn write_flag(prefix: &mut Prefix, flag: bool, down: bool)
    ensures { Adds prefix.old prefix.new (directed_form down (value.Bool flag)) }
{
    write_bytes(prefix, &[u8::from(flag)], down);
}

/// The form of a text that lies from `start` to `end`. No byte of it is read once the prefix is full.
fn write_text<X: Span>(prefix: &mut Prefix, row: &X, start: usize, end: usize, down: bool)
    requires order { start ≤ end }
    requires inside { end ≤ length (X.seen row.now) }
    ensures { Adds prefix.old prefix.new (directed_form down (value.Str (take (end - start) (drop start (X.seen row.now))))) }
{
    let mut at = start;
    while at < end && !prefix.is_full() {
        write_escaped(prefix, row.at(at), down);
        at += 1;
    }
    write_bytes(prefix, &[0, 0], down);
}

/// A byte of a text: a zero byte is followed by 255.
fn write_escaped(prefix: &mut Prefix, byte: u8, down: bool)
    ensures { Adds prefix.old prefix.new (map (turned down) (escaped byte)) }
{
    if byte == 0 {
        write_bytes(prefix, &[0, 255], down);
        return;
    }
    write_bytes(prefix, &[byte], down);
}

/// Bytes of a form, each turned round where the greater values stand first.
fn write_bytes(prefix: &mut Prefix, bytes: &[u8], down: bool)
    ensures { Adds prefix.old prefix.new (map (turned down) bytes.now) }
{
    if !down && bytes.len() <= 16 - prefix.len() {
        prefix.extend(bytes);
        return;
    }
    for byte in bytes {
        prefix.push(turn(*byte, down));
    }
}

/// A byte, turned round where the greater values stand first.
fn turn(byte: u8, down: bool) -> u8
    ensures { result ≡ turned down byte }
{
    if down { 255 - byte } else { byte }
}
