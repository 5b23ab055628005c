//! Fields compared where they lie in two records of one schema.
ghost use Rattle.std.specs.Prelude.{◌≡◌, ◌+◌, ◌≤◌, length, map, take, drop};
ghost use Rattle.std.specs.Cmp.Lexicographic.{slice_cmp};
ghost use Rattle.std.specs.Ordering.{nat_cmp};
ghost use Rattle.flow_types.specs.Values.{value_cmp};
ghost use Rattle.flow_types.specs.Tuples.{field, item_cmp, tuple_cmp};
ghost use Rattle.flow_types.specs.Records.{IsRecord, tuple_of};
ghost use Rattle.normal_key.specs.Comparisons.{ascending, items_cmp};

use flow_types::field_type::FieldType;
use flow_types::order_item::OrderItem;
use flow_types::schema::Schema;
use record_codec::number::long_at;
use record_codec::place::{Place, field_at};
use span_bytes::compare::compare_bytes;
use span_bytes::part::Part;
use span_bytes::span::Span;
use std::cmp::Ordering;

/// By the fields of a key, the lesser values first.
pub(crate) fn compare_key<X: Span>(a: &X, b: &X, schema: &Schema, key: &[u16]) -> Ordering
    requires a_fits { IsRecord schema.now (X.seen a.now) }
    requires b_fits { IsRecord schema.now (X.seen b.now) }
    ensures { result ≡ items_cmp (map ascending key.now) (tuple_of schema.now (X.seen a.now))
        (tuple_of schema.now (X.seen b.now)) }
{
    for number in key {
        match compare_field(a, b, schema, usize::from(*number)) {
            Ordering::Equal => {}
            other => return other,
        }
    }
    Ordering::Equal
}

/// By the items of an order.
pub(crate) fn compare_items<X: Span>(a: &X, b: &X, schema: &Schema, items: &[OrderItem]) -> Ordering
    requires a_fits { IsRecord schema.now (X.seen a.now) }
    requires b_fits { IsRecord schema.now (X.seen b.now) }
    ensures { result ≡ items_cmp items.now (tuple_of schema.now (X.seen a.now))
        (tuple_of schema.now (X.seen b.now)) }
{
    for item in items {
        match compare_item(a, b, schema, *item) {
            Ordering::Equal => {}
            other => return other,
        }
    }
    Ordering::Equal
}

/// By all fields.
pub(crate) fn compare_whole<X: Span>(a: &X, b: &X, schema: &Schema) -> Ordering
    requires a_fits { IsRecord schema.now (X.seen a.now) }
    requires b_fits { IsRecord schema.now (X.seen b.now) }
    ensures { result ≡ tuple_cmp (tuple_of schema.now (X.seen a.now)) (tuple_of schema.now (X.seen b.now)) }
{
    for number in 0..schema.fields().len() {
        match compare_field(a, b, schema, number) {
            Ordering::Equal => {}
            other => return other,
        }
    }
    Ordering::Equal
}

/// By one item: its field, the other way round where the greater values stand first.
fn compare_item<X: Span>(a: &X, b: &X, schema: &Schema, item: OrderItem) -> Ordering
    requires a_fits { IsRecord schema.now (X.seen a.now) }
    requires b_fits { IsRecord schema.now (X.seen b.now) }
    ensures { result ≡ item_cmp item (tuple_of schema.now (X.seen a.now))
        (tuple_of schema.now (X.seen b.now)) }
{
    let number = usize::from(item.field);
    if item.down {
        return compare_field(b, a, schema, number);
    }
    compare_field(a, b, schema, number)
}

/// By one field, by its number from 0. Past the fields both are the Long 0.
fn compare_field<X: Span>(a: &X, b: &X, schema: &Schema, number: usize) -> Ordering
    requires a_fits { IsRecord schema.now (X.seen a.now) }
    requires b_fits { IsRecord schema.now (X.seen b.now) }
    ensures { result ≡ value_cmp (field number (tuple_of schema.now (X.seen a.now)))
        (field number (tuple_of schema.now (X.seen b.now))) }
{
    let fields = schema.fields();
    if number >= fields.len() {
        return Ordering::Equal;
    }
    let left = field_at(a, schema, number);
    let right = field_at(b, schema, number);
    match fields[number] {
        FieldType::Long => long_at(a, left.start).cmp(&long_at(b, right.start)),
        FieldType::Bool => (a.at(left.start) != 0).cmp(&(b.at(right.start) != 0)),
        FieldType::Str(_) => compare_texts(a, left, b, right),
    }
}

/// By the bytes of two texts, a proper front first.
fn compare_texts<X: Span>(a: &X, left: Place, b: &X, right: Place) -> Ordering
    requires a_inside { left.start + left.len ≤ length (X.seen a.now) }
    requires b_inside { right.start + right.len ≤ length (X.seen b.now) }
    ensures { result ≡ slice_cmp nat_cmp (take left.len (drop left.start (X.seen a.now)))
        (take right.len (drop right.start (X.seen b.now))) }
{
    let one = Part::of(a, left.start, left.len);
    let other = Part::of(b, right.start, right.len);
    compare_bytes(&one, &other)
}
