ghost use Rattle.std.specs.Prelude.{◌≡◌, IsTrue};
ghost use Rattle.normal_key.specs.Fits.{is_record};
ghost use Rattle.normal_key.specs.Laws.{IsPrefixed, bytes_cmp, bytes_prefix};

use crate::compare::{compare_items, compare_key, compare_whole};
use crate::prefix::Prefix;
use crate::write::{write_items, write_key, write_whole};
use flow_types::order_item::OrderItem;
use flow_types::schema::Schema;
use paged_view::order::RecordOrder;
use paged_view::record_ref::RecordRef;
use record_codec::check::check_bytes;
use span_bytes::span::Span;
use std::cmp::Ordering;

/// An order of the records of a schema: by the fields of a key, the lesser values first, then by the items
/// of an order, and then by the whole row where `whole` is true. Without it, rows that differ in no field
/// compared are equal. A field's number past the schema's fields counts as the Long 0.
///
/// Flink's sorter, too, compares normalized keys of a fixed length first and the records only where these are
/// the same. To compare two records costs a step for each field before one that is compared, and a look at
/// each byte of it, up to the first that differs. A prefix costs the same up to its 16 bytes.
#[derive(Clone, Copy)]
pub struct KeyOrder<'a> {
    schema: &'a Schema,
    key: &'a [u16],
    items: &'a [OrderItem],
    whole: bool,
    ghost law: { IsPrefixed schema.now key.now items.now whole },
}

impl<'a> KeyOrder<'a> {
    /// The order by these. Nothing is copied.
    pub fn of(
        schema: &'a Schema,
        key: &'a [u16],
        items: &'a [OrderItem],
        whole: bool,
    ) -> KeyOrder<'a>
        ensures schema { result.schema.now ≡ schema.now }
        ensures key { result.key.now ≡ key.now }
        ensures items { result.items.now ≡ items.now }
        ensures whole { result.whole ≡ whole }
    {
        KeyOrder {
            schema,
            key,
            items,
            whole,
        }
    }
}

impl RecordOrder for KeyOrder<'_> {
    ghost use Rattle.normal_key.specs.Fits.{is_record};
    ghost use Rattle.normal_key.specs.Laws.{bytes_cmp, bytes_prefix};

    ghost is_fit = { λ order row. is_record order.schema.now row };

    ghost prefix_of = { λ order row. bytes_prefix order.schema.now order.key.now order.items.now order.whole row };

    ghost cmp = { λ order a b. bytes_cmp order.schema.now order.key.now order.items.now order.whole a b };

    fn fits(&self, row: &RecordRef<'_>) -> bool {
        fits(row, self.schema)
    }

    fn prefix(&self, row: &RecordRef<'_>) -> [u8; 16] {
        prefix(row, self)
    }

    fn compare(&self, a: &RecordRef<'_>, b: &RecordRef<'_>) -> Ordering {
        compare(a, b, self)
    }

    ghost total = { λ order. order.law.total };

    ghost prefix_first = { λ order. order.law.smaller };
}

/// Whether bytes are a record of the schema. Each byte is read once.
pub fn fits<X: Span>(row: &X, schema: &Schema) -> bool
    ensures { result ≡ is_record schema.now (X.seen row.now) }
{
    check_bytes(row, schema)
}

/// The first 16 bytes of what the order compares. No field is sought once they are full.
pub fn prefix<X: Span>(row: &X, order: &KeyOrder<'_>) -> [u8; 16]
    requires { IsTrue (is_record order.now.schema.now (X.seen row.now)) }
    ensures { result ≡ bytes_prefix order.now.schema.now order.now.key.now order.now.items.now order.now.whole (X.seen row.now) }
{
    match row.whole() {
        Some(bytes) => prefix_in(&bytes, order),
        None => prefix_in(row, order),
    }
}

/// The same, whether the bytes lie in one piece or in several.
fn prefix_in<X: Span>(row: &X, order: &KeyOrder<'_>) -> [u8; 16]
    requires { IsTrue (is_record order.now.schema.now (X.seen row.now)) }
    ensures { result ≡ bytes_prefix order.now.schema.now order.now.key.now order.now.items.now order.now.whole (X.seen row.now) }
{
    let mut prefix = Prefix::new();
    write_key(&mut prefix, row, order.schema, order.key);
    write_items(&mut prefix, row, order.schema, order.items);
    write_whole(&mut prefix, row, order.schema, order.whole);
    prefix.into_bytes()
}

/// Which record stands first: field by field, up to the first that differs.
pub fn compare<X: Span>(a: &X, b: &X, order: &KeyOrder<'_>) -> Ordering
    requires a_fits { IsTrue (is_record order.now.schema.now (X.seen a.now)) }
    requires b_fits { IsTrue (is_record order.now.schema.now (X.seen b.now)) }
    ensures { result ≡ bytes_cmp order.now.schema.now order.now.key.now order.now.items.now order.now.whole (X.seen a.now) (X.seen b.now) }
{
    if let Some(left) = a.whole() {
        if let Some(right) = b.whole() {
            return compare_slices(left, right, order);
        }
    }
    compare_in(a, b, order)
}

/// The same of records in one piece. Where whole rows are compared, records whose bytes are the same are
/// looked at by their bytes alone.
fn compare_slices(a: &[u8], b: &[u8], order: &KeyOrder<'_>) -> Ordering
    requires a_fits { IsTrue (is_record order.now.schema.now a.now) }
    requires b_fits { IsTrue (is_record order.now.schema.now b.now) }
    ensures { result ≡ bytes_cmp order.now.schema.now order.now.key.now order.now.items.now order.now.whole a.now b.now }
{
    if order.whole && a == b {
        return Ordering::Equal;
    }
    compare_in(&a, &b, order)
}

/// The same, whether the bytes lie in one piece or in several.
fn compare_in<X: Span>(a: &X, b: &X, order: &KeyOrder<'_>) -> Ordering
    requires a_fits { IsTrue (is_record order.now.schema.now (X.seen a.now)) }
    requires b_fits { IsTrue (is_record order.now.schema.now (X.seen b.now)) }
    ensures { result ≡ bytes_cmp order.now.schema.now order.now.key.now order.now.items.now order.now.whole (X.seen a.now) (X.seen b.now) }
{
    match compare_key(a, b, order.schema, order.key) {
        Ordering::Equal => {}
        other => return other,
    }
    match compare_items(a, b, order.schema, order.items) {
        Ordering::Equal => {}
        other => return other,
    }
    if order.whole {
        return compare_whole(a, b, order.schema);
    }
    Ordering::Equal
}
