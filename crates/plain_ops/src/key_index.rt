ghost use Rattle.std.specs.Prelude.{◌≡◌, IfOk};
ghost use Rattle.flow_types.specs.Tuples.{key_of, tuple_cmp};
ghost use Rattle.flow_model.specs.Rows.{with_key};
ghost use Rattle.plain_ops.specs.Indexes.{AscendsByKey, KeepsKeys, found, IsIndexOf};

use crate::lists::copy_rows;
use crate::values::{compare_field, compare_fields};
use flow_outside::failure::Memory;
use flow_types::row::Row;
use flow_types::value::Value;
use std::alloc::Global;
use std::cmp::Ordering;
use std::marker::Model;

/// Copies of rows by a key: in the order of their keys, and rows of one key in the order in which
/// they came.
#[derive(Drop)]
pub struct KeyIndex<'a> {
    numbers: &'a [u16],
    rows: Vec<Row>,
}

impl<'a> Model for KeyIndex<'a> {
    ghost use Rattle.plain_ops.specs.Indexes.{Index, AscendsByKey};

    ghost Value = { Index };

    ghost view = { λ i. record { key = i.numbers.now; rows = i.rows.items } };

    ghost invariant = { λ i. AscendsByKey i.numbers.now i.rows.items };
}

impl<'a> KeyIndex<'a> {
    /// An index of rows by the fields with these numbers. The cost is a copy of each row and a stable
    /// sort, about n log n comparisons of keys in place.
    pub fn of(alloc: Global, numbers: &'a [u16], rows: &[Row]) -> Result<KeyIndex<'a>, Memory>
        ensures { IfOk result (λ index. IsIndexOf numbers.now rows.now index) }
    {
        let mut rows = copy_rows(alloc, rows)?;
        sort_by_key(numbers, &mut rows)?;
        Ok(KeyIndex { numbers, rows })
    }

    /// The rows that have a key, in the order in which they came. It takes no memory; the cost is two
    /// binary searches.
    pub fn with_key(&self, key: &[Value]) -> &[Row]
        ensures { result.now ≡ found self.now key.now }
    {
        rows_with_key(self.numbers, key, self.rows.as_slice())
    }
}

/// Puts rows in the order of their keys; rows of one key stay in their order.
fn sort_by_key(numbers: &[u16], rows: &mut Vec<Row>) -> Result<(), Memory>
    ensures ascends { IfOk result (λ _. AscendsByKey numbers.now rows.new.items) }
    ensures keeps { IfOk result (λ _. KeepsKeys numbers.now rows.old.items rows.new.items) }
{
    match rows.sort_by(|a, b| compare_keys(numbers, a.values(), b.values())) {
        Ok(()) => Ok(()),
        Err(_) => Err(Memory),
    }
}

/// The rows that have a key, of rows in the order of their keys: behind those with lower keys, as
/// far as they go.
fn rows_with_key<'a>(numbers: &[u16], key: &[Value], rows: &'a [Row]) -> &'a [Row]
    requires { AscendsByKey numbers.now rows.now }
    ensures { result.now ≡ with_key numbers.now key.now rows.now }
{
    let start = rows.partition_point(|row| compare_key(numbers, key, row.values()).is_lt());
    let rest = &rows[start..];
    let count = rest.partition_point(|row| compare_key(numbers, key, row.values()).is_eq());
    &rest[..count]
}

/// The order of two tuples' keys. The fields are compared in place.
fn compare_keys(numbers: &[u16], a: &[Value], b: &[Value]) -> Ordering
    ensures { result ≡ tuple_cmp (key_of numbers.now a.now) (key_of numbers.now b.now) }
{
    for number in numbers {
        match compare_fields(*number, a, b) {
            Ordering::Equal => {}
            other => return other,
        }
    }
    Ordering::Equal
}

/// The order of a tuple's key and a key. The fields are compared in place.
fn compare_key(numbers: &[u16], key: &[Value], tuple: &[Value]) -> Ordering
    ensures { result ≡ tuple_cmp (key_of numbers.now tuple.now) key.now }
{
    for i in 0..numbers.len() {
        if i >= key.len() {
            return Ordering::Greater;
        }
        match compare_field(tuple, numbers[i], &key[i]) {
            Ordering::Equal => {}
            other => return other,
        }
    }
    numbers.len().cmp(&key.len())
}
