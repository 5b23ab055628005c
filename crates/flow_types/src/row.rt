ghost use Rattle.std.specs.Prelude.{◌≡◌, IfOk, MatchResult};
ghost use Rattle.flow_types.specs.Tuples.{tuple_cmp};
ghost use Rattle.flow_types.specs.Bags.{ordered, OrderedIsTheOne};

use crate::value::{Value, compare};
use flow_outside::failure::Memory;
use std::alloc::Global;
use std::cmp::Ordering;
use std::marker::Model;

/// A tuple, seen as the list of its values. It need not fit any schema.
#[derive(Debug, Drop)]
pub struct Row {
    values: Vec<Value>,
}

impl Model for Row {
    ghost use Rattle.flow_types.specs.Tuples.{Tuple};

    ghost Value = { Tuple };

    ghost view = { λ r. r.values.items };
}

impl Row {
    /// The tuple of these values, in the vector as it is.
    pub fn of(values: Vec<Value>) -> Row
        ensures { result ≡ values.items }
    {
        Row { values }
    }

    /// The values, in the order of their fields.
    pub fn values(&self) -> &[Value]
        ensures { result.now ≡ self.now }
    {
        self.values.as_slice()
    }

    /// A copy; one allocation for the list and one for each text.
    pub fn copy(&self, alloc: Global) -> Result<Row, Memory>
        ensures { IfOk result (λ r. r ≡ self.now) }
    {
        let mut values = match Vec::with_capacity(alloc, self.values.len()) {
            Ok(values) => values,
            Err(_) => return Err(Memory),
        };
        for value in &self.values {
            let value = value.copy(alloc)?;
            if values.push(value).is_err() {
                return Err(Memory);
            }
        }
        Ok(Row { values })
    }
}

/// The order of tuples: by the first field in which they differ, a tuple before those that it is a
/// prefix of. The fields are compared in place, up to the first that differs.
pub fn compare_rows(a: &Row, b: &Row) -> Ordering
    ensures { result ≡ tuple_cmp a.now b.now }
{
    compare_tuples(a.values(), b.values())
}

/// The order of tuples, on their values.
fn compare_tuples(a: &[Value], b: &[Value]) -> Ordering
    ensures { result ≡ tuple_cmp a.now b.now }
{
    let mut i = 0;
    while i < a.len() && i < b.len() {
        match compare(&a[i], &b[i]) {
            Ordering::Equal => i += 1,
            other => return other,
        }
    }
    a.len().cmp(&b.len())
}

/// Puts rows into ascending order, equal rows as often as before. After want of memory they stand as
/// they stood. The cost is that of std's stable sort: about n log n comparisons, and a buffer for n
/// rows above twenty.
pub fn sort_rows(rows: &mut Vec<Row>) -> Result<(), Memory>
    ensures { MatchResult result
        (λ _. rows.new.items ≡ ordered rows.old.items)
        (λ _. rows.new.items ≡ rows.old.items) }
{
    match rows.sort_by(|a, b| compare_rows(a, b)) {
        Ok(()) => Ok(()),
        Err(_) => Err(Memory),
    }
}

/// The law of ordered lists: what `ordered` gives is the same bag and ascends, and no other list is
/// and does.
pub fn ordered_is_the_one()
    ensures { OrderedIsTheOne }
{}
