ghost use Rattle.std.specs.Prelude.{◌≡◌, IfOk};
ghost use Rattle.flow_types.specs.Tuples.{item_cmp, rank_cmp};
ghost use Rattle.flow_types.specs.Bags.{sort_by};

use crate::values::field_or;
use flow_outside::failure::Memory;
use flow_types::order_item::OrderItem;
use flow_types::row::{Row, compare_rows};
use flow_types::value::{Value, compare};
use std::cmp::Ordering;

/// How one item of an order compares two rows.
fn compare_item(item: OrderItem, a: &Row, b: &Row) -> Ordering
    ensures { result ≡ item_cmp item a.now b.now }
{
    let zero = Value::Long(0);
    let a = field_or(a.values(), item.field, &zero);
    let b = field_or(b.values(), item.field, &zero);
    if item.down {
        compare(b, a)
    } else {
        compare(a, b)
    }
}

/// The rank of rows: by the first item in which they differ, and then by the whole tuple.
pub fn compare_ranks(order: &[OrderItem], a: &Row, b: &Row) -> Ordering
    ensures { result ≡ rank_cmp order.now a.now b.now }
{
    for item in order {
        match compare_item(*item, a, b) {
            Ordering::Equal => {}
            other => return other,
        }
    }
    compare_rows(a, b)
}

/// Puts rows in the order of their rank, least first.
pub fn sort_by_rank(order: &[OrderItem], rows: &mut Vec<Row>) -> Result<(), Memory>
    ensures { IfOk result (λ _. rows.new.items ≡ sort_by (rank_cmp order.now) rows.old.items) }
{
    match rows.sort_by(|a, b| compare_ranks(order, a, b)) {
        Ok(()) => Ok(()),
        Err(_) => Err(Memory),
    }
}
