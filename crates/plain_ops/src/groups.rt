ghost use Rattle.std.specs.Prelude.{◌≡◌, ◌++◌, IfOk, take};
ghost use Rattle.flow_types.specs.Tuples.{rank_cmp};
ghost use Rattle.flow_types.specs.Bags.{sort_by};
ghost use Rattle.flow_model.specs.Rows.{distinct_rows, folds_of, group_rows, top_rows, cogroup_rows};

use crate::folds::push_folds;
use crate::key_index::KeyIndex;
use crate::keys::{keep_each_once, keys_in, keys_of_both};
use crate::lists::{append_rows, append_values, copy_rows, push_row};
use crate::rank::sort_by_rank;
use flow_outside::failure::Memory;
use flow_types::agg::Agg;
use flow_types::order_item::OrderItem;
use flow_types::row::Row;
use flow_types::value::Value;
use std::alloc::Global;

/// Distinct: each row once, in ascending order.
pub fn distinct_rows(alloc: Global, rows: &[Row]) -> Result<Vec<Row>, Memory>
    ensures { IfOk result (λ kept. kept.items ≡ distinct_rows rows.now) }
{
    let mut kept = copy_rows(alloc, rows)?;
    keep_each_once(&mut kept)?;
    Ok(kept)
}

/// Group: for each key its values, and then the folds of the rows that have it.
pub fn group_rows(
    alloc: Global,
    key: &[u16],
    aggs: &[Agg],
    rows: &[Row],
) -> Result<Vec<Row>, Memory>
    ensures { IfOk result (λ groups. groups.items ≡ group_rows key.now aggs.now rows.now) }
{
    let keys = keys_in(alloc, key, rows)?;
    let index = KeyIndex::of(alloc, key, rows)?;
    let mut groups = Vec::new(alloc);
    for one in &keys {
        let group = group_row(alloc, one, aggs, index.with_key(one.values()))?;
        push_row(&mut groups, group)?;
    }
    Ok(groups)
}

/// The row of one key, of the rows that have it.
fn group_row(alloc: Global, key: &Row, aggs: &[Agg], rows: &[Row]) -> Result<Row, Memory>
    ensures { IfOk result (λ row. row ≡ key.now ++ folds_of aggs.now rows.now) }
{
    let mut values = Vec::new(alloc);
    append_values(alloc, &mut values, key.values())?;
    push_folds(&mut values, aggs, rows)?;
    Ok(Row::of(values))
}

/// Cogroup: for each key of either side its values, the folds of the left rows that have it, and
/// those of the right rows.
pub fn cogroup_rows(
    alloc: Global,
    left_key: &[u16],
    right_key: &[u16],
    left_aggs: &[Agg],
    right_aggs: &[Agg],
    left: &[Row],
    right: &[Row],
) -> Result<Vec<Row>, Memory>
    ensures { IfOk result
        (λ groups. groups.items ≡ cogroup_rows left_key.now right_key.now left_aggs.now right_aggs.now left.now right.now) }
{
    let keys = keys_of_both(alloc, left_key, right_key, left, right)?;
    let left_index = KeyIndex::of(alloc, left_key, left)?;
    let right_index = KeyIndex::of(alloc, right_key, right)?;
    let mut groups = Vec::new(alloc);
    for one in &keys {
        let key = one.values();
        let left_group = left_index.with_key(key);
        let right_group = right_index.with_key(key);
        let group = cogroup_row(alloc, key, left_aggs, right_aggs, left_group, right_group)?;
        push_row(&mut groups, group)?;
    }
    Ok(groups)
}

/// The row of one key, of the rows on either side that have it.
fn cogroup_row(
    alloc: Global,
    key: &[Value],
    left_aggs: &[Agg],
    right_aggs: &[Agg],
    left: &[Row],
    right: &[Row],
) -> Result<Row, Memory>
    ensures { IfOk result
        (λ row. row ≡ key.now ++ (folds_of left_aggs.now left.now ++ folds_of right_aggs.now right.now)) }
{
    let mut values = Vec::new(alloc);
    append_values(alloc, &mut values, key)?;
    push_folds(&mut values, left_aggs, left)?;
    push_folds(&mut values, right_aggs, right)?;
    Ok(Row::of(values))
}

/// Top: for each key, the first rows that have it, by rank, at most `count` of them.
pub fn top_rows(
    alloc: Global,
    key: &[u16],
    order: &[OrderItem],
    count: usize,
    rows: &[Row],
) -> Result<Vec<Row>, Memory>
    ensures { IfOk result (λ first. first.items ≡ top_rows key.now order.now count rows.now) }
{
    let keys = keys_in(alloc, key, rows)?;
    let index = KeyIndex::of(alloc, key, rows)?;
    let mut first = Vec::new(alloc);
    for one in &keys {
        let mut group = copy_rows(alloc, index.with_key(one.values()))?;
        sort_by_rank(order, &mut group)?;
        group.truncate(count);
        append_rows(&mut first, group)?;
    }
    Ok(first)
}
