ghost use Rattle.std.specs.Prelude.{◌≡◌, ◌++◌, IfOk};
ghost use Rattle.flow_model.specs.Solutions.{chosen, greatest_row, candidates, next_entry, merged, probe_rows};

use crate::held::Held;
use crate::join::{Meeting, inner_rows};
use crate::key_index::KeyIndex;
use crate::keys::{keys_in, keys_of_both};
use crate::lists::{append_rows, copy_rows, push_row};
use crate::rank::sort_by_rank;
use flow_model::op::MergeRule;
use flow_outside::failure::Memory;
use flow_types::expr::Expr;
use flow_types::order_item::OrderItem;
use flow_types::row::Row;
use std::alloc::Global;

/// For each key that rows have, the row of it with the greatest rank.
pub fn chosen(
    alloc: Global,
    key: &[u16],
    order: &[OrderItem],
    rows: &[Row],
) -> Result<Vec<Row>, Memory>
    ensures { IfOk result (λ entries. entries.items ≡ chosen key.now order.now rows.now) }
{
    let keys = keys_in(alloc, key, rows)?;
    let index = KeyIndex::of(alloc, key, rows)?;
    let mut entries = Vec::new(alloc);
    for one in &keys {
        let candidates = copy_rows(alloc, index.with_key(one.values()))?;
        push_greatest(&mut entries, order, candidates)?;
    }
    Ok(entries)
}

/// Adds the row with the greatest rank; nothing where there is no row.
fn push_greatest(
    entries: &mut Vec<Row>,
    order: &[OrderItem],
    mut candidates: Vec<Row>,
) -> Result<(), Memory>
    ensures { IfOk result
        (λ _. entries.new.items ≡ entries.old.items ++ greatest_row order.now candidates.items) }
{
    sort_by_rank(order, &mut candidates)?;
    match candidates.pop() {
        Some(row) => push_row(entries, row),
        None => Ok(()),
    }
}

/// The entries of a solution after a superstep's deltas.
pub fn merged(
    alloc: Global,
    key: &[u16],
    order: &[OrderItem],
    merge: MergeRule,
    old: &[Row],
    deltas: &[Row],
) -> Result<Vec<Row>, Memory>
    ensures { IfOk result
        (λ entries. entries.items ≡ merged key.now order.now merge old.now deltas.now) }
{
    let keys = keys_of_both(alloc, key, key, old, deltas)?;
    let old_index = KeyIndex::of(alloc, key, old)?;
    let delta_index = KeyIndex::of(alloc, key, deltas)?;
    let mut entries = Vec::new(alloc);
    for one in &keys {
        let one = one.values();
        let entry = copy_rows(alloc, old_index.with_key(one))?;
        let changes = copy_rows(alloc, delta_index.with_key(one))?;
        push_next(&mut entries, order, merge, entry, changes)?;
    }
    Ok(entries)
}

/// Adds a key's new entry: where there are no deltas the old one, else the candidate with the
/// greatest rank.
fn push_next(
    entries: &mut Vec<Row>,
    order: &[OrderItem],
    merge: MergeRule,
    old: Vec<Row>,
    deltas: Vec<Row>,
) -> Result<(), Memory>
    ensures { IfOk result
        (λ _. entries.new.items ≡ entries.old.items ++ next_entry order.now merge old.items deltas.items) }
{
    if deltas.is_empty() {
        return append_rows(entries, old);
    }
    let candidates = candidates(merge, old, deltas)?;
    push_greatest(entries, order, candidates)
}

/// The rows among which a key's new entry is chosen.
fn candidates(merge: MergeRule, old: Vec<Row>, deltas: Vec<Row>) -> Result<Vec<Row>, Memory>
    ensures { IfOk result (λ rows. rows.items ≡ candidates merge old.items deltas.items) }
{
    match merge {
        MergeRule::Replace => Ok(deltas),
        MergeRule::Greatest => {
            let mut rows = old;
            append_rows(&mut rows, deltas)?;
            Ok(rows)
        }
    }
}

/// Probe: for each row whose key the solution holds, the columns over the row followed by the entry.
pub fn probe_rows(
    alloc: Global,
    held: &Held,
    key: &[u16],
    columns: &[Expr],
    rows: &[Row],
) -> Result<Vec<Row>, Memory>
    ensures { IfOk result
        (λ found. found.items ≡ probe_rows held.now key.now columns.now rows.now) }
{
    let meeting = Meeting {
        left_key: key,
        right_key: held.key(),
        columns,
    };
    inner_rows(alloc, &meeting, rows, held.entries())
}
