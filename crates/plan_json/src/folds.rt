ghost use Rattle.std.specs.Prelude.{◌≡◌, IfOk, map};
ghost use Rattle.serde_json.specs.View.{view};
ghost use Rattle.plan_json.specs.Json.{seen, collected, meaning};
ghost use Rattle.plan_json.specs.Forms.{extreme, agg_on, agg_in, agg_of, aggs_in, directions, order_item_in, order_item_of, order_in};

use crate::json::{is_text, items_in, list_in};
use crate::numbers::field_number;
use crate::reading::{Flaw, Reading};
use flow_model::op::{AggList, OrderList};
use flow_outside::failure::Memory;
use flow_types::agg::Agg;
use flow_types::order_item::OrderItem;
use serde_json::Value;
use sqlite_items::Items;
use std::alloc::Global;

/// A member that is a list of 0 to 16 folds.
pub fn aggs_in(alloc: Global, member: Option<&Value>) -> Result<Reading<AggList>, Memory>
    ensures { IfOk result (λ aggs. aggs ≡ aggs_in (seen member.entry)) }
{
    match list_in(member, 0, 16) {
        None => Ok(Err(Flaw::Node)),
        Some(items) => Ok(aggs_of(alloc, items)?.ok_or(Flaw::Node)),
    }
}

/// The folds that values are, where each is one.
fn aggs_of(alloc: Global, values: &Vec<Value>) -> Result<Option<AggList>, Memory>
    ensures { IfOk result (λ aggs. aggs ≡ collected agg_of (map view values.now.items)) }
{
    let mut aggs = Vec::new(alloc);
    for value in values {
        let Some(agg) = agg_of(value) else {
            return Ok(None);
        };
        if aggs.push(agg).is_err() {
            return Err(Memory);
        }
    }
    Ok(Some(Items::from_vec(aggs)))
}

fn agg_of(value: &Value) -> Option<Agg>
    ensures { result ≡ agg_of (view value.now) }
{
    match items_in(value) {
        None => None,
        Some(items) => agg_in(items.as_slice()),
    }
}

fn agg_in(items: &[Value]) -> Option<Agg>
    ensures { result ≡ agg_in (map view items.now) }
{
    match items {
        [word] => if is_text(word, "count") {
            Some(Agg::Count)
        } else {
            None
        },
        [word, field] => agg_on(word, field_number(field)?),
        [word, field, empty] => extreme(word, field_number(field)?, empty.as_i64()?),
        _ => None,
    }
}

/// A fold of a field that has no number for no rows.
fn agg_on(word: &Value, field: u16) -> Option<Agg>
    ensures { result ≡ agg_on (view word.now) field }
{
    if is_text(word, "sum") {
        Some(Agg::Sum(field))
    } else {
        extreme(word, field, 0)
    }
}

/// The least or the greatest of a field.
fn extreme(word: &Value, field: u16, empty: i64) -> Option<Agg>
    ensures { result ≡ extreme (view word.now) field empty }
{
    if is_text(word, "min") {
        Some(Agg::Min(field, empty))
    } else if is_text(word, "max") {
        Some(Agg::Max(field, empty))
    } else {
        None
    }
}

/// A member that is an order of 0 to 8 items.
pub fn order_in(alloc: Global, member: Option<&Value>) -> Result<Reading<OrderList>, Memory>
    ensures { IfOk result (λ order. order ≡ order_in (seen member.entry)) }
{
    match list_in(member, 0, 8) {
        None => Ok(Err(Flaw::Node)),
        Some(items) => Ok(order_of(alloc, items)?.ok_or(Flaw::Node)),
    }
}

/// The order's items that values are, where each is one.
fn order_of(alloc: Global, values: &Vec<Value>) -> Result<Option<OrderList>, Memory>
    ensures { IfOk result (λ order. order ≡ collected order_item_of (map view values.now.items)) }
{
    let mut order = Vec::new(alloc);
    for value in values {
        let Some(item) = order_item_of(value) else {
            return Ok(None);
        };
        if order.push(item).is_err() {
            return Err(Memory);
        }
    }
    Ok(Some(Items::from_vec(order)))
}

fn order_item_of(value: &Value) -> Option<OrderItem>
    ensures { result ≡ order_item_of (view value.now) }
{
    match items_in(value) {
        None => None,
        Some(items) => order_item_in(items.as_slice()),
    }
}

fn order_item_in(items: &[Value]) -> Option<OrderItem>
    ensures { result ≡ order_item_in (map view items.now) }
{
    match items {
        [field, word] => {
            let field = field_number(field)?;
            let down = direction(word.as_str()?)?;
            Some(OrderItem { field, down })
        }
        _ => None,
    }
}

/// Whether the greater values stand first.
fn direction(text: &str) -> Option<bool>
    ensures { result ≡ meaning directions text.now }
{
    match text {
        "asc" => Some(false),
        "desc" => Some(true),
        _ => None,
    }
}
