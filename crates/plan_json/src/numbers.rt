ghost use Rattle.std.specs.Prelude.{not, ◌==◌, ◌≡◌, IfOk, map};
ghost use Rattle.serde_json.specs.View.{view};
ghost use Rattle.plan_json.specs.Json.{seen, collected};
ghost use Rattle.std.specs.List.{list_all};
ghost use Rattle.flow_model.specs.Rules.{are_distinct};
ghost use Rattle.plan_json.specs.Numbers.{within, number_of, count_in, field_number, key_in};

use crate::json::list_in;
use crate::reading::{Flaw, Reading};
use flow_model::op::KeyList;
use flow_outside::failure::Memory;
use serde_json::Value;
use sqlite_items::Items;
use std::alloc::Global;

/// The number from `least` to `most` that a value is.
pub fn number_of(value: &Value, least: u32, most: u32) -> Option<u32>
    ensures { result ≡ number_of least most (view value.now) }
{
    match value.as_i64() {
        None => None,
        Some(number) => within(number, least, most),
    }
}

fn within(number: i64, least: u32, most: u32) -> Option<u32>
    ensures { result ≡ within least most number }
{
    if i64::from(least) <= number && number <= i64::from(most) {
        Some(number as u32)
    } else {
        None
    }
}

/// A member that is a number from 1 to 1,000,000.
pub fn count_in(member: Option<&Value>) -> Reading<u32>
    ensures { result ≡ count_in (seen member.entry) }
{
    match member {
        None => Err(Flaw::Node),
        Some(value) => number_of(value, 1, 1_000_000).ok_or(Flaw::Node),
    }
}

/// The number of a field that a value is, from 0 to 31.
pub fn field_number(value: &Value) -> Option<u16>
    ensures { result ≡ field_number (view value.now) }
{
    match number_of(value, 0, 31) {
        None => None,
        Some(number) => Some(number as u16),
    }
}

/// A member that is a key: `least` to 8 different field numbers.
pub fn key_in(
    alloc: Global,
    member: Option<&Value>,
    least: usize,
) -> Result<Reading<KeyList>, Memory>
    ensures { IfOk result (λ key. key ≡ key_in least (seen member.entry)) }
{
    let Some(items) = list_in(member, least, 8) else {
        return Ok(Err(Flaw::Node));
    };
    match field_numbers(alloc, items)? {
        Some(numbers) if are_distinct(numbers.as_slice()) => Ok(Ok(numbers)),
        _ => Ok(Err(Flaw::Node)),
    }
}

/// The field numbers that values are, where each is one.
fn field_numbers(alloc: Global, values: &Vec<Value>) -> Result<Option<KeyList>, Memory>
    ensures { IfOk result
        (λ numbers. numbers ≡ collected field_number (map view values.now.items)) }
{
    let mut numbers = Vec::new(alloc);
    for value in values {
        let Some(number) = field_number(value) else {
            return Ok(None);
        };
        if numbers.push(number).is_err() {
            return Err(Memory);
        }
    }
    Ok(Some(Items::from_vec(numbers)))
}

/// Whether no number stands twice.
fn are_distinct(numbers: &[u16]) -> bool
    ensures { result ≡ are_distinct numbers.now }
{
    match numbers {
        [] => true,
        [first, rest @ ..] => is_none_of(*first, rest) && are_distinct(rest),
    }
}

/// Whether a number is none of these.
fn is_none_of(number: u16, others: &[u16]) -> bool
    ensures { result ≡ list_all (λ other. not (other == number)) others.now }
{
    others.iter().all(|other| *other != number)
}
