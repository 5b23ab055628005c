ghost use Rattle.std.specs.Prelude.{◌≡◌, IfOk, map};
ghost use Rattle.serde_json.specs.View.{view};
ghost use Rattle.plan_json.specs.Json.{seen, collected};
ghost use Rattle.plan_json.specs.Forms.{has_no_leading_zero, bound_of, type_of_text, field_type, fields_in};

use crate::json::list_in;
use crate::reading::{Flaw, Reading};
use flow_model::op::TypeList;
use flow_outside::failure::Memory;
use flow_types::decimal::number_up_to;
use flow_types::field_type::FieldType;
use flow_types::text::TEXT_LIMIT;
use serde_json::Value;
use sqlite_items::Items;
use std::alloc::Global;

/// A member that is a list of 1 to 32 types of fields.
pub fn fields_in(alloc: Global, member: Option<&Value>) -> Result<Reading<TypeList>, Memory>
    ensures { IfOk result (λ fields. fields ≡ fields_in (seen member.entry)) }
{
    match list_in(member, 1, 32) {
        None => Ok(Err(Flaw::Node)),
        Some(items) => Ok(field_types(alloc, items)?.ok_or(Flaw::Node)),
    }
}

/// The types that values name, where each names one.
fn field_types(alloc: Global, values: &Vec<Value>) -> Result<Option<TypeList>, Memory>
    ensures { IfOk result (λ types. types ≡ collected field_type (map view values.now.items)) }
{
    let mut types = Vec::new(alloc);
    for value in values {
        let Some(field) = field_type(value) else {
            return Ok(None);
        };
        if types.push(field).is_err() {
            return Err(Memory);
        }
    }
    Ok(Some(Items::from_vec(types)))
}

fn field_type(value: &Value) -> Option<FieldType>
    ensures { result ≡ field_type (view value.now) }
{
    match value.as_str() {
        None => None,
        Some(text) => type_of_text(text),
    }
}

fn type_of_text(text: &str) -> Option<FieldType>
    ensures { result ≡ type_of_text text.now }
{
    if text == "long" {
        return Some(FieldType::Long);
    }
    if text == "bool" {
        return Some(FieldType::Bool);
    }
    let bytes = text.as_bytes();
    if bytes.len() >= 4 && &bytes[..4] == b"str:".as_slice() {
        return bound_of(&bytes[4..]).map(FieldType::Str);
    }
    None
}

/// A text's bound, of digits with no zero before others.
fn bound_of(digits: &[u8]) -> Option<u16>
    ensures { result ≡ bound_of digits.now }
{
    if !has_no_leading_zero(digits) {
        return None;
    }
    let bound = number_up_to(digits, TEXT_LIMIT as u64)?;
    Some(bound as u16)
}

fn has_no_leading_zero(digits: &[u8]) -> bool
    ensures { result ≡ has_no_leading_zero digits.now }
{
    match digits {
        [] => true,
        [first, rest @ ..] => *first != b'0' || rest.is_empty(),
    }
}
