ghost use Rattle.std.specs.Prelude.{◌≡◌, IfOk, map};
ghost use Rattle.serde_json.specs.View.{view};
ghost use Rattle.plan_json.specs.Json.{seen, collected};
ghost use Rattle.plan_json.specs.Names.{name_of, name_in, optional_name_in, names_in};

use crate::json::list_in;
use crate::reading::{Flaw, Reading};
use flow_outside::failure::Memory;
use flow_types::name::{Name, is_name};
use serde_json::Value;
use sqlite_items::Items;
use std::alloc::Global;

/// Names, in their order.
pub type NameList = Items<Name>;

/// The name that a value is; `None` where it isn't a text of a name's form.
pub fn name_of(alloc: Global, value: &Value) -> Result<Option<Name>, Memory>
    ensures { IfOk result (λ name. name ≡ name_of (view value.now)) }
{
    let Some(text) = value.as_str() else {
        return Ok(None);
    };
    if !is_name(text.as_bytes()) {
        return Ok(None);
    }
    match String::from_str(alloc, text) {
        Ok(text) => Ok(Name::of(text)),
        Err(_) => Err(Memory),
    }
}

/// A member that is a name.
pub fn name_in(alloc: Global, member: Option<&Value>) -> Result<Reading<Name>, Memory>
    ensures { IfOk result (λ name. name ≡ name_in (seen member.entry)) }
{
    match member {
        None => Ok(Err(Flaw::Node)),
        Some(value) => Ok(name_of(alloc, value)?.ok_or(Flaw::Name)),
    }
}

/// A member that is a name where it isn't absent.
pub fn optional_name_in(
    alloc: Global,
    member: Option<&Value>,
) -> Result<Reading<Option<Name>>, Memory>
    ensures { IfOk result (λ name. name ≡ optional_name_in (seen member.entry)) }
{
    match member {
        None => Ok(Ok(None)),
        Some(value) => match name_of(alloc, value)? {
            None => Ok(Err(Flaw::Name)),
            Some(name) => Ok(Ok(Some(name))),
        },
    }
}

/// A member that is a list of 2 to 8 names.
pub fn names_in(alloc: Global, member: Option<&Value>) -> Result<Reading<NameList>, Memory>
    ensures { IfOk result (λ names. names ≡ names_in (seen member.entry)) }
{
    match list_in(member, 2, 8) {
        None => Ok(Err(Flaw::Node)),
        Some(items) => Ok(names_of(alloc, items)?.ok_or(Flaw::Name)),
    }
}

/// The names that values are, where each is one.
fn names_of(alloc: Global, values: &Vec<Value>) -> Result<Option<NameList>, Memory>
    ensures { IfOk result (λ names. names ≡ collected name_of (map view values.now.items)) }
{
    let mut names = Vec::new(alloc);
    for value in values {
        let Some(name) = name_of(alloc, value)? else {
            return Ok(None);
        };
        if names.push(name).is_err() {
            return Err(Memory);
        }
    }
    Ok(Some(Items::from_vec(names)))
}
