ghost use Rattle.std.specs.Prelude.{◌≡◌, IfOk, map, nat_le, length};
ghost use Rattle.serde_json.specs.View.{view};
ghost use Rattle.flow_types.specs.declared.value.Value.TheVariants as value;
ghost use Rattle.flow_types.specs.Limits.{text_limit};
ghost use Rattle.plan_json.specs.Json.{seen, collected, only_if};
ghost use Rattle.plan_exprs.specs.Exprs.{literal_of, literals_in, default_in};

use flow_outside::failure::Memory;
use flow_types::row::Row;
use flow_types::text::{TEXT_LIMIT, Text};
use flow_types::value::Value as Literal;
use plan_json::json::items_in;
use plan_json::reading::{Flaw, Reading};
use serde_json::Value;
use std::alloc::Global;

/// The literal that a value is: a Long, a Bool, or a text of at most 16,382 bytes.
pub fn literal_of(alloc: Global, value: &Value) -> Result<Option<Literal>, Memory>
    ensures { IfOk result (λ literal. literal ≡ literal_of (view value.now)) }
{
    if let Some(truth) = value.as_bool() {
        return Ok(Some(Literal::Bool(truth)));
    }
    if let Some(number) = value.as_i64() {
        return Ok(Some(Literal::Long(number)));
    }
    match value.as_str() {
        None => Ok(None),
        Some(text) => text_of(alloc, text),
    }
}

/// A text of at most 16,382 bytes as a literal.
fn text_of(alloc: Global, text: &str) -> Result<Option<Literal>, Memory>
    ensures { IfOk result
        (λ literal. literal ≡ only_if (nat_le (length text.now) text_limit) (value.Str text.now)) }
{
    if text.len() > TEXT_LIMIT {
        return Ok(None);
    }
    match String::from_str(alloc, text) {
        Ok(text) => Ok(Text::of(text).map(Literal::Str)),
        Err(_) => Err(Memory),
    }
}

/// A side's default: there, and a list of literals, exactly where it is wanted.
pub fn default_in(
    alloc: Global,
    wanted: bool,
    member: Option<&Value>,
) -> Result<Reading<Option<Row>>, Memory>
    ensures { IfOk result (λ row. row ≡ default_in wanted (seen member.entry)) }
{
    if wanted {
        return match literals_in(alloc, member)? {
            Ok(row) => Ok(Ok(Some(row))),
            Err(flaw) => Ok(Err(flaw)),
        };
    }
    match member {
        None => Ok(Ok(None)),
        Some(_) => Ok(Err(Flaw::Node)),
    }
}

/// A member that is a list of literals.
fn literals_in(alloc: Global, member: Option<&Value>) -> Result<Reading<Row>, Memory>
    ensures { IfOk result (λ row. row ≡ literals_in (seen member.entry)) }
{
    match member.and_then(items_in) {
        None => Ok(Err(Flaw::Node)),
        Some(items) => Ok(literals_of(alloc, items)?.ok_or(Flaw::Expr)),
    }
}

/// The literals that values are, where each is one.
fn literals_of(alloc: Global, values: &Vec<Value>) -> Result<Option<Row>, Memory>
    ensures { IfOk result (λ row. row ≡ collected literal_of (map view values.now.items)) }
{
    let mut literals = Vec::new(alloc);
    for value in values {
        let Some(literal) = literal_of(alloc, value)? else {
            return Ok(None);
        };
        if literals.push(literal).is_err() {
            return Err(Memory);
        }
    }
    Ok(Some(Row::of(literals)))
}
