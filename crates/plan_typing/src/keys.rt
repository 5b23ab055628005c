ghost use Rattle.std.specs.Prelude.{◌≡◌, IfOk, length, ◌++◌, option_map};
ghost use Rattle.std.specs.List.{list_all};
ghost use Rattle.flow_types.specs.Types.{fits};
ghost use Rattle.flow_model.specs.Schemas.{fields_at, keys_type, is_long_field, is_fold, default_fits};
ghost use Rattle.plan_typing.specs.Typing.{are_as_long};
ghost use Rattle.plan_typing.specs.Sides.{sides_of, side_types, keys_of, fields_of};

use crate::schemas::{copy_of, field_at, input_at, push};
use crate::widen::both_widened;
use flow_outside::failure::Memory;
use flow_types::agg::Agg;
use flow_types::field_type::FieldType;
use flow_types::row::Row;
use flow_types::schema::Schema;
use flow_types::value::Value;
use std::alloc::Global;

/// The two sides of an op, and the key of each.
#[derive(Clone, Copy)]
pub struct Sides<'a> {
    pub left: &'a [FieldType],
    pub right: &'a [FieldType],
    pub left_key: &'a [u16],
    pub right_key: &'a [u16],
}

/// The sides of an op that takes two inputs.
pub fn two_sides<'a>(inputs: &'a [Schema], left_key: &'a [u16], right_key: &'a [u16]) -> Sides<'a>
    ensures { sides_of result ≡ side_types inputs.now left_key.now right_key.now }
{
    Sides {
        left: input_at(inputs, 0),
        right: input_at(inputs, 1),
        left_key,
        right_key,
    }
}

/// The types of fields by their numbers; `None` where one isn't there.
pub fn fields_at(
    alloc: Global,
    fields: &[FieldType],
    key: &[u16],
) -> Result<Option<Vec<FieldType>>, Memory>
    ensures { IfOk result (λ r. option_map (λ v. v.items) r ≡ fields_at fields.now key.now) }
{
    let mut types = Vec::new(alloc);
    for number in key {
        match field_at(fields, *number) {
            Some(field_type) => push(&mut types, field_type)?,
            None => return Ok(None),
        }
    }
    Ok(Some(types))
}

/// Whether two keys have one length.
pub fn are_as_long(left_key: &[u16], right_key: &[u16]) -> bool
    ensures { result ≡ are_as_long left_key.now right_key.now }
{
    left_key.len() == right_key.len()
}

/// The key's types on both sides, widened; `None` where the keys differ in length or in kinds, or name
/// a field that isn't there. The cost is three lists of types.
pub fn keys_type(alloc: Global, sides: &Sides<'_>) -> Result<Option<Vec<FieldType>>, Memory>
    ensures { IfOk result (λ r. option_map (λ v. v.items) r ≡ keys_of (sides_of sides.now)) }
{
    let Some(left) = fields_at(alloc, sides.left, sides.left_key)? else {
        return Ok(None);
    };
    let Some(right) = fields_at(alloc, sides.right, sides.right_key)? else {
        return Ok(None);
    };
    both_widened(alloc, left.as_slice(), right.as_slice())
}

/// The left fields followed by the right ones; one allocation.
pub fn joined_fields(alloc: Global, sides: &Sides<'_>) -> Result<Vec<FieldType>, Memory>
    ensures { IfOk result (λ v. v.items ≡ fields_of (sides_of sides.now)) }
{
    let mut fields = copy_of(alloc, sides.left)?;
    match fields.extend_from_slice(sides.right) {
        Ok(()) => Ok(fields),
        Err(_) => Err(Memory),
    }
}

/// Whether a field by its number is a Long.
fn is_long_field(fields: &[FieldType], number: u16) -> bool
    ensures { result ≡ is_long_field fields.now number }
{
    matches!(field_at(fields, number), Some(FieldType::Long))
}

/// Whether a fold's field is a Long; a count has none.
fn is_fold(fields: &[FieldType], fold: Agg) -> bool
    ensures { result ≡ is_fold fields.now fold }
{
    match fold {
        Agg::Sum(number) => is_long_field(fields, number),
        Agg::Min(number, _) => is_long_field(fields, number),
        Agg::Max(number, _) => is_long_field(fields, number),
        Agg::Count => true,
    }
}

/// Whether each fold's field is a Long.
pub fn are_folds(fields: &[FieldType], folds: &[Agg]) -> bool
    ensures { result ≡ list_all (is_fold fields.now) folds.now }
{
    folds.iter().all(|fold| is_fold(fields, *fold))
}

/// Whether a default fits its side, where it is there.
pub fn default_fits(fields: &[FieldType], default: &Option<Row>) -> bool
    ensures { result ≡ default_fits fields.now default.now }
{
    match default {
        Some(row) => fits(fields, row.values()),
        None => true,
    }
}

/// Whether values fit fields.
fn fits(fields: &[FieldType], values: &[Value]) -> bool
    ensures { result ≡ fits fields.now values.now }
{
    if fields.len() != values.len() {
        return false;
    }
    for i in 0..fields.len() {
        if !fields[i].fits(&values[i]) {
            return false;
        }
    }
    true
}
