ghost use Rattle.std.specs.Prelude.{◌≡◌, IfOk, option_map};
ghost use Rattle.flow_types.specs.ExprTypes.{widened};
ghost use Rattle.flow_model.specs.Schemas.{both_widened, all_widened};

use crate::schemas::{copy_of, push};
use flow_outside::failure::Memory;
use flow_types::field_type::FieldType;
use flow_types::schema::Schema;
use std::alloc::Global;

/// The type that has the values of two types of one kind: a text has the larger bound.
pub fn widened(a: FieldType, b: FieldType) -> Option<FieldType>
    ensures { result ≡ widened a b }
{
    match (a, b) {
        (FieldType::Long, FieldType::Long) => Some(FieldType::Long),
        (FieldType::Bool, FieldType::Bool) => Some(FieldType::Bool),
        (FieldType::Str(m), FieldType::Str(n)) => Some(FieldType::Str(m.max(n))),
        _ => None,
    }
}

/// The types that have the values of both lists of types, place by place; `None` where the lists
/// differ in length or in kinds. The cost is one allocation, and proportional to the types.
pub fn both_widened(
    alloc: Global,
    a: &[FieldType],
    b: &[FieldType],
) -> Result<Option<Vec<FieldType>>, Memory>
    ensures { IfOk result (λ r. option_map (λ v. v.items) r ≡ both_widened a.now b.now) }
{
    if a.len() != b.len() {
        return Ok(None);
    }
    let mut types = Vec::new(alloc);
    for i in 0..a.len() {
        match widened(a[i], b[i]) {
            Some(field_type) => push(&mut types, field_type)?,
            None => return Ok(None),
        }
    }
    Ok(Some(types))
}

/// The types that have the values of all schemas; `None` of no schema, and where they differ in
/// length or in kinds. The cost is one list of types for each schema.
pub fn all_widened(alloc: Global, schemas: &[Schema]) -> Result<Option<Vec<FieldType>>, Memory>
    ensures { IfOk result (λ r. option_map (λ v. v.items) r ≡ all_widened schemas.now) }
{
    match schemas {
        [] => Ok(None),
        [only] => Ok(Some(copy_of(alloc, only.fields())?)),
        [first, rest @ ..] => {
            let Some(others) = all_widened(alloc, rest)? else {
                return Ok(None);
            };
            both_widened(alloc, first.fields(), others.as_slice())
        }
    }
}
