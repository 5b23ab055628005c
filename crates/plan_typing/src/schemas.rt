ghost use Rattle.std.specs.Prelude.{◌≡◌, IfOk, [], ◌∷◌, ◌++◌, Some, slice_get, replicate};
ghost use Rattle.flow_types.specs.declared.field_type.FieldType.TheVariants as type;
ghost use Rattle.flow_model.specs.Schemas.{input_at};
ghost use Rattle.plan_typing.specs.Typing.{in_width};

use flow_model::plan_code::PlanCode;
use flow_outside::failure::Memory;
use flow_types::field_type::FieldType;
use flow_types::schema::Schema;
use std::alloc::Global;

/// What is made of an op, or the code that refuses it.
pub type Typed<T> = Result<T, PlanCode>;

/// The fields of one of the inputs that an op takes, by its place; no fields where there is none.
pub fn input_at(inputs: &[Schema], place: usize) -> &[FieldType]
    ensures { result.now ≡ input_at inputs.now place }
{
    match inputs.get(place) {
        Some(schema) => schema.fields(),
        None => &[],
    }
}

/// A field's type, by its number from 0; `None` where it isn't there.
pub fn field_at(fields: &[FieldType], number: u16) -> Option<FieldType>
    ensures { result ≡ slice_get fields.now number }
{
    fields.get(usize::from(number)).copied()
}

/// The schema of these types; `BadWidth` where they are no schema's.
pub fn schema_of(types: Vec<FieldType>) -> Typed<Schema>
    ensures { result ≡ in_width (Some types.items) }
{
    match Schema::of(types) {
        Some(schema) => Ok(schema),
        None => Err(PlanCode::BadWidth),
    }
}

/// A copy of types in a vector; the cost is one allocation.
pub fn copy_of(alloc: Global, types: &[FieldType]) -> Result<Vec<FieldType>, Memory>
    ensures { IfOk result (λ v. v.items ≡ types.now) }
{
    match Vec::from_slice(alloc, types) {
        Ok(types) => Ok(types),
        Err(_) => Err(Memory),
    }
}

/// The schema of a copy of these types.
pub fn schema_like(alloc: Global, types: &[FieldType]) -> Result<Typed<Schema>, Memory>
    ensures { IfOk result (λ r. r ≡ in_width (Some types.now)) }
{
    let types = copy_of(alloc, types)?;
    Ok(schema_of(types))
}

/// Adds a type.
pub fn push(types: &mut Vec<FieldType>, field_type: FieldType) -> Result<(), Memory>
    ensures { IfOk result (λ _. types.new.items ≡ types.old.items ++ field_type ∷ []) }
{
    match types.push(field_type) {
        Ok(()) => Ok(()),
        Err(_) => Err(Memory),
    }
}

/// Adds so many Longs.
pub fn push_longs(types: &mut Vec<FieldType>, count: usize) -> Result<(), Memory>
    ensures { IfOk result (λ _. types.new.items ≡ types.old.items ++ replicate count type.Long) }
{
    for _ in 0..count {
        push(types, FieldType::Long)?;
    }
    Ok(())
}
