ghost use Rattle.std.specs.Prelude.{◌≡◌, IfOk};
ghost use Rattle.plan_typing.specs.Typing.{typed_op};

use crate::keys::two_sides;
use crate::op_types::{
    type_cogroup, type_filter, type_flat_map, type_group, type_join, type_map, type_probe,
    type_ranked, type_union,
};
use crate::schemas::{input_at, schema_like};
use flow_model::op::Op;
use flow_model::plan_code::PlanCode;
use flow_outside::failure::Memory;
use flow_types::schema::Schema;
use std::alloc::Global;

/// The schema of an op's rows, by the schemas of the rows that it takes, in the order of the op's
/// members; a missing one has no fields. `home_key` is the key of the delta iteration in whose body the
/// op stands, and else empty. Or the first code that refuses the op, looked for in the whole of it:
///
/// - `BadField`: a field's number is past the fields that it is of, or two keys that belong together
///   differ in length.
/// - `BadTypes`: an expression has no type, a test isn't of a Bool, a fold's field is no Long, types that
///   are widened or compared differ in number or in kinds, or a default doesn't fit its side.
/// - `BadWidth`: a part of an expression is wider than a text, or the types are no schema's.
///
/// The rules and their order are this project's own. The cost is proportional to the parts of the op's
/// expressions and to the fields of its inputs, with a list of types for each input and each branch.
pub fn type_op(
    alloc: Global,
    op: &Op,
    inputs: &[Schema],
    home_key: &[u16],
) -> Result<Result<Schema, PlanCode>, Memory>
    ensures { IfOk result (λ r. r ≡ typed_op inputs.now home_key.now op.now) }
{
    let first = input_at(inputs, 0);
    match op {
        Op::Source { fields, .. } => schema_like(alloc, fields.as_slice()),
        Op::Map { columns, .. } => type_map(alloc, first, columns.as_slice()),
        Op::Filter { test, .. } => type_filter(alloc, first, test),
        Op::FlatMap { rows, .. } => type_flat_map(alloc, first, rows.as_slice()),
        Op::Union { .. } => type_union(alloc, inputs),
        Op::Distinct { .. } => schema_like(alloc, first),
        Op::Group { key, aggs, .. } => type_group(alloc, first, key.as_slice(), aggs.as_slice()),
        Op::Top { key, order, .. } => type_ranked(alloc, first, key.as_slice(), order.as_slice()),
        Op::Join {
            left_key,
            right_key,
            columns,
            left_default,
            right_default,
            ..
        } => {
            let sides = two_sides(inputs, left_key.as_slice(), right_key.as_slice());
            type_join(alloc, &sides, columns, left_default, right_default)
        }
        Op::Cogroup {
            left_key,
            right_key,
            left_aggs,
            right_aggs,
            ..
        } => {
            let sides = two_sides(inputs, left_key.as_slice(), right_key.as_slice());
            type_cogroup(alloc, &sides, left_aggs.as_slice(), right_aggs.as_slice())
        }
        Op::Bulk { .. } => schema_like(alloc, first),
        Op::Delta { key, order, .. } => type_ranked(alloc, first, key.as_slice(), order.as_slice()),
        Op::Probe { key, columns, .. } => {
            let sides = two_sides(inputs, key.as_slice(), home_key);
            type_probe(alloc, &sides, columns.as_slice())
        }
    }
}
