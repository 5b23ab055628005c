ghost use Rattle.std.specs.Prelude.{◌≡◌, ◌∷◌, [], ◌++◌, IfOk, OnOk, map, unwrap_or};
ghost use Rattle.std.specs.Option.{option_copied};
ghost use Rattle.flow_model.specs.Rules.{node_at, bind_schema, input_schema, schema_at, schema_in, inputs_of, references, key_at, is_node};
ghost use Rattle.flow_model.specs.Segments.{is_delta};

use crate::numbering::BareNode;
use crate::ops::{delta_key, is_delta, is_probe};
use flow_model::plan::{Node, SchemaList};
use flow_outside::failure::Memory;
use flow_types::field_type::FieldType;
use flow_types::schema::Schema;
use sqlite_items::Items;
use std::alloc::Global;

/// The node of a number.
pub fn node_at(done: &[Node], number: u32) -> Option<&Node>
    ensures { option_copied result ≡ node_at done.now number }
{
    done.iter().find(|node| node.number == number)
}

/// Whether the node of a number is a delta iteration.
pub fn is_delta_at(done: &[Node], number: u32) -> bool
    ensures { result ≡ is_node done.now number (λ home. is_delta home.op) }
{
    match node_at(done, number) {
        None => false,
        Some(node) => is_delta(&node.op),
    }
}

/// The key of the delta iteration of a number; no fields of another node.
pub fn key_at(done: &[Node], number: u32) -> &[u16]
    ensures { result.now ≡ key_at (node_at done.now number) }
{
    match node_at(done, number) {
        None => &[],
        Some(node) => delta_key(&node.op),
    }
}

/// The schema of a node's first or second input, where it has one.
fn input_of(node: &Node, i: usize) -> Option<&Schema>
    ensures { unwrap_or (option_copied result) [] ≡ input_schema node.now i }
{
    node.inputs.get(i)
}

/// The schema of what a number stands for in the body of `home`, or in the outer list at home 0, where
/// a node of that number is there.
fn schema_at(done: &[Node], home: u32, number: u32) -> Option<&Schema>
    ensures { unwrap_or (option_copied result) [] ≡ schema_in done.now home number }
{
    let node = node_at(done, number)?;
    if node.number != home {
        return Some(&node.schema);
    }
    bind_of(node)
}

/// The schema of an iteration's bind name.
fn bind_of(node: &Node) -> Option<&Schema>
    ensures { unwrap_or (option_copied result) [] ≡ bind_schema node.now }
{
    if is_delta(&node.op) {
        input_of(node, 1)
    } else {
        input_of(node, 0)
    }
}

/// The fields of a node's first or second input; none where it has none.
pub fn input_fields(node: &Node, i: usize) -> &[FieldType]
    ensures { result.now ≡ input_schema node.now i }
{
    fields_of(input_of(node, i))
}

/// The fields of what a number stands for in the body of `home`, or in the outer list at home 0; none
/// where no node has that number.
pub fn fields_at(done: &[Node], home: u32, number: u32) -> &[FieldType]
    ensures { result.now ≡ schema_in done.now home number }
{
    fields_of(schema_at(done, home, number))
}

/// The fields of a schema that may be absent.
fn fields_of(schema: Option<&Schema>) -> &[FieldType]
    ensures { result.now ≡ unwrap_or (option_copied schema.entry) [] }
{
    match schema {
        None => &[],
        Some(schema) => schema.fields(),
    }
}

/// The schemas of the rows that a node takes: a copy for each number that it refers to, and for a
/// probe then one of the solution's. A number of no node before it, which no plan that was read comes
/// to, is answered as want of memory.
pub fn inputs_of(
    alloc: Global,
    done: &[Node],
    node: &BareNode,
    numbers: &[u32],
) -> Result<SchemaList, Memory>
    requires { numbers.now ≡ references node.now.op }
    ensures { IfOk result (λ inputs. inputs ≡ inputs_of done.now node.now) }
{
    let mut inputs = schemas_at(alloc, done, node.home, numbers)?;
    if is_probe(&node.op) {
        add_schema(alloc, &mut inputs, schema_at(done, 0, node.home))?;
    }
    Ok(Items::from_vec(inputs))
}

/// A copy of the schema of what each number stands for in the body of `home`, or in the outer list.
fn schemas_at(
    alloc: Global,
    done: &[Node],
    home: u32,
    numbers: &[u32],
) -> Result<Vec<Schema>, Memory>
    ensures { IfOk result (λ inputs. inputs.items ≡ map (schema_in done.now home) numbers.now) }
{
    let mut inputs = Vec::new(alloc);
    for number in numbers {
        add_schema(alloc, &mut inputs, schema_at(done, home, *number))?;
    }
    Ok(inputs)
}

/// Adds a copy of a schema that has to be there.
fn add_schema(
    alloc: Global,
    inputs: &mut Vec<Schema>,
    schema: Option<&Schema>,
) -> Result<(), Memory>
    ensures { OnOk result (inputs.new.items ≡ inputs.old.items ++ unwrap_or (option_copied schema.entry) [] ∷ []) }
{
    let Some(schema) = schema else {
        return Err(Memory);
    };
    let schema = schema.copy(alloc)?;
    match inputs.push(schema) {
        Ok(()) => Ok(()),
        Err(_) => Err(Memory),
    }
}
