ghost use Rattle.std.specs.Prelude.{◌≡◌, ◌<◌, ◌≤◌, [], IfOk, IsSome, IsTrue, Some, length};
ghost use Rattle.flow_types.specs.Limits.{record_limit};
ghost use Rattle.flow_types.specs.Types.{widest};
ghost use Rattle.flow_model.specs.Rules.{in_range, is_fields};
ghost use Rattle.flow_model.specs.Schemas.{op_type};
ghost use Rattle.row_pipe.specs.Works.{GivesNarrow, is_work_over, taken_of, work_of};

use crate::work::Work;
use flow_model::op::Op;
use flow_model::plan::Node;
use flow_outside::failure::Memory;
use flow_types::schema::Schema;
use std::alloc::Global;

/// A map, a filter, a flat map or a union, ready to take rows one by one.
#[derive(Drop)]
pub struct RowPipe {
    pub(crate) takes: Schema,
    pub(crate) work: Work,
    ghost typed: { IsTrue (is_work_over takes work) },
    ghost small: { widest takes ≤ record_limit },
}

impl RowPipe {
    /// What a node does with each row that it takes. The node is a map, a filter, a flat map or a union, with its
    /// numbers in range and with the schema that its op gives of its inputs, as in an accepted plan. No record
    /// of a row that is given is then wider than that schema. It takes memory for a copy of the node's
    /// expressions, and no call after it takes any.
    pub fn open(alloc: Global, node: &Node) -> Result<RowPipe, Memory>
        requires rows { IsSome (work_of node.now.op) }
        requires input { 0 < length node.now.inputs }
        requires ranged { IsTrue (in_range node.now.op) }
        requires typed { IsTrue (is_fields (op_type node.now.inputs [] node.now.op) node.now.schema) }
        ensures takes { IfOk result (λ p. p.takes ≡ taken_of node.now) }
        ensures work { IfOk result (λ p. Some p.work ≡ work_of node.now.op) }
        ensures narrow { IfOk result (λ p. GivesNarrow p.takes p.work (widest node.now.schema)) }
    {
        let takes = taken(node).copy(alloc)?;
        let work = Work::of(alloc, &node.op)?;
        let _most_taken = takes.max_bytes();
        let _most_given = node.schema.max_bytes();
        Ok(RowPipe { takes, work })
    }
}

/// The schema of the rows that a node takes one by one.
fn taken(node: &Node) -> &Schema
    requires { 0 < length node.now.inputs }
    ensures { result.now ≡ taken_of node.now }
{
    match node.op {
        Op::Union { .. } => &node.schema,
        _ => &node.inputs.as_slice()[0],
    }
}
