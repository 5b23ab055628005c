ghost use Rattle.std.specs.Prelude.{◌≡◌};
ghost use Rattle.std.specs.Option.{option_copied};
ghost use Rattle.flow_model.specs.Algebra.{first_source};

use crate::op::Op;
use flow_types::name::Name;
use flow_types::schema::Schema;
use sqlite_items::Items;

/// The schemas of the rows that a node takes, in the order of its op's members. A probe takes its
/// input's and the solution's, a bulk init's, a delta the solution's and the workset's.
pub type SchemaList = Items<Schema>;

/// All nodes of a plan in document order, bodies included, an iteration before its body.
pub type NodeList = Items<Node>;

/// A node of a plan.
#[derive(Debug, Drop)]
pub struct Node {
    /// From 1, in document order.
    pub number: u32,
    /// A name that no other node of the plan has.
    pub name: Name,
    /// The number of the iteration in whose body the node stands, or 0.
    pub home: u32,
    /// What the node does.
    pub op: Op,
    /// The schemas of the rows that it takes; none at a source.
    pub inputs: SchemaList,
    /// The schema of the node's rows.
    pub schema: Schema,
}

/// An accepted plan. The reader of plans keeps what is said here of its fields; the algebra doesn't
/// rest on it.
#[derive(Debug, Drop)]
pub struct Plan {
    /// The bytes of a segment: 4,096, 8,192, 16,384 or 32,768.
    pub segment: u32,
    /// The plan's nodes, numbered from 1 in their order.
    pub nodes: NodeList,
    /// The number of the node whose rows are the plan's result.
    pub result: u32,
}

impl Plan {
    /// The first source, where the plan has one.
    pub fn first_source(&self) -> Option<&Node>
        ensures { option_copied result ≡ first_source self.now }
    {
        self.nodes
            .as_slice()
            .iter()
            .find(|node| node.op.is_source())
    }
}
