ghost use Rattle.std.specs.Prelude.{◌≡◌, ◌∷◌, [], ◌++◌, Ok, IfOk, OnOk, OnErr};
ghost use Rattle.std.specs.Option.{option_copied};
ghost use Rattle.plan_text.specs.Told.{Tells};
ghost use Rattle.plan_check.specs.Numbering.{bare_node};
ghost use Rattle.plan_check.specs.Checking.{checked_node, checked_end, told_at, closed, closed_before};
ghost use Rattle.plan_check.specs.Walks.{unwalked, added, taken, walked, finished, opened_at, Stands};

use crate::names::Names;
use crate::node::{checked_end, checked_node};
use crate::numbering::bare_node;
use crate::ops::is_iteration;
use flow_model::plan::{Node, NodeList};
use flow_model::plan_code::PlanCode;
use flow_outside::failure::Memory;
use plan_text::fault::PlanFault;
use plan_text::tree::TreeNode;
use sqlite_items::Items;
use std::alloc::Global;
use std::marker::Model;

/// How far a check has come, seen as the nodes that are done and the iteration whose body is open.
#[derive(Debug, Drop)]
pub struct Walk {
    done: Vec<Node>,
    /// The place among them of the iteration whose body is open.
    iteration: Option<usize>,
}

impl Model for Walk {
    ghost use Rattle.std.specs.Prelude.{length};
    ghost use Rattle.std.specs.Coded.{codes};
    ghost use Rattle.flow_types.specs.contracts.expr.Expr as expr;
    ghost use Rattle.plan_check.specs.Walks.{Walked, node_of, IsWithin};

    ghost Value = { Walked };

    ghost coded = { Prim.hlevel (codes, expr.the_row.coded) };

    ghost view = { λ w. record { done = w.done.items; current = node_of w.done.items w.iteration } };

    ghost invariant = { λ w. IsWithin (length w.done.items) w.iteration };
}

impl Walk {
    /// Before the first node; it takes no memory.
    pub fn new(alloc: Global) -> Walk
        ensures { result ≡ unwalked }
    {
        Walk {
            done: Vec::new(alloc),
            iteration: None,
        }
    }

    /// The iteration whose body is open.
    fn current(&self) -> Option<&Node>
        ensures { option_copied result ≡ self.now.current }
    {
        self.done.get(self.iteration?)
    }

    /// The end of the body that is open, if one is.
    fn close(&self) -> Result<(), PlanFault>
        ensures { result ≡ closed self.now.done self.now.current }
    {
        match self.current() {
            None => Ok(()),
            Some(iteration) => told_end(self.done.as_slice(), iteration),
        }
    }

    /// The end of the body that is open, before a node of the outer list.
    fn close_before(&self, node: &TreeNode) -> Result<(), PlanFault>
        ensures { result ≡ closed_before self.now.done self.now.current node.now }
    {
        if node.home == 0 { self.close() } else { Ok(()) }
    }

    /// Checks one more node, before which the open body may end. After a fault nothing was added.
    pub fn step(&mut self, alloc: Global, names: &Names, node: TreeNode) -> Result<(), PlanFault>
        ensures { Stands self.new result (walked names.now self.old node) }
    {
        match self.close_before(&node) {
            Ok(()) => self.take(alloc, names, node),
            Err(fault) => Err(fault),
        }
    }

    fn take(&mut self, alloc: Global, names: &Names, node: TreeNode) -> Result<(), PlanFault>
        ensures { Stands self.new result (taken names.now self.old node) }
    {
        match told_node(alloc, names, self.done.as_slice(), node) {
            Ok(node) => self.add(node),
            Err(fault) => Err(fault),
        }
    }

    fn add(&mut self, node: Node) -> Result<(), PlanFault>
        ensures { Stands self.new result (Ok (added self.old node)) }
    {
        let iteration = opened_at(self.iteration, self.done.len(), &node);
        if let Err(Memory) = push_node(&mut self.done, node) {
            return Err(PlanFault::Memory);
        }
        self.iteration = iteration;
        Ok(())
    }

    /// The nodes, after the end of the last body.
    pub fn finish(self) -> Result<NodeList, PlanFault>
        ensures { result ≡ finished self }
    {
        match self.close() {
            Ok(()) => Ok(Items::from_vec(self.done)),
            Err(fault) => Err(fault),
        }
    }
}

fn push_node(done: &mut Vec<Node>, node: Node) -> Result<(), Memory>
    ensures ok { OnOk result (done.new.items ≡ done.old.items ++ node ∷ []) }
    ensures err { OnErr result (done.new.items ≡ done.old.items) }
{
    match done.push(node) {
        Ok(()) => Ok(()),
        Err(_) => Err(Memory),
    }
}

/// The place of the iteration whose body is open, after one more node at this place.
fn opened_at(iteration: Option<usize>, place: usize, node: &Node) -> Option<usize>
    ensures { result ≡ opened_at iteration place node.now }
{
    if node.home != 0 {
        return iteration;
    }
    if is_iteration(&node.op) {
        Some(place)
    } else {
        None
    }
}

/// The end of an iteration's body, or its fault at the iteration.
fn told_end(done: &[Node], iteration: &Node) -> Result<(), PlanFault>
    ensures { result ≡ told_at iteration.now.number (checked_end done.now iteration.now) }
{
    match checked_end(done, iteration) {
        Ok(()) => Ok(()),
        Err(code) => Err(PlanFault::Refused {
            node: iteration.number,
            code,
        }),
    }
}

/// A node with its schemas, after the nodes that are done, or its first fault.
fn told_node(alloc: Global, names: &Names, done: &[Node], node: TreeNode) -> Result<Node, PlanFault>
    ensures { Tells result (told_at node.number (checked_node names.now done.now (bare_node names.now node))) }
{
    let number = node.number;
    match checked_tree_node(alloc, names, done, node) {
        Ok(Ok(node)) => Ok(node),
        Ok(Err(code)) => Err(PlanFault::Refused { node: number, code }),
        Err(Memory) => Err(PlanFault::Memory),
    }
}

fn checked_tree_node(
    alloc: Global,
    names: &Names,
    done: &[Node],
    node: TreeNode,
) -> Result<Result<Node, PlanCode>, Memory>
    ensures { IfOk result (λ made. made ≡ checked_node names.now done.now (bare_node names.now node)) }
{
    let node = bare_node(alloc, names, node)?;
    checked_node(alloc, names, done, node)
}
