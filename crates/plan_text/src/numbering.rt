ghost use Rattle.std.specs.Prelude.{◌≡◌, ◌≤◌, ◌+◌, map, length, nat_lt, vec_len};
ghost use Rattle.serde_json.specs.View.{view};
ghost use Rattle.plan_text.specs.Nodes.{is_iteration, body_of, alone, placed_up_to, placed, count_up_to, left_after, nodes_of};
ghost use Rattle.plan_text.specs.Plans.{node_limit};
ghost use Rattle.plan_text.specs.Told.{Tells, Adds};

use crate::fault::PlanFault;
use crate::nodes::told_node;
use crate::tree::{TreeList, TreeNode};
use plan_json::json::items_in;
use plan_json::rows::{OpName, op_name_of};
use serde_json::Value;
use sqlite_items::Items;
use std::alloc::Global;

/// The most nodes, bodies counted.
const NODE_LIMIT: usize = 64;

/// How many lists are read that stand in one another. Where more do, there are more than 64 nodes.
const LIST_LIMIT: u32 = 65;

/// Whether an op has a body.
fn is_iteration(op: Option<OpName>) -> bool
    ensures { result ≡ is_iteration op }
{
    matches!(op, Some(OpName::Bulk) | Some(OpName::Delta))
}

/// The nodes of a node's body: those of the list `body` of an iteration, else none.
fn body_of(node: &Value) -> &[Value]
    ensures { map view result.now ≡ body_of (view node.now) }
{
    if !is_iteration(op_name_of(node)) {
        return &[];
    }
    match node.get("body").and_then(items_in) {
        None => &[],
        Some(items) => items.as_slice(),
    }
}

/// How many nodes may still come after those of a list and of the lists in it, where so many may; none
/// where there are more.
fn left_after(depth: u32, items: &[Value], most: usize) -> Option<usize>
    ensures { result ≡ left_after most (count_up_to depth (map view items.now)) }
{
    let mut left = most;
    if depth == 0 {
        return Some(left);
    }
    for item in items {
        if left == 0 {
            return None;
        }
        match left_after(depth - 1, body_of(item), left - 1) {
            Some(after) => left = after,
            None => return None,
        }
    }
    Some(left)
}

/// Whether there are more than 64 nodes, bodies counted.
pub fn has_too_many(items: &[Value]) -> bool
    ensures { result ≡ nat_lt node_limit (length (placed 1 (map view items.now))) }
{
    left_after(LIST_LIMIT, items, NODE_LIMIT).is_none()
}

/// All nodes of a plan, at most 64 of them, numbered from 1 in document order; or the first fault.
pub fn read_nodes(alloc: Global, items: &[Value]) -> Result<TreeList, PlanFault>
    requires { length (placed 1 (map view items.now)) ≤ node_limit }
    ensures { Tells result (nodes_of (placed 1 (map view items.now))) }
{
    let mut nodes = Vec::new(alloc);
    match read_list(alloc, &mut nodes, LIST_LIMIT, 0, items) {
        Ok(()) => Ok(Items::from_vec(nodes)),
        Err(fault) => Err(fault),
    }
}

/// Adds the nodes of a list that stands in the body of the iteration `home`, or in the outer one, each
/// followed by those of its body. A node's number is its place, from 1.
fn read_list(
    alloc: Global,
    nodes: &mut Vec<TreeNode>,
    depth: u32,
    home: u32,
    items: &[Value],
) -> Result<(), PlanFault>
    requires { vec_len nodes.old + count_up_to depth (map view items.now) ≤ 64 }
    ensures { Adds nodes.old.items nodes.new.items result
        (nodes_of (placed_up_to depth home (vec_len nodes.old + 1) (map view items.now))) }
{
    if depth == 0 {
        return Ok(());
    }
    for item in items {
        let number = nodes.len() as u32 + 1;
        match read_node(alloc, nodes, number, home, item) {
            Ok(()) => {}
            Err(fault) => return Err(fault),
        }
        match read_list(alloc, nodes, depth - 1, number, body_of(item)) {
            Ok(()) => {}
            Err(fault) => return Err(fault),
        }
    }
    Ok(())
}

/// Adds the node of this number.
fn read_node(
    alloc: Global,
    nodes: &mut Vec<TreeNode>,
    number: u32,
    home: u32,
    node: &Value,
) -> Result<(), PlanFault>
    ensures { Adds nodes.old.items nodes.new.items result (nodes_of (alone number home (view node.now))) }
{
    let node = told_node(alloc, number, home, node)?;
    match nodes.push(node) {
        Ok(()) => Ok(()),
        Err(_) => Err(PlanFault::Memory),
    }
}
