ghost use Rattle.std.specs.Prelude.{◌≡◌, not, find, option_map};
ghost use Rattle.plan_text.specs.declared.tree.TreeNode.{TreeNode};
ghost use Rattle.job_inputs.specs.Served.{is_built};

use job_words::program::Program;
use plan_text::tree::{TreeNode, TreeOp};

/// The number of the first node whose op a program doesn't serve. None of the nodes is copied.
pub fn first_unbuilt(program: Program, nodes: &[TreeNode]) -> Option<u32>
    ensures { result ≡ option_map (λ (node : TreeNode). node.number)
        (find (λ (node : TreeNode). not (is_built program node.op)) nodes.now) }
{
    for i in 0..nodes.len() {
        let node = &nodes[i];
        if !is_built(program, &node.op) {
            return Some(node.number);
        }
    }
    None
}

/// Whether a program serves an op.
fn is_built(program: Program, op: &TreeOp) -> bool
    ensures { result ≡ is_built program op.now }
{
    match program {
        Program::PlainRun => true,
        Program::FlinkRun => matches!(op, TreeOp::Source { .. } | TreeOp::Filter { .. }),
    }
}
