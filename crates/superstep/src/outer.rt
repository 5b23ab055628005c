ghost use Rattle.std.specs.Prelude.{◌≡◌, ℕ, suc, List, [], ◌∷◌, OnOk, Some, length};
ghost use Rattle.flow_model.specs.Algebra.{eval};
ghost use Rattle.flow_model.specs.Env.{Tuples};
ghost use Rattle.flow_model.specs.Rules.{IsPlan, node_at, references};
ghost use Rattle.model_laws.specs.LawsOfPlanFits.{StatesValues};
ghost use Rattle.superstep.specs.Outer.{HoldsInputs, IsServed, IsServedNode, KeepsAll, MakesNode};
ghost use Rattle.worker_core.specs.Workers.{HasStageCause, IsSound, IsWorkerOf, worker_rows};

use flow_model::op::Op;
use flow_model::plan::{Node, Plan};
use flow_outside::failure::StreamFault;
use flow_outside::spill::Spill;
use worker_core::worker::Worker;

/// Makes all nodes of a plan whose nodes are sources or go row by row, in document order. The
/// worker held the sources' rows and no others. It then holds of the result's node what the plan
/// gives of them, in order. No memory is taken.
///
/// `Spill` comes only where the disk's count of faults rose in this call, `Damaged` only over a
/// disk that doesn't tell, with the block that was read last. After a fault the worker's rows are
/// open.
pub fn make_outer<D: Spill>(worker: &mut Worker<D>, plan: &Plan) -> Result<(), StreamFault>
    requires rules { IsPlan plan.now × StatesValues plan.now }
    requires served { IsServed plan.now }
    requires sound { IsSound D.told plan.now worker.old }
    ensures worker { IsWorkerOf D.told plan.now worker.new }
    ensures rows { OnOk result ((inputs : List Tuples) → HoldsInputs D.told plan.now inputs
        worker.old →
        worker_rows D.told plan.now.nodes worker.new plan.now.result ≡ eval plan.now inputs) }
    ensures sound { OnOk result (IsSound D.told plan.now worker.new) }
    ensures keeps { KeepsAll D.told plan.now worker.old worker.new }
    ensures cause { HasStageCause (D.fault_count worker.old.storage.disk)
        (D.fault_count worker.new.storage.disk) (D.told worker.old.storage.disk)
        worker.new.storage result }
{
    'nodes: for node in plan.nodes.as_slice() {
        match make_node(worker, plan, node) {
            Ok(()) => (),
            Err(fault) => return Err(fault),
        }
    }
    Ok(())
}

/// Makes one node. A source's rows are there.
fn make_node<D: Spill>(worker: &mut Worker<D>, plan: &Plan, node: &Node) -> Result<(), StreamFault>
    requires rules { IsPlan plan.now × StatesValues plan.now }
    requires sound { IsSound D.told plan.now worker.old }
    requires found { node_at plan.now.nodes node.now.number ≡ Some node.now }
    requires served { IsServedNode node.now }
    ensures worker { IsWorkerOf D.told plan.now worker.new }
    ensures sound { OnOk result (IsSound D.told plan.now worker.new) }
    ensures made { OnOk result (MakesNode D.told plan.now.nodes node.now worker.old worker.new) }
    ensures keeps { KeepsAll D.told plan.now worker.old worker.new }
    ensures cause { HasStageCause (D.fault_count worker.old.storage.disk)
        (D.fault_count worker.new.storage.disk) (D.told worker.old.storage.disk)
        worker.new.storage result }
{
    match node.op {
        Op::Source { .. } => Ok(()),
        _ => worker.stage(plan, node.number),
    }
}
