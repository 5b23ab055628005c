//! A worker makes the result, and its lot is taken out.
ghost use Rattle.std.specs.Prelude.{◌≡◌, ℕ, IfOk, OnOk};
ghost use Rattle.flow_model.specs.Rules.{IsPlan};
ghost use Rattle.flow_model.specs.Segments.{reach};
ghost use Rattle.lot_store.specs.Lots.{empty};
ghost use Rattle.model_laws.specs.LawsOfPlanFits.{StatesValues};
ghost use Rattle.worker_core.specs.Workers.{HasStageCause, IsSound, IsWorkerOf};
ghost use Rattle.superstep.specs.Executing.{HasExecCause, KeepsSegments, LiesBeside, MakesResult};
ghost use Rattle.superstep.specs.Executing.{MakesRows, of_stream};
ghost use Rattle.superstep.specs.Outer.{IsServed, KeepsAll};

use crate::faults::ExecFault;
use crate::outer::make_outer;
use flow_model::plan::Plan;
use flow_outside::failure::StreamFault;
use flow_outside::spill::Spill;
use lot_store::lot::Lot;
use worker_core::worker::Worker;

/// Makes all nodes of a plan, counts the rows of the result, and puts its lot into the place, which
/// held nothing. After a fault it still does.
pub(crate) fn make_result<D: Spill>(
    worker: &mut Worker<D>,
    plan: &Plan,
    place: &mut Lot,
) -> Result<u64, ExecFault>
    requires rules { IsPlan plan.now × StatesValues plan.now }
    requires served { IsServed plan.now }
    requires sound { IsSound D.told plan.now worker.old }
    requires place { place.old ≡ empty 0 (reach plan.now) }
    ensures worker { IsWorkerOf D.told plan.now worker.new }
    ensures beside { LiesBeside D.told plan.now worker.new.storage place.new }
    ensures made { IfOk result (λ count.
        MakesResult D.told plan.now count worker.old worker.new.storage.disk place.new) }
    ensures keeps { KeepsSegments D.told D.fault_count worker.old.storage worker.new.storage }
    ensures cause { HasExecCause (D.fault_count worker.old.storage.disk)
        (D.fault_count worker.new.storage.disk) (D.told worker.old.storage.disk) result }
{
    match make_rows(worker, plan) {
        Ok(count) => {
            // All lots stand together, for the prover alone.
            worker.limits();
            worker.exchange_lot(plan, plan.result, place);
            Ok(count)
        }
        Err(fault) => {
            // The same.
            worker.limits();
            Err(of_stream(fault))
        }
    }
}

/// Makes all nodes, and counts the rows of the result.
fn make_rows<D: Spill>(worker: &mut Worker<D>, plan: &Plan) -> Result<u64, StreamFault>
    requires rules { IsPlan plan.now × StatesValues plan.now }
    requires served { IsServed plan.now }
    requires sound { IsSound D.told plan.now worker.old }
    ensures worker { IsWorkerOf D.told plan.now worker.new }
    ensures sound { OnOk result (IsSound D.told plan.now worker.new) }
    ensures made { IfOk result (λ count. MakesRows D.told plan.now count worker.old worker.new) }
    ensures keeps { KeepsAll D.told plan.now worker.old worker.new }
    ensures cause { HasStageCause (D.fault_count worker.old.storage.disk)
        (D.fault_count worker.new.storage.disk) (D.told worker.old.storage.disk)
        worker.new.storage result }
{
    match make_outer(worker, plan) {
        Ok(()) => worker.rows(plan, plan.result),
        Err(fault) => Err(fault),
    }
}

fn of_stream(fault: StreamFault) -> ExecFault
    ensures { result ≡ of_stream fault }
{
    match fault {
        StreamFault::Spill => ExecFault::Spill { worker: 0 },
        StreamFault::Damaged { block } => ExecFault::Damaged { worker: 0, block },
    }
}
