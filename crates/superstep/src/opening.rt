//! What an engine opens: its segments, its worker and the place for its result.
ghost use Rattle.std.specs.Prelude.{◌≡◌, IfErr, IfOk};
ghost use Rattle.lot_store.specs.Lots.{empty};
ghost use Rattle.flow_model.specs.Segments.{reach};
ghost use Rattle.segment_core.specs.Segments.{blank_pages};
ghost use Rattle.superstep.specs.Opening.{IsAllFree, IsCrew, IsServing};

use flow_model::plan::Plan;
use flow_outside::spill::Spill;
use lot_store::lot::Lot;
use plan_need::budget::Allot;
use plan_need::need::reach;
use segment_core::Pool;
use std::alloc::Global;
use worker_core::worker::{Worker, WorkerMemory};

/// A pool, the worker that has its share of it, and a lot that holds nothing, for the result.
pub(crate) struct Crew<D: Spill> {
    pub(crate) pool: Pool,
    pub(crate) worker: Worker<D>,
    pub(crate) place: Lot,
}

/// All of these, with a disk, which comes back for want of memory.
pub(crate) fn open_crew<D: Spill>(
    alloc: Global,
    plan: &Plan,
    allot: &Allot,
    disk: D,
) -> Result<Crew<D>, D>
    requires { IsServing plan.now allot.now }
    ensures crew { IfOk result
        (λ crew. IsCrew D.told plan.now allot.now disk crew.pool crew.worker) }
    ensures place { IfOk result (λ crew. crew.place ≡ empty 0 (reach plan.now)) }
    ensures back { IfErr result (λ given. given ≡ disk) }
{
    let Ok(place) = Lot::open(alloc, 0, reach(plan)) else {
        return Err(disk);
    };
    match open_staff(alloc, plan, allot, disk) {
        Ok((pool, worker)) => Ok(Crew {
            pool,
            worker,
            place,
        }),
        Err(disk) => {
            place.end();
            Err(disk)
        }
    }
}

/// The pool and the worker.
fn open_staff<D: Spill>(
    alloc: Global,
    plan: &Plan,
    allot: &Allot,
    disk: D,
) -> Result<(Pool, Worker<D>), D>
    requires { IsServing plan.now allot.now }
    ensures crew { IfOk result (λ crew. IsCrew D.told plan.now allot.now disk crew.0 crew.1) }
    ensures back { IfErr result (λ given. given ≡ disk) }
{
    match Pool::open(alloc, allot.total, allot.segment) {
        Ok(pool) => staff(alloc, plan, allot, pool, disk),
        Err(_) => Err(disk),
    }
}

/// A worker with its share of a pool of which no segment was leased yet.
fn staff<D: Spill>(
    alloc: Global,
    plan: &Plan,
    allot: &Allot,
    mut pool: Pool,
    disk: D,
) -> Result<(Pool, Worker<D>), D>
    requires serving { IsServing plan.now allot.now }
    requires new { pool ≡ record {
      total = allot.now.total;
      size = allot.now.segment;
      free = blank_pages allot.now.total allot.now.segment;
    } }
    requires free { IsAllFree pool }
    ensures crew { IfOk result (λ crew. IsCrew D.told plan.now allot.now disk crew.0 crew.1) }
    ensures back { IfErr result (λ given. given ≡ disk) }
{
    let Ok(purse) = pool.lease(allot.share) else {
        pool.close();
        return Err(disk);
    };
    match Worker::open(alloc, plan, allot, 0, purse, disk) {
        Ok(worker) => Ok((pool, worker)),
        Err(WorkerMemory { purse, disk }) => {
            pool.restore(purse);
            pool.close();
            Err(disk)
        }
    }
}
