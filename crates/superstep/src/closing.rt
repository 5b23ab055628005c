//! What is left of a result ends.
ghost use Rattle.std.specs.Prelude.{◌≡◌, ℕ, ◌+◌, ◌<◌, length};
ghost use Rattle.lot_store.specs.Lots.{held};
ghost use Rattle.lot_store.specs.Storage.{IsReady, alone};
ghost use Rattle.segment_core.specs.Segments.{segment_sum};
ghost use Rattle.superstep.specs.Emitting.{LiesAlone};
ghost use Rattle.superstep.specs.Executing.{KeepsDisk};
ghost use Rattle.superstep.specs.Opening.{IsAllFree};

use flow_model::plan::Plan;
use flow_outside::spill::Spill;
use lot_store::lot::Lot;
use segment_core::{Pool, Purse};

/// Ends a lot that lies alone: the blocks of its pages are freed, unless the disk fails or memory
/// is wanting for a list of one segment. All segments are free afterwards. The plan is there for
/// the prover alone.
pub(crate) fn drop_place<D: Spill>(_plan: &Plan, pool: &mut Pool, place: Lot, disk: &mut D)
    requires lies { LiesAlone _plan.now (D.told disk.old) place }
    requires free { IsAllFree pool.old × (pool.old.size ≡ _plan.now.segment) }
    ensures free { IsAllFree pool.new }
    ensures total { pool.new.total ≡ pool.old.total }
    ensures disk { KeepsDisk D.told D.fault_count disk.old disk.new }
{
    let Ok(purse) = pool.lease(1) else {
        place.end();
        return;
    };
    let purse = drop_lent(place, purse, disk);
    pool.restore(purse);
}

/// The same, with a purse, which comes back.
fn drop_lent<D: Spill>(mut place: Lot, mut purse: Purse, disk: &mut D) -> Purse
    requires supply { 0 < length purse.pages }
    requires ready { IsReady (alone (D.told disk.old) purse place) }
    ensures segments { (h : ℕ → ℕ → ℕ) → segment_sum h result.pages ≡
        segment_sum h purse.pages + segment_sum h (held place) }
    ensures disk { KeepsDisk D.told D.fault_count disk.old disk.new }
{
    let _dropped = place.drop_lot(&mut purse, disk);
    place.end();
    purse
}
