ghost use Rattle.std.specs.Prelude.{◌<◌, ◌≤◌, ◌^◌, [], ◌∷◌, OnOk, IsTrue, length, map};
ghost use Rattle.std.specs.List.{list_all};
ghost use Rattle.flow_outside.specs.Blocks.{BothTold};
ghost use Rattle.flow_outside.specs.Told.{IfTold};
ghost use Rattle.flow_types.specs.Limits.{record_limit};
ghost use Rattle.flow_types.specs.Types.{widest};
ghost use Rattle.flow_types.specs.Records.{IsRecord, form, tuple_of};
ghost use Rattle.flow_model.specs.Rows.{branch_rows, columns_of};
ghost use Rattle.spool.specs.Spilling.{HasWriteCause};
ghost use Rattle.lot_store.specs.LotCalls.{Writes};
ghost use Rattle.row_pipe.specs.Pipes.{AddsRows, CanAdd, HasPlaceFor};
ghost use Rattle.row_pipe.specs.Works.{are_columns_over, is_branch_over, is_work_over, piped};

use crate::work::Work;
use expr_core::evaluate::{columns_into, test};
use expr_core::scratch::Scratch;
use flow_model::op::Branch;
use flow_outside::failure::StreamFault;
use flow_outside::spill::Spill;
use flow_types::expr::Expr;
use flow_types::schema::Schema;
use lot_store::lot::Lot;
use segment_core::Purse;
use span_bytes::span::Span;

impl Work {
    /// Adds the rows that are given of a row behind those of a lot. Each byte of a record is copied once, and of
    /// columns it is written once before.
    pub(crate) fn give<X: Span, D: Spill>(
        &self,
        row: &X,
        schema: &Schema,
        out: &mut Lot,
        s: &mut Scratch,
        purse: &mut Purse,
        disk: &mut D,
    ) -> Result<(), StreamFault>
        requires whole { IsRecord schema.now (X.seen row.now) }
        requires small { widest schema.now ≤ record_limit }
        requires typed { IsTrue (is_work_over schema.now self.now) }
        requires can { CanAdd (D.told disk.old) out.old purse.old }
        requires place { IfTold (D.told disk.old)
            (HasPlaceFor (map form (piped self.now (tuple_of schema.now (X.seen row.now) ∷ []))) out.old purse.old.pages) }
        ensures cause { HasWriteCause (D.fault_count disk.old) (D.fault_count disk.new) result }
        ensures writes { Writes (D.told disk.old) (D.told disk.new) purse.old purse.new out.old out.new }
        ensures can { OnOk result (CanAdd (D.told disk.new) out.new purse.new) }
        ensures adds { OnOk result (BothTold (D.told disk.old) (D.told disk.new)
            (AddsRows out.old out.new (map form (piped self.now (tuple_of schema.now (X.seen row.now) ∷ []))))) }
    {
        match self {
            Work::Pass => add(row, out, purse, disk),
            Work::Map(columns) => add_columns(columns.as_slice(), row, schema, out, s, purse, disk),
            Work::Filter(e) => if test(e, row, schema, s) {
                add(row, out, purse, disk)
            } else {
                Ok(())
            },
            Work::FlatMap(branches) => {
                add_branches(branches.as_slice(), row, schema, out, s, purse, disk)
            }
        }
    }
}

/// Adds the columns of each branch whose `when` is true of a row.
fn add_branches<X: Span, D: Spill>(
    branches: &[Branch],
    row: &X,
    schema: &Schema,
    out: &mut Lot,
    s: &mut Scratch,
    purse: &mut Purse,
    disk: &mut D,
) -> Result<(), StreamFault>
    requires whole { IsRecord schema.now (X.seen row.now) }
    requires typed { IsTrue (list_all (is_branch_over schema.now) branches.now) }
    requires can { CanAdd (D.told disk.old) out.old purse.old }
    requires place { IfTold (D.told disk.old)
        (HasPlaceFor (map form (branch_rows branches.now (tuple_of schema.now (X.seen row.now)))) out.old purse.old.pages) }
    ensures cause { HasWriteCause (D.fault_count disk.old) (D.fault_count disk.new) result }
    ensures writes { Writes (D.told disk.old) (D.told disk.new) purse.old purse.new out.old out.new }
    ensures can { OnOk result (CanAdd (D.told disk.new) out.new purse.new) }
    ensures adds { OnOk result (BothTold (D.told disk.old) (D.told disk.new)
        (AddsRows out.old out.new (map form (branch_rows branches.now (tuple_of schema.now (X.seen row.now)))))) }
{
    for branch in branches {
        match add_branch(branch, row, schema, out, s, purse, disk) {
            Ok(()) => (),
            Err(fault) => return Err(fault),
        }
    }
    Ok(())
}

/// Adds a branch's columns where its `when` is true of a row.
fn add_branch<X: Span, D: Spill>(
    branch: &Branch,
    row: &X,
    schema: &Schema,
    out: &mut Lot,
    s: &mut Scratch,
    purse: &mut Purse,
    disk: &mut D,
) -> Result<(), StreamFault>
    requires whole { IsRecord schema.now (X.seen row.now) }
    requires typed { IsTrue (is_branch_over schema.now branch.now) }
    requires can { CanAdd (D.told disk.old) out.old purse.old }
    requires place { IfTold (D.told disk.old)
        (HasPlaceFor (map form (branch_rows (branch.now ∷ []) (tuple_of schema.now (X.seen row.now)))) out.old purse.old.pages) }
    ensures cause { HasWriteCause (D.fault_count disk.old) (D.fault_count disk.new) result }
    ensures writes { Writes (D.told disk.old) (D.told disk.new) purse.old purse.new out.old out.new }
    ensures can { OnOk result (CanAdd (D.told disk.new) out.new purse.new) }
    ensures adds { OnOk result (BothTold (D.told disk.old) (D.told disk.new)
        (AddsRows out.old out.new (map form (branch_rows (branch.now ∷ []) (tuple_of schema.now (X.seen row.now)))))) }
{
    if test(&branch.when, row, schema, s) {
        add_columns(branch.columns.as_slice(), row, schema, out, s, purse, disk)
    } else {
        Ok(())
    }
}

/// Adds the columns' values at a row.
fn add_columns<X: Span, D: Spill>(
    columns: &[Expr],
    row: &X,
    schema: &Schema,
    out: &mut Lot,
    s: &mut Scratch,
    purse: &mut Purse,
    disk: &mut D,
) -> Result<(), StreamFault>
    requires whole { IsRecord schema.now (X.seen row.now) }
    requires typed { IsTrue (are_columns_over schema.now columns.now) }
    requires can { CanAdd (D.told disk.old) out.old purse.old }
    requires place { IfTold (D.told disk.old)
        (HasPlaceFor (form (columns_of columns.now (tuple_of schema.now (X.seen row.now))) ∷ []) out.old purse.old.pages) }
    ensures cause { HasWriteCause (D.fault_count disk.old) (D.fault_count disk.new) result }
    ensures writes { Writes (D.told disk.old) (D.told disk.new) purse.old purse.new out.old out.new }
    ensures can { OnOk result (CanAdd (D.told disk.new) out.new purse.new) }
    ensures adds { OnOk result (BothTold (D.told disk.old) (D.told disk.new)
        (AddsRows out.old out.new (form (columns_of columns.now (tuple_of schema.now (X.seen row.now))) ∷ []))) }
{
    let record = columns_into(columns, row, schema, None::<&&[u8]>, schema, s);
    add(&record, out, purse, disk)
}

/// Adds a record.
fn add<X: Span, D: Spill>(
    row: &X,
    out: &mut Lot,
    purse: &mut Purse,
    disk: &mut D,
) -> Result<(), StreamFault>
    requires len { length (X.seen row.now) < 2 ^ 32 }
    requires can { CanAdd (D.told disk.old) out.old purse.old }
    requires place { IfTold (D.told disk.old) (HasPlaceFor (X.seen row.now ∷ []) out.old purse.old.pages) }
    ensures cause { HasWriteCause (D.fault_count disk.old) (D.fault_count disk.new) result }
    ensures writes { Writes (D.told disk.old) (D.told disk.new) purse.old purse.new out.old out.new }
    ensures can { OnOk result (CanAdd (D.told disk.new) out.new purse.new) }
    ensures adds { OnOk result (BothTold (D.told disk.old) (D.told disk.new) (AddsRows out.old out.new (X.seen row.now ∷ []))) }
{
    out.append(row, purse, disk)
}
