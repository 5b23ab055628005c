ghost use Rattle.std.specs.Prelude.{◌≡◌, IfOk, IsSome, Some};
ghost use Rattle.row_pipe.specs.Works.{work_of};

use crate::copies::{copy_branches, copy_columns, copy_expr};
use flow_model::op::{BranchList, ExprList, Op};
use flow_outside::failure::Memory;
use flow_types::expr::Expr;
use std::alloc::Global;

/// What is done with each row.
#[derive(Drop)]
pub enum Work {
    /// It is given as it is.
    Pass,
    /// Its columns are given.
    Map(ExprList),
    /// It is given where the test is true of it.
    Filter(Expr),
    /// The columns of each branch whose `when` is true of it are given.
    FlatMap(BranchList),
}

impl Work {
    /// What an op does with each row. Its expressions are copied, an allocation for each operand and list.
    pub(crate) fn of(alloc: Global, op: &Op) -> Result<Work, Memory>
        requires { IsSome (work_of op.now) }
        ensures { IfOk result (λ w. Some w ≡ work_of op.now) }
    {
        match op {
            Op::Map { columns, .. } => Ok(Work::Map(copy_columns(alloc, columns.as_slice())?)),
            Op::Filter { test, .. } => Ok(Work::Filter(copy_expr(alloc, test)?)),
            Op::FlatMap { rows, .. } => Ok(Work::FlatMap(copy_branches(alloc, rows.as_slice())?)),
            Op::Union { .. } => Ok(Work::Pass),
            _ => unreachable!(),
        }
    }
}
