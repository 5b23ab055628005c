ghost use Rattle.std.specs.Prelude.{◌≡◌, [], ◌∷◌, ◌++◌, IfOk};

use flow_model::op::{Branch, BranchList, ExprList};
use flow_outside::failure::Memory;
use flow_types::expr::Expr;
use sqlite_items::{Boxed, Items};
use std::alloc::Global;

/// A copy of an expression; each operand and each text allocates.
pub(crate) fn copy_expr(alloc: Global, expr: &Expr) -> Result<Expr, Memory>
    ensures { IfOk result (λ e. e ≡ expr.now) }
{
    match expr {
        Expr::Lit(value) => Ok(Expr::Lit(value.copy(alloc)?)),
        Expr::Field(number) => Ok(Expr::Field(*number)),
        Expr::Un(op, a) => {
            let a = boxed(alloc, copy_expr(alloc, a.get())?)?;
            Ok(Expr::Un(*op, a))
        }
        Expr::Bin(op, a, b) => {
            let a = boxed(alloc, copy_expr(alloc, a.get())?)?;
            let b = boxed(alloc, copy_expr(alloc, b.get())?)?;
            Ok(Expr::Bin(*op, a, b))
        }
        Expr::If(c, a, b) => {
            let c = boxed(alloc, copy_expr(alloc, c.get())?)?;
            let a = boxed(alloc, copy_expr(alloc, a.get())?)?;
            let b = boxed(alloc, copy_expr(alloc, b.get())?)?;
            Ok(Expr::If(c, a, b))
        }
        Expr::Cut(a, most) => {
            let a = boxed(alloc, copy_expr(alloc, a.get())?)?;
            Ok(Expr::Cut(a, *most))
        }
    }
}

fn boxed(alloc: Global, expr: Expr) -> Result<Boxed<Expr>, Memory>
    ensures { IfOk result (λ made. made ≡ expr) }
{
    Boxed::new(alloc, expr).map_err(|_| Memory)
}

/// A copy of columns.
pub(crate) fn copy_columns(alloc: Global, columns: &[Expr]) -> Result<ExprList, Memory>
    ensures { IfOk result (λ list. list ≡ columns.now) }
{
    let mut copies = Vec::new(alloc);
    for column in columns {
        push_expr(&mut copies, copy_expr(alloc, column)?)?;
    }
    Ok(Items::from_vec(copies))
}

fn push_expr(exprs: &mut Vec<Expr>, expr: Expr) -> Result<(), Memory>
    ensures { IfOk result (λ _. exprs.new.items ≡ exprs.old.items ++ expr ∷ []) }
{
    match exprs.push(expr) {
        Ok(()) => Ok(()),
        Err(_) => Err(Memory),
    }
}

/// A copy of a flat map's branches.
pub(crate) fn copy_branches(alloc: Global, branches: &[Branch]) -> Result<BranchList, Memory>
    ensures { IfOk result (λ list. list ≡ branches.now) }
{
    let mut copies = Vec::new(alloc);
    for branch in branches {
        push_branch(&mut copies, copy_branch(alloc, branch)?)?;
    }
    Ok(Items::from_vec(copies))
}

fn copy_branch(alloc: Global, branch: &Branch) -> Result<Branch, Memory>
    ensures { IfOk result (λ b. b ≡ branch.now) }
{
    let when = copy_expr(alloc, &branch.when)?;
    let columns = copy_columns(alloc, branch.columns.as_slice())?;
    Ok(Branch { when, columns })
}

fn push_branch(branches: &mut Vec<Branch>, branch: Branch) -> Result<(), Memory>
    ensures { IfOk result (λ _. branches.new.items ≡ branches.old.items ++ branch ∷ []) }
{
    match branches.push(branch) {
        Ok(()) => Ok(()),
        Err(_) => Err(Memory),
    }
}
