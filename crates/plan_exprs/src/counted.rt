ghost use Rattle.std.specs.Prelude.{◌≡◌, IfOk};
ghost use Rattle.plan_exprs.specs.Counted.{counted_un, counted_cut, counted_bin, counted_if};

use flow_outside::failure::Memory;
use flow_types::expr::{BinOp, Expr, UnOp};
use sqlite_items::Boxed;
use std::alloc::Global;

/// The most parts of an expression.
const PART_LIMIT: u32 = 256;

/// An expression, and how many parts it has.
#[derive(Debug, Drop)]
pub struct Counted {
    pub expr: Expr,
    pub parts: u16,
}

/// An operation on an expression that is one, where it has few enough parts.
pub fn counted_un(alloc: Global, op: UnOp, a: Option<Counted>) -> Result<Option<Counted>, Memory>
    ensures { IfOk result (λ e. e ≡ counted_un op a) }
{
    let Some(a) = a else {
        return Ok(None);
    };
    let parts = 1 + u32::from(a.parts);
    if parts > PART_LIMIT {
        return Ok(None);
    }
    let expr = Expr::Un(op, boxed(alloc, a.expr)?);
    let parts = parts as u16;
    Ok(Some(Counted { expr, parts }))
}

/// A cut of an expression that is one, where it has few enough parts.
pub fn counted_cut(alloc: Global, a: Option<Counted>, most: u16) -> Result<Option<Counted>, Memory>
    ensures { IfOk result (λ e. e ≡ counted_cut most a) }
{
    let Some(a) = a else {
        return Ok(None);
    };
    let parts = 1 + u32::from(a.parts);
    if parts > PART_LIMIT {
        return Ok(None);
    }
    let expr = Expr::Cut(boxed(alloc, a.expr)?, most);
    let parts = parts as u16;
    Ok(Some(Counted { expr, parts }))
}

/// An operation on two expressions that are ones, where it has few enough parts.
pub fn counted_bin(
    alloc: Global,
    op: BinOp,
    a: Option<Counted>,
    b: Option<Counted>,
) -> Result<Option<Counted>, Memory>
    ensures { IfOk result (λ e. e ≡ counted_bin op a b) }
{
    let Some(a) = a else {
        return Ok(None);
    };
    let Some(b) = b else {
        return Ok(None);
    };
    let parts = 1 + u32::from(a.parts) + u32::from(b.parts);
    if parts > PART_LIMIT {
        return Ok(None);
    }
    let expr = Expr::Bin(op, boxed(alloc, a.expr)?, boxed(alloc, b.expr)?);
    let parts = parts as u16;
    Ok(Some(Counted { expr, parts }))
}

/// A choice of three expressions that are ones, where it has few enough parts.
pub fn counted_if(
    alloc: Global,
    c: Option<Counted>,
    a: Option<Counted>,
    b: Option<Counted>,
) -> Result<Option<Counted>, Memory>
    ensures { IfOk result (λ e. e ≡ counted_if c a b) }
{
    let Some(c) = c else {
        return Ok(None);
    };
    let Some(a) = a else {
        return Ok(None);
    };
    let Some(b) = b else {
        return Ok(None);
    };
    let parts = 1 + u32::from(c.parts) + u32::from(a.parts) + u32::from(b.parts);
    if parts > PART_LIMIT {
        return Ok(None);
    }
    let expr = Expr::If(
        boxed(alloc, c.expr)?,
        boxed(alloc, a.expr)?,
        boxed(alloc, b.expr)?,
    );
    let parts = parts as u16;
    Ok(Some(Counted { expr, parts }))
}

fn boxed(alloc: Global, expr: Expr) -> Result<Boxed<Expr>, Memory>
    ensures { IfOk result (λ made. made ≡ expr) }
{
    Boxed::new(alloc, expr).map_err(|_| Memory)
}
