ghost use Rattle.std.specs.Prelude.{◌≡◌, ◌+◌, IfOk, map, option_map, option_and_then};
ghost use Rattle.serde_json.specs.View.{view};
ghost use Rattle.flow_types.specs.declared.expr.Expr.TheVariants as expr;
ghost use Rattle.plan_json.specs.Json.{seen, collected, meaning};
ghost use Rattle.serde_json.specs.Find.{as_str};
ghost use Rattle.plan_json.specs.Numbers.{field_number};
ghost use Rattle.plan_exprs.specs.Exprs.{literal_of, un_of, bin_of, cut_of, if_of, un_ops, bin_ops, of_one, of_two, of_three, of_parts, expr_of, limited_expr, expr_in, columns_in};
ghost use Rattle.plan_exprs.specs.Counted.{part_of, counted};

use crate::counted::{Counted, counted_bin, counted_cut, counted_if, counted_un};
use crate::literals::literal_of;
use flow_model::op::ExprList;
use flow_outside::failure::Memory;
use flow_types::expr::{BinOp, Expr, UnOp};
use flow_types::text::TEXT_LIMIT;
use plan_json::json::{is_text, items_in, list_in};
use plan_json::numbers::{field_number, number_of};
use plan_json::reading::{Flaw, Reading};
use serde_json::Value;
use sqlite_items::Items;
use std::alloc::Global;

/// The most lists inside one another.
const LIST_LIMIT: u32 = 32;

/// A member that is an expression.
pub fn expr_in(alloc: Global, member: Option<&Value>) -> Result<Reading<Expr>, Memory>
    ensures { IfOk result (λ e. e ≡ expr_in (seen member.entry)) }
{
    match member {
        None => Ok(Err(Flaw::Node)),
        Some(value) => Ok(limited_expr(alloc, value)?.ok_or(Flaw::Expr)),
    }
}

/// A member that is a list of 1 to 32 expressions.
pub fn columns_in(alloc: Global, member: Option<&Value>) -> Result<Reading<ExprList>, Memory>
    ensures { IfOk result (λ columns. columns ≡ columns_in (seen member.entry)) }
{
    match list_in(member, 1, 32) {
        None => Ok(Err(Flaw::Node)),
        Some(items) => Ok(limited_exprs(alloc, items)?.ok_or(Flaw::Expr)),
    }
}

/// The expressions that values are, where each is one within its limits.
pub fn limited_exprs(alloc: Global, values: &Vec<Value>) -> Result<Option<ExprList>, Memory>
    ensures { IfOk result (λ es. es ≡ collected limited_expr (map view values.now.items)) }
{
    let mut exprs = Vec::new(alloc);
    for value in values {
        let Some(expr) = limited_expr(alloc, value)? else {
            return Ok(None);
        };
        if exprs.push(expr).is_err() {
            return Err(Memory);
        }
    }
    Ok(Some(Items::from_vec(exprs)))
}

/// The expression that a value is, within its limits: at most 256 parts, and at most 32 lists inside
/// one another. No list is opened past the limits.
pub fn limited_expr(alloc: Global, value: &Value) -> Result<Option<Expr>, Memory>
    ensures { IfOk result (λ e. e ≡ limited_expr (view value.now)) }
{
    match expr_of(alloc, value, LIST_LIMIT)? {
        None => Ok(None),
        Some(counted) => Ok(Some(counted.expr)),
    }
}

/// The expression that a value is, where it has at most so many lists inside one another.
#[cycle(expr)]
fn expr_of(alloc: Global, value: &Value, lists: u32) -> Result<Option<Counted>, Memory>
    ensures { IfOk result (λ e. e ≡ counted lists (expr_of (view value.now))) }
{
    match items_in(value) {
        None => literal(alloc, value),
        Some(items) => if lists == 0 {
            Ok(None)
        } else {
            of_items(alloc, items.as_slice(), lists - 1)
        },
    }
}

/// The expression that a list is, whose operands have at most so many lists inside one another.
#[cycle(expr)]
fn of_items(alloc: Global, items: &[Value], lists: u32) -> Result<Option<Counted>, Memory>
    ensures { IfOk result
        (λ e. e ≡ counted (lists + 1) (of_parts (map part_of (map view items.now)))) }
{
    match items {
        [word, a] => of_one(alloc, word, a, lists),
        [word, a, b] => of_two(alloc, word, a, b, lists),
        [word, c, a, b] => of_three(alloc, word, c, a, b, lists),
        _ => Ok(None),
    }
}

/// A literal, which has one part.
fn literal(alloc: Global, value: &Value) -> Result<Option<Counted>, Memory>
    ensures { IfOk result
        (λ e. e ≡ counted 0 (option_map expr.Lit (literal_of (view value.now)))) }
{
    match literal_of(alloc, value)? {
        None => Ok(None),
        Some(literal) => Ok(Some(Counted {
            expr: Expr::Lit(literal),
            parts: 1,
        })),
    }
}

/// A field, or an operation on one value.
#[cycle(expr)]
fn of_one(alloc: Global, word: &Value, a: &Value, lists: u32) -> Result<Option<Counted>, Memory>
    ensures { IfOk result
        (λ e. e ≡ counted (lists + 1) (of_one (view word.now) (part_of (view a.now)))) }
{
    if is_text(word, "f") {
        return Ok(field(a));
    }
    match un_op(word) {
        None => Ok(None),
        Some(op) => un(alloc, op, a, lists),
    }
}

fn field(number: &Value) -> Option<Counted>
    ensures { result ≡ counted 1 (option_map expr.Field (field_number (view number.now))) }
{
    match field_number(number) {
        None => None,
        Some(number) => Some(Counted {
            expr: Expr::Field(number),
            parts: 1,
        }),
    }
}

fn un_op(word: &Value) -> Option<UnOp>
    ensures { result ≡ option_and_then (meaning un_ops) (as_str (view word.now)) }
{
    match word.as_str()? {
        "not" => Some(UnOp::Not),
        "len" => Some(UnOp::Len),
        _ => None,
    }
}

#[cycle(expr)]
fn un(alloc: Global, op: UnOp, a: &Value, lists: u32) -> Result<Option<Counted>, Memory>
    ensures { IfOk result (λ e. e ≡ counted (lists + 1) (un_of op (expr_of (view a.now)))) }
{
    let a = expr_of(alloc, a, lists)?;
    counted_un(alloc, op, a)
}

/// A cut, or an operation on two values.
#[cycle(expr)]
fn of_two(
    alloc: Global,
    word: &Value,
    a: &Value,
    b: &Value,
    lists: u32,
) -> Result<Option<Counted>, Memory>
    ensures { IfOk result
        (λ e. e ≡ counted (lists + 1) (of_two (view word.now) (part_of (view a.now)) (part_of (view b.now)))) }
{
    if is_text(word, "cut") {
        return match number_of(b, 0, TEXT_LIMIT as u32) {
            None => Ok(None),
            Some(most) => cut(alloc, a, most as u16, lists),
        };
    }
    match bin_op(word) {
        None => Ok(None),
        Some(op) => bin(alloc, op, a, b, lists),
    }
}

fn bin_op(word: &Value) -> Option<BinOp>
    ensures { result ≡ option_and_then (meaning bin_ops) (as_str (view word.now)) }
{
    match word.as_str()? {
        "add" => Some(BinOp::Add),
        "sub" => Some(BinOp::Sub),
        "mul" => Some(BinOp::Mul),
        "div" => Some(BinOp::Div),
        "rem" => Some(BinOp::Rem),
        "eq" => Some(BinOp::Eq),
        "ne" => Some(BinOp::Ne),
        "lt" => Some(BinOp::Lt),
        "le" => Some(BinOp::Le),
        "gt" => Some(BinOp::Gt),
        "ge" => Some(BinOp::Ge),
        "and" => Some(BinOp::And),
        "or" => Some(BinOp::Or),
        "cat" => Some(BinOp::Cat),
        _ => None,
    }
}

#[cycle(expr)]
fn cut(alloc: Global, a: &Value, most: u16, lists: u32) -> Result<Option<Counted>, Memory>
    ensures { IfOk result (λ e. e ≡ counted (lists + 1) (cut_of most (expr_of (view a.now)))) }
{
    let a = expr_of(alloc, a, lists)?;
    counted_cut(alloc, a, most)
}

#[cycle(expr)]
fn bin(
    alloc: Global,
    op: BinOp,
    a: &Value,
    b: &Value,
    lists: u32,
) -> Result<Option<Counted>, Memory>
    ensures { IfOk result
        (λ e. e ≡ counted (lists + 1) (bin_of op (expr_of (view a.now)) (expr_of (view b.now)))) }
{
    let a = expr_of(alloc, a, lists)?;
    let b = expr_of(alloc, b, lists)?;
    counted_bin(alloc, op, a, b)
}

/// A choice.
#[cycle(expr)]
fn of_three(
    alloc: Global,
    word: &Value,
    c: &Value,
    a: &Value,
    b: &Value,
    lists: u32,
) -> Result<Option<Counted>, Memory>
    ensures { IfOk result
        (λ e. e ≡ counted (lists + 1) (of_three (view word.now) (part_of (view c.now)) (part_of (view a.now)) (part_of (view b.now)))) }
{
    if is_text(word, "if") {
        choice(alloc, c, a, b, lists)
    } else {
        Ok(None)
    }
}

#[cycle(expr)]
fn choice(
    alloc: Global,
    c: &Value,
    a: &Value,
    b: &Value,
    lists: u32,
) -> Result<Option<Counted>, Memory>
    ensures { IfOk result
        (λ e. e ≡ counted (lists + 1) (if_of (expr_of (view c.now)) (expr_of (view a.now)) (expr_of (view b.now)))) }
{
    let c = expr_of(alloc, c, lists)?;
    let a = expr_of(alloc, a, lists)?;
    let b = expr_of(alloc, b, lists)?;
    counted_if(alloc, c, a, b)
}
