ghost use Rattle.std.specs.Prelude.{◌≡◌, IfOk};
ghost use Rattle.serde_json.specs.View.{view};
ghost use Rattle.plan_json.specs.declared.rows.OpName.TheVariants as op_name;
ghost use Rattle.plan_json.specs.Reading.{from_one, from_two, from_three, from_four, from_five, from_six, from_seven, from_nine};
ghost use Rattle.plan_text.specs.declared.tree.TreeOp.TheVariants as tree_op;
ghost use Rattle.flow_model.specs.Rows.{keeps_left, keeps_right};
ghost use Rattle.plan_text.specs.Ops.{has_body, join_op, join_of, op_in};

use crate::tree::TreeOp;
use flow_model::op::{
    AggList, BranchList, ExprList, JoinKind, KeyList, MergeRule, OrderList, TypeList,
};
use flow_outside::failure::Memory;
use flow_types::expr::Expr;
use flow_types::name::Name;
use flow_types::row::Row;
use plan_exprs::branches::branches_in;
use plan_exprs::exprs::{columns_in, expr_in};
use plan_exprs::literals::default_in;
use plan_json::folds::{aggs_in, order_in};
use plan_json::json::items_in;
use plan_json::names::{NameList, name_in, names_in, optional_name_in};
use plan_json::numbers::{count_in, key_in};
use plan_json::reading::{Flaw, Reading, both, five, four, nine, seven, six, three};
use plan_json::rows::OpName;
use plan_json::types::fields_in;
use plan_json::words::{combine_in, delimiter_in, kind_in, merge_in};
use serde_json::Value;
use std::alloc::Global;

/// The op of a node that names it, member by member.
pub fn op_in(alloc: Global, op: OpName, node: &Value) -> Result<Reading<TreeOp>, Memory>
    ensures { IfOk result (λ made. made ≡ op_in op (view node.now)) }
{
    match op {
        OpName::Source => source_in(alloc, node),
        OpName::Map => map_in(alloc, node),
        OpName::Filter => filter_in(alloc, node),
        OpName::FlatMap => flat_map_in(alloc, node),
        OpName::Union => union_in(alloc, node),
        OpName::Distinct => distinct_in(alloc, node),
        OpName::Group => group_in(alloc, node),
        OpName::Top => top_in(alloc, node),
        OpName::Join => join_in(alloc, node),
        OpName::Cogroup => cogroup_in(alloc, node),
        OpName::Bulk => bulk_in(alloc, node),
        OpName::Delta => delta_in(alloc, node),
        OpName::Probe => probe_in(alloc, node),
    }
}

/// Whether a node's body is a list.
fn has_body(node: &Value) -> bool
    ensures { result ≡ has_body (view node.now) }
{
    match node.get("body") {
        None => false,
        Some(body) => items_in(body).is_some(),
    }
}

/// The op of a `source`.
fn source_in(alloc: Global, node: &Value) -> Result<Reading<TreeOp>, Memory>
    ensures { IfOk result (λ op. op ≡ op_in op_name.Source (view node.now)) }
{
    let fields = fields_in(alloc, node.get("fields"))?;
    let delimiter = delimiter_in(node.get("delimiter"));
    Ok(source_of(fields, delimiter))
}

fn source_of(fields: Reading<TypeList>, delimiter: Reading<u8>) -> Reading<TreeOp>
    ensures { result ≡ from_two tree_op.Source fields delimiter }
{
    match both(fields, delimiter) {
        Ok((fields, delimiter)) => Ok(TreeOp::Source { fields, delimiter }),
        Err(flaw) => Err(flaw),
    }
}

/// The op of a `map`.
fn map_in(alloc: Global, node: &Value) -> Result<Reading<TreeOp>, Memory>
    ensures { IfOk result (λ op. op ≡ op_in op_name.Map (view node.now)) }
{
    let input = name_in(alloc, node.get("input"))?;
    let columns = columns_in(alloc, node.get("columns"))?;
    Ok(map_of(input, columns))
}

fn map_of(input: Reading<Name>, columns: Reading<ExprList>) -> Reading<TreeOp>
    ensures { result ≡ from_two tree_op.Map input columns }
{
    match both(input, columns) {
        Ok((input, columns)) => Ok(TreeOp::Map { input, columns }),
        Err(flaw) => Err(flaw),
    }
}

/// The op of a `filter`.
fn filter_in(alloc: Global, node: &Value) -> Result<Reading<TreeOp>, Memory>
    ensures { IfOk result (λ op. op ≡ op_in op_name.Filter (view node.now)) }
{
    let input = name_in(alloc, node.get("input"))?;
    let test = expr_in(alloc, node.get("test"))?;
    Ok(filter_of(input, test))
}

fn filter_of(input: Reading<Name>, test: Reading<Expr>) -> Reading<TreeOp>
    ensures { result ≡ from_two tree_op.Filter input test }
{
    match both(input, test) {
        Ok((input, test)) => Ok(TreeOp::Filter { input, test }),
        Err(flaw) => Err(flaw),
    }
}

/// The op of a `flat_map`.
fn flat_map_in(alloc: Global, node: &Value) -> Result<Reading<TreeOp>, Memory>
    ensures { IfOk result (λ op. op ≡ op_in op_name.FlatMap (view node.now)) }
{
    let input = name_in(alloc, node.get("input"))?;
    let rows = branches_in(alloc, node.get("rows"))?;
    Ok(flat_map_of(input, rows))
}

fn flat_map_of(input: Reading<Name>, rows: Reading<BranchList>) -> Reading<TreeOp>
    ensures { result ≡ from_two tree_op.FlatMap input rows }
{
    match both(input, rows) {
        Ok((input, rows)) => Ok(TreeOp::FlatMap { input, rows }),
        Err(flaw) => Err(flaw),
    }
}

/// The op of a `union`.
fn union_in(alloc: Global, node: &Value) -> Result<Reading<TreeOp>, Memory>
    ensures { IfOk result (λ op. op ≡ op_in op_name.Union (view node.now)) }
{
    let inputs = names_in(alloc, node.get("inputs"))?;
    Ok(union_of(inputs))
}

fn union_of(inputs: Reading<NameList>) -> Reading<TreeOp>
    ensures { result ≡ from_one tree_op.Union inputs }
{
    Ok(TreeOp::Union { inputs: inputs? })
}

/// The op of a `distinct`.
fn distinct_in(alloc: Global, node: &Value) -> Result<Reading<TreeOp>, Memory>
    ensures { IfOk result (λ op. op ≡ op_in op_name.Distinct (view node.now)) }
{
    let input = name_in(alloc, node.get("input"))?;
    Ok(distinct_of(input))
}

fn distinct_of(input: Reading<Name>) -> Reading<TreeOp>
    ensures { result ≡ from_one tree_op.Distinct input }
{
    Ok(TreeOp::Distinct { input: input? })
}

/// The op of a `group`.
fn group_in(alloc: Global, node: &Value) -> Result<Reading<TreeOp>, Memory>
    ensures { IfOk result (λ op. op ≡ op_in op_name.Group (view node.now)) }
{
    let input = name_in(alloc, node.get("input"))?;
    let key = key_in(alloc, node.get("key"), 0)?;
    let aggs = aggs_in(alloc, node.get("aggs"))?;
    let combine = combine_in(node.get("combine"));
    Ok(group_of(input, key, aggs, combine))
}

#[tactic(auto, using(plan_json::proofs::ReadingLemmas::from_four_both))]
fn group_of(
    input: Reading<Name>,
    key: Reading<KeyList>,
    aggs: Reading<AggList>,
    combine: Reading<bool>,
) -> Reading<TreeOp>
    ensures { result ≡ from_four tree_op.Group input key aggs combine }
{
    match four(input, key, aggs, combine) {
        Ok((((input, key), aggs), combine)) => Ok(TreeOp::Group {
            input,
            key,
            aggs,
            combine,
        }),
        Err(flaw) => Err(flaw),
    }
}

/// The op of a `top`.
fn top_in(alloc: Global, node: &Value) -> Result<Reading<TreeOp>, Memory>
    ensures { IfOk result (λ op. op ≡ op_in op_name.Top (view node.now)) }
{
    let input = name_in(alloc, node.get("input"))?;
    let key = key_in(alloc, node.get("key"), 0)?;
    let order = order_in(alloc, node.get("order"))?;
    let count = count_in(node.get("count"));
    Ok(top_of(input, key, order, count))
}

#[tactic(auto, using(plan_json::proofs::ReadingLemmas::from_four_both))]
fn top_of(
    input: Reading<Name>,
    key: Reading<KeyList>,
    order: Reading<OrderList>,
    count: Reading<u32>,
) -> Reading<TreeOp>
    ensures { result ≡ from_four tree_op.Top input key order count }
{
    match four(input, key, order, count) {
        Ok((((input, key), order), count)) => Ok(TreeOp::Top {
            input,
            key,
            order,
            count,
        }),
        Err(flaw) => Err(flaw),
    }
}

/// The op of a `join`.
fn join_in(alloc: Global, node: &Value) -> Result<Reading<TreeOp>, Memory>
    ensures { IfOk result (λ op. op ≡ op_in op_name.Join (view node.now)) }
{
    match kind_in(node.get("kind")) {
        Ok(kind) => join_of_kind(alloc, node, kind),
        Err(flaw) => Ok(Err(flaw)),
    }
}

fn join_of_kind(alloc: Global, node: &Value, kind: JoinKind) -> Result<Reading<TreeOp>, Memory>
    ensures { IfOk result (λ op. op ≡ join_of (view node.now) (Ok kind)) }
{
    let left = name_in(alloc, node.get("left"))?;
    let right = name_in(alloc, node.get("right"))?;
    let left_key = key_in(alloc, node.get("left_key"), 1)?;
    let right_key = key_in(alloc, node.get("right_key"), 1)?;
    let columns = columns_in(alloc, node.get("columns"))?;
    let left_default = default_in(alloc, keeps_right(kind), node.get("left_default"))?;
    let right_default = default_in(alloc, keeps_left(kind), node.get("right_default"))?;
    Ok(join_of(
        kind,
        left,
        right,
        left_key,
        right_key,
        columns,
        left_default,
        right_default,
    ))
}

#[tactic(auto, using(plan_json::proofs::ReadingLemmas::from_seven_both))]
fn join_of(
    kind: JoinKind,
    left: Reading<Name>,
    right: Reading<Name>,
    left_key: Reading<KeyList>,
    right_key: Reading<KeyList>,
    columns: Reading<ExprList>,
    left_default: Reading<Option<Row>>,
    right_default: Reading<Option<Row>>,
) -> Reading<TreeOp>
    ensures { result ≡ from_seven (join_op kind) left right left_key right_key columns left_default right_default }
{
    match seven(
        left,
        right,
        left_key,
        right_key,
        columns,
        left_default,
        right_default,
    ) {
        Ok(((((((left, right), left_key), right_key), columns), left_default), right_default)) =>
            Ok(TreeOp::Join {
                left,
                right,
                left_key,
                right_key,
                columns,
                kind,
                left_default,
                right_default,
            }),
        Err(flaw) => Err(flaw),
    }
}

/// Whether a kind keeps rows of the left side that have no partner.
fn keeps_left(kind: JoinKind) -> bool
    ensures { result ≡ keeps_left kind }
{
    matches!(kind, JoinKind::Left | JoinKind::Full)
}

/// Whether a kind keeps rows of the right side that have no partner.
fn keeps_right(kind: JoinKind) -> bool
    ensures { result ≡ keeps_right kind }
{
    matches!(kind, JoinKind::Right | JoinKind::Full)
}

/// The op of a `cogroup`.
fn cogroup_in(alloc: Global, node: &Value) -> Result<Reading<TreeOp>, Memory>
    ensures { IfOk result (λ op. op ≡ op_in op_name.Cogroup (view node.now)) }
{
    let left = name_in(alloc, node.get("left"))?;
    let right = name_in(alloc, node.get("right"))?;
    let left_key = key_in(alloc, node.get("left_key"), 1)?;
    let right_key = key_in(alloc, node.get("right_key"), 1)?;
    let left_aggs = aggs_in(alloc, node.get("left_aggs"))?;
    let right_aggs = aggs_in(alloc, node.get("right_aggs"))?;
    Ok(cogroup_of(left, right, left_key, right_key, left_aggs, right_aggs))
}

#[tactic(auto, using(plan_json::proofs::ReadingLemmas::from_six_both))]
fn cogroup_of(
    left: Reading<Name>,
    right: Reading<Name>,
    left_key: Reading<KeyList>,
    right_key: Reading<KeyList>,
    left_aggs: Reading<AggList>,
    right_aggs: Reading<AggList>,
) -> Reading<TreeOp>
    ensures { result ≡ from_six tree_op.Cogroup left right left_key right_key left_aggs right_aggs }
{
    match six(left, right, left_key, right_key, left_aggs, right_aggs) {
        Ok((((((left, right), left_key), right_key), left_aggs), right_aggs)) => Ok(
            TreeOp::Cogroup {
                left,
                right,
                left_key,
                right_key,
                left_aggs,
                right_aggs,
            },
        ),
        Err(flaw) => Err(flaw),
    }
}

/// The op of a `bulk`.
fn bulk_in(alloc: Global, node: &Value) -> Result<Reading<TreeOp>, Memory>
    ensures { IfOk result (λ op. op ≡ op_in op_name.Bulk (view node.now)) }
{
    if !has_body(node) {
        return Ok(Err(Flaw::Node));
    }
    let init = name_in(alloc, node.get("init"))?;
    let bind = name_in(alloc, node.get("bind"))?;
    let max = count_in(node.get("max"));
    let next = name_in(alloc, node.get("next"))?;
    let until = optional_name_in(alloc, node.get("until"))?;
    Ok(bulk_of(init, bind, max, next, until))
}

#[tactic(auto, using(plan_json::proofs::ReadingLemmas::from_five_both))]
fn bulk_of(
    init: Reading<Name>,
    bind: Reading<Name>,
    max: Reading<u32>,
    next: Reading<Name>,
    until: Reading<Option<Name>>,
) -> Reading<TreeOp>
    ensures { result ≡ from_five tree_op.Bulk init bind max next until }
{
    match five(init, bind, max, next, until) {
        Ok(((((init, bind), max), next), until)) => Ok(TreeOp::Bulk {
            init,
            bind,
            max,
            next,
            until,
        }),
        Err(flaw) => Err(flaw),
    }
}

/// The op of a `delta`.
fn delta_in(alloc: Global, node: &Value) -> Result<Reading<TreeOp>, Memory>
    ensures { IfOk result (λ op. op ≡ op_in op_name.Delta (view node.now)) }
{
    if !has_body(node) {
        return Ok(Err(Flaw::Node));
    }
    let solution = name_in(alloc, node.get("solution"))?;
    let workset = name_in(alloc, node.get("workset"))?;
    let bind = name_in(alloc, node.get("bind"))?;
    let key = key_in(alloc, node.get("key"), 1)?;
    let order = order_in(alloc, node.get("order"))?;
    let merge = merge_in(node.get("merge"));
    let max = count_in(node.get("max"));
    let delta = name_in(alloc, node.get("delta"))?;
    let next = name_in(alloc, node.get("next"))?;
    Ok(delta_of(solution, workset, bind, key, order, merge, max, delta, next))
}

#[tactic(auto, using(plan_json::proofs::ReadingLemmas::from_nine_both))]
fn delta_of(
    solution: Reading<Name>,
    workset: Reading<Name>,
    bind: Reading<Name>,
    key: Reading<KeyList>,
    order: Reading<OrderList>,
    merge: Reading<MergeRule>,
    max: Reading<u32>,
    delta: Reading<Name>,
    next: Reading<Name>,
) -> Reading<TreeOp>
    ensures { result ≡ from_nine tree_op.Delta solution workset bind key order merge max delta next }
{
    match nine(solution, workset, bind, key, order, merge, max, delta, next) {
        Ok(((((((((solution, workset), bind), key), order), merge), max), delta), next)) => Ok(
            TreeOp::Delta {
                solution,
                workset,
                bind,
                key,
                order,
                merge,
                max,
                delta,
                next,
            },
        ),
        Err(flaw) => Err(flaw),
    }
}

/// The op of a `probe`.
fn probe_in(alloc: Global, node: &Value) -> Result<Reading<TreeOp>, Memory>
    ensures { IfOk result (λ op. op ≡ op_in op_name.Probe (view node.now)) }
{
    let input = name_in(alloc, node.get("input"))?;
    let key = key_in(alloc, node.get("key"), 1)?;
    let columns = columns_in(alloc, node.get("columns"))?;
    Ok(probe_of(input, key, columns))
}

#[tactic(auto, using(plan_json::proofs::ReadingLemmas::from_three_both))]
fn probe_of(
    input: Reading<Name>,
    key: Reading<KeyList>,
    columns: Reading<ExprList>,
) -> Reading<TreeOp>
    ensures { result ≡ from_three tree_op.Probe input key columns }
{
    match three(input, key, columns) {
        Ok(((input, key), columns)) => Ok(TreeOp::Probe {
            input,
            key,
            columns,
        }),
        Err(flaw) => Err(flaw),
    }
}
