//! What is so of each plan in memory: it states values that a field can hold. The calls walk over the
//! plan and do nothing else; their contracts are what a caller takes along.
ghost use Rattle.std.specs.Prelude.{IsTrue};
ghost use Rattle.std.specs.List.{list_all};
ghost use Rattle.flow_types.specs.Values.{is_long, is_text, is_value};
ghost use Rattle.flow_types.specs.LawsOfTypes.{has_values};
ghost use Rattle.flow_types.specs.LawsOfFolds.{states_long};
ghost use Rattle.model_laws.specs.LawsOfFits.{have_values, branch_has_values, default_has_values, states_values};
ghost use Rattle.model_laws.specs.LawsOfPlanFits.{node_states_values, StatesValues};

use flow_model::op::{Branch, Op};
use flow_model::plan::{Node, Plan};
use flow_types::agg::Agg;
use flow_types::expr::Expr;
use flow_types::row::Row;
use flow_types::text::Text;
use flow_types::value::Value;

/// A plan in memory states values that a field can hold: the premise of `plans_fit`. It takes time in
/// proportion to the plan, and no memory.
pub fn plan_states_values(plan: &Plan)
    ensures { StatesValues plan.now }
{
    nodes_state_values(plan.nodes.as_slice());
}

fn nodes_state_values(nodes: &[Node])
    ensures { IsTrue (list_all node_states_values nodes.now) }
{
    for node in nodes {
        op_states_values(&node.op);
    }
}

/// So does each op.
pub fn op_states_values(op: &Op)
    ensures { IsTrue (states_values op.now) }
{
    match op {
        Op::Map { columns, .. } | Op::Probe { columns, .. } => exprs_have_values(
            columns.as_slice(),
        ),
        Op::Filter { test, .. } => expr_has_values(test),
        Op::FlatMap { rows, .. } => branches_have_values(rows.as_slice()),
        Op::Group { aggs, .. } => aggs_state_longs(aggs.as_slice()),
        Op::Join {
            columns,
            left_default,
            right_default,
            ..
        } => {
            exprs_have_values(columns.as_slice());
            default_is_held(left_default);
            default_is_held(right_default);
        }
        Op::Cogroup {
            left_aggs,
            right_aggs,
            ..
        } => {
            aggs_state_longs(left_aggs.as_slice());
            aggs_state_longs(right_aggs.as_slice());
        }
        Op::Source { .. } | Op::Union { .. } | Op::Distinct { .. } => {}
        Op::Top { .. } | Op::Bulk { .. } | Op::Delta { .. } => {}
    }
}

fn branches_have_values(branches: &[Branch])
    ensures { IsTrue (list_all branch_has_values branches.now) }
{
    for branch in branches {
        expr_has_values(&branch.when);
        exprs_have_values(branch.columns.as_slice());
    }
}

fn exprs_have_values(exprs: &[Expr])
    ensures { IsTrue (have_values exprs.now) }
{
    for expr in exprs {
        expr_has_values(expr);
    }
}

fn expr_has_values(expr: &Expr)
    ensures { IsTrue (has_values expr.now) }
{
    match expr {
        Expr::Lit(value) => value_is_held(value),
        Expr::Field(_) => {}
        Expr::Un(_, a) | Expr::Cut(a, _) => expr_has_values(a.get()),
        Expr::Bin(_, a, b) => {
            expr_has_values(a.get());
            expr_has_values(b.get());
        }
        Expr::If(c, a, b) => {
            expr_has_values(c.get());
            expr_has_values(a.get());
            expr_has_values(b.get());
        }
    }
}

fn default_is_held(default: &Option<Row>)
    ensures { IsTrue (default_has_values default.now) }
{
    if let Some(row) = default {
        values_are_held(row.values());
    }
}

fn values_are_held(values: &[Value])
    ensures { IsTrue (list_all is_value values.now) }
{
    for value in values {
        value_is_held(value);
    }
}

fn value_is_held(value: &Value)
    ensures { IsTrue (is_value value.now) }
{
    match value {
        Value::Long(number) => long_is_held(*number),
        Value::Bool(_) => {}
        Value::Str(text) => text_is_held(text),
    }
}

fn text_is_held(text: &Text)
    ensures { IsTrue (is_text text.now) }
{
    let _ = text.as_str();
}

fn aggs_state_longs(aggs: &[Agg])
    ensures { IsTrue (list_all states_long aggs.now) }
{
    for agg in aggs {
        agg_states_long(*agg);
    }
}

fn agg_states_long(agg: Agg)
    ensures { IsTrue (states_long agg) }
{
    match agg {
        Agg::Min(_, empty) => long_is_held(empty),
        Agg::Max(_, empty) => long_is_held(empty),
        Agg::Sum(_) | Agg::Count => {}
    }
}

fn long_is_held(number: i64)
    ensures { IsTrue (is_long number) }
{}
