ghost use Rattle.std.specs.Prelude.{◌≡◌};
ghost use Rattle.std.specs.List.{list_all};
ghost use Rattle.flow_types.specs.ExprTypes.{is_within};
ghost use Rattle.flow_model.specs.Schemas.{has_order};
ghost use Rattle.plan_typing.specs.Typing.{is_key_within, are_within, is_branch_within, is_fold_within};

use flow_model::op::Branch;
use flow_types::agg::Agg;
use flow_types::expr::Expr;
use flow_types::field_type::FieldType;
use flow_types::order_item::OrderItem;

/// Whether each field that an expression names is one of so many.
pub fn is_within(count: usize, expr: &Expr) -> bool
    ensures { result ≡ is_within count expr.now }
{
    match expr {
        Expr::Lit(_) => true,
        Expr::Field(number) => usize::from(*number) < count,
        Expr::Un(_, a) => is_within(count, a.get()),
        Expr::Bin(_, a, b) => is_within(count, a.get()) && is_within(count, b.get()),
        Expr::If(c, a, b) => {
            is_within(count, c.get()) && is_within(count, a.get()) && is_within(count, b.get())
        }
        Expr::Cut(a, _) => is_within(count, a.get()),
    }
}

/// Whether each field that columns name is one of so many.
pub fn are_within(count: usize, columns: &[Expr]) -> bool
    ensures { result ≡ are_within count columns.now }
{
    columns.iter().all(|column| is_within(count, column))
}

/// Whether each field that a branch names is one of so many.
fn is_branch_within(count: usize, branch: &Branch) -> bool
    ensures { result ≡ is_branch_within count branch.now }
{
    is_within(count, &branch.when) && are_within(count, branch.columns.as_slice())
}

/// Whether each field that branches name is one of so many.
pub fn are_branches_within(count: usize, branches: &[Branch]) -> bool
    ensures { result ≡ list_all (is_branch_within count) branches.now }
{
    branches
        .iter()
        .all(|branch| is_branch_within(count, branch))
}

/// Whether each field that a key names is one of so many.
pub fn is_key_within(count: usize, key: &[u16]) -> bool
    ensures { result ≡ is_key_within count key.now }
{
    key.iter().all(|number| usize::from(*number) < count)
}

/// Whether the field of a fold is one of so many; a count has none.
fn is_fold_within(count: usize, fold: Agg) -> bool
    ensures { result ≡ is_fold_within count fold }
{
    match fold {
        Agg::Sum(number) => usize::from(number) < count,
        Agg::Min(number, _) => usize::from(number) < count,
        Agg::Max(number, _) => usize::from(number) < count,
        Agg::Count => true,
    }
}

/// Whether each fold's field is one of so many.
pub fn are_folds_within(count: usize, folds: &[Agg]) -> bool
    ensures { result ≡ list_all (is_fold_within count) folds.now }
{
    folds.iter().all(|fold| is_fold_within(count, *fold))
}

/// Whether each item of an order is of one of the fields.
pub fn has_order(fields: &[FieldType], order: &[OrderItem]) -> bool
    ensures { result ≡ has_order fields.now order.now }
{
    order
        .iter()
        .all(|item| usize::from(item.field) < fields.len())
}
