use crate::fixtures::row;
use flow_model::op::{Branch, ExprList, JoinKind, KeyList, MergeRule, Op, OrderList};
use flow_types::agg::Agg;
use flow_types::expr::{BinOp, Expr, UnOp};
use flow_types::name::Name;
use flow_types::order_item::OrderItem;
use flow_types::value::Value;
use sqlite_items::{Boxed, Items};
use std::alloc::Global;

// Each maker answers `None` where memory is wanting or a piece hasn't its form.

/// A source; its fields are any.
pub fn source(alloc: Global) -> Op {
    Op::Source {
        fields: Items::new(alloc),
        delimiter: b',',
    }
}

/// Columns that are fields.
fn fields(alloc: Global, numbers: &[u16]) -> Option<ExprList> {
    let mut columns = Items::new(alloc);
    for number in numbers {
        columns.push(Expr::Field(*number)).ok()?;
    }
    Some(columns)
}

/// The field numbers of a key.
fn key(alloc: Global, numbers: &[u16]) -> Option<KeyList> {
    Items::from_slice(alloc, numbers).ok()
}

/// An order by field 1.
fn order(alloc: Global, down: bool) -> Option<OrderList> {
    Items::from_slice(alloc, &[OrderItem { field: 1, down }]).ok()
}

/// The bind name of an iteration.
fn bind(alloc: Global) -> Option<Name> {
    Name::of(String::from_str(alloc, "state").ok()?)
}

/// An operation on field 0 and a number.
fn on_field(alloc: Global, op: BinOp, number: i64) -> Option<Expr> {
    let left = Boxed::new(alloc, Expr::Field(0)).ok()?;
    let right = Boxed::new(alloc, Expr::Lit(Value::Long(number))).ok()?;
    Some(Expr::Bin(op, left, right))
}

/// A map to columns that are fields.
pub fn map(alloc: Global, input: u32, numbers: &[u16]) -> Option<Op> {
    let columns = fields(alloc, numbers)?;
    Some(Op::Map { input, columns })
}

/// A map to how long field 0 is, and field 1.
pub fn lengths(alloc: Global, input: u32) -> Option<Op> {
    let word = Boxed::new(alloc, Expr::Field(0)).ok()?;
    let mut columns = Items::new(alloc);
    columns.push(Expr::Un(UnOp::Len, word)).ok()?;
    columns.push(Expr::Field(1)).ok()?;
    Some(Op::Map { input, columns })
}

/// A map to an operation on field 0 and a number.
pub fn map_number(alloc: Global, input: u32, op: BinOp, number: i64) -> Option<Op> {
    let column = on_field(alloc, op, number)?;
    let mut columns = Items::new(alloc);
    columns.push(column).ok()?;
    Some(Op::Map { input, columns })
}

/// A map to field 0 divided by -1 and by 0, and what is left of it by 3.
pub fn arithmetic(alloc: Global, input: u32) -> Option<Op> {
    let mut columns = Items::new(alloc);
    for (op, number) in [(BinOp::Div, -1), (BinOp::Div, 0), (BinOp::Rem, 3)] {
        let column = on_field(alloc, op, number)?;
        columns.push(column).ok()?;
    }
    Some(Op::Map { input, columns })
}

/// A filter by an operation on field 0 and a number.
pub fn test_number(alloc: Global, input: u32, op: BinOp, number: i64) -> Option<Op> {
    let test = on_field(alloc, op, number)?;
    Some(Op::Filter { input, test })
}

/// A map to field 0 with field 1 behind it.
pub fn both_texts(alloc: Global, input: u32) -> Option<Op> {
    let left = Boxed::new(alloc, Expr::Field(0)).ok()?;
    let right = Boxed::new(alloc, Expr::Field(1)).ok()?;
    let mut columns = Items::new(alloc);
    columns.push(Expr::Bin(BinOp::Cat, left, right)).ok()?;
    Some(Op::Map { input, columns })
}

/// A map to at most two bytes of field 0, and field 1.
pub fn cut_text(alloc: Global, input: u32) -> Option<Op> {
    let text = Boxed::new(alloc, Expr::Field(0)).ok()?;
    let mut columns = Items::new(alloc);
    columns.push(Expr::Cut(text, 2)).ok()?;
    columns.push(Expr::Field(1)).ok()?;
    Some(Op::Map { input, columns })
}

/// A filter of the rows whose field 0 is true.
pub fn kept(input: u32) -> Op {
    Op::Filter {
        input,
        test: Expr::Field(0),
    }
}

/// A union of two inputs.
pub fn union(alloc: Global, left: u32, right: u32) -> Option<Op> {
    let inputs = Items::from_slice(alloc, &[left, right]).ok()?;
    Some(Op::Union { inputs })
}

/// A filter of the rows whose field 1 is less than field 2.
pub fn lower(alloc: Global, input: u32) -> Option<Op> {
    let left = Boxed::new(alloc, Expr::Field(1)).ok()?;
    let right = Boxed::new(alloc, Expr::Field(2)).ok()?;
    Some(Op::Filter {
        input,
        test: Expr::Bin(BinOp::Lt, left, right),
    })
}

/// A filter that no row passes.
pub fn nothing(input: u32) -> Op {
    Op::Filter {
        input,
        test: Expr::Lit(Value::Bool(false)),
    }
}

/// A flat map whose branches are both taken: the fields 0 and 1, and the fields 1 and 0.
pub fn both_ways(alloc: Global, input: u32) -> Option<Op> {
    let mut rows = Items::new(alloc);
    for numbers in [[0, 1], [1, 0]] {
        let columns = fields(alloc, &numbers)?;
        let when = Expr::Lit(Value::Bool(true));
        rows.push(Branch { when, columns }).ok()?;
    }
    Some(Op::FlatMap { input, rows })
}

/// A group.
pub fn group(alloc: Global, input: u32, numbers: &[u16], aggs: &[Agg]) -> Option<Op> {
    let key = key(alloc, numbers)?;
    let aggs = Items::from_slice(alloc, aggs).ok()?;
    Some(Op::Group {
        input,
        key,
        aggs,
        combine: true,
    })
}

/// The two rows of each field 0 whose field 1 is least.
pub fn best(alloc: Global, input: u32) -> Option<Op> {
    let key = key(alloc, &[0])?;
    let order = order(alloc, false)?;
    Some(Op::Top {
        input,
        key,
        order,
        count: 2,
    })
}

/// An inner join of the left field 0 with a field on the right, to two fields: the numbers are those
/// of the sides and of these fields.
pub fn join(alloc: Global, n: [u16; 4], right_field: u16) -> Option<Op> {
    let left_key = key(alloc, &[0])?;
    let right_key = key(alloc, &[right_field])?;
    let columns = fields(alloc, &[n[2], n[3]])?;
    Some(Op::Join {
        left: u32::from(n[0]),
        right: u32::from(n[1]),
        left_key,
        right_key,
        columns,
        kind: JoinKind::Inner,
        left_default: None,
        right_default: None,
    })
}

/// An outer join by field 0, to all fields.
pub fn outer_join(alloc: Global, left: u32, right: u32, kind: JoinKind) -> Option<Op> {
    let left_key = key(alloc, &[0])?;
    let right_key = key(alloc, &[0])?;
    let columns = fields(alloc, &[0, 1, 2, 3])?;
    let left_default = row(alloc, "0,-")?;
    let right_default = row(alloc, "0,0")?;
    Some(Op::Join {
        left,
        right,
        left_key,
        right_key,
        columns,
        kind,
        left_default: Some(left_default),
        right_default: Some(right_default),
    })
}

/// A cogroup by field 0: the sum of the left field 1, the count and the least field 1 on the right.
pub fn cogroup(alloc: Global, left: u32, right: u32) -> Option<Op> {
    let left_key = key(alloc, &[0])?;
    let right_key = key(alloc, &[0])?;
    let left_aggs = Items::from_slice(alloc, &[Agg::Sum(1)]).ok()?;
    let right_aggs = Items::from_slice(alloc, &[Agg::Count, Agg::Min(1, -1)]).ok()?;
    Some(Op::Cogroup {
        left,
        right,
        left_key,
        right_key,
        left_aggs,
        right_aggs,
    })
}

/// A bulk iteration of at most ten supersteps: its first state, the next one and what ends it.
pub fn bulk(alloc: Global, n: [u16; 4]) -> Option<Op> {
    let bind = bind(alloc)?;
    Some(Op::Bulk {
        init: u32::from(n[0]),
        bind,
        max: 10,
        next: u32::from(n[1]),
        until: Some(u32::from(n[2])),
    })
}

/// A delta iteration by field 0, ranked by field 1 downwards or by the whole row: its solution, its
/// workset, its deltas and its next workset.
pub fn delta(alloc: Global, n: [u16; 4], ranked: bool, merge: MergeRule) -> Option<Op> {
    let bind = bind(alloc)?;
    let key = key(alloc, &[0])?;
    let order = if ranked {
        order(alloc, true)?
    } else {
        Items::new(alloc)
    };
    Some(Op::Delta {
        solution: u32::from(n[0]),
        workset: u32::from(n[1]),
        bind,
        key,
        order,
        merge,
        max: 100,
        delta: u32::from(n[2]),
        next: u32::from(n[3]),
    })
}

/// A probe by field 0, to the row's fields 0 and 1 and the entry's field 1.
pub fn probe(alloc: Global, input: u32) -> Option<Op> {
    let key = key(alloc, &[0])?;
    let columns = fields(alloc, &[0, 1, 3])?;
    Some(Op::Probe {
        input,
        key,
        columns,
    })
}
