use crate::fixtures::{add, evaluated, next_place};
use crate::ops::{
    arithmetic, best, both_texts, both_ways, bulk, cogroup, cut_text, delta, group, join, kept,
    lengths, lower, map, map_number, nothing, outer_join, probe, source, test_number, union,
};
use flow_model::op::{JoinKind, MergeRule, Op};
use flow_model::plan::Node;
use flow_types::agg::Agg;
use flow_types::expr::BinOp;
use std::alloc::Global;

/// What a node of an example does. The numbers of its inputs, and then those of its fields, stand
/// beside it.
#[derive(Clone, Copy, Debug, PartialEq, Eq)]
pub enum Kind {
    Source,
    /// A flat map to the fields 0 and 1, and to the fields 1 and 0.
    BothWays,
    /// A map to one field.
    Field,
    /// A map to two fields.
    Fields,
    /// A map to how long field 0 is, and field 1.
    Lengths,
    /// A map to field 0 with 1 added.
    More,
    /// A map to field 0 divided by -1 and by 0, and what is left of it by 3.
    Arithmetic,
    /// A map to whether field 0 is above 100.
    IsAbove,
    /// A map to field 0 with field 1 behind it.
    Texts,
    /// A map to at most two bytes of field 0, and field 1.
    Cut,
    /// A filter of field 0 above 100.
    Above,
    /// A filter of field 0 true.
    Kept,
    /// A filter of field 1 below field 2.
    Lower,
    /// A filter that no row passes.
    Nothing,
    /// Two inputs, one after the other.
    Union,
    Distinct,
    /// The sum of field 0 over all rows.
    Sum,
    /// How often each field 0 stands there.
    Count,
    /// The least field 1 of each field 0.
    Least,
    /// The sum of field 1 of each field 0, and how often it stands there.
    Totals,
    /// The two rows of each field 0 whose field 1 is least.
    Best,
    /// An inner join by field 0 of each side, to two fields.
    Join,
    /// An inner join of field 0 with field 1, to two fields.
    Orders,
    /// A left join by field 0, to all fields.
    Left,
    /// A right join by field 0, to all fields.
    Right,
    /// A full join by field 0, to all fields.
    Full,
    /// A cogroup by field 0: the sum of the left field 1, the count and the least field 1 on the right.
    Cogroup,
    /// A bulk iteration of at most ten supersteps: its first state, the next one and what ends it.
    Bulk,
    /// A delta iteration by field 0 that keeps the row with the least field 1: its solution, its
    /// workset, its deltas and its next workset.
    Lowering,
    /// A delta iteration by field 0 that puts each delta in its entry's place.
    Replacing,
    /// A probe by field 0, to the row's fields 0 and 1 and the entry's field 1.
    Probe,
}

/// A node of an example: its home, what it does, and the numbers that belong to it.
pub type Step = (u32, Kind, [u16; 4]);

/// The rows that a plan gives of inputs, in ascending order; its result is the node of this number.
pub fn result(alloc: Global, steps: &[Step], last: u32, texts: &str) -> Option<String> {
    let mut nodes = Vec::new(alloc);
    for step in steps {
        push_step(alloc, &mut nodes, *step)?;
    }
    evaluated(alloc, nodes, last, texts)
}

fn push_step(alloc: Global, nodes: &mut Vec<Node>, step: Step) -> Option<()> {
    let place = next_place(alloc, nodes)?;
    let op = op_of(alloc, step.1, step.2)?;
    add(place, nodes, step.0, op)
}

fn op_of(alloc: Global, kind: Kind, n: [u16; 4]) -> Option<Op> {
    let (first, second) = (u32::from(n[0]), u32::from(n[1]));
    match kind {
        Kind::Source => Some(source(alloc)),
        Kind::BothWays => both_ways(alloc, first),
        Kind::Field => map(alloc, first, &[n[1]]),
        Kind::Fields => map(alloc, first, &[n[1], n[2]]),
        Kind::Lengths => lengths(alloc, first),
        Kind::More => map_number(alloc, first, BinOp::Add, 1),
        Kind::Arithmetic => arithmetic(alloc, first),
        Kind::IsAbove => map_number(alloc, first, BinOp::Gt, 100),
        Kind::Texts => both_texts(alloc, first),
        Kind::Cut => cut_text(alloc, first),
        Kind::Above => test_number(alloc, first, BinOp::Gt, 100),
        Kind::Kept => Some(kept(first)),
        Kind::Lower => lower(alloc, first),
        Kind::Nothing => Some(nothing(first)),
        Kind::Union => union(alloc, first, second),
        Kind::Distinct => Some(Op::Distinct { input: first }),
        Kind::Sum => group(alloc, first, &[], &[Agg::Sum(0)]),
        Kind::Count => group(alloc, first, &[0], &[Agg::Count]),
        Kind::Least => group(alloc, first, &[0], &[Agg::Min(1, 0)]),
        Kind::Totals => group(alloc, first, &[0], &[Agg::Sum(1), Agg::Count]),
        Kind::Best => best(alloc, first),
        Kind::Join => join(alloc, n, 0),
        Kind::Orders => join(alloc, n, 1),
        Kind::Left => outer_join(alloc, first, second, JoinKind::Left),
        Kind::Right => outer_join(alloc, first, second, JoinKind::Right),
        Kind::Full => outer_join(alloc, first, second, JoinKind::Full),
        Kind::Cogroup => cogroup(alloc, first, second),
        Kind::Bulk => bulk(alloc, n),
        Kind::Lowering => delta(alloc, n, true, MergeRule::Greatest),
        Kind::Replacing => delta(alloc, n, false, MergeRule::Replace),
        Kind::Probe => probe(alloc, first),
    }
}
