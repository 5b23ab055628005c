use flow_model::op::{AggList, Branch, ExprList, JoinKind, KeyList, MergeRule, Op, OrderList};
use flow_model::plan_code::PlanCode;
use flow_types::agg::Agg;
use flow_types::expr::{BinOp, Expr, UnOp};
use flow_types::field_type::FieldType;
use flow_types::name::Name;
use flow_types::order_item::OrderItem;
use flow_types::row::Row;
use flow_types::schema::Schema;
use flow_types::text::Text;
use flow_types::value::Value;
use plan_typing::fit::fits_schema;
use plan_typing::ops::type_op;
use sqlite_items::{Boxed, Items};
use std::alloc::Global;

// Each maker answers `None` where memory is wanting or a piece hasn't its form.

const LONG: FieldType = FieldType::Long;

const BOOL: FieldType = FieldType::Bool;

/// The left input of most cases.
const LEFT: [FieldType; 4] = [LONG, BOOL, FieldType::Str(100), FieldType::Str(9_000)];

/// The right input of most cases.
const RIGHT: [FieldType; 2] = [LONG, FieldType::Str(50)];

/// The left input of wide maps.
const WIDE: [FieldType; 1] = [FieldType::Str(16_382)];

const LONGS: [FieldType; 32] = [LONG; 32];

/// What a case is of, beside its keys and its text.
#[derive(Clone, Copy)]
enum Kind {
    Source,
    /// The columns of the text, over `LEFT`.
    Map,
    /// The same over `WIDE`.
    WideMap,
    /// The test is the text's last expression.
    Filter,
    /// Two branches: of the text the last expression is the test and all are columns; and the columns
    /// `0 3 1`, with the test `1`.
    FlatMap,
    /// Both inputs, and the same the other way round.
    Union,
    /// The right input twice.
    UnionOfOne,
    /// The order is of the second key's fields.
    Top,
    /// The folds are the text.
    Group,
    Join,
    /// A join with a default for the right side, which fits that side alone.
    LeftJoin,
    /// The same default for the left side.
    RightJoin,
    /// Both sides have the text's folds, and the left side one more count.
    Cogroup,
    Bulk,
    Delta,
    /// The second key is the iteration's.
    Probe,
}

/// An op and its schema's types, or the code that refuses it.
type Case = (
    Kind,
    &'static [u16],
    &'static [u16],
    &'static str,
    Result<&'static [FieldType], PlanCode>,
);

/// An expression by its last byte, over those on the stack: a digit is a field, `x` a text of three
/// bytes, `t` a Bool; `<` cuts to 7 bytes, `?` chooses.
fn last(alloc: Global, stack: &mut Vec<Expr>, byte: u8) -> Option<Expr> {
    match byte {
        b'0'..=b'9' => Some(Expr::Field(u16::from(byte - b'0'))),
        b'x' => text(alloc, "abc"),
        b'y' => text(alloc, "a"),
        b't' => Some(Expr::Lit(Value::Bool(true))),
        b'!' => one(alloc, UnOp::Not, stack),
        b'#' => one(alloc, UnOp::Len, stack),
        b'<' => cut(alloc, stack),
        b'?' => choice(alloc, stack),
        b'+' => two(alloc, BinOp::Add, stack),
        b'=' => two(alloc, BinOp::Eq, stack),
        b'&' => two(alloc, BinOp::And, stack),
        b'.' => two(alloc, BinOp::Cat, stack),
        _ => None,
    }
}

fn text(alloc: Global, word: &str) -> Option<Expr> {
    let word = Text::of(String::from_str(alloc, word).ok()?)?;
    Some(Expr::Lit(Value::Str(word)))
}

fn boxed(alloc: Global, stack: &mut Vec<Expr>) -> Option<Boxed<Expr>> {
    Boxed::new(alloc, stack.pop()?).ok()
}

fn one(alloc: Global, op: UnOp, stack: &mut Vec<Expr>) -> Option<Expr> {
    let a = boxed(alloc, stack)?;
    Some(Expr::Un(op, a))
}

fn cut(alloc: Global, stack: &mut Vec<Expr>) -> Option<Expr> {
    let a = boxed(alloc, stack)?;
    Some(Expr::Cut(a, 7))
}

fn two(alloc: Global, op: BinOp, stack: &mut Vec<Expr>) -> Option<Expr> {
    let b = boxed(alloc, stack)?;
    let a = boxed(alloc, stack)?;
    Some(Expr::Bin(op, a, b))
}

fn choice(alloc: Global, stack: &mut Vec<Expr>) -> Option<Expr> {
    let b = boxed(alloc, stack)?;
    let a = boxed(alloc, stack)?;
    let c = boxed(alloc, stack)?;
    Some(Expr::If(c, a, b))
}

/// The expressions of a text, in the order of their ends.
fn stack(alloc: Global, text: &str) -> Option<Vec<Expr>> {
    let mut stack = Vec::new(alloc);
    for byte in text.as_bytes() {
        let expr = last(alloc, &mut stack, *byte)?;
        stack.push(expr).ok()?;
    }
    Some(stack)
}

fn columns(alloc: Global, text: &str) -> Option<ExprList> {
    Some(Items::from_vec(stack(alloc, text)?))
}

fn test(alloc: Global, text: &str) -> Option<Expr> {
    stack(alloc, text)?.pop()
}

fn branch(alloc: Global, when: &str, text: &str) -> Option<Branch> {
    let when = test(alloc, when)?;
    let columns = columns(alloc, text)?;
    Some(Branch { when, columns })
}

fn key(alloc: Global, numbers: &[u16]) -> Option<KeyList> {
    Items::from_slice(alloc, numbers).ok()
}

fn order(alloc: Global, numbers: &[u16]) -> Option<OrderList> {
    let mut order = Items::new(alloc);
    for number in numbers {
        let item = OrderItem {
            field: *number,
            down: true,
        };
        order.push(item).ok()?;
    }
    Some(order)
}

/// Folds by their bytes: `n` counts, and a digit is the sum of a field, the least and the greatest.
fn folds(alloc: Global, text: &str, more: usize) -> Option<AggList> {
    let mut folds = Items::new(alloc);
    for byte in text.as_bytes() {
        match byte {
            b'0'..=b'9' => {
                let number = u16::from(byte - b'0');
                folds.push(Agg::Sum(number)).ok()?;
                folds.push(Agg::Min(number, 0)).ok()?;
                folds.push(Agg::Max(number, 0)).ok()?;
            }
            _ => folds.push(Agg::Count).ok()?,
        }
    }
    for _ in 0..more {
        folds.push(Agg::Count).ok()?;
    }
    Some(folds)
}

/// A row of a Long and a text.
fn row(alloc: Global) -> Option<Row> {
    let mut values = Vec::new(alloc);
    values.push(Value::Long(0)).ok()?;
    let word = Text::of(String::from_str(alloc, "-").ok()?)?;
    values.push(Value::Str(word)).ok()?;
    Some(Row::of(values))
}

/// A row for a side that has a default.
fn default_row(alloc: Global, has_default: bool) -> Option<Option<Row>> {
    if has_default {
        Some(Some(row(alloc)?))
    } else {
        Some(None)
    }
}

fn join(alloc: Global, keys: (&[u16], &[u16]), text: &str, left: bool, right: bool) -> Option<Op> {
    let left_key = key(alloc, keys.0)?;
    let right_key = key(alloc, keys.1)?;
    let columns = columns(alloc, text)?;
    let left_default = default_row(alloc, left)?;
    let right_default = default_row(alloc, right)?;
    Some(Op::Join {
        left: 1,
        right: 2,
        left_key,
        right_key,
        columns,
        kind: JoinKind::Full,
        left_default,
        right_default,
    })
}

fn cogroup(alloc: Global, keys: (&[u16], &[u16]), text: &str) -> Option<Op> {
    let left_key = key(alloc, keys.0)?;
    let right_key = key(alloc, keys.1)?;
    let left_aggs = folds(alloc, text, 1)?;
    let right_aggs = folds(alloc, text, 0)?;
    Some(Op::Cogroup {
        left: 1,
        right: 2,
        left_key,
        right_key,
        left_aggs,
        right_aggs,
    })
}

fn group(alloc: Global, numbers: &[u16], text: &str) -> Option<Op> {
    let key = key(alloc, numbers)?;
    let aggs = folds(alloc, text, 0)?;
    Some(Op::Group {
        input: 1,
        key,
        aggs,
        combine: true,
    })
}

fn top(alloc: Global, numbers: &[u16], items: &[u16]) -> Option<Op> {
    let key = key(alloc, numbers)?;
    let order = order(alloc, items)?;
    Some(Op::Top {
        input: 1,
        key,
        order,
        count: 1,
    })
}

fn delta(alloc: Global, numbers: &[u16], items: &[u16]) -> Option<Op> {
    let bind = Name::of(String::from_str(alloc, "state").ok()?)?;
    let key = key(alloc, numbers)?;
    let order = order(alloc, items)?;
    Some(Op::Delta {
        solution: 1,
        workset: 2,
        bind,
        key,
        order,
        merge: MergeRule::Replace,
        max: 1,
        delta: 3,
        next: 3,
    })
}

fn bulk(alloc: Global) -> Option<Op> {
    let bind = Name::of(String::from_str(alloc, "state").ok()?)?;
    Some(Op::Bulk {
        init: 1,
        bind,
        max: 1,
        next: 3,
        until: None,
    })
}

fn flat_map(alloc: Global, text: &str) -> Option<Op> {
    let mut rows = Items::new(alloc);
    rows.push(branch(alloc, text, text)?).ok()?;
    rows.push(branch(alloc, "1", "031")?).ok()?;
    Some(Op::FlatMap { input: 1, rows })
}

fn map(alloc: Global, text: &str) -> Option<Op> {
    let columns = columns(alloc, text)?;
    Some(Op::Map { input: 1, columns })
}

fn probe(alloc: Global, numbers: &[u16], text: &str) -> Option<Op> {
    let key = key(alloc, numbers)?;
    let columns = columns(alloc, text)?;
    Some(Op::Probe {
        input: 1,
        key,
        columns,
    })
}

fn op(alloc: Global, kind: Kind, keys: (&[u16], &[u16]), text: &str) -> Option<Op> {
    match kind {
        Kind::Source => Some(Op::Source {
            fields: Items::from_slice(alloc, &LEFT).ok()?,
            delimiter: b',',
        }),
        Kind::Map | Kind::WideMap => map(alloc, text),
        Kind::Filter => Some(Op::Filter {
            input: 1,
            test: test(alloc, text)?,
        }),
        Kind::FlatMap => flat_map(alloc, text),
        Kind::Union | Kind::UnionOfOne => Some(Op::Union {
            inputs: Items::new(alloc),
        }),
        Kind::Top => top(alloc, keys.0, keys.1),
        Kind::Group => group(alloc, keys.0, text),
        Kind::Join => join(alloc, keys, text, false, false),
        Kind::LeftJoin => join(alloc, keys, text, false, true),
        Kind::RightJoin => join(alloc, keys, text, true, false),
        Kind::Cogroup => cogroup(alloc, keys, text),
        Kind::Bulk => bulk(alloc),
        Kind::Delta => delta(alloc, keys.0, keys.1),
        Kind::Probe => probe(alloc, keys.0, text),
    }
}

fn schema(alloc: Global, fields: &[FieldType]) -> Option<Schema> {
    Schema::of(fields.to_vec(alloc).ok()?)
}

/// The inputs of a case.
fn inputs(alloc: Global, kind: Kind) -> Option<Vec<Schema>> {
    let mut inputs = Vec::new(alloc);
    match kind {
        Kind::Source => {}
        Kind::WideMap => inputs.push(schema(alloc, &WIDE)?).ok()?,
        Kind::UnionOfOne => {
            inputs.push(schema(alloc, &RIGHT)?).ok()?;
            inputs
                .push(schema(alloc, &[LONG, FieldType::Str(90)])?)
                .ok()?;
            inputs.push(schema(alloc, &RIGHT)?).ok()?;
        }
        _ => {
            inputs.push(schema(alloc, &LEFT)?).ok()?;
            inputs.push(schema(alloc, &RIGHT)?).ok()?;
        }
    }
    Some(inputs)
}

/// Whether an op's schema, or the code that refuses it, is as wanted.
fn is_wanted(found: &Result<Schema, PlanCode>, want: Result<&[FieldType], PlanCode>) -> bool {
    match (found, want) {
        (Ok(schema), Ok(types)) => schema.fields() == types,
        (Err(code), Err(wanted)) => *code == wanted,
        _ => false,
    }
}

/// Whether a case is typed as it says.
fn is_typed(alloc: Global, case: &Case) -> Option<bool> {
    let (kind, left_key, right_key, text, want) = *case;
    let inputs = inputs(alloc, kind)?;
    let op = op(alloc, kind, (left_key, right_key), text)?;
    match type_op(alloc, &op, inputs.as_slice(), right_key) {
        Ok(found) => Some(is_wanted(&found, want)),
        Err(_) => None,
    }
}

const FIELD: Result<&[FieldType], PlanCode> = Err(PlanCode::BadField);

const TYPES: Result<&[FieldType], PlanCode> = Err(PlanCode::BadTypes);

const TOO_WIDE: Result<&[FieldType], PlanCode> = Err(PlanCode::BadWidth);

const CASES: [Case; 70] = [
    (Kind::Source, &[], &[], "", Ok(&LEFT)),
    (
        Kind::Map,
        &[],
        &[],
        "0122.2<x<",
        Ok(&[
            LONG,
            BOOL,
            FieldType::Str(200),
            FieldType::Str(7),
            FieldType::Str(3),
        ]),
    ),
    (
        Kind::Map,
        &[],
        &[],
        "00+00=1!2#",
        Ok(&[LONG, BOOL, BOOL, LONG]),
    ),
    (Kind::Map, &[], &[], "123?", Ok(&[FieldType::Str(9_000)])),
    (Kind::Map, &[], &[], "01=4", FIELD),
    (Kind::Map, &[], &[], "01+", TYPES),
    (Kind::Map, &[], &[], "01=", TYPES),
    (Kind::Map, &[], &[], "023?", TYPES),
    (Kind::Map, &[], &[], "103?", TYPES),
    (Kind::Map, &[], &[], "00&", TYPES),
    (Kind::Map, &[], &[], "33.01+", TYPES),
    (Kind::Map, &[], &[], "33.#1+", TYPES),
    (Kind::Map, &[], &[], "33.", TOO_WIDE),
    (Kind::Map, &[], &[], "33.#", TOO_WIDE),
    (Kind::Map, &[], &[], "33.<", TOO_WIDE),
    (Kind::Map, &[], &[], "", TOO_WIDE),
    (Kind::WideMap, &[], &[], "0", Ok(&WIDE)),
    (Kind::WideMap, &[], &[], "0t", TOO_WIDE),
    (Kind::WideMap, &[], &[], "0y.", TOO_WIDE),
    (Kind::WideMap, &[], &[], "0y.<", TOO_WIDE),
    (Kind::WideMap, &[], &[], "0<y.", Ok(&[FieldType::Str(8)])),
    (Kind::Filter, &[], &[], "23=", Ok(&LEFT)),
    (Kind::Filter, &[], &[], "40+", FIELD),
    (Kind::Filter, &[], &[], "0", TYPES),
    (Kind::Filter, &[], &[], "33.x=", TOO_WIDE),
    (
        Kind::FlatMap,
        &[],
        &[],
        "021",
        Ok(&[LONG, FieldType::Str(9_000), BOOL]),
    ),
    (Kind::FlatMap, &[], &[], "024", FIELD),
    (Kind::FlatMap, &[], &[], "020", TYPES),
    (Kind::FlatMap, &[], &[], "1", TYPES),
    (Kind::FlatMap, &[], &[], "033.#1", TYPES),
    (Kind::FlatMap, &[], &[], "033.1", TOO_WIDE),
    (
        Kind::UnionOfOne,
        &[],
        &[],
        "",
        Ok(&[LONG, FieldType::Str(90)]),
    ),
    (Kind::Union, &[], &[], "", TYPES),
    (Kind::Top, &[0], &[3, 1], "", Ok(&LEFT)),
    (Kind::Top, &[4], &[0], "", FIELD),
    (Kind::Top, &[0], &[0, 4], "", FIELD),
    (
        Kind::Group,
        &[2, 0],
        &[],
        "0n",
        Ok(&[FieldType::Str(100), LONG, LONG, LONG, LONG, LONG]),
    ),
    (Kind::Group, &[0, 4], &[], "n", FIELD),
    (Kind::Group, &[0], &[], "14", FIELD),
    (Kind::Group, &[0], &[], "1", TYPES),
    (Kind::Group, &[], &[], "", TOO_WIDE),
    (Kind::Join, &[0], &[0], "03=5", TYPES),
    (
        Kind::Join,
        &[2, 0],
        &[1, 0],
        "35",
        Ok(&[FieldType::Str(9_000), FieldType::Str(50)]),
    ),
    (Kind::Join, &[0], &[0], "6", FIELD),
    (Kind::Join, &[0], &[0, 0], "0", FIELD),
    (Kind::Join, &[4], &[0], "0", FIELD),
    (Kind::Join, &[0], &[2], "0", FIELD),
    (Kind::Join, &[1], &[0], "0", TYPES),
    (Kind::Join, &[0], &[0], "33.", TOO_WIDE),
    (Kind::LeftJoin, &[0], &[0], "4", Ok(&[LONG])),
    (Kind::RightJoin, &[0], &[0], "4", TYPES),
    (Kind::RightJoin, &[0], &[0], "6", FIELD),
    (
        Kind::Cogroup,
        &[2],
        &[1],
        "0",
        Ok(&[
            FieldType::Str(100),
            LONG,
            LONG,
            LONG,
            LONG,
            LONG,
            LONG,
            LONG,
        ]),
    ),
    (Kind::Cogroup, &[0], &[0], "nnnnnnnnnnnnnnn", Ok(&LONGS)),
    (Kind::Cogroup, &[0, 0], &[0, 0], "nnnnnnnnnnnnnnn", TOO_WIDE),
    (Kind::Cogroup, &[0], &[0], "1", TYPES),
    (Kind::Cogroup, &[0], &[0], "2", FIELD),
    (Kind::Cogroup, &[0], &[1], "0", TYPES),
    (Kind::Cogroup, &[0], &[0, 0], "0", FIELD),
    (Kind::Bulk, &[], &[], "", Ok(&LEFT)),
    (Kind::Delta, &[2], &[1], "", Ok(&LEFT)),
    (Kind::Delta, &[4], &[1], "", FIELD),
    (
        Kind::Probe,
        &[0],
        &[0],
        "05",
        Ok(&[LONG, FieldType::Str(50)]),
    ),
    (Kind::Probe, &[0], &[], "0", FIELD),
    (Kind::Probe, &[4], &[0], "0", FIELD),
    (Kind::Probe, &[0], &[0], "6", FIELD),
    (Kind::Probe, &[0], &[1], "0", TYPES),
    (Kind::Probe, &[0], &[0], "01+", TYPES),
    (Kind::Probe, &[0], &[0], "33.", TOO_WIDE),
    (Kind::Filter, &[], &[], "1", Ok(&LEFT)),
];

// What the rules of types say of each case.
#[test]
fn ops_have_their_types(rt: HostRuntime) {
    for (place, case) in CASES.iter().enumerate() {
        let typed = is_typed(rt.alloc(), case).expect(&rt, "no memory");
        assert!(rt; typed, "case {place}: {}", case.3);
    }
}

#[test]
fn schemas_fit_their_like(rt: HostRuntime) {
    let cases: [(&[FieldType], &[FieldType], bool); 5] = [
        (&RIGHT, &RIGHT, true),
        (&RIGHT, &[LONG, FieldType::Str(51)], true),
        (&RIGHT, &[LONG, FieldType::Str(49)], false),
        (&RIGHT, &[LONG], false),
        (&RIGHT, &[FieldType::Str(50), LONG], false),
    ];
    for (from, into, want) in cases {
        assert_eq!(rt; fits_schema(from, into), want, "{from:?}");
    }
}
