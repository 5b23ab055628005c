use crate::known::{are_columns, is_test};
use expr_core::evaluate::{columns_into, test};
use expr_core::scratch::Scratch;
use flow_types::expr::{BinOp, Expr, UnOp};
use flow_types::field_type::FieldType;
use flow_types::row::Row;
use flow_types::schema::Schema;
use flow_types::text::Text;
use flow_types::value::Value;
use record_codec::check::check_bytes;
use record_codec::encode::encode_into;
use record_fixtures::pieces::Pieces;
use sqlite_items::Boxed;
use std::alloc::Global;
use std::test::Fail;

// The makers answer `None` where memory is wanting or a piece hasn't its form.

/// A value: a Long, a Bool, or a text behind a quote.
fn value(alloc: Global, word: &str) -> Option<Value> {
    if let Ok(number) = word.parse::<i64>() {
        return Some(Value::Long(number));
    }
    if word == "true" || word == "false" {
        return Some(Value::Bool(word == "true"));
    }
    let text = word.strip_prefix('\'')?;
    Some(Value::Str(Text::of(String::from_str(alloc, text).ok()?)?))
}

/// An operation on two values.
fn operation(word: &str) -> Option<BinOp> {
    match word {
        "add" => Some(BinOp::Add),
        "sub" => Some(BinOp::Sub),
        "mul" => Some(BinOp::Mul),
        "div" => Some(BinOp::Div),
        "rem" => Some(BinOp::Rem),
        "eq" => Some(BinOp::Eq),
        "ne" => Some(BinOp::Ne),
        "lt" => Some(BinOp::Lt),
        "le" => Some(BinOp::Le),
        "gt" => Some(BinOp::Gt),
        "ge" => Some(BinOp::Ge),
        "and" => Some(BinOp::And),
        "or" => Some(BinOp::Or),
        "cat" => Some(BinOp::Cat),
        _ => None,
    }
}

/// The last expression of a stack, in a box.
fn part(alloc: Global, stack: &mut Vec<Expr>) -> Option<Boxed<Expr>> {
    let e = stack.pop()?;
    Boxed::new(alloc, e).ok()
}

/// The expression of a word, over the last ones of a stack: fields are `f0` and so on.
fn next(alloc: Global, stack: &mut Vec<Expr>, word: &str) -> Option<Expr> {
    if let Some(value) = value(alloc, word) {
        return Some(Expr::Lit(value));
    }
    if let Some(op) = operation(word) {
        let b = part(alloc, stack)?;
        let a = part(alloc, stack)?;
        return Some(Expr::Bin(op, a, b));
    }
    match word {
        "not" => Some(Expr::Un(UnOp::Not, part(alloc, stack)?)),
        "len" => Some(Expr::Un(UnOp::Len, part(alloc, stack)?)),
        "if" => {
            let b = part(alloc, stack)?;
            let a = part(alloc, stack)?;
            Some(Expr::If(part(alloc, stack)?, a, b))
        }
        _ => numbered(alloc, stack, word),
    }
}

/// The expression of a word with a number behind it.
fn numbered(alloc: Global, stack: &mut Vec<Expr>, word: &str) -> Option<Expr> {
    if let Some(most) = word.strip_prefix("cut") {
        return Some(Expr::Cut(part(alloc, stack)?, most.parse().ok()?));
    }
    Some(Expr::Field(word.strip_prefix('f')?.parse().ok()?))
}

/// The expression of words in which each operation stands behind its parts.
fn expr(alloc: Global, words: &str) -> Option<Expr> {
    let mut stack = Vec::new(alloc);
    for word in words.split(' ') {
        let e = next(alloc, &mut stack, word)?;
        stack.push(e).ok()?;
    }
    stack.pop()
}

/// The row of words.
fn row(alloc: Global, words: &str) -> Option<Row> {
    let mut values = Vec::new(alloc);
    for word in words.split(' ') {
        let value = value(alloc, word)?;
        values.push(value).ok()?;
    }
    Some(Row::of(values))
}

/// The record of a row of a schema, where it has at most so many bytes.
fn record(alloc: Global, schema: &Schema, row: &Row, room: usize) -> Option<Vec<u8>> {
    let mut bytes = vec![in alloc; 0; room].ok()?;
    let len = encode_into(&mut bytes, schema, row)?;
    bytes.truncate(len);
    Some(bytes)
}

/// Whether an expression is true of a record in pieces.
fn holds(e: &Expr, bytes: &[u8], size: usize, schema: &Schema, s: &mut Scratch) -> Option<bool> {
    let pieces = Pieces { bytes, size };
    if !check_bytes(&pieces, schema) || !is_test(e, schema.fields()) {
        return None;
    }
    Some(test(e, &pieces, schema, s))
}

/// Whether it is, in pieces of each size alike.
fn decides(alloc: Global, words: &str, bytes: &[u8], schema: &Schema) -> Option<bool> {
    let mut scratch = Scratch::open(alloc).ok()?;
    let e = expr(alloc, words)?;
    let whole = holds(&e, bytes, 20_000, schema, &mut scratch)?;
    for size in [1, 2, 3] {
        if holds(&e, bytes, size, schema, &mut scratch)? != whole {
            return None;
        }
    }
    Some(whole)
}

// Java's arithmetic, Python's order of bytes and its `encode`; the rest by hand.
#[test]
fn expressions_have_their_values(rt: HostRuntime) -> Result<(), Fail> {
    let kinds = [
        FieldType::Long,
        FieldType::Bool,
        FieldType::Str(20),
        FieldType::Str(9),
    ];
    let schema = Schema::of(kinds.to_vec(rt.alloc())?).ok_or("no schema")?;
    let row = row(rt.alloc(), "-7 true 'aé€😀 'a\0b").ok_or("no row")?;
    let bytes = record(rt.alloc(), &schema, &row, 100).ok_or("no record")?;
    let cases = [
        ("f0 3 add -4 eq", true),
        ("9223372036854775807 1 add -9223372036854775808 eq", true),
        ("-9223372036854775808 1 sub 9223372036854775807 eq", true),
        ("4611686018427387904 4 mul 0 eq", true),
        ("f0 2 div -3 eq", true),
        ("7 -2 div -3 eq", true),
        ("5 0 div 0 eq", true),
        ("-9223372036854775808 -1 div -9223372036854775808 eq", true),
        ("f0 2 rem -1 eq", true),
        ("7 -2 rem 1 eq", true),
        ("-7 -2 rem -1 eq", true),
        ("5 0 rem 0 eq", true),
        ("-9223372036854775808 -1 rem 0 eq", true),
        ("-1 1 lt", true),
        ("f0 f0 ge", true),
        ("f0 -7 ne", false),
        ("2 10 gt", false),
        ("false f1 lt", true),
        ("f1 not", false),
        ("f1 false and", false),
        ("f1 false or", true),
        ("f1 false true if", false),
        ("f1 not 'b 'abc if 'abc eq", true),
        ("f2 len 10 eq", true),
        ("f2 cut10 f2 eq", true),
        ("f2 cut9 'aé€ eq", true),
        ("f2 cut7 'aé€ eq", true),
        ("f2 cut6 len 6 eq", true),
        ("f2 cut5 'aé eq", true),
        ("f2 cut4 'aé eq", true),
        ("f2 cut2 'a eq", true),
        ("f2 cut1 'a eq", true),
        ("f2 cut0 ' eq", true),
        ("f3 'a\0b eq", true),
        ("f3 'ab lt", true),
        ("f3 'a\0 gt", true),
        ("'b 'aa gt", true),
        ("'a 'aa le", true),
        ("f2 'é le", true),
        ("f3 f2 cat 'a\0baé€😀 eq", true),
        ("'x f3 f2 cat cat f3 cat 'xa\0baé€😀a\0b eq", true),
        ("f3 f3 cat 'y cat f3 'y cat f3 cat lt", true),
        ("f2 f3 cat cut9 f3 cat len 9 eq", true),
    ];
    for (words, want) in cases {
        let answer = decides(rt.alloc(), words, bytes.as_slice(), &schema);
        assert_eq!(rt; answer, Some(want), "{words}");
    }
    Ok(())
}

/// The record of columns over one record, or over two.
fn columns(
    alloc: Global,
    cols: &[Expr],
    left: Pieces<'_>,
    ls: &Schema,
    right: Option<Pieces<'_>>,
    rs: &Schema,
) -> Option<Vec<u8>> {
    let mut scratch = Scratch::open(alloc).ok()?;
    if !check_bytes(&left, ls) {
        return None;
    }
    let Some(right) = right else {
        if !are_columns(cols, ls.fields()) {
            return None;
        }
        let none: Option<&Pieces<'_>> = None;
        return columns_into(cols, &left, ls, none, rs, &mut scratch)
            .to_vec(alloc)
            .ok();
    };
    let mut fields = ls.fields().to_vec(alloc).ok()?;
    fields.extend_from_slice(rs.fields()).ok()?;
    if !check_bytes(&right, rs) || !are_columns(cols, fields.as_slice()) {
        return None;
    }
    columns_into(cols, &left, ls, Some(&right), rs, &mut scratch)
        .to_vec(alloc)
        .ok()
}

/// Expressions of words, one behind the other with a slash between.
fn exprs(alloc: Global, lines: &str) -> Option<Vec<Expr>> {
    let mut all = Vec::new(alloc);
    for words in lines.split(" / ") {
        let e = expr(alloc, words)?;
        all.push(e).ok()?;
    }
    Some(all)
}

#[test]
fn columns_become_a_record(rt: HostRuntime) -> Result<(), Fail> {
    let kinds = [FieldType::Long, FieldType::Bool, FieldType::Str(4)];
    let left = Schema::of(kinds.to_vec(rt.alloc())?).ok_or("no schema")?;
    let right = Schema::of([FieldType::Str(3), FieldType::Long].to_vec(rt.alloc())?).ok_or(
        "no schema",
    )?;
    let row = row(rt.alloc(), "-7 true 'a\0b").ok_or("no row")?;
    let bytes = record(rt.alloc(), &left, &row, 100).ok_or("no record")?;
    let other = b"\0\x03\xe2\x82\xac\0\0\0\0\0\0\0\x29".as_slice();
    let cases: [(&str, bool, Option<&[u8]>); 5] = [
        (
            "f0 / f2",
            false,
            Some(b"\xff\xff\xff\xff\xff\xff\xff\xf9\0\x03a\0b"),
        ),
        (
            "f1 not / f2 len / 'xy / f2 cut1",
            false,
            Some(b"\0\0\0\0\0\0\0\0\x03\0\x02xy\0\x01a"),
        ),
        (
            "f0 f4 add / f2 f3 cat f3 cat",
            true,
            Some(b"\0\0\0\0\0\0\0\x22\0\x09a\0b\xe2\x82\xac\xe2\x82\xac"),
        ),
        ("f3 / f1", true, Some(b"\0\x03\xe2\x82\xac\x01")),
        ("f3", false, None),
    ];
    for (lines, both, want) in cases {
        let cols = exprs(rt.alloc(), lines).ok_or("no columns")?;
        for size in [1, 100] {
            let here = Pieces {
                bytes: bytes.as_slice(),
                size,
            };
            let there = if both {
                Some(Pieces { bytes: other, size })
            } else {
                None
            };
            let got = columns(rt.alloc(), cols.as_slice(), here, &left, there, &right);
            let got = got.as_ref().map(|bytes| bytes.as_slice());
            assert_eq!(rt; got, want, "{lines}");
        }
    }
    Ok(())
}

/// Words so many times, each time with others behind.
fn repeated(alloc: Global, first: &str, again: &str, times: u32) -> Option<String> {
    let mut text = String::from_str(alloc, first).ok()?;
    for _ in 0..times {
        text.push_str(again).ok()?;
    }
    Some(text)
}

/// A text of so many bytes, joined with itself, is twice as long.
fn doubles(alloc: Global, len: u16) -> Option<bool> {
    let word = repeated(alloc, "'", "x", u32::from(len))?;
    let schema = Schema::of([FieldType::Str(len)].to_vec(alloc).ok()?)?;
    let bytes = record(alloc, &schema, &row(alloc, word.as_str())?, 16_384)?;
    let words = format!(in alloc; "f0 f0 cat len {} eq", 2 * u32::from(len)).ok()?;
    decides(alloc, words.as_str(), bytes.as_slice(), &schema)
}

#[test]
fn limits_are_served(rt: HostRuntime) -> Result<(), Fail> {
    let schema = Schema::of([FieldType::Str(3)].to_vec(rt.alloc())?).ok_or("no schema")?;
    let bytes = b"\0\x03abc".as_slice();
    // So many lists inside one another: 32 are the most.
    for (times, want) in [(29, Some(true)), (30, None)] {
        let words = repeated(rt.alloc(), "'abc", " f0 cat", times).ok_or("no words")?;
        let words = format!(in rt.alloc(); "{words} len {} eq", 3 * (times + 1))?;
        assert_eq!(rt;
            decides(rt.alloc(), words.as_str(), bytes, &schema),
            want,
            "{times}"
        );
    }
    // So many parts: 256 are the most.
    for (parts, want) in [(256, Some(false)), (257, None)] {
        let mut words = String::from_str(rt.alloc(), "true")?;
        for _ in 0..7 {
            words = format!(in rt.alloc(); "{words} {words} and")?;
        }
        let nots = repeated(rt.alloc(), "", " not", parts - 255).ok_or("no words")?;
        let words = format!(in rt.alloc(); "{words}{nots}")?;
        assert_eq!(rt;
            decides(rt.alloc(), words.as_str(), bytes, &schema),
            want,
            "{parts}"
        );
    }
    assert_eq!(rt; doubles(rt.alloc(), 8_191), Some(true));
    assert_eq!(rt; doubles(rt.alloc(), 8_192), None);
    Ok(())
}
