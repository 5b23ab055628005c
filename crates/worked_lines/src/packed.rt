ghost use Rattle.std.specs.Prelude.{◌≡◌, slice_get, IfOk, Some};

use flow_types::field_type::FieldType;
use flow_types::row::{Row, compare_rows};
use flow_types::schema::Schema;
use flow_types::text::Text;
use flow_types::value::Value;
use packed_rows::rows::PackedRows;
use std::alloc::Global;
use std::cmp::Ordering;
use std::test::Fail;

/// A row of a text and a number.
fn row(alloc: Global, word: &str, number: i64) -> Result<Row, Fail> {
    let word = Text::of(String::from_str(alloc, word)?).ok_or("no text")?;
    let mut values = Vec::new(alloc);
    values.push(Value::Str(word))?;
    values.push(Value::Long(number))?;
    Ok(Row::of(values))
}

/// The schema of such rows.
fn schema(alloc: Global) -> Result<Schema, Fail>
    ensures { IfOk result (λ s. slice_get s 1 ≡ Some FieldType.Long) }
{
    let fields = vec![in alloc; FieldType::Str(5), FieldType::Long]?;
    match Schema::of(fields) {
        Some(schema) => Ok(schema),
        None => Err(Fail::from("no schema")),
    }
}

/// Rows packed, filtered where there is a number that theirs have to exceed, and unpacked.
fn kept(
    alloc: Global,
    schema: &Schema,
    words: &[(&str, i64)],
    above: Option<i64>,
) -> Result<Option<Vec<Row>>, Fail>
    requires { slice_get schema.now 1 ≡ Some FieldType.Long }
{
    let mut packed = PackedRows::new(alloc);
    for (word, number) in words {
        let row = row(alloc, word, *number)?;
        if !schema.fits(&row) {
            return Ok(None);
        }
        packed.push(schema, &row)?;
    }
    if let Some(number) = above {
        packed.keep_above(schema, 1, number);
    }
    Ok(Some(packed.unpack(alloc, schema)?))
}

/// Whether rows are these.
fn are(alloc: Global, rows: &[Row], words: &[(&str, i64)]) -> Result<bool, Fail> {
    if rows.len() != words.len() {
        return Ok(false);
    }
    for i in 0..words.len() {
        let want = row(alloc, words[i].0, words[i].1)?;
        if compare_rows(&rows[i], &want) != Ordering::Equal {
            return Ok(false);
        }
    }
    Ok(true)
}

#[test]
fn rows_are_packed_and_kept(rt: HostRuntime) -> Result<(), Fail> {
    let schema = schema(rt.alloc())?;
    let words = [
        ("bob", 2),
        ("", -1),
        ("ann", 300),
        ("\u{20ac}", i64::MIN),
        ("bob", 3),
    ];
    let cases: [(Option<i64>, &[(&str, i64)]); 5] = [
        (None, &words),
        (Some(2), &[("ann", 300), ("bob", 3)]),
        (Some(-2), &[("bob", 2), ("", -1), ("ann", 300), ("bob", 3)]),
        (Some(i64::MAX), &[]),
        (Some(299), &[("ann", 300)]),
    ];
    for (above, want) in cases {
        let rows = kept(rt.alloc(), &schema, &words, above)?.ok_or("a row that doesn't fit")?;
        assert!(rt; are(rt.alloc(), rows.as_slice(), want)?, "{above:?}");
    }
    let none = kept(rt.alloc(), &schema, &[], Some(0))?.ok_or("no rows")?;
    assert!(rt; none.is_empty());
    Ok(())
}
