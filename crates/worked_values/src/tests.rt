use flow_types::field_type::FieldType;
use flow_types::name::Name;
use flow_types::row::{Row, compare_rows, sort_rows};
use flow_types::schema::Schema;
use flow_types::text::Text;
use flow_types::value::{Value, compare};
use std::alloc::Global;
use std::cmp::Ordering;
use std::test::Fail;

fn text(alloc: Global, text: &str) -> Result<Value, Fail> {
    let text = String::from_str(alloc, text)?;
    Ok(Value::Str(Text::of(text).ok_or("a text past the limit")?))
}

/// A text of so many bytes.
fn long_text(alloc: Global, bytes: u16) -> Result<String, Fail> {
    let mut text = String::new(alloc);
    for _ in 0..bytes {
        text.push('x')?;
    }
    Ok(text)
}

fn row(alloc: Global, number: i64, word: &str) -> Result<Row, Fail> {
    let mut values = Vec::new(alloc);
    values.push(Value::Long(number))?;
    values.push(text(alloc, word)?)?;
    Ok(Row::of(values))
}

/// A row of a Long for each `l`, a Bool for each `b` and a text for each other letter.
fn row_of(alloc: Global, kinds: &str) -> Result<Row, Fail> {
    let mut values = Vec::new(alloc);
    for kind in kinds.chars() {
        let value = match kind {
            'l' => Value::Long(2),
            'b' => Value::Bool(true),
            _ => text(alloc, "bob")?,
        };
        values.push(value)?;
    }
    Ok(Row::of(values))
}

// The orders that Java's `Long.compare` and Python's `bytes` give. By their code units, as Java
// orders its strings, the last two texts would stand the other way round.
#[test]
fn values_are_ordered(rt: HostRuntime) -> Result<(), Fail> {
    let longs = [
        (i64::MIN, i64::MAX, Ordering::Less),
        (-1, 0, Ordering::Less),
        (i64::MIN, -1, Ordering::Less),
        (9, 10, Ordering::Less),
        (0, i64::MIN, Ordering::Greater),
        (i64::MAX, -1, Ordering::Greater),
        (i64::MIN, i64::MIN, Ordering::Equal),
    ];
    for (a, b, want) in longs {
        assert_eq!(rt;
            compare(&Value::Long(a), &Value::Long(b)),
            want,
            "{a} and {b}"
        );
    }
    let bools = [
        (false, true, Ordering::Less),
        (true, false, Ordering::Greater),
        (true, true, Ordering::Equal),
    ];
    for (a, b, want) in bools {
        assert_eq!(rt;
            compare(&Value::Bool(a), &Value::Bool(b)),
            want,
            "{a} and {b}"
        );
    }
    let texts = [
        ("abcdefghijklmnopq", "abcdefghijklmnopr", Ordering::Less),
        (
            "abcdefghijklmnopqz",
            "abcdefghijklmnopqa",
            Ordering::Greater,
        ),
        ("abcdefghijklmnop", "abcdefghijklmnopq", Ordering::Less),
        ("abcdefghijklmnopq", "abcdefghijklmnopq", Ordering::Equal),
        ("ab", "a", Ordering::Greater),
        ("", "\0", Ordering::Less),
        ("", "", Ordering::Equal),
        ("a\0", "ab", Ordering::Less),
        ("a\0c", "a\0b", Ordering::Greater),
        ("10", "9", Ordering::Less),
        ("Z", "a", Ordering::Less),
        ("z", "\u{e9}", Ordering::Less),
        ("\u{ffff}", "\u{10000}", Ordering::Less),
    ];
    for (a, b, want) in texts {
        let order = compare(&text(rt.alloc(), a)?, &text(rt.alloc(), b)?);
        assert_eq!(rt; order, want, "{a:?} and {b:?}");
    }
    Ok(())
}

#[test]
fn kinds_stand_as_they_are_declared(rt: HostRuntime) -> Result<(), Fail> {
    let long = Value::Long(i64::MAX);
    let flag = Value::Bool(false);
    let empty = text(rt.alloc(), "")?;
    assert_eq!(rt; compare(&long, &flag), Ordering::Less);
    assert_eq!(rt; compare(&long, &empty), Ordering::Less);
    assert_eq!(rt; compare(&flag, &empty), Ordering::Less);
    assert_eq!(rt; compare(&flag, &long), Ordering::Greater);
    assert_eq!(rt; compare(&empty, &long), Ordering::Greater);
    assert_eq!(rt; compare(&empty, &flag), Ordering::Greater);
    Ok(())
}

#[test]
fn texts_end_at_their_limit(rt: HostRuntime) -> Result<(), Fail> {
    let widest = Text::of(long_text(rt.alloc(), 16_382)?).ok_or("refused at the limit")?;
    assert_eq!(rt; widest.as_str().len(), 16_382);
    let copy = widest.copy(rt.alloc())?;
    assert_eq!(rt; copy.as_str(), widest.as_str());
    assert!(rt; Text::of(long_text(rt.alloc(), 16_383)?).is_none());

    // The limit counts bytes: half as many letters of two bytes reach it.
    let mut accents = String::new(rt.alloc());
    for _ in 0..8_191 {
        accents.push('\u{e9}')?;
    }
    assert!(rt; Text::of(accents.clone()?).is_some());
    accents.push('x')?;
    assert!(rt; Text::of(accents).is_none());
    Ok(())
}

// Python's `[A-Za-z_][A-Za-z0-9_]{0,31}` decides the same.
#[test]
fn names_have_their_form(rt: HostRuntime) -> Result<(), Fail> {
    let words = [
        ("_", true),
        ("a", true),
        ("Z", true),
        ("_9", true),
        ("a9Z_", true),
        ("abcdefghijklmnopqrstuvwxyz_01234", true),
        ("abcdefghijklmnopqrstuvwxyz_012345", false),
        ("", false),
        ("9a", false),
        ("a-b", false),
        ("a b", false),
        ("a\0", false),
        ("\u{e9}", false),
        ("a\u{e9}", false),
        ("@", false),
        ("[", false),
        ("`", false),
        ("{", false),
        ("a/", false),
        ("a:", false),
    ];
    for (word, want) in words {
        let name = Name::of(String::from_str(rt.alloc(), word)?);
        assert_eq!(rt; name.is_some(), want, "{word:?}");
    }
    let name = Name::of(String::from_str(rt.alloc(), "t_1")?).ok_or("refused")?;
    assert_eq!(rt; name.copy(rt.alloc())?.as_str(), "t_1");
    Ok(())
}

// A Long takes 8 bytes, a Bool 1, and a Str 2 more than its bound; the second case is (2, `bob`),
// of 13 bytes.
#[test]
fn schemas_end_at_their_limits(rt: HostRuntime) -> Result<(), Fail> {
    let lists = [
        ([FieldType::Str(16_382)].as_slice(), Some(16_384)),
        (&[FieldType::Long, FieldType::Str(3)], Some(13)),
        (
            &[FieldType::Long, FieldType::Bool, FieldType::Str(0)],
            Some(11),
        ),
        (&[FieldType::Long, FieldType::Str(16_374)], Some(16_384)),
        (&[FieldType::Long, FieldType::Str(16_375)], None),
        (&[FieldType::Str(16_382), FieldType::Bool], None),
        (&[FieldType::Str(16_383)], None),
        (&[FieldType::Str(u16::MAX)], None),
        (&[], None),
    ];
    for (fields, want) in lists {
        let schema = Schema::of(fields.to_vec(rt.alloc())?);
        assert_eq!(rt; schema.map(|s| s.max_bytes()), want, "{fields:?}");
    }
    for (count, want) in [(0, None), (1, Some(8)), (32, Some(256)), (33, None)] {
        let schema = Schema::of(vec![in rt.alloc(); FieldType::Long; count]?);
        assert_eq!(rt; schema.map(|s| s.max_bytes()), want, "{count} Longs");
    }
    Ok(())
}

#[test]
fn rows_fit_by_kind_and_bound(rt: HostRuntime) -> Result<(), Fail> {
    let fields = [FieldType::Long, FieldType::Str(3)];
    let schema = Schema::of(fields.to_vec(rt.alloc())?).ok_or("refused")?;
    let schema = schema.copy(rt.alloc())?;
    assert_eq!(rt; schema.fields(), fields.as_slice());
    let words = [
        ("bob", true),
        ("", true),
        ("\u{e9}x", true),
        ("bobs", false),
        ("\u{e9}\u{e9}", false),
    ];
    for (word, want) in words {
        assert_eq!(rt; schema.fits(&row(rt.alloc(), 2, word)?), want, "{word:?}");
    }
    let kinds = [
        ("ls", true),
        ("", false),
        ("l", false),
        ("lss", false),
        ("sl", false),
        ("bs", false),
        ("ll", false),
        ("lb", false),
    ];
    for (kinds, want) in kinds {
        assert_eq!(rt; schema.fits(&row_of(rt.alloc(), kinds)?), want, "{kinds}");
    }
    Ok(())
}

// A sort of more than twenty rows takes memory. Each row of the list stands twice in it.
#[test]
fn sorted_rows_keep_their_copies(rt: HostRuntime) -> Result<(), Fail> {
    let mut rows = Vec::new(rt.alloc());
    for _ in 0..2 {
        for number in (-10..10).rev() {
            rows.push(row(rt.alloc(), number, "bob")?)?;
            rows.push(row(rt.alloc(), number, "ann")?)?;
        }
    }
    sort_rows(&mut rows)?;
    assert_eq!(rt; rows.len(), 80);
    for (place, found) in rows.iter().enumerate() {
        let word = if place % 4 < 2 { "ann" } else { "bob" };
        let want = row(rt.alloc(), place as i64 / 4 - 10, word)?;
        assert_eq!(rt;
            compare_rows(found, &want),
            Ordering::Equal,
            "row {place}: {found:?}"
        );
    }
    Ok(())
}

#[test]
fn copies_are_the_same_rows(rt: HostRuntime) -> Result<(), Fail> {
    let row = row_of(rt.alloc(), "lbs")?;
    let copy = row.copy(rt.alloc())?;
    assert_eq!(rt; copy.values().len(), 3);
    assert_eq!(rt; compare_rows(&row, &copy), Ordering::Equal);
    let shorter = row_of(rt.alloc(), "lb")?;
    assert_eq!(rt; compare_rows(&shorter, &copy), Ordering::Less);
    assert_eq!(rt; compare_rows(&copy, &shorter), Ordering::Greater);
    Ok(())
}
