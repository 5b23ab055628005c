use flow_outside::failure::Memory;
use flow_types::field_type::FieldType;
use flow_types::row::{Row, compare_rows};
use flow_types::schema::Schema;
use flow_types::text::Text;
use flow_types::value::Value;
use record_codec::check::check_bytes;
use record_codec::decode::decode;
use record_codec::encode::encode_into;
use record_codec::number::long_at;
use record_codec::place::{Place, field_at};
use record_fixtures::pieces::Pieces;
use span_bytes::span::Span;
use std::alloc::Global;
use std::cmp::Ordering;
use std::test::Fail;

fn schema(alloc: Global, fields: &[FieldType]) -> Result<Schema, Fail> {
    Ok(Schema::of(fields.to_vec(alloc)?).ok_or("no schema")?)
}

/// A row of a Long, a Bool where there is one, and a text.
fn row(alloc: Global, number: i64, flag: Option<bool>, word: &str) -> Result<Row, Fail> {
    let mut values = Vec::new(alloc);
    values.push(Value::Long(number))?;
    if let Some(flag) = flag {
        values.push(Value::Bool(flag))?;
    }
    let word = Text::of(String::from_str(alloc, word)?).ok_or("no text")?;
    values.push(Value::Str(word))?;
    Ok(Row::of(values))
}

/// Whether bytes are the record of a row and are read as it.
fn is_read<X: Span>(alloc: Global, bytes: &X, schema: &Schema, row: &Row) -> Result<bool, Memory> {
    if !check_bytes(bytes, schema) {
        return Ok(false);
    }
    let back = decode(alloc, bytes, schema)?;
    Ok(compare_rows(&back, row) == Ordering::Equal)
}

/// The record of a row, where it is written into so many bytes; it has to be read as the row, also in
/// pieces.
fn record(
    alloc: Global,
    fields: &[FieldType],
    row: &Row,
    room: usize,
) -> Result<Option<Vec<u8>>, Fail> {
    let schema = schema(alloc, fields)?;
    let mut bytes = vec![in alloc; 7_u8; room]?;
    let Some(len) = encode_into(&mut bytes, &schema, row) else {
        return Ok(None);
    };
    bytes.truncate(len);
    for size in [1, 2, 3, 4_080, 20_000] {
        let pieces = Pieces {
            bytes: bytes.as_slice(),
            size,
        };
        if !is_read(alloc, &pieces, &schema, row)? {
            return Ok(None);
        }
    }
    Ok(Some(bytes))
}

/// Where a field lies, and the number there where eight bytes lie there.
fn find<X: Span>(bytes: &X, schema: &Schema, i: usize) -> Option<(Place, Option<i64>)> {
    if i >= schema.fields().len() || !check_bytes(bytes, schema) {
        return None;
    }
    let place = field_at(bytes, schema, i);
    if place.len != 8 {
        return Some((place, None));
    }
    Some((place, Some(long_at(bytes, place.start))))
}

// The first is (2, `bob`), of 13 bytes. All were written by hand: 8 bytes of two's complement with the
// high one first, one byte, and a text behind its length in two bytes.
#[test]
fn rows_become_records(rt: HostRuntime) -> Result<(), Fail> {
    let (long, flag, text) = (FieldType::Long, FieldType::Bool, FieldType::Str(3));
    let bob = row(rt.alloc(), 2, None, "bob")?;
    let bytes = record(rt.alloc(), &[long, text], &bob, 13)?.ok_or("not written")?;
    assert_eq!(rt; bytes.as_slice(), b"\0\0\0\0\0\0\0\x02\0\x03bob".as_slice());
    assert_eq!(rt; 13_u32.to_be_bytes().as_slice(), b"\0\0\0\x0d".as_slice());
    let records = [
        (
            -2,
            true,
            "",
            b"\xff\xff\xff\xff\xff\xff\xff\xfe\x01\0\0".as_slice(),
        ),
        (i64::MIN, true, "a\0b", b"\x80\0\0\0\0\0\0\0\x01\0\x03a\0b"),
        (
            258,
            false,
            "\u{20ac}",
            b"\0\0\0\0\0\0\x01\x02\0\0\x03\xe2\x82\xac",
        ),
    ];
    for (number, truth, word, want) in records {
        let row = row(rt.alloc(), number, Some(truth), word)?;
        let bytes = record(rt.alloc(), &[long, flag, text], &row, 16)?.ok_or("not written")?;
        assert_eq!(rt; bytes.as_slice(), want, "{number}");
    }
    Ok(())
}

#[test]
fn rows_that_do_not_fit_are_not_written(rt: HostRuntime) -> Result<(), Fail> {
    let (long, flag, text) = (FieldType::Long, FieldType::Bool, FieldType::Str(3));
    let lists: [(&[FieldType], usize, bool); 8] = [
        (&[long, flag, text], 14, true),
        (&[long, flag, text], 13, false),
        (&[long, flag, FieldType::Str(2)], 14, false),
        (&[long, flag], 14, false),
        (&[long, flag, text, flag], 14, false),
        (&[flag, long, text], 14, false),
        (&[long, text, flag], 14, false),
        (&[long, flag, long], 14, false),
    ];
    let bob = row(rt.alloc(), 2, Some(true), "bob")?;
    for (fields, room, want) in lists {
        let bytes = record(rt.alloc(), fields, &bob, room)?;
        assert_eq!(rt; bytes.is_some(), want, "{fields:?} in {room}");
    }
    Ok(())
}

/// A row of a text of so many bytes.
fn long_row(alloc: Global, bytes: u16) -> Result<Row, Fail> {
    let mut word = String::new(alloc);
    for _ in 0..bytes {
        word.push('x')?;
    }
    let mut values = Vec::new(alloc);
    values.push(Value::Str(Text::of(word).ok_or("no text")?))?;
    Ok(Row::of(values))
}

#[test]
fn the_widest_text_has_a_record(rt: HostRuntime) -> Result<(), Fail> {
    let widest = long_row(rt.alloc(), 16_382)?;
    for (bound, room, want) in [
        (16_382, 16_384, true),
        (16_381, 16_384, false),
        (16_382, 16_383, false),
    ] {
        let bytes = record(rt.alloc(), &[FieldType::Str(bound)], &widest, room)?;
        assert_eq!(rt; bytes.is_some(), want, "{bound} in {room}");
    }
    Ok(())
}

// Python's `bytes.decode` decides what is UTF-8.
#[test]
fn bytes_are_tested(rt: HostRuntime) -> Result<(), Fail> {
    let texts: [(&[u8], bool); 19] = [
        (b"\x01\0\x03bob", true),
        (b"\0\0\0", true),
        (b"\x01\0\x08\xe2\x82\xac\xc3\xa9a\0b", true),
        (b"\0\0\x04\xf0\x9f\x98\x80", true),
        (b"\x01\0\x03bo", false),
        (b"\x01\0\x03bobb", false),
        (b"\x01\0", false),
        (b"", false),
        (b"\x02\0\x03bob", false),
        (b"\x81\0\x03bob", false),
        (b"\x01\x01\x03bob", false),
        (b"\x01\0\x09bobbobbob", false),
        (b"\x01\0\x03\xe2\x82\x2c", false),
        (b"\x01\0\x03\xed\xa0\x80", false),
        (b"\x01\0\x02\xc0\x80", false),
        (b"\x01\0\x03\xc3\xa9\xc3", false),
        (b"\x01\0\x02a\x80", false),
        (b"\x01\0\x04\xf4\x90\x80\x80", false),
        (b"\x01\0\x03\xf0\x9f\x98", false),
    ];
    let fields = schema(rt.alloc(), &[FieldType::Bool, FieldType::Str(8)])?;
    for (bytes, want) in texts {
        assert_eq!(rt; check_bytes(&bytes, &fields), want, "{bytes:?}");
        for size in 1..6 {
            assert_eq!(rt;
                check_bytes(&Pieces { bytes, size }, &fields),
                want,
                "{bytes:?} by {size}"
            );
        }
    }
    let long = schema(rt.alloc(), &[FieldType::Long])?;
    for count in 0..11 {
        let bytes = &[0xff_u8; 11][..count];
        assert_eq!(rt; check_bytes(&bytes, &long), count == 8, "{count}");
    }
    Ok(())
}

#[test]
fn fields_are_found(rt: HostRuntime) -> Result<(), Fail> {
    let kinds = [
        FieldType::Str(5),
        FieldType::Long,
        FieldType::Bool,
        FieldType::Str(9),
    ];
    let fields = schema(rt.alloc(), &kinds)?;
    let bytes = b"\0\x03bob\x80\0\0\0\0\0\x01\x02\x01\0\0".as_slice();
    let places = [
        (Place { start: 2, len: 3 }, None),
        (Place { start: 5, len: 8 }, Some(i64::MIN + 258)),
        (Place { start: 13, len: 1 }, None),
        (Place { start: 16, len: 0 }, None),
    ];
    for (i, want) in places.into_iter().enumerate() {
        assert_eq!(rt; find(&bytes, &fields, i), Some(want), "{i}");
        assert_eq!(rt;
            find(&Pieces { bytes, size: 3 }, &fields, i),
            Some(want),
            "{i}"
        );
    }
    Ok(())
}
