use flow_types::field_type::FieldType;
use flow_types::order_item::OrderItem;
use flow_types::schema::Schema;
use normal_key::key_order::{KeyOrder, compare, fits, prefix};
use record_fixtures::pieces::Pieces;
use span_bytes::span::Span;
use std::cmp::Ordering;
use std::test::Fail;

/// What an order is made of.
#[derive(Clone, Copy)]
struct Wanted<'a> {
    key: &'a [u16],
    items: &'a [OrderItem],
    whole: bool,
}

/// By one field, the lesser or the greater values first.
const UP: &[OrderItem] = &[OrderItem {
    field: 0,
    down: false,
}];

const DOWN: &[OrderItem] = &[OrderItem {
    field: 0,
    down: true,
}];

/// The prefix of a row, where it is a record of the schema.
fn prefix_of<X: Span>(row: &X, schema: &Schema, wanted: Wanted<'_>) -> Option<[u8; 16]> {
    let order = KeyOrder::of(schema, wanted.key, wanted.items, wanted.whole);
    if !fits(row, schema) {
        return None;
    }
    Some(prefix(row, &order))
}

/// How two rows compare, where both are records of the schema.
fn compared<X: Span>(a: &X, b: &X, schema: &Schema, wanted: Wanted<'_>) -> Option<Ordering> {
    let order = KeyOrder::of(schema, wanted.key, wanted.items, wanted.whole);
    if !fits(a, schema) || !fits(b, schema) {
        return None;
    }
    Some(compare(a, b, &order))
}

/// How two rows and their prefixes compare, where they do so in pieces too.
fn both(a: &[u8], b: &[u8], schema: &Schema, wanted: Wanted<'_>) -> Option<(Ordering, Ordering)> {
    let rows = compared(&a, &b, schema, wanted)?;
    let prefixes = (
        prefix_of(&a, schema, wanted)?,
        prefix_of(&b, schema, wanted)?,
    );
    for size in [1, 2, 5] {
        let (left, right) = (Pieces { bytes: a, size }, Pieces { bytes: b, size });
        if compared(&left, &right, schema, wanted)? != rows {
            return None;
        }
        if prefix_of(&left, schema, wanted)? != prefixes.0
            || prefix_of(&right, schema, wanted)? != prefixes.1
        {
            return None;
        }
    }
    Some((rows, prefixes.0.cmp(&prefixes.1)))
}

// The prefixes were written by hand. The last two are of fields past the end, and of a record that goes on
// behind its field.
#[test]
fn prefixes_are_normal_forms(rt: HostRuntime) -> Result<(), Fail> {
    let fields = vec![in rt.alloc(); FieldType::Long, FieldType::Str(9)]?;
    let schema = Schema::of(fields).ok_or("no schema")?;
    let two = b"\0\0\0\0\0\0\0\x02\0\x01a".as_slice();
    let minus_one = b"\xff\xff\xff\xff\xff\xff\xff\xff\0\x03a\0b".as_slice();
    let texts = [OrderItem {
        field: 1,
        down: true,
    }];
    let rows: [(&[u8], &[u16], &[OrderItem], bool, &[u8]); 7] = [
        (
            two,
            &[0],
            &[],
            false,
            b"\x80\0\0\0\0\0\0\x02\0\0\0\0\0\0\0\0",
        ),
        (
            minus_one,
            &[],
            UP,
            false,
            b"\x7f\xff\xff\xff\xff\xff\xff\xff\0\0\0\0\0\0\0\0",
        ),
        (
            two,
            &[],
            DOWN,
            false,
            b"\x7f\xff\xff\xff\xff\xff\xff\xfd\0\0\0\0\0\0\0\0",
        ),
        (
            minus_one,
            &[1],
            &[],
            false,
            b"a\0\xffb\0\0\0\0\0\0\0\0\0\0\0\0",
        ),
        (
            minus_one,
            &[],
            &texts,
            true,
            b"\x9e\xff\0\x9d\xff\xff\x7f\xff\xff\xff\xff\xff\xff\xff\x61\0",
        ),
        (
            two,
            &[7, 1],
            UP,
            true,
            b"\x80\0\0\0\0\0\0\0a\0\0\x80\0\0\0\0",
        ),
        (b"\0\0\0\0\0\0\0\x02\0\x01", &[0], &[], false, b""),
    ];
    for (row, key, items, whole, want) in rows {
        let wanted = Wanted { key, items, whole };
        let found = prefix_of(&row, &schema, wanted);
        assert_eq!(rt; found.is_some(), !want.is_empty(), "{row:?}");
        if let Some(bytes) = found {
            assert_eq!(rt; bytes.as_slice(), want, "{row:?}");
        }
    }
    Ok(())
}

// Each text stands before the next: a proper front first, and bytes without a sign.
#[test]
fn texts_stand_in_order(rt: HostRuntime) -> Result<(), Fail> {
    let schema = Schema::of(vec![in rt.alloc(); FieldType::Str(18)]?).ok_or("no schema")?;
    let rows: [&[u8]; 7] = [
        b"\0\0",
        b"\0\x02a\0",
        b"\0\x03a\0\0",
        b"\0\x02ab",
        b"\0\x10ab23456789abcdef",
        b"\0\x12ab23456789abcdefg\0",
        b"\0\x12ab23456789abcdefgh",
    ];
    for i in 1..rows.len() {
        let (a, b) = (rows[i - 1], rows[i]);
        let (up, down) = (
            Wanted {
                key: &[],
                items: UP,
                whole: false,
            },
            Wanted {
                key: &[],
                items: DOWN,
                whole: true,
            },
        );
        let prefixes = if i < 5 {
            Ordering::Less
        } else {
            Ordering::Equal
        };
        assert_eq!(rt;
            both(a, b, &schema, up),
            Some((Ordering::Less, prefixes)),
            "{i}"
        );
        assert_eq!(rt;
            both(b, a, &schema, up),
            Some((Ordering::Greater, prefixes.reverse())),
            "{i}"
        );
        assert_eq!(rt;
            both(a, b, &schema, down),
            Some((Ordering::Greater, prefixes.reverse())),
            "{i}"
        );
        assert_eq!(rt;
            both(a, a, &schema, down),
            Some((Ordering::Equal, Ordering::Equal)),
            "{i}"
        );
    }
    Ok(())
}

#[test]
fn items_and_the_whole_row_decide(rt: HostRuntime) -> Result<(), Fail> {
    let fields = vec![in rt.alloc(); FieldType::Long, FieldType::Bool, FieldType::Str(3)]?;
    let schema = Schema::of(fields).ok_or("no schema")?;
    let one_bob = b"\0\0\0\0\0\0\0\x01\x01\0\x03bob".as_slice();
    let two_bob = b"\0\0\0\0\0\0\0\x02\0\0\x03bob".as_slice();
    let two_abe = b"\0\0\0\0\0\0\0\x02\x01\0\x03abe".as_slice();
    let minus_bob = b"\xff\xff\xff\xff\xff\xff\xff\xfe\x01\0\x03bob".as_slice();
    let items = [
        OrderItem {
            field: 2,
            down: true,
        },
        OrderItem {
            field: 0,
            down: false,
        },
    ];
    let (less, equal, greater) = (Ordering::Less, Ordering::Equal, Ordering::Greater);
    let rows: [(&[u8], &[u8], &[u16], &[OrderItem], bool, Ordering); 9] = [
        (one_bob, two_bob, &[], &items, false, less),
        (two_bob, two_abe, &[], &items, false, less),
        (two_abe, one_bob, &[], &items, true, greater),
        (minus_bob, one_bob, &[1], &items, false, less),
        (one_bob, two_bob, &[1], &items, false, greater),
        (one_bob, two_bob, &[2], &[], false, equal),
        (one_bob, two_bob, &[2], &[], true, less),
        (two_bob, two_abe, &[0, 9], DOWN, false, equal),
        (two_abe, two_bob, &[0, 9], DOWN, true, greater),
    ];
    for (a, b, key, items, whole, want) in rows {
        let found = both(a, b, &schema, Wanted { key, items, whole }).ok_or("no records")?;
        assert_eq!(rt; found.0, want, "{a:?} and {b:?}");
        if found.1 != Ordering::Equal {
            assert_eq!(rt; found.1, want, "{a:?} and {b:?}");
        }
    }
    Ok(())
}
