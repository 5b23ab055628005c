use flow_types::field_type::FieldType;
use flow_types::schema::Schema;
use key_hash::fnv::{OFFSET_BASIS, hash_bytes};
use key_hash::hash::{bucket, part};
use record_codec::check::check_bytes;
use record_fixtures::pieces::Pieces;
use span_bytes::span::Span;
use std::test::Fail;

/// The worker of a row's key and its buckets at levels 0 and 4, of 1,000 each, where the row is a record.
fn numbers<X: Span>(row: &X, schema: &Schema, key: &[u16]) -> Option<[u32; 3]> {
    if !check_bytes(row, schema) {
        return None;
    }
    Some([
        part(row, schema, key, 1_000),
        bucket(0, row, schema, key, 1_000),
        bucket(4, row, schema, key, 1_000),
    ])
}

// The hash of `foobar` is from the test vectors of FNV's authors.
#[test]
fn bytes_hash_as_published(rt: HostRuntime) {
    let hash = hash_bytes(OFFSET_BASIS, b"foobar");
    assert_eq!(rt; hash, 0x8594_4171_f739_67e8);
}

// The forms of the keys were written by hand, and the numbers computed from them by another program. The
// last key's number is past the fields.
#[test]
fn keys_are_hashed_in_place(rt: HostRuntime) -> Result<(), Fail> {
    let fields = vec![in rt.alloc(); FieldType::Long, FieldType::Bool, FieldType::Str(3)]?;
    let schema = Schema::of(fields).ok_or("no schema")?;
    let row = b"\0\0\0\0\0\0\x01\x02\x01\0\x03bob".as_slice();
    let keys: [(&[u16], &[u8], [u32; 3]); 3] = [
        (&[2, 0], b"\0\x03bob\0\0\0\0\0\0\x01\x02", [904, 179, 865]),
        (&[1], b"\x01", [244, 887, 7]),
        (&[3], b"\0\0\0\0\0\0\0\0", [405, 740, 646]),
    ];
    for (key, form, want) in keys {
        assert_eq!(rt; hash_bytes(OFFSET_BASIS, form) % 1_000, u64::from(want[0]));
        assert_eq!(rt; numbers(&row, &schema, key), Some(want));
        for size in [1, 2, 10] {
            let pieces = Pieces { bytes: row, size };
            assert_eq!(rt; numbers(&pieces, &schema, key), Some(want), "{size}");
        }
    }
    Ok(())
}
