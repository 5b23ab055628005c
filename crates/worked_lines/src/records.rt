use delim_io::line_record::write_record;
use flow_types::field_type::FieldType;
use flow_types::schema::Schema;
use std::alloc::Global;
use std::test::Fail;

/// The record of a line of a Long, a Bool and a Str of at most 5 bytes, or `!` where the line isn't of such
/// fields in the first form.
fn record_of(alloc: Global, line: &[u8]) -> Result<Vec<u8>, Fail> {
    let fields = vec![in alloc; FieldType::Long, FieldType::Bool, FieldType::Str(5)]?;
    let schema = Schema::of(fields).ok_or("no schema")?;
    let mut out = Vec::from_elem(alloc, 7u8, 16_384)?;
    match write_record(line, &schema, b',', out.as_mut_slice()) {
        Some(len) => out.truncate(len),
        None => out = b"!".as_slice().to_vec(alloc)?,
    }
    Ok(out)
}

/// Lines, and their records.
const LINES: [(&[u8], &[u8]); 11] = [
    (
        b"-2,true,bob",
        b"\xFF\xFF\xFF\xFF\xFF\xFF\xFF\xFE\x01\x00\x03bob",
    ),
    (b"7,false,", b"\x00\x00\x00\x00\x00\x00\x00\x07\x00\x00\x00"),
    (b"7,false", b"!"),
    (b"7,false,a,b", b"!"),
    (b"x,false,a", b"!"),
    (b"7,no,a", b"!"),
    (b"7,true,abcdef", b"!"),
    (b"7,true,\xFF", b"!"),
    (b"9223372036854775808,true,a", b"!"),
    (b"\xEF\xBB\xBF7,true,a", b"!"),
    (b"", b"!"),
];

#[test]
fn lines_become_records(rt: HostRuntime) -> Result<(), Fail> {
    for (line, want) in LINES {
        let got = record_of(rt.alloc(), line)?;
        assert_eq!(rt; got.as_slice(), want);
    }
    Ok(())
}
