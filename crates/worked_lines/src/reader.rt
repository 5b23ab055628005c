ghost use Rattle.std.specs.Prelude.{◌≡◌};

use delim_io::line_reader::{LineFault, LineReader};
use flow_outside::shelf::Shelf;
use flow_types::field_type::FieldType;
use flow_types::schema::Schema;
use outside_memory::file_name::FileName;
use outside_memory::mem_shelf::MemShelf;
use std::alloc::Global;
use std::test::Fail;

/// The records of a file's rows, a Long and a Str of at most 5 bytes each, one behind the other, and then `.`
/// at the end, `!` where it isn't of the first form, or `?` where a read failed.
fn records(alloc: Global, text: &str, failing: Vec<u64>) -> Result<Vec<u8>, Fail> {
    let mut files = Vec::new(alloc);
    let name = FileName::of(String::from_str(alloc, "t")?);
    files.push((name, text.as_bytes().to_vec(alloc)?))?;
    let mut shelf = MemShelf::new(alloc, files, failing)?;
    let fields = vec![in alloc; FieldType::Long, FieldType::Str(5)]?;
    let schema = Schema::of(fields).ok_or("no schema")?;
    let mut reader = LineReader::open(alloc, schema, b',')?;
    let id = shelf.open("t")?;
    let mut all = Vec::new(alloc);
    for _ in 0..8 {
        match reader.advance(&mut shelf, id) {
            Ok(true) => all.extend_from_slice(reader.record())?,
            Ok(false) => {
                all.push(b'.')?;
                return Ok(all);
            }
            Err(LineFault::Read) => {
                all.push(b'?')?;
                return Ok(all);
            }
            Err(_) => {
                all.push(b'!')?;
                return Ok(all);
            }
        }
    }
    Ok(all)
}

/// Texts of files, and what is read of them.
const FILES: [(&str, &[u8]); 8] = [
    ("", b"."),
    (
        "1,ann\n-1,\n",
        b"\0\0\0\0\0\0\0\x01\0\x03ann\xFF\xFF\xFF\xFF\xFF\xFF\xFF\xFF\0\0.",
    ),
    ("1,ann\n2,bob", b"\0\0\0\0\0\0\0\x01\0\x03ann!"),
    ("1,ann\n\n", b"\0\0\0\0\0\0\0\x01\0\x03ann!"),
    ("1,ann\n2,\"b\"\n", b"\0\0\0\0\0\0\0\x01\0\x03ann!"),
    ("1,ann\r\n", b"!"),
    ("1,ann,x\n", b"!"),
    ("x,ann\n", b"!"),
];

#[test]
fn lines_are_read_one_by_one(rt: HostRuntime) -> Result<(), Fail> {
    for (text, want) in FILES {
        let got = records(rt.alloc(), text, Vec::new(rt.alloc()))?;
        assert_eq!(rt; got.as_slice(), want, "{text:?}");
    }
    let failing = vec![in rt.alloc(); 2u64]?;
    let got = records(rt.alloc(), "1,ann\n", failing)?;
    assert_eq!(rt; got.as_slice(), b"?".as_slice());
    Ok(())
}
