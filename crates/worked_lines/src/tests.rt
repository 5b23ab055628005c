ghost use Rattle.std.specs.Prelude.{◌≡◌, Some};

use delim_io::first_form::read_packed;
use delim_io::input_fault::InputFault;
use delim_io::result_text::{WriteFault, write_rows};
use delim_io::row_writer::{RowFault, RowWriter};
use flow_outside::failure::Failed;
use flow_outside::sink::Sink;
use flow_types::field_type::FieldType;
use flow_types::row::Row;
use flow_types::schema::Schema;
use flow_types::text::Text;
use flow_types::value::Value;
use record_codec::check::check_bytes;
use record_fixtures::pieces::Pieces;
use std::alloc::Global;
use std::test::Fail;

/// A sink that takes at most `piece` bytes at a time and `room` bytes in all.
#[derive(Drop)]
struct Paper {
    taken: Vec<u8>,
    piece: usize,
    room: usize,
    faults: u64,
}

impl Sink for Paper {
    ghost told = { λ p. Some p.taken.items };

    ghost fault_count = { λ p. p.faults };

    fn write(&mut self, bytes: &[u8]) -> Result<usize, Failed> {
        let count = bytes.len().min(self.piece).min(self.room);
        if count == 0 && !bytes.is_empty() {
            self.faults = self.faults.saturating_add(1);
            return Err(Failed);
        }
        if self.taken.extend_from_slice(&bytes[..count]).is_err() {
            self.faults = self.faults.saturating_add(1);
            return Err(Failed);
        }
        self.room -= count;
        Ok(count)
    }

    fn faults(&self) -> u64 {
        self.faults
    }
}

fn blank_paper(alloc: Global, piece: usize, room: usize) -> Paper {
    Paper {
        taken: Vec::new(alloc),
        piece,
        room,
        faults: 0,
    }
}

/// The lines of the rows of an input, or `NotBuilt` where it isn't of the first form.
fn lines(
    alloc: Global,
    bytes: &[u8],
    fields: &[FieldType],
    delimiter: u8,
) -> Result<Vec<u8>, Fail> {
    let Some(schema) = Schema::of(Vec::from_slice(alloc, fields)?) else {
        return Err(Fail::from(WriteFault::Write));
    };
    let rows = match read_packed(alloc, bytes, &schema, delimiter) {
        Ok(rows) => rows.unpack(alloc, &schema)?,
        Err(InputFault::NotBuilt) => return Ok(Vec::from_slice(alloc, b"NotBuilt")?),
        Err(InputFault::Memory) => return Err(Fail::from(InputFault::Memory)),
    };
    let mut out = blank_paper(alloc, 1000, 1_000_000);
    write_rows(alloc, rows.as_slice(), &mut out)?;
    Ok(out.taken)
}

#[test]
fn reads_longs(rt: HostRuntime) -> Result<(), Fail> {
    let cases: [(&[u8], &[u8]); 17] = [
        (b"1\n3\n2\n", b"1\n3\n2\n"),
        (b"-9223372036854775808\n", b"-9223372036854775808\n"),
        (b"9223372036854775807\n", b"9223372036854775807\n"),
        (b"-0\n007\n-012\n", b"0\n7\n-12\n"),
        (b"", b""),
        (b"1\n2", b"NotBuilt"),
        (b"+1\n", b"NotBuilt"),
        (b" 1\n", b"NotBuilt"),
        (b"1 \n", b"NotBuilt"),
        (b"-\n", b"NotBuilt"),
        (b"\n", b"NotBuilt"),
        (b"1\n\n2\n", b"NotBuilt"),
        (b"9223372036854775808\n", b"NotBuilt"),
        (b"-9223372036854775809\n", b"NotBuilt"),
        (b"18446744073709551617\n", b"NotBuilt"),
        (b"1,2\n", b"NotBuilt"),
        (b"1\r\n", b"NotBuilt"),
    ];
    for (input, want) in cases {
        let got = lines(rt.alloc(), input, &[FieldType::Long], b',')?;
        assert_eq!(rt; got.as_slice(), want);
    }
    Ok(())
}

#[test]
fn reads_other_fields(rt: HostRuntime) -> Result<(), Fail> {
    let flag = [FieldType::Bool, FieldType::Str(3)];
    let cases: [(&[u8], &[u8]); 14] = [
        (b"true;abc\nfalse;\n", b"true,abc\nfalse,\n"),
        (b"true;a,b\n", b"true,\"a,b\"\n"),
        (b"true; \xc3\xa9\n", b"true, \xc3\xa9\n"),
        (b"true;\xef\xbb\xbf\n", b"true,\xef\xbb\xbf\n"),
        (b"true;abcd\n", b"NotBuilt"),
        (b"true;ab\xc3\xa9\n", b"NotBuilt"),
        (b"true;\xff\n", b"NotBuilt"),
        (b"TRUE;a\n", b"NotBuilt"),
        (b"True;a\n", b"NotBuilt"),
        (b"true;\"a\"\n", b"NotBuilt"),
        (b"\xef\xbb\xbftrue;a\n", b"NotBuilt"),
        (b"true,a\n", b"NotBuilt"),
        (b"true\n", b"NotBuilt"),
        (b"true;a;b\n", b"NotBuilt"),
    ];
    for (input, want) in cases {
        let got = lines(rt.alloc(), input, &flag, b';')?;
        assert_eq!(rt; got.as_slice(), want);
    }
    let pair = [FieldType::Long, FieldType::Str(20)];
    let input = b"1,ann\n3,cy\n2,bob\n";
    let got = lines(rt.alloc(), input, &pair, b',')?;
    assert_eq!(rt; got.as_slice(), input.as_slice());
    Ok(())
}

#[test]
fn an_input_has_at_most_65536_bytes(rt: HostRuntime) -> Result<(), Fail> {
    let alloc = rt.alloc();
    let mut input = Vec::new(alloc);
    for _ in 0..32_768 {
        input.extend_from_slice(b"1\n")?;
    }
    let got = lines(alloc, input.as_slice(), &[FieldType::Long], b',')?;
    assert_eq!(rt; got.as_slice(), input.as_slice());
    input.truncate(65_534);
    input.extend_from_slice(b"11\n")?;
    let got = lines(alloc, input.as_slice(), &[FieldType::Long], b',')?;
    assert_eq!(rt; got.as_slice(), b"NotBuilt".as_slice());
    Ok(())
}

fn text(alloc: Global, text: &str) -> Result<Value, Fail> {
    match Text::of(String::from_str(alloc, text)?) {
        None => Err(Fail::from(WriteFault::Memory)),
        Some(text) => Ok(Value::Str(text)),
    }
}

#[test]
fn writes_what_csv_writes(rt: HostRuntime) -> Result<(), Fail> {
    let alloc = rt.alloc();
    let first = vec![in alloc; text(alloc, "a,b")?, Value::Bool(true), Value::Long(-3)]?;
    let second = vec![in alloc;
        text(alloc, "say \"hi\"")?,
        Value::Bool(false),
        text(alloc, "")?,
    ]?;
    let third = vec![in alloc; text(alloc, "")?]?;
    let rows = vec![in alloc; Row::of(first), Row::of(second), Row::of(third)]?;
    let want = b"\"a,b\",true,-3\n\"say \"\"hi\"\"\",false,\n\"\"\n";

    let mut out = blank_paper(alloc, 7, 1000);
    assert_eq!(rt; write_rows(alloc, rows.as_slice(), &mut out), Ok(()));
    assert_eq!(rt; out.taken.as_slice(), want.as_slice());

    let mut out = blank_paper(alloc, 7, 20);
    assert_eq!(rt;
        write_rows(alloc, rows.as_slice(), &mut out),
        Err(WriteFault::Write)
    );
    assert_eq!(rt; out.taken.as_slice(), &want[..20]);
    assert_eq!(rt; out.faults(), 1);
    Ok(())
}

/// Writes the lines of records, up to the first fault; `None` where one isn't a row's.
fn write_records(
    writer: &mut RowWriter,
    records: &[&[u8]],
    size: usize,
    schema: &Schema,
    out: &mut Paper,
) -> Option<Result<(), RowFault>> {
    for bytes in records {
        let record = Pieces { bytes, size };
        if !check_bytes(&record, schema) {
            return None;
        }
        if let Err(fault) = writer.write(&record, schema, out) {
            return Some(Err(fault));
        }
    }
    Some(Ok(()))
}

#[test]
fn records_become_the_lines_of_their_rows(rt: HostRuntime) -> Result<(), Fail> {
    let alloc = rt.alloc();
    let fields = [FieldType::Str(20), FieldType::Bool, FieldType::Long];
    let schema = Schema::of(fields.to_vec(alloc)?).ok_or("no schema")?;
    let records: [&[u8]; 2] = [
        b"\0\x03a,b\x01\xff\xff\xff\xff\xff\xff\xff\xfd",
        b"\0\0\0\0\0\0\0\0\0\x01\0",
    ];
    let want = b"\"a,b\",true,-3\n,false,256\n";
    let mut writer = RowWriter::open(alloc)?;
    for size in [1, 2, 20] {
        let mut out = blank_paper(alloc, 7, 1000);
        let answer = write_records(&mut writer, &records, size, &schema, &mut out);
        assert_eq!(rt; answer, Some(Ok(())));
        assert_eq!(rt; out.taken.as_slice(), want.as_slice());
    }
    let mut out = blank_paper(alloc, 7, 20);
    let answer = write_records(&mut writer, &records, 2, &schema, &mut out);
    assert_eq!(rt; answer, Some(Err(RowFault::Write)));
    assert_eq!(rt; out.taken.as_slice(), &want[..20]);
    assert_eq!(rt; out.faults(), 1);
    Ok(())
}
