ghost use Rattle.std.specs.Prelude.{◌≡◌, ℕ, ◌≤◌, List, [], ◌∷◌, ◌++◌, map, IfOk, OnOk};
ghost use Rattle.csv.specs.Records.{fields_of, partial_of};
ghost use Rattle.flow_outside.specs.Causes.{Rose};
ghost use Rattle.flow_outside.specs.Told.{Appends, AppendsPrefix, AppendsProperPrefix};
ghost use Rattle.csv.specs.Writing.{default_writer, row_text};
ghost use Rattle.delim_io.specs.LineWriter.{HoldsText};
ghost use Rattle.delim_io.specs.ResultText.{value_text, lines_of};

use csv::{ByteRecord, Writer, WriterBuilder};
use flow_outside::failure::Memory;
use flow_outside::sink::Sink;
use flow_outside::write_all::write_all;
use flow_types::row::Row;
use flow_types::value::Value;
use itoa::Buffer;
use std::alloc::Global;
use thiserror::Error;

/// Why not all lines were written.
#[derive(Clone, Copy, Debug, PartialEq, Eq, Error)]
pub enum WriteFault {
    /// Want of memory.
    #[error("out of memory")]
    Memory,
    /// The sink failed: its count rose in this call.
    #[error("the output failed")]
    Write,
}

/// How many rows become text at a time.
const BATCH: usize = 64;

/// Writes the lines of rows, in the order given, each as `csv`'s writer writes it. After `Write` a
/// proper prefix of the lines was taken, and after `Memory` a prefix.
///
/// 64 rows become text at a time, in one buffer of their length, and are then written; the `csv`
/// writer that makes the text is made once for them, which costs about 0.3 µs.
pub fn write_rows<K: Sink>(alloc: Global, rows: &[Row], sink: &mut K) -> Result<(), WriteFault>
    ensures later { K.fault_count sink.old ≤ K.fault_count sink.new }
    ensures written { OnOk result (Appends (K.told sink.old) (K.told sink.new) (lines_of rows.now)) }
    ensures cause { result ≡ Err WriteFault.Write
        → Rose (K.fault_count sink.old) (K.fault_count sink.new) }
    ensures broken { result ≡ Err WriteFault.Write
        → AppendsProperPrefix (K.told sink.old) (K.told sink.new) (lines_of rows.now) }
    ensures wanting { result ≡ Err WriteFault.Memory
        → AppendsPrefix (K.told sink.old) (K.told sink.new) (lines_of rows.now) }
{
    let mut at = 0;
    while at < rows.len() {
        let end = rows.len().min(at + BATCH);
        let Ok(text) = lines_text(alloc, &rows[at..end]) else {
            return Err(WriteFault::Memory);
        };
        let Ok(()) = write_all(sink, text.as_slice()) else {
            return Err(WriteFault::Write);
        };
        at = end;
    }
    Ok(())
}

/// The lines of rows.
fn lines_text(alloc: Global, rows: &[Row]) -> Result<Vec<u8>, Memory>
    ensures { IfOk result (λ text. text.items ≡ lines_of rows.now) }
{
    let mut writer = new_writer(alloc);
    let mut fields = ByteRecord::new(alloc);
    for row in rows {
        fields.clear();
        push_fields(&mut fields, row.values())?;
        write_line(&mut writer, &fields)?;
    }
    into_text(writer)
}

pub(crate) fn new_writer(alloc: Global) -> Writer<Vec<u8>>
    ensures { HoldsText result [] }
{
    WriterBuilder::new()
        .flexible(true)
        .from_writer(Vec::new(alloc))
}

/// Adds the line of a record.
pub(crate) fn write_line(writer: &mut Writer<Vec<u8>>, fields: &ByteRecord) -> Result<(), Memory>
    ensures { OnOk result ((text : List ℕ) → HoldsText writer.old text
        → HoldsText writer.new (text ++ row_text default_writer (fields_of fields.now))) }
{
    let Ok(()) = writer.write_byte_record(fields) else {
        return Err(Memory);
    };
    Ok(())
}

/// The text that was written.
pub(crate) fn into_text(writer: Writer<Vec<u8>>) -> Result<Vec<u8>, Memory>
    ensures { IfOk result (λ v. (text : List ℕ) → HoldsText writer text → v.items ≡ text) }
{
    match writer.into_inner() {
        Ok(text) => Ok(text),
        Err(_) => Err(Memory),
    }
}

/// Adds the texts of values to an empty record.
fn push_fields(fields: &mut ByteRecord, values: &[Value]) -> Result<(), Memory>
    requires empty { fields_of fields.old ≡ [] }
    requires partial { partial_of fields.old ≡ [] }
    ensures { OnOk result (fields_of fields.new ≡ map value_text values.now) }
{
    for value in values {
        push_field(fields, value)?;
    }
    Ok(())
}

/// Adds the text of a value to a record.
fn push_field(fields: &mut ByteRecord, value: &Value) -> Result<(), Memory>
    requires { partial_of fields.old ≡ [] }
    ensures pushed { OnOk result
        (fields_of fields.new ≡ fields_of fields.old ++ value_text value.now ∷ []) }
    ensures whole { OnOk result (partial_of fields.new ≡ []) }
{
    match value {
        Value::Long(n) => {
            let mut decimal = Buffer::new();
            push_bytes(fields, decimal.format(*n).as_bytes())
        }
        Value::Bool(true) => push_bytes(fields, b"true"),
        Value::Bool(false) => push_bytes(fields, b"false"),
        Value::Str(text) => push_bytes(fields, text.as_str().as_bytes()),
    }
}

/// Adds the bytes of a text to a record.
pub(crate) fn push_bytes(fields: &mut ByteRecord, text: &[u8]) -> Result<(), Memory>
    requires { partial_of fields.old ≡ [] }
    ensures pushed { OnOk result (fields_of fields.new ≡ fields_of fields.old ++ text.now ∷ []) }
    ensures whole { OnOk result (partial_of fields.new ≡ []) }
{
    match fields.push_field(text) {
        Ok(()) => Ok(()),
        Err(_) => Err(Memory),
    }
}
