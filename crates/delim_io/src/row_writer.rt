ghost use Rattle.std.specs.Prelude.{◌≡◌, ◌+◌, ◌-◌, ◌<◌, ◌≤◌, [], ◌∷◌, ◌++◌, IfOk, OnOk, length, map, take, drop};
ghost use Rattle.std.specs.Fmt.{signed_decimal};
ghost use Rattle.std.specs.Int.{cast_signed, from_be_bytes, w64};
ghost use Rattle.csv.specs.Records.{fields_of, partial_of};
ghost use Rattle.flow_outside.specs.Causes.{Rose};
ghost use Rattle.flow_outside.specs.Told.{Appends, AppendsProperPrefix};
ghost use Rattle.flow_types.specs.Records.{IsRecord, tuple_of};
ghost use Rattle.flow_types.specs.Tuples.{field};
ghost use Rattle.delim_io.specs.ResultText.{bool_text, row_line, value_text};

use crate::result_text::{into_text, new_writer, push_bytes, write_line};
use csv::ByteRecord;
use flow_outside::failure::Memory;
use flow_outside::sink::Sink;
use flow_outside::write_all::write_all;
use flow_types::field_type::FieldType;
use flow_types::schema::Schema;
use flow_types::text::TEXT_LIMIT;
use itoa::Buffer;
use record_codec::number::long_at;
use record_codec::place::field_at;
use span_bytes::span::Span;
use std::alloc::Global;
use thiserror::Error;

/// Why a row's line wasn't written.
#[derive(Clone, Copy, Debug, PartialEq, Eq, Error)]
pub enum RowFault {
    /// Want of memory; nothing of the line was written.
    #[error("out of memory")]
    Memory,
    /// The sink failed: its count rose in this call.
    #[error("the output failed")]
    Write,
}

/// Writes rows as lines, each from its record where that lies, with memory for one line.
#[derive(Drop)]
pub struct RowWriter {
    alloc: Global,
    fields: ByteRecord,
    text: Vec<u8>,
}

impl RowWriter {
    /// A writer, with room for the longest text.
    pub fn open(alloc: Global) -> Result<RowWriter, Memory> {
        Ok(RowWriter {
            alloc,
            fields: ByteRecord::new(alloc),
            text: Vec::with_capacity(alloc, TEXT_LIMIT)?,
        })
    }

    /// Writes the line of a record's row, as `csv`'s writer writes it. After `Write` a proper prefix of the
    /// line was taken, and after `Memory` nothing of it.
    ///
    /// A text that lies in one piece is copied into the line's fields from there, and from these into the
    /// line; one that lies in several is put together before. Each field costs a step for each field before
    /// it, and a line one `csv` writer of its own, about 0.3 µs.
    pub fn write<X: Span, K: Sink>(
        &mut self,
        row: &X,
        schema: &Schema,
        out: &mut K,
    ) -> Result<(), RowFault>
        requires { IsRecord schema.now (X.seen row.now) }
        ensures later { K.fault_count out.old ≤ K.fault_count out.new }
        ensures written { OnOk result (Appends (K.told out.old) (K.told out.new) (row_line (tuple_of schema.now (X.seen row.now)))) }
        ensures cause { result ≡ Err RowFault.Write → Rose (K.fault_count out.old) (K.fault_count out.new) }
        ensures broken { result ≡ Err RowFault.Write
            → AppendsProperPrefix (K.told out.old) (K.told out.new) (row_line (tuple_of schema.now (X.seen row.now))) }
        ensures wanting { result ≡ Err RowFault.Memory → out.new ≡ out.old }
    {
        match self.line(row, schema) {
            Ok(line) => match write_all(out, line.as_slice()) {
                Ok(()) => Ok(()),
                Err(_) => Err(RowFault::Write),
            },
            Err(Memory) => Err(RowFault::Memory),
        }
    }

    /// The line of a record's row.
    fn line<X: Span>(&mut self, row: &X, schema: &Schema) -> Result<Vec<u8>, Memory>
        requires { IsRecord schema.now (X.seen row.now) }
        ensures { IfOk result (λ v. v.items ≡ row_line (tuple_of schema.now (X.seen row.now))) }
    {
        self.fields.clear();
        push_values(&mut self.fields, &mut self.text, row, schema)?;
        let mut writer = new_writer(self.alloc);
        write_line(&mut writer, &self.fields)?;
        into_text(writer)
    }
}

/// Adds the texts of a record's fields to an empty list of fields.
fn push_values<X: Span>(
    fields: &mut ByteRecord,
    text: &mut Vec<u8>,
    row: &X,
    schema: &Schema,
) -> Result<(), Memory>
    requires whole { IsRecord schema.now (X.seen row.now) }
    requires empty { fields_of fields.old ≡ [] }
    requires partial { partial_of fields.old ≡ [] }
    ensures { OnOk result (fields_of fields.new ≡ map value_text (tuple_of schema.now (X.seen row.now))) }
{
    for number in 0..schema.fields().len() {
        push_value(fields, text, row, schema, number)?;
    }
    Ok(())
}

/// Adds the text of a field, by its number from 0.
fn push_value<X: Span>(
    fields: &mut ByteRecord,
    text: &mut Vec<u8>,
    row: &X,
    schema: &Schema,
    number: usize,
) -> Result<(), Memory>
    requires whole { IsRecord schema.now (X.seen row.now) }
    requires exists { number < length schema.now }
    requires partial { partial_of fields.old ≡ [] }
    ensures pushed { OnOk result (fields_of fields.new
        ≡ fields_of fields.old ++ value_text (field number (tuple_of schema.now (X.seen row.now))) ∷ []) }
    ensures partial { OnOk result (partial_of fields.new ≡ []) }
{
    let place = field_at(row, schema, number);
    match schema.fields()[number] {
        FieldType::Long => push_long(fields, row, place.start),
        FieldType::Bool => push_bytes(fields, bool_bytes(row.at(place.start) != 0)),
        FieldType::Str(_) => { push_span(fields, text, row, place.start, place.start + place.len) }
    }
}

/// Adds the Long that lies from a place on, in decimal.
fn push_long<X: Span>(fields: &mut ByteRecord, row: &X, start: usize) -> Result<(), Memory>
    requires inside { start + 8 ≤ length (X.seen row.now) }
    requires partial { partial_of fields.old ≡ [] }
    ensures pushed { OnOk result (fields_of fields.new ≡ fields_of fields.old
        ++ signed_decimal (cast_signed w64 (from_be_bytes w64 (take 8 (drop start (X.seen row.now))))) ∷ []) }
    ensures partial { OnOk result (partial_of fields.new ≡ []) }
{
    let mut decimal = Buffer::new();
    push_bytes(fields, decimal.format(long_at(row, start)).as_bytes())
}

fn bool_bytes(value: bool) -> &'static [u8]
    ensures { result.now ≡ bool_text value }
{
    if value { b"true" } else { b"false" }
}

/// Adds the bytes of a record from `start` to `end`.
fn push_span<X: Span>(
    fields: &mut ByteRecord,
    text: &mut Vec<u8>,
    row: &X,
    start: usize,
    end: usize,
) -> Result<(), Memory>
    requires order { start ≤ end }
    requires inside { end ≤ length (X.seen row.now) }
    requires partial { partial_of fields.old ≡ [] }
    ensures pushed { OnOk result (fields_of fields.new
        ≡ fields_of fields.old ++ take (end - start) (drop start (X.seen row.now)) ∷ []) }
    ensures partial { OnOk result (partial_of fields.new ≡ []) }
{
    if start == end {
        return push_bytes(fields, &[]);
    }
    let piece = row.piece(start);
    if piece.len() >= end - start {
        return push_bytes(fields, &piece[..end - start]);
    }
    gather(text, row, start, end)?;
    push_bytes(fields, text.as_slice())
}

/// Puts the bytes of a record from `start` to `end` together, piece by piece.
fn gather<X: Span>(text: &mut Vec<u8>, row: &X, start: usize, end: usize) -> Result<(), Memory>
    requires order { start ≤ end }
    requires inside { end ≤ length (X.seen row.now) }
    ensures { OnOk result (text.new.items ≡ take (end - start) (drop start (X.seen row.now))) }
{
    text.clear();
    let mut at = start;
    while at < end {
        let piece = row.piece(at);
        let count = piece.len().min(end - at);
        if text.extend_from_slice(&piece[..count]).is_err() {
            return Err(Memory);
        }
        at += count;
    }
    Ok(())
}
