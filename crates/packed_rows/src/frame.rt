ghost use Rattle.std.specs.Prelude.{◌≡◌, ◌+◌, ◌-◌, ◌≤◌, [], ◌++◌, if◌then◌else◌, length, take, drop, filter, slice_get, IsTrue, OnOk, OnErr, Some};
ghost use Rattle.flow_types.specs.Limits.{record_limit};
ghost use Rattle.flow_types.specs.Types.{fits};
ghost use Rattle.flow_types.specs.Records.{form, framed, size, tuple_of, IsRecord, IsTupleOf};
ghost use Rattle.packed_rows.specs.Packed.{first_len, first_record, behind_first, rows_in, is_above, IsRowOf, IsPacked};

use flow_outside::failure::Memory;
use flow_types::field_type::FieldType;
use flow_types::row::Row;
use flow_types::schema::Schema;
use record_codec::encode::{encode_into, record_size};
use record_codec::number::long_at;
use record_codec::place::field_at;

/// Adds the record of a row behind its length.
pub(crate) fn push_frame(bytes: &mut Vec<u8>, schema: &Schema, row: &Row) -> Result<(), Memory>
    requires { IsTrue (fits schema.now row.now) }
    ensures pushed { OnOk result (bytes.new.items ≡ bytes.old.items ++ framed (form row.now)) }
    ensures row { OnOk result (IsRowOf schema.now row.now) }
    ensures unchanged { OnErr result (bytes.new.items ≡ bytes.old.items) }
{
    let Some(size) = record_size(schema, row) else {
        unreachable!()
    };
    let start = bytes.len();
    bytes.resize(start + 4 + size, 0)?;
    write_frame(&mut bytes[start..], schema, row);
    Ok(())
}

/// Writes the record of a row behind its length into bytes of their size.
fn write_frame(frame: &mut [u8], schema: &Schema, row: &Row)
    requires fitting { IsTrue (fits schema.now row.now) }
    requires small { size row.now ≤ record_limit }
    requires room { length frame.old ≡ 4 + size row.now }
    ensures written { frame.new ≡ framed (form row.now) }
    ensures tuple { IsTupleOf schema.now row.now }
{
    let size = frame.len() - 4;
    frame[..4].copy_from_slice(&(size as u32).to_be_bytes());
    encode_into(&mut frame[4..], schema, row);
}

/// The first record, behind its length, and what stands behind it.
pub(crate) fn split_first(bytes: &[u8]) -> (&[u8], &[u8])
    requires head { 4 ≤ length bytes.now }
    requires inside { 4 + first_len bytes.now ≤ length bytes.now }
    ensures first { result.0.now ≡ first_record bytes.now }
    ensures behind { result.1.now ≡ behind_first bytes.now }
{
    bytes[4..].split_at(first_len(bytes))
}

/// How many bytes the first record has, by the length before it.
fn first_len(bytes: &[u8]) -> usize
    requires { 4 ≤ length bytes.now }
    ensures { result ≡ first_len bytes.now }
{
    u32::from_be_bytes([bytes[0], bytes[1], bytes[2], bytes[3]]) as usize
}

/// Whether the Long in a field of a record is greater than a number. The record is looked at in place.
pub(crate) fn is_above(bytes: &[u8], schema: &Schema, field: usize, number: i64) -> bool
    requires whole { IsRecord schema.now bytes.now }
    requires long { slice_get schema.now field ≡ Some FieldType.Long }
    ensures { result ≡ is_above field number (tuple_of schema.now bytes.now) }
{
    let place = field_at(&bytes, schema, field);
    long_at(&bytes, place.start) > number
}

/// Moves the records down whose Long in a field is greater than a number, over those where it isn't, and
/// gives how many bytes they take. A record that stays where it is isn't copied; the bytes behind the
/// records that are kept have no meaning.
pub(crate) fn move_down(bytes: &mut [u8], schema: &Schema, field: usize, number: i64) -> usize
    requires packed { IsPacked schema.now bytes.old }
    requires long { slice_get schema.now field ≡ Some FieldType.Long }
    ensures rows { rows_in schema.now (take result bytes.new)
        ≡ filter (is_above field number) (rows_in schema.now bytes.old) }
    ensures packed { IsPacked schema.now (take result bytes.new) }
{
    let mut kept = 0;
    let mut at = 0;
    while at < bytes.len() {
        let (record, behind) = split_first(&bytes[at..]);
        let end = bytes.len() - behind.len();
        let keep = is_above(record, schema, field, number);
        kept = keep_if(keep, bytes, kept, at, end);
        at = end;
    }
    kept
}

/// Moves the bytes from `at` to `end` down behind those that are kept, where they are to be kept too, and
/// gives the place behind what is kept then.
fn keep_if(keep: bool, bytes: &mut [u8], kept: usize, at: usize, end: usize) -> usize
    requires lower { kept ≤ at }
    requires order { at ≤ end }
    requires inside { end ≤ length bytes.old }
    ensures front { take result bytes.new
        ≡ take kept bytes.old ++ (if keep then take (end - at) (drop at bytes.old) else []) }
    ensures rest { drop end bytes.new ≡ drop end bytes.old }
    ensures lower { result ≤ end }
{
    if !keep {
        return kept;
    }
    if kept == at {
        return end;
    }
    bytes.copy_within(at..end, kept);
    kept + (end - at)
}
