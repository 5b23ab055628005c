ghost use Rattle.std.specs.Prelude.{◌≡◌, ◌<◌, [], ◌∷◌, ◌++◌, IsTrue, IfOk, OnOk, length};
ghost use Rattle.std.specs.List.{list_all};
ghost use Rattle.flow_types.specs.Types.{is_bounded};
ghost use Rattle.flow_types.specs.Tuples.{Tuple};
ghost use Rattle.packed_rows.specs.Packed.{rows_in, IsPacked};
ghost use Rattle.delim_io.specs.Fields.{tuple_of};
ghost use Rattle.delim_io.specs.Input.{is_plain_byte, is_plain_line, parts_at, tuple_of_line, rows_of};

use crate::cut::cut;
use crate::field::push_value;
use crate::input_fault::InputFault;
use flow_types::field_type::FieldType;
use flow_types::row::Row;
use flow_types::schema::Schema;
use packed_rows::rows::PackedRows;
use std::alloc::Global;

/// The most bytes of an input of the first form.
pub const INPUT_LIMIT: usize = 65_536;

/// The rows of an input of the first form, packed. It has at most 65,536 bytes, no quote and no carriage
/// return; it is empty or ends with a line feed; each line has a byte and doesn't begin with EF BB
/// BF. A line is split at the delimiter. A Long is an optional `-` and digits, a Bool is `true` or
/// `false`, a Str is UTF-8 within its bound. `NotBuilt` comes exactly where it isn't of that form.
/// Any byte may be the delimiter.
///
/// The bytes are looked at once for quotes, once for line feeds, once for delimiters and once for
/// values. Each row is made, written as a record and let go: while it lives it has one allocation, and
/// one more for each of its texts. What stays is one vector, which grows as vectors do.
pub fn read_packed(
    alloc: Global,
    bytes: &[u8],
    schema: &Schema,
    delimiter: u8,
) -> Result<PackedRows, InputFault>
    ensures ok { IfOk result
        (λ rows. rows_of schema.now delimiter bytes.now ≡ Some (rows_in schema.now rows)) }
    ensures packed { IfOk result (IsPacked schema.now) }
    ensures refused { result ≡ Err InputFault.NotBuilt
        → rows_of schema.now delimiter bytes.now ≡ None }
{
    if bytes.len() > INPUT_LIMIT || !all_plain(bytes) {
        return Err(InputFault::NotBuilt);
    }
    let mut rows = PackedRows::new(alloc);
    let mut rest = bytes;
    while !rest.is_empty() {
        let Some((line, after)) = cut(rest, b'\n') else {
            return Err(InputFault::NotBuilt);
        };
        push_line(alloc, &mut rows, schema, line, delimiter)?;
        rest = after;
    }
    Ok(rows)
}

/// Adds the row of a line to those before it.
fn push_line(
    alloc: Global,
    rows: &mut PackedRows,
    schema: &Schema,
    line: &[u8],
    delimiter: u8,
) -> Result<(), InputFault>
    requires { IsPacked schema.now rows.old }
    ensures pushed { OnOk result ((t : Tuple)
        × (tuple_of_line schema.now delimiter line.now ≡ Some t)
        × (rows_in schema.now rows.new ≡ rows_in schema.now rows.old ++ t ∷ [])) }
    ensures packed { OnOk result (IsPacked schema.now rows.new) }
    ensures refused { result ≡ Err InputFault.NotBuilt
        → tuple_of_line schema.now delimiter line.now ≡ None }
{
    let row = read_line(alloc, line, schema.fields(), delimiter)?;
    match rows.push(schema, &row) {
        Ok(()) => Ok(()),
        Err(_) => Err(InputFault::Memory),
    }
}

/// Whether no byte is a quote or a carriage return.
pub(crate) fn all_plain(bytes: &[u8]) -> bool
    ensures { result ≡ list_all is_plain_byte bytes.now }
{
    bytes.iter().all(|byte| is_plain_byte(*byte))
}

fn is_plain_byte(byte: u8) -> bool
    ensures { result ≡ is_plain_byte byte }
{
    byte != b'"' && byte != b'\r'
}

/// Whether a line has a byte and doesn't begin with EF BB BF.
pub(crate) fn is_plain_line(line: &[u8]) -> bool
    ensures { result ≡ is_plain_line line.now }
{
    match line {
        [] => false,
        [0xEF, 0xBB, 0xBF, ..] => false,
        _ => true,
    }
}

/// The row of a line.
fn read_line(
    alloc: Global,
    line: &[u8],
    fields: &[FieldType],
    delimiter: u8,
) -> Result<Row, InputFault>
    requires some { 0 < length fields.now }
    requires bounded { IsTrue (list_all is_bounded fields.now) }
    ensures ok { IfOk result (λ row. tuple_of_line fields.now delimiter line.now ≡ Some row) }
    ensures refused { result ≡ Err InputFault.NotBuilt
        → tuple_of_line fields.now delimiter line.now ≡ None }
{
    if !is_plain_line(line) {
        return Err(InputFault::NotBuilt);
    }
    let Ok(mut values) = Vec::with_capacity(alloc, fields.len()) else {
        return Err(InputFault::Memory);
    };
    let last = fields.len() - 1;
    let mut rest = line;
    for i in 0..last {
        let Some((text, after)) = cut(rest, delimiter) else {
            return Err(InputFault::NotBuilt);
        };
        push_value(alloc, &mut values, fields[i], text)?;
        rest = after;
    }
    match cut(rest, delimiter) {
        Some(_) => Err(InputFault::NotBuilt),
        None => {
            push_value(alloc, &mut values, fields[last], rest)?;
            Ok(Row::of(values))
        }
    }
}
