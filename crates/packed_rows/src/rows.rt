ghost use Rattle.std.specs.Prelude.{◌≡◌, ℕ, [], ◌∷◌, ◌++◌, filter, slice_get, IsTrue, IfOk, OnOk, OnErr, Some};
ghost use Rattle.flow_types.specs.Types.{Fields, fits};
ghost use Rattle.packed_rows.specs.Packed.{rows_in, is_above, IsPacked};

use crate::frame::{move_down, push_frame, split_first};
use flow_outside::failure::Memory;
use flow_types::field_type::FieldType;
use flow_types::row::Row;
use flow_types::schema::Schema;
use record_codec::decode::decode;
use std::alloc::Global;
use std::marker::Model;

/// Rows of one schema: their records, each behind its length, one after the other in one vector. They
/// are seen as the bytes.
#[derive(Debug, Drop)]
pub struct PackedRows {
    bytes: Vec<u8>,
}

impl Model for PackedRows {
    ghost use Rattle.std.specs.Prelude.{ℕ, List};

    ghost Value = { List ℕ };

    ghost view = { λ p. p.bytes.items };
}

impl PackedRows {
    /// No rows, of any schema; nothing is allocated.
    pub fn new(alloc: Global) -> PackedRows
        ensures empty { result ≡ [] }
        ensures packed { (fields : Fields) → IsPacked fields result }
    {
        PackedRows {
            bytes: Vec::new(alloc),
        }
    }

    /// Adds a row behind the others: its record's bytes and four for their length. The vector grows as
    /// vectors do, and nothing else is allocated.
    pub fn push(&mut self, schema: &Schema, row: &Row) -> Result<(), Memory>
        requires fitting { IsTrue (fits schema.now row.now) }
        requires packed { IsPacked schema.now self.old }
        ensures pushed { OnOk result
            (rows_in schema.now self.new ≡ rows_in schema.now self.old ++ row.now ∷ []) }
        ensures packed { OnOk result (IsPacked schema.now self.new) }
        ensures unchanged { OnErr result (self.new ≡ self.old) }
    {
        push_frame(&mut self.bytes, schema, row)?;
        Ok(())
    }

    /// Keeps the rows whose Long in a field is greater than a number, in their order. Each record is looked
    /// at in place; those that are kept move down over those that aren't, and nothing is allocated or
    /// decoded.
    pub fn keep_above(&mut self, schema: &Schema, field: usize, number: i64)
        requires packed { IsPacked schema.now self.old }
        requires long { slice_get schema.now field ≡ Some FieldType.Long }
        ensures rows { rows_in schema.now self.new
            ≡ filter (is_above field number) (rows_in schema.now self.old) }
        ensures packed { IsPacked schema.now self.new }
    {
        let len = move_down(&mut self.bytes, schema, field, number);
        self.bytes.truncate(len);
    }

    /// The rows, decoded, in their order. The cost is that of decoding each, and of a list that grows.
    pub fn unpack(&self, alloc: Global, schema: &Schema) -> Result<Vec<Row>, Memory>
        requires { IsPacked schema.now self.now }
        ensures { IfOk result (λ rows. rows.items ≡ rows_in schema.now self.now) }
    {
        let mut rows = Vec::new(alloc);
        let mut rest = self.bytes.as_slice();
        while !rest.is_empty() {
            let (record, behind) = split_first(rest);
            rows.push(decode(alloc, &record, schema)?)?;
            rest = behind;
        }
        Ok(rows)
    }
}
