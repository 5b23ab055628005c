ghost use Rattle.std.specs.Prelude.{◌≡◌, ◌<◌, ◌≤◌, ◌*◌, IsTrue, IfOk, length, take, sum_by};
ghost use Rattle.std.specs.Option.{SomeIff};
ghost use Rattle.std.specs.List.{list_all};
ghost use Rattle.flow_types.specs.Limits.{record_limit};
ghost use Rattle.flow_types.specs.Types.{width, widest, is_schema, is_placed, is_bounded, fits};
ghost use Rattle.flow_types.specs.Starts.{IsTable};

use crate::field_type::FieldType;
use crate::row::Row;
use crate::value::Value;
use flow_outside::failure::Memory;
use std::alloc::Global;
use std::marker::Model;

/// The most fields of a schema.
pub const FIELD_LIMIT: usize = 32;

/// The most bytes of the widest record.
pub const RECORD_LIMIT: u32 = 16_384;

/// The types of a tuple's fields, seen as their list: 1 to 32 fields, no text's bound above 16,382,
/// and a widest record of at most 16,384 bytes.
#[derive(Debug, Drop)]
pub struct Schema {
    fields: Vec<FieldType>,
    // How many fields stand before the first text, or all where there is none, and where each of
    // these and the next one begin in a record.
    placed: usize,
    starts: [u16; FIELD_LIMIT],
}

impl Model for Schema {
    ghost use Rattle.std.specs.Prelude.{IsTrue};
    ghost use Rattle.flow_types.specs.Types.{Fields, is_schema};
    ghost use Rattle.flow_types.specs.Starts.{IsTable};

    ghost Value = { Fields };

    ghost view = { λ s. s.fields.items };

    ghost invariant = { λ s. IsTrue (is_schema s.fields.items) × IsTable s.fields.items s.starts s.placed };
}

impl Schema {
    /// The schema of these fields, in the vector as it is, or `None` exactly where there are not 1
    /// to 32 of them, a text's bound exceeds 16,382, or the widest record exceeds 16,384 bytes.
    pub fn of(fields: Vec<FieldType>) -> Option<Schema>
        ensures { SomeIff result (IsTrue (is_schema fields.items)) fields.items }
    {
        if !is_schema(fields.as_slice()) {
            return None;
        }
        let (placed, starts) = table(fields.as_slice());
        Some(Schema {
            fields,
            placed,
            starts,
        })
    }

    /// The fields' types, which keep a schema's limits.
    pub fn fields(&self) -> &[FieldType]
        ensures value { result.now ≡ self.now }
        ensures limits { IsTrue (is_schema self.now) }
    {
        self.fields.as_slice()
    }

    /// Where a field begins in every record, or `None` exactly where a text stands before it. It costs
    /// a look into a table.
    pub fn start_of(&self, number: usize) -> Option<u16>
        requires { number < length self.now }
        ensures { SomeIff result (IsTrue (is_placed self.now number)) (widest (take number self.now)) }
    {
        if self.placed < number {
            return None;
        }
        Some(self.starts[number])
    }

    /// The bytes of the widest record, at most 16,384; it is summed over the fields at each call.
    pub fn max_bytes(&self) -> u32
        ensures bytes { result ≡ widest self.now }
        ensures limit { result ≤ record_limit }
    {
        widest(self.fields.as_slice())
    }

    /// Whether a row fits: as many values as fields, each of its field's kind and within its bound.
    /// No byte of a text is read.
    pub fn fits(&self, row: &Row) -> bool
        ensures { result ≡ fits self.now row.now }
    {
        fits(self.fields.as_slice(), row.values())
    }

    /// A copy; the cost is one allocation.
    pub fn copy(&self, alloc: Global) -> Result<Schema, Memory>
        ensures { IfOk result (λ s. s ≡ self.now) }
    {
        match Vec::from_slice(alloc, self.fields.as_slice()) {
            Ok(fields) => Ok(Schema {
                fields,
                placed: self.placed,
                starts: self.starts,
            }),
            Err(_) => Err(Memory),
        }
    }
}

/// Whether fields are a schema's.
fn is_schema(fields: &[FieldType]) -> bool
    ensures { result ≡ is_schema fields.now }
{
    1 <= fields.len()
        && fields.len() <= FIELD_LIMIT
        && all_bounded(fields)
        && widest(fields) <= RECORD_LIMIT
}

/// How many fields stand before the first text, and where each of these and the next one begin.
fn table(fields: &[FieldType]) -> (usize, [u16; FIELD_LIMIT])
    requires { length fields.now ≤ 32 }
    ensures { IsTable fields.now result.1 result.0 }
{
    let mut starts = [0; FIELD_LIMIT];
    let mut start = 0;
    for i in 0..fields.len() {
        starts[i] = start;
        if !fields[i].has_one_width() {
            return (i, starts);
        }
        start += fields[i].width() as u16;
    }
    if fields.len() < FIELD_LIMIT {
        starts[fields.len()] = start;
    }
    (fields.len(), starts)
}

/// Whether no text's bound exceeds a text's limit.
fn all_bounded(fields: &[FieldType]) -> bool
    ensures { result ≡ list_all is_bounded fields.now }
{
    fields.iter().all(|field| field.is_bounded())
}

/// The bytes of the widest record of at most 32 fields.
fn widest(fields: &[FieldType]) -> u32
    requires { length fields.now ≤ 32 }
    ensures { result ≡ widest fields.now }
{
    let mut total = 0;
    for field in fields {
        total += field.width();
    }
    total
}

/// Whether values fit fields.
fn fits(fields: &[FieldType], values: &[Value]) -> bool
    ensures { result ≡ fits fields.now values.now }
{
    if fields.len() != values.len() {
        return false;
    }
    for i in 0..fields.len() {
        if !fields[i].fits(&values[i]) {
            return false;
        }
    }
    true
}
