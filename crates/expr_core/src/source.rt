ghost use Rattle.std.specs.Prelude.{◌≡◌, ℕ, List, ◌+◌, ◌≤◌, ◌<◌, ◌++◌, length, take, drop, IsTrue};
ghost use Rattle.flow_types.specs.Limits.{record_limit};
ghost use Rattle.flow_types.specs.Tuples.{Tuple, field};
ghost use Rattle.flow_types.specs.Types.{Fields};
ghost use Rattle.flow_types.specs.Records.{IsRecord, tuple_of};
ghost use Rattle.expr_core.specs.Places.{value_in, is_inside, held, starts_at, value_at, least_len};

use crate::seen::{Origin, Seen, TextPlace};
use flow_types::field_type::FieldType;
use flow_types::schema::Schema;
use record_codec::number::long_at;
use record_codec::place::{Place, field_at};
use span_bytes::span::Span;

/// What an expression is evaluated on: a tuple whose fields are seen where they lie in its bytes.
pub(crate) trait Source {
    /// Its bytes are records of its tuple.
    ghost IsWhole: { Self → Type 0 };

    /// All of its bytes.
    ghost seen: { Self → List ℕ };

    /// The types of its fields.
    ghost fields: { Self → Fields };

    /// The tuple.
    ghost tuple: { Self → Tuple };

    /// A field, by its number from 0; the Long 0 past the end.
    fn field<'e>(&self, number: u16) -> Seen<'e>
        requires { IsWhole self.now }
        ensures value { (room : List ℕ) → value_in (seen self.now) room result ≡ field number (tuple self.now) }
        ensures inside { (room : List ℕ) → IsTrue (is_inside (seen self.now) room result) }
        ensures held { held result ≡ 0 };

    /// The bytes from a place on, as far as they lie in one piece: at least one where there is one.
    fn piece(&self, from: usize) -> &[u8]
        requires { from < length (seen self.now) }
        ensures some { 0 < length result.now }
        ensures bytes { result.now ≡ take (length result.now) (drop from (seen self.now)) };
}

/// One record of a schema.
#[derive(Drop)]
pub(crate) struct One<'a, X> {
    pub row: &'a X,
    pub schema: &'a Schema,
}

impl<X: Span> Source for One<'_, X> {
    ghost IsWhole = { λ s. IsRecord s.schema.now (X.seen s.row.now) };

    ghost seen = { λ s. X.seen s.row.now };

    ghost fields = { λ s. s.schema.now };

    ghost tuple = { λ s. tuple_of s.schema.now (X.seen s.row.now) };

    fn field<'e>(&self, number: u16) -> Seen<'e> {
        field_of(self.row, self.schema, usize::from(number))
    }

    fn piece(&self, from: usize) -> &[u8] {
        self.row.piece(from)
    }
}

/// Two records, each of its schema: the left one's fields are followed by the right one's.
#[derive(Drop)]
pub(crate) struct Two<'a, A, B> {
    pub left: &'a A,
    pub left_schema: &'a Schema,
    pub right: &'a B,
    pub right_schema: &'a Schema,
}

impl<A: Span, B: Span> Source for Two<'_, A, B> {
    ghost IsWhole = { λ s. IsRecord s.left_schema.now (A.seen s.left.now)
        × IsRecord s.right_schema.now (B.seen s.right.now) };

    ghost seen = { λ s. A.seen s.left.now ++ B.seen s.right.now };

    ghost fields = { λ s. s.left_schema.now ++ s.right_schema.now };

    ghost tuple = { λ s. tuple_of s.left_schema.now (A.seen s.left.now)
        ++ tuple_of s.right_schema.now (B.seen s.right.now) };

    fn field<'e>(&self, number: u16) -> Seen<'e> {
        let number = usize::from(number);
        let count = self.left_schema.fields().len();
        if number < count {
            return field_of(self.left, self.left_schema, number);
        }
        let seen = field_of(self.right, self.right_schema, number - count);
        moved(seen, self.left.len())
    }

    fn piece(&self, from: usize) -> &[u8] {
        let len = self.left.len();
        if from < len {
            return self.left.piece(from);
        }
        self.right.piece(from - len)
    }
}

/// A field of one record, by its number from 0; the Long 0 past the end.
fn field_of<'e, X: Span>(row: &X, schema: &Schema, number: usize) -> Seen<'e>
    requires { IsRecord schema.now (X.seen row.now) }
    ensures value { (room : List ℕ) → value_in (X.seen row.now) room result
        ≡ field number (tuple_of schema.now (X.seen row.now)) }
    ensures inside { (room : List ℕ) → IsTrue (is_inside (X.seen row.now) room result) }
    ensures held { held result ≡ 0 }
    ensures start { starts_at result ≤ record_limit }
    ensures small { length (X.seen row.now) ≤ record_limit }
{
    let fields = schema.fields();
    if number >= fields.len() {
        return Seen::Long(0);
    }
    let place = field_at(row, schema, number);
    seen_at(row, fields[number], place)
}

/// The value of a field whose content lies at a place.
fn seen_at<'e, X: Span>(row: &X, field: FieldType, place: Place) -> Seen<'e>
    requires long { least_len field ≤ place.len }
    requires inside { place.start + place.len ≤ length (X.seen row.now) }
    requires small { length (X.seen row.now) ≤ record_limit }
    ensures value { (room : List ℕ) → value_in (X.seen row.now) room result ≡ value_at field place (X.seen row.now) }
    ensures inside { (room : List ℕ) → IsTrue (is_inside (X.seen row.now) room result) }
    ensures held { held result ≡ 0 }
    ensures start { starts_at result ≤ record_limit }
{
    match field {
        FieldType::Long => Seen::Long(long_at(row, place.start)),
        FieldType::Bool => Seen::Bool(row.at(place.start) != 0),
        FieldType::Str(_) => Seen::Str(TextPlace {
            origin: Origin::Record(place.start as u16),
            len: place.len as u16,
        }),
    }
}

/// What was seen in a record, where so many bytes stand before it.
fn moved(seen: Seen<'_>, by: usize) -> Seen<'_>
    requires start { starts_at seen ≤ record_limit }
    requires few { by ≤ record_limit }
    ensures value { (front bytes room : List ℕ) → length front ≡ by → value_in (front ++ bytes) room result
        ≡ value_in bytes room seen.entry }
    ensures inside { (front bytes room : List ℕ) → length front
        ≡ by → IsTrue (is_inside bytes room seen.entry) → IsTrue (is_inside (front ++ bytes) room result) }
    ensures held { held result ≡ held seen.entry }
{
    match seen {
        Seen::Str(
            TextPlace {
                origin: Origin::Record(start),
                len,
            },
        ) => Seen::Str(TextPlace {
            origin: Origin::Record(start + by as u16),
            len,
        }),
        other => other,
    }
}
