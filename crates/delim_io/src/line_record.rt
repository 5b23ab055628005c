ghost use Rattle.std.specs.Prelude.{◌≡◌, ◌+◌, ◌≤◌, ◌++◌, length, take, drop, IsTrue, MatchOption, IfSome, Some, None};
ghost use Rattle.flow_types.specs.declared.value.Value.{Value};
ghost use Rattle.flow_types.specs.declared.value.Value.TheVariants as value;
ghost use Rattle.flow_types.specs.Limits.{record_limit, text_limit};
ghost use Rattle.flow_types.specs.Records.{form, size, value_form, IsTupleOf};
ghost use Rattle.flow_types.specs.Tuples.{Tuple};
ghost use Rattle.flow_types.specs.Types.{is_bounded, width};
ghost use Rattle.delim_io.specs.Fields.{field_value, text_value};
ghost use Rattle.delim_io.specs.Input.{tuple_of_line};

use crate::cut::cut;
use crate::field::{read_bool, read_long};
use crate::first_form::is_plain_line;
use flow_types::field_type::FieldType;
use flow_types::schema::Schema;
use record_codec::encode::write_bytes;
use std::str;

/// Writes the record of a line's row at the front of `out`, and gives its length: `None` exactly where the
/// line isn't one of the first form, and then what stands there is open. The row is one of the schema. No row
/// is made and nothing is allocated: each field is cut, read and written where it lies.
pub fn write_record(line: &[u8], schema: &Schema, delimiter: u8, out: &mut [u8]) -> Option<usize>
    requires { record_limit ≤ length out.old }
    ensures row { MatchOption result
        (tuple_of_line schema.now delimiter line.now ≡ None)
        (λ end. (t : Tuple) × (tuple_of_line schema.now delimiter line.now ≡ Some t)
        × (end ≡ size t) × (out.new ≡ form t ++ drop end out.old)) }
    ensures tuple { IfSome result (λ end. (t : Tuple)
        → tuple_of_line schema.now delimiter line.now ≡ Some t → IsTupleOf schema.now t) }
    ensures space { length out.new ≡ length out.old }
{
    if !is_plain_line(line) {
        return None;
    }
    let fields = schema.fields();
    let last = fields.len() - 1;
    let mut rest = line;
    let mut end = 0;
    for i in 0..last {
        let Some((text, after)) = cut(rest, delimiter) else {
            return None;
        };
        match write_field(out, end, fields[i], text) {
            None => return None,
            Some(behind) => end = behind,
        }
        rest = after;
    }
    match cut(rest, delimiter) {
        Some(_) => None,
        None => write_field(out, end, fields[last], rest),
    }
}

/// Writes the form of a field's value from a place on, and gives the place behind it: `None` exactly where the
/// text has no value of the field's type.
fn write_field(out: &mut [u8], start: usize, field: FieldType, text: &[u8]) -> Option<usize>
    requires bounded { IsTrue (is_bounded field) }
    requires room { start + width field ≤ length out.old }
    ensures value { MatchOption result
        (field_value field text.now ≡ None)
        (λ end. (v : Value) × (field_value field text.now ≡ Some v)
        × (end ≡ start + length (value_form v)) × (end ≤ start + width field)
        × (out.new ≡ take start out.old ++ value_form v ++ drop end out.old)) }
    ensures space { length out.new ≡ length out.old }
{
    match field {
        FieldType::Long => match read_long(text) {
            None => None,
            Some(n) => Some(write_bytes(out, start, &n.to_be_bytes())),
        },
        FieldType::Bool => match read_bool(text) {
            None => None,
            Some(b) => Some(write_bytes(out, start, &[u8::from(b)])),
        },
        FieldType::Str(bound) => write_text(out, start, bound, text),
    }
}

/// The same of a text: its length in two bytes, and its bytes.
#[tactic(auto, using(crate::proofs::FieldLemmas::text_found, crate::proofs::FieldLemmas::text_invalid))]
fn write_text(out: &mut [u8], start: usize, bound: u16, text: &[u8]) -> Option<usize>
    requires bounded { bound ≤ text_limit }
    requires room { start + (bound + 2) ≤ length out.old }
    ensures value { MatchOption result
        (text_value bound text.now ≡ None)
        (λ end. (text_value bound text.now ≡ Some text.now)
        × (end ≡ start + length (value_form (value.Str text.now))) × (end ≤ start + (bound + 2))
        × (out.new ≡ take start out.old ++ value_form (value.Str text.now) ++ drop end out.old)) }
    ensures space { length out.new ≡ length out.old }
{
    if text.len() > usize::from(bound) || str::from_utf8(text).is_err() {
        return None;
    }
    let middle = write_bytes(out, start, &(text.len() as u16).to_be_bytes());
    Some(write_bytes(out, middle, text))
}
