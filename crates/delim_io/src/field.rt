ghost use Rattle.std.specs.Prelude.{◌≡◌, ℕ, ◌^◌, ◌≤◌, [], ◌∷◌, ◌++◌, IsTrue, IfOk, OnOk, pos, neg_ℤ};
ghost use Rattle.flow_types.specs.declared.value.Value.{Value};
ghost use Rattle.flow_types.specs.Types.{is_bounded};
ghost use Rattle.flow_types.specs.Limits.{text_limit};
ghost use Rattle.delim_io.specs.Fields.{long_value, bool_value, text_value, field_value};

use crate::input_fault::InputFault;
use flow_types::decimal::number_up_to;
use flow_types::field_type::FieldType;
use flow_types::text::Text;
use flow_types::value::Value;
use std::alloc::Global;
use std::str;

/// Adds the value of a field's text to the values before it.
pub(crate) fn push_value(
    alloc: Global,
    values: &mut Vec<Value>,
    field: FieldType,
    text: &[u8],
) -> Result<(), InputFault>
    requires { IsTrue (is_bounded field) }
    ensures pushed { OnOk result ((v : Value)
        × (field_value field text.now ≡ Some v)
        × (values.new.items ≡ values.old.items ++ v ∷ [])) }
    ensures refused { result ≡ Err InputFault.NotBuilt → field_value field text.now ≡ None }
{
    let value = read_value(alloc, field, text)?;
    match values.push(value) {
        Ok(()) => Ok(()),
        Err(_) => Err(InputFault::Memory),
    }
}

/// The value of a field's text. Only a text allocates.
fn read_value(alloc: Global, field: FieldType, text: &[u8]) -> Result<Value, InputFault>
    requires { IsTrue (is_bounded field) }
    ensures ok { IfOk result (λ v. field_value field text.now ≡ Some v) }
    ensures refused { result ≡ Err InputFault.NotBuilt → field_value field text.now ≡ None }
{
    match field {
        FieldType::Long => match read_long(text) {
            None => Err(InputFault::NotBuilt),
            Some(n) => Ok(Value::Long(n)),
        },
        FieldType::Bool => match read_bool(text) {
            None => Err(InputFault::NotBuilt),
            Some(b) => Ok(Value::Bool(b)),
        },
        FieldType::Str(bound) => Ok(Value::Str(read_text(alloc, bound, text)?)),
    }
}

#[tactic(auto, using(crate::proofs::FieldLemmas::text_found, crate::proofs::FieldLemmas::text_invalid))]
fn read_text(alloc: Global, bound: u16, text: &[u8]) -> Result<Text, InputFault>
    requires { bound ≤ text_limit }
    ensures ok { IfOk result (λ t. text_value bound text.now ≡ Some t) }
    ensures refused { result ≡ Err InputFault.NotBuilt → text_value bound text.now ≡ None }
{
    if text.len() > usize::from(bound) {
        return Err(InputFault::NotBuilt);
    }
    let Ok(valid) = str::from_utf8(text) else {
        return Err(InputFault::NotBuilt);
    };
    let Ok(owned) = String::from_str(alloc, valid) else {
        return Err(InputFault::Memory);
    };
    match Text::of(owned) {
        None => Err(InputFault::NotBuilt),
        Some(text) => Ok(text),
    }
}

/// A Bool: exactly `true` or `false`.
pub(crate) fn read_bool(text: &[u8]) -> Option<bool>
    ensures { result ≡ bool_value text.now }
{
    if text == b"true".as_slice() {
        Some(true)
    } else if text == b"false".as_slice() {
        Some(false)
    } else {
        None
    }
}

/// A Long: an optional `-` and digits, with a value in range.
pub(crate) fn read_long(text: &[u8]) -> Option<i64>
    ensures { result ≡ long_value text.now }
{
    match text {
        [] => None,
        [b'-', digits @ ..] => match number_up_to(digits, 1 << 63) {
            None => None,
            Some(n) => Some(negative(n)),
        },
        _ => match number_up_to(text, (1 << 63) - 1) {
            None => None,
            Some(n) => Some(n as i64),
        },
    }
}

/// The number below zero that lies as far from it.
fn negative(n: u64) -> i64
    requires { n ≤ 2 ^ 63 }
    ensures { result ≡ neg_ℤ (pos n) }
{
    match n {
        0 => 0,
        _ => -1 - (n - 1) as i64,
    }
}
