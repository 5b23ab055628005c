ghost use Rattle.std.specs.Prelude.{◌≡◌, ◌≤◌, fold, length};
ghost use Rattle.flow_types.specs.declared.value.Value.TheVariants as value;
ghost use Rattle.flow_types.specs.Limits.{text_limit};
ghost use Rattle.flow_types.specs.Tuples.{field, key_of};
ghost use Rattle.flow_types.specs.Records.{value_form};
ghost use Rattle.flow_types.specs.Hash.{hash_more, part};

use flow_types::value::Value;

/// The hash of no bytes.
const BASIS: u64 = 0xcbf2_9ce4_8422_2325;

/// The factor of each step.
const PRIME: u64 = 0x0000_0100_0000_01b3;

/// The worker of so many to which a tuple's key belongs: the FNV-1a hash of the key's record modulo
/// their number. The bytes are hashed one by one from the values; a field past the tuple's end is the
/// Long 0.
pub fn part_of(key: &[u16], tuple: &[Value], workers: u32) -> u64
    requires { 1 ≤ workers }
    ensures { result ≡ part (key_of key.now tuple.now) workers }
{
    let mut hash = BASIS;
    for number in key {
        hash = hash_field(hash, tuple, *number);
    }
    hash % u64::from(workers)
}

/// A field's record hashed after others, by the field's number from 0.
fn hash_field(hash: u64, tuple: &[Value], number: u16) -> u64
    ensures { result ≡ fold hash_more hash (value_form (field number tuple.now)) }
{
    let place = usize::from(number);
    if place < tuple.len() {
        hash_value(hash, &tuple[place])
    } else {
        hash_value(hash, &Value::Long(0))
    }
}

/// A value's record hashed after others.
fn hash_value(hash: u64, value: &Value) -> u64
    ensures { result ≡ fold hash_more hash (value_form value.now) }
{
    match value {
        Value::Long(number) => hash_bytes(hash, &number.to_be_bytes()),
        Value::Bool(flag) => hash_byte(hash, u8::from(*flag)),
        Value::Str(text) => hash_text(hash, text.as_str()),
    }
}

/// A text's record hashed after others: the length in two bytes, the high one first, and the text.
fn hash_text(hash: u64, text: &str) -> u64
    requires { length text.now ≤ text_limit }
    ensures { result ≡ fold hash_more hash (value_form (value.Str text.now)) }
{
    let length = (text.len() as u16).to_be_bytes();
    let started = hash_bytes(hash, &length);
    hash_bytes(started, text.as_bytes())
}

/// Bytes hashed after others.
fn hash_bytes(hash: u64, bytes: &[u8]) -> u64
    ensures { result ≡ fold hash_more hash bytes.now }
{
    let mut so_far = hash;
    for byte in bytes {
        so_far = hash_byte(so_far, *byte);
    }
    so_far
}

/// A byte hashed after others.
fn hash_byte(hash: u64, byte: u8) -> u64
    ensures { result ≡ hash_more hash byte }
{
    (hash ^ u64::from(byte)).wrapping_mul(PRIME)
}
