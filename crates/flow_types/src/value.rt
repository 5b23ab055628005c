ghost use Rattle.std.specs.Prelude.{◌≡◌, IfOk};
ghost use Rattle.flow_types.specs.Values.{value_cmp};

use crate::text::Text;
use flow_outside::failure::Memory;
use std::alloc::Global;
use std::cmp::Ordering;

/// A value of a field.
#[derive(Debug, Drop)]
pub enum Value {
    /// A number from -2^63 to 2^63 - 1, as Java's long.
    Long(i64),
    /// False or true.
    Bool(bool),
    /// A text of at most 16,382 bytes.
    Str(Text),
}

/// The order of values: Longs by number, false before true, texts by their bytes with a proper
/// prefix first. So that the order is total, each Long stands before each Bool, and each Bool before
/// each text. The bytes are compared in place, up to the first that differs.
pub fn compare(a: &Value, b: &Value) -> Ordering
    ensures { result ≡ value_cmp a.now b.now }
{
    match a {
        Value::Long(x) => match b {
            Value::Long(y) => x.cmp(y),
            Value::Bool(_) | Value::Str(_) => Ordering::Less,
        },
        Value::Bool(x) => match b {
            Value::Long(_) => Ordering::Greater,
            Value::Bool(y) => x.cmp(y),
            Value::Str(_) => Ordering::Less,
        },
        Value::Str(x) => match b {
            Value::Long(_) | Value::Bool(_) => Ordering::Greater,
            Value::Str(y) => x.as_str().as_bytes().cmp(y.as_str().as_bytes()),
        },
    }
}

impl Value {
    /// A copy; only a text allocates.
    pub fn copy(&self, alloc: Global) -> Result<Value, Memory>
        ensures { IfOk result (λ v. v ≡ self.now) }
    {
        match self {
            Value::Long(n) => Ok(Value::Long(*n)),
            Value::Bool(b) => Ok(Value::Bool(*b)),
            Value::Str(text) => Ok(Value::Str(text.copy(alloc)?)),
        }
    }
}
