ghost use Rattle.std.specs.Prelude.{◌≡◌, ◌≤◌, true};
ghost use Rattle.flow_types.specs.Types.{width, has_one_width, is_bounded, fits_field};

use crate::text::TEXT_LIMIT;
use crate::value::Value;

/// The type of a field.
#[derive(Clone, Copy, Debug, PartialEq, Eq)]
pub enum FieldType {
    /// A number from -2^63 to 2^63 - 1, as Java's long.
    Long,
    /// True or false.
    Bool,
    /// A text of at most so many bytes.
    Str(u16),
}

impl FieldType {
    /// The bytes that the widest value of the field takes in a record: 8 for a Long, 1 for a Bool,
    /// and for a text its bound and 2 for its length.
    pub fn width(self) -> u32
        ensures value { result ≡ width self }
        ensures small { result ≤ 65_537 }
    {
        match self {
            FieldType::Long => 8,
            FieldType::Bool => 1,
            FieldType::Str(bound) => u32::from(bound) + 2,
        }
    }

    /// Whether every value of the field takes as many bytes in a record: all but texts do, at most 8.
    pub fn has_one_width(self) -> bool
        ensures value { result ≡ has_one_width self }
        ensures few { result ≡ true → width self ≤ 8 }
    {
        match self {
            FieldType::Long | FieldType::Bool => true,
            FieldType::Str(_) => false,
        }
    }

    /// Whether the field is no text, or one whose bound is at most 16,382.
    pub fn is_bounded(self) -> bool
        ensures { result ≡ is_bounded self }
    {
        match self {
            FieldType::Long | FieldType::Bool => true,
            FieldType::Str(bound) => usize::from(bound) <= TEXT_LIMIT,
        }
    }

    /// Whether a value has this field's kind and, where it is a text, no more bytes than the bound.
    pub fn fits(self, value: &Value) -> bool
        ensures { result ≡ fits_field self value.now }
    {
        match self {
            FieldType::Long => matches!(value, Value::Long(_)),
            FieldType::Bool => matches!(value, Value::Bool(_)),
            FieldType::Str(bound) => match value {
                Value::Str(text) => text.as_str().len() <= usize::from(bound),
                _ => false,
            },
        }
    }
}
