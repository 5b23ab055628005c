ghost use Rattle.std.specs.Prelude.{◌≡◌, ℕ, List, IsTrue, length};
ghost use Rattle.flow_types.specs.Values.{long_of, flag_of, bytes_of};
ghost use Rattle.expr_core.specs.Places.{value_in, text_bytes, is_inside, is_text_inside, held, held_by};

use flow_types::value::Value;

/// Where a text's bytes begin.
#[derive(Clone, Copy)]
pub(crate) enum Origin<'e> {
    /// In the record, from this place on. Of two records the right one's bytes follow the left one's.
    Record(u16),
    /// At the front of a literal.
    Literal(&'e [u8]),
    /// At the front of the room that the expression was given in the scratch.
    Room,
}

/// A text that lies somewhere. Nothing of it is copied.
#[derive(Clone, Copy)]
pub(crate) struct TextPlace<'e> {
    /// Where it begins.
    pub origin: Origin<'e>,
    /// How many bytes it has.
    pub len: u16,
}

/// The value of an expression, as it is seen where it lies.
#[derive(Clone, Copy)]
pub(crate) enum Seen<'e> {
    /// A Long's number.
    Long(i64),
    /// A Bool.
    Bool(bool),
    /// A Str.
    Str(TextPlace<'e>),
}

impl<'e> TextPlace<'e> {
    /// How many bytes at the front of the room it takes.
    pub(crate) fn held(&self) -> usize
        ensures { result ≡ held_by self.now.len self.now.origin }
    {
        match self.origin {
            Origin::Record(_) | Origin::Literal(_) => 0,
            Origin::Room => usize::from(self.len),
        }
    }
}

impl<'e> Seen<'e> {
    /// How many bytes at the front of the room it takes.
    pub(crate) fn held(&self) -> usize
        ensures { result ≡ held self.now }
    {
        match self {
            Seen::Long(_) | Seen::Bool(_) => 0,
            Seen::Str(text) => text.held(),
        }
    }

    /// The number of a Long; 0 of another kind.
    pub(crate) fn long(&self) -> i64
        ensures { (bytes room : List ℕ) → result ≡ long_of (value_in bytes room self.now) }
    {
        match self {
            Seen::Long(number) => *number,
            Seen::Bool(_) | Seen::Str(_) => 0,
        }
    }

    /// The truth of a Bool; false of another kind.
    pub(crate) fn flag(&self) -> bool
        ensures { (bytes room : List ℕ) → result ≡ flag_of (value_in bytes room self.now) }
    {
        match self {
            Seen::Bool(flag) => *flag,
            Seen::Long(_) | Seen::Str(_) => false,
        }
    }

    /// The text of a Str; an empty one of another kind.
    pub(crate) fn text(&self) -> TextPlace<'e>
        ensures bytes { (bytes room : List ℕ) → text_bytes bytes room result ≡ bytes_of (value_in bytes room self.now) }
        ensures inside { (bytes room : List ℕ) → IsTrue (is_inside bytes room self.now)
            → IsTrue (is_text_inside bytes room result) }
        ensures held { held_by result.len result.origin ≡ held self.now }
    {
        match self {
            Seen::Str(text) => *text,
            Seen::Long(_) | Seen::Bool(_) => TextPlace {
                origin: Origin::Room,
                len: 0,
            },
        }
    }
}

/// A literal, where it lies.
pub(crate) fn literal(value: &Value) -> Seen<'_>
    ensures value { (bytes room : List ℕ) → value_in bytes room result ≡ value.now }
    ensures inside { (bytes room : List ℕ) → IsTrue (is_inside bytes room result) }
    ensures held { held result ≡ 0 }
{
    match value {
        Value::Long(number) => Seen::Long(*number),
        Value::Bool(flag) => Seen::Bool(*flag),
        Value::Str(text) => {
            let bytes = text.as_str().as_bytes();
            Seen::Str(TextPlace {
                origin: Origin::Literal(bytes),
                len: bytes.len() as u16,
            })
        }
    }
}
