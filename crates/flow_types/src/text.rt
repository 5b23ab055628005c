ghost use Rattle.std.specs.Prelude.{◌≡◌, ◌≤◌, IfOk, string_bytes, string_len, length};
ghost use Rattle.std.specs.Option.{SomeIff};
ghost use Rattle.flow_types.specs.Limits.{text_limit};

use flow_outside::failure::Memory;
use std::alloc::Global;
use std::marker::Model;

/// The most bytes of a text.
pub const TEXT_LIMIT: usize = 16_382;

/// A text of at most 16,382 bytes of UTF-8, seen as its bytes.
#[derive(Debug, Drop)]
pub struct Text {
    text: String,
}

impl Model for Text {
    ghost use Rattle.std.specs.Prelude.{ℕ, List, ◌≤◌, string_bytes, string_len};
    ghost use Rattle.flow_types.specs.Limits.{text_limit};

    ghost Value = { List ℕ };

    ghost view = { λ t. string_bytes t.text };

    ghost invariant = { λ t. string_len t.text ≤ text_limit };
}

impl Text {
    /// The text, or `None` exactly where it has more than 16,382 bytes. It keeps the text as it is.
    pub fn of(text: String) -> Option<Text>
        ensures { SomeIff result (string_len text ≤ text_limit) (string_bytes text) }
    {
        if text.len() > TEXT_LIMIT {
            return None;
        }
        Some(Text { text })
    }

    /// The text, of at most 16,382 bytes.
    pub fn as_str(&self) -> &str
        ensures value { result.now ≡ self.now }
        ensures bound { length result.now ≤ text_limit }
    {
        self.text.as_str()
    }

    /// A copy; the cost is one allocation of the text's bytes.
    pub fn copy(&self, alloc: Global) -> Result<Text, Memory>
        ensures { IfOk result (λ t. t ≡ self.now) }
    {
        match String::from_str(alloc, self.text.as_str()) {
            Ok(text) => Ok(Text { text }),
            Err(_) => Err(Memory),
        }
    }
}
