ghost use Rattle.std.specs.Prelude.{◌≡◌, string_bytes};
ghost use Rattle.std.specs.Str.{bytes_eq};

use std::marker::Model;

/// The name of a file: any text.
#[derive(Debug, Drop)]
pub struct FileName {
    text: String,
}

impl Model for FileName {
    ghost use Rattle.std.specs.Prelude.{ℕ, List, string_bytes};

    ghost Value = { List ℕ };

    ghost view = { λ name. string_bytes name.text };
}

impl FileName {
    /// The name that is this text.
    pub fn of(text: String) -> FileName
        ensures { result ≡ string_bytes text }
    {
        FileName { text }
    }

    /// The text of the name.
    pub fn as_str(&self) -> &str
        ensures { result.now ≡ self.now }
    {
        self.text.as_str()
    }

    /// Whether the name is this text.
    pub fn is(&self, text: &str) -> bool
        ensures { result ≡ bytes_eq self.now text.now }
    {
        self.text.as_str() == text
    }
}
