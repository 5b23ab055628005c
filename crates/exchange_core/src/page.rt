ghost use Rattle.std.specs.Prelude.{◌≡◌};

use std::marker::Model;

/// A page that one worker hands to another. The exchange passes it on and never looks into it. To a
/// contract it is the list of its bytes.
#[derive(Debug, Drop)]
pub struct Page {
    bytes: Vec<u8>,
}

impl Model for Page {
    ghost use Rattle.std.specs.Prelude.{ℕ, List};

    ghost Value = { List ℕ };

    ghost view = { λ p. p.bytes.items };
}

impl Page {
    /// The page that has these bytes. They are moved in, and nothing is copied.
    pub fn of(bytes: Vec<u8>) -> Page
        ensures { result ≡ bytes.items }
    {
        Page { bytes }
    }

    /// The page's bytes.
    pub fn bytes(&self) -> &[u8]
        ensures { result.now ≡ self.now }
    {
        self.bytes.as_slice()
    }
}
