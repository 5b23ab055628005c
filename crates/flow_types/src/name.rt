ghost use Rattle.std.specs.Prelude.{◌≡◌, IfOk, IsTrue, string_bytes, length};
ghost use Rattle.std.specs.Option.{SomeIff};
ghost use Rattle.flow_types.specs.Names.{is_letter, is_name_byte, is_name};
ghost use Rattle.std.specs.List.{list_all};

use flow_outside::failure::Memory;
use std::alloc::Global;
use std::marker::Model;

/// The name of a node: an ASCII letter or `_`, and then at most 31 ASCII letters, digits or `_`. It
/// is seen as its bytes.
#[derive(Debug, Drop)]
pub struct Name {
    text: String,
}

impl Model for Name {
    ghost use Rattle.std.specs.Prelude.{ℕ, List, IsTrue, string_bytes};
    ghost use Rattle.flow_types.specs.Names.{is_name};

    ghost Value = { List ℕ };

    ghost view = { λ n. string_bytes n.text };

    ghost invariant = { λ n. IsTrue (is_name (string_bytes n.text)) };
}

impl Name {
    /// The name, or `None` exactly where the text hasn't a name's form. It keeps the text as it is.
    pub fn of(text: String) -> Option<Name>
        ensures { SomeIff result (IsTrue (is_name (string_bytes text))) (string_bytes text) }
    {
        if !is_name(text.as_bytes()) {
            return None;
        }
        Some(Name { text })
    }

    /// The name's text, which has a name's form.
    pub fn as_str(&self) -> &str
        ensures value { result.now ≡ self.now }
        ensures form { IsTrue (is_name self.now) }
    {
        self.text.as_str()
    }

    /// A copy; the cost is one allocation of at most 32 bytes.
    pub fn copy(&self, alloc: Global) -> Result<Name, Memory>
        ensures { IfOk result (λ n. n ≡ self.now) }
    {
        match String::from_str(alloc, self.text.as_str()) {
            Ok(text) => Ok(Name { text }),
            Err(_) => Err(Memory),
        }
    }
}

/// Whether a text has a name's form; the cost is one look at each of at most 32 bytes.
pub fn is_name(text: &[u8]) -> bool
    ensures { result ≡ is_name text.now }
{
    match text {
        [] => false,
        [first, rest @ ..] => is_letter(*first) && rest.len() <= 31 && all_name_bytes(rest),
    }
}

/// Whether a byte is an ASCII letter or `_`.
fn is_letter(byte: u8) -> bool
    ensures { result ≡ is_letter byte }
{
    (65 <= byte && byte <= 90) || (97 <= byte && byte <= 122) || byte == 95
}

/// Whether a byte is an ASCII letter or digit, or `_`.
fn is_name_byte(byte: u8) -> bool
    ensures { result ≡ is_name_byte byte }
{
    is_letter(byte) || (48 <= byte && byte <= 57)
}

fn all_name_bytes(bytes: &[u8]) -> bool
    ensures { result ≡ list_all is_name_byte bytes.now }
{
    bytes.iter().all(|byte| is_name_byte(*byte))
}
