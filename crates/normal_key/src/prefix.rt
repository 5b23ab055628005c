ghost use Rattle.std.specs.Prelude.{◌≡◌, ◌+◌, ◌≤◌, ◌++◌, nat_le, [], ◌∷◌, length, take, drop};
ghost use Rattle.normal_key.specs.NormalForms.{Adds, filled};

use std::marker::Model;

/// The first bytes of what is written, seen as their list: at most 16, and what is written behind them is
/// let go.
#[derive(Drop)]
pub(crate) struct Prefix {
    bytes: [u8; 16],
    len: usize,
}

impl Model for Prefix {
    ghost use Rattle.std.specs.Prelude.{◌≡◌, ◌≤◌, ℕ, List, take};
    ghost use Rattle.normal_key.specs.NormalForms.{filled};

    ghost Value = { List ℕ };

    ghost view = { λ p. take p.len p.bytes };

    ghost invariant = { λ p. (p.len ≤ 16) × (p.bytes ≡ filled (take p.len p.bytes)) };
}

impl Prefix {
    /// No bytes.
    pub(crate) fn new() -> Prefix
        ensures { result ≡ [] }
    {
        Prefix {
            bytes: [0; 16],
            len: 0,
        }
    }

    /// Whether there are 16, so that no more are kept.
    pub(crate) fn is_full(&self) -> bool
        ensures { result ≡ nat_le 16 (length self.now) }
    {
        self.len >= 16
    }

    /// Adds a byte, where there are fewer than 16.
    pub(crate) fn push(&mut self, byte: u8)
        ensures { Adds self.old self.new (byte ∷ []) }
    {
        if self.len < 16 {
            self.bytes[self.len] = byte;
            self.len += 1;
        }
    }

    /// How many bytes there are.
    pub(crate) fn len(&self) -> usize
        ensures value { result ≡ length self.now }
        ensures most { result ≤ 16 }
    {
        self.len
    }

    /// Adds bytes at once, where all of them fit.
    pub(crate) fn extend(&mut self, more: &[u8])
        requires { length self.old + length more.now ≤ 16 }
        ensures { Adds self.old self.new more.now }
    {
        put(&mut self.bytes, self.len, more);
        self.len += more.len();
    }

    /// The bytes, filled with zero bytes up to 16.
    pub(crate) fn into_bytes(self) -> [u8; 16]
        ensures { result ≡ filled self }
    {
        self.bytes
    }
}

/// Writes bytes over others from a place on.
fn put(out: &mut [u8], start: usize, bytes: &[u8])
    requires { start + length bytes.now ≤ length out.old }
    ensures { out.new ≡ take start out.old ++ bytes.now ++ drop (start + length bytes.now) out.old }
{
    out[start..start + bytes.len()].copy_from_slice(bytes);
}
