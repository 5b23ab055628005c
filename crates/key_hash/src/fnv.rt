//! FNV-1a with 64 bits, the hash of bytes by Fowler, Noll and Vo.
ghost use Rattle.std.specs.Prelude.{◌≡◌, fold};
ghost use Rattle.flow_types.specs.Hash.{hash_more};

/// The hash of no bytes.
pub const OFFSET_BASIS: u64 = 0xcbf2_9ce4_8422_2325;

/// The factor of each step.
const PRIME: u64 = 0x0000_0100_0000_01b3;

/// A byte hashed after others: exclusive-ored in, and then multiplied modulo 2^64.
pub fn hash_byte(hash: u64, byte: u8) -> u64
    ensures { result ≡ hash_more hash byte }
{
    (hash ^ u64::from(byte)).wrapping_mul(PRIME)
}

/// Bytes hashed after others.
pub fn hash_bytes(hash: u64, bytes: &[u8]) -> u64
    ensures { result ≡ fold hash_more hash bytes.now }
{
    let mut so_far = hash;
    for byte in bytes {
        so_far = hash_byte(so_far, *byte);
    }
    so_far
}
