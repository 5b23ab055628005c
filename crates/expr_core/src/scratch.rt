ghost use Rattle.std.specs.Prelude.{◌≡◌, IfOk, length};
ghost use Rattle.expr_core.specs.Needs.{scratch_bytes};

use flow_outside::failure::Memory;
use std::alloc::Global;

/// The bytes of a scratch. A new record takes at most 16,384 of them. While a column or a test is
/// evaluated, each list of its expression holds at most one text of at most 16,382 bytes, and at most
/// 32 lists stand inside one another: so 33 times 16,384, 540,672 in all, are enough, and the rest of
/// the 36 is spare.
pub const SCRATCH_BYTES: usize = 589_824;

/// Bytes to evaluate expressions in, for any expressions within their limits, one after the other.
#[derive(Drop)]
pub struct Scratch {
    pub(crate) bytes: Vec<u8>,
    ghost full: { length bytes.items ≡ scratch_bytes },
}

impl Scratch {
    /// A scratch; the cost is one allocation, of all of its bytes. Evaluating takes no more.
    pub fn open(alloc: Global) -> Result<Scratch, Memory> {
        let bytes = zeros(alloc, SCRATCH_BYTES)?;
        Ok(Scratch { bytes })
    }
}

/// So many zero bytes.
fn zeros(alloc: Global, len: usize) -> Result<Vec<u8>, Memory>
    ensures { IfOk result (λ v. length v.items ≡ len) }
{
    Ok(vec![in alloc; 0; len]?)
}
