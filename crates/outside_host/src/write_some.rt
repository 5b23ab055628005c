ghost use Rattle.std.specs.Prelude.{◌≡◌, ◌<◌, ◌≤◌, IfOk, length};
ghost use Rattle.flow_outside.specs.Causes.{HasCause};

use flow_outside::failure::{Failed, count_fault};

/// Writes the first bytes of `bytes`, and gives their number. Where that is none, though there are
/// some, the write has failed. A failure is counted.
pub(crate) fn write_some<P: Print>(out: &P, faults: &mut u64, bytes: &[u8]) -> Result<usize, Failed>
    ensures cause { HasCause faults.old faults.new result }
    ensures within { IfOk result (λ count. count ≤ length bytes.now) }
    ensures some { IfOk result (λ count. 0 < length bytes.now → 0 < count) }
{
    match out.write_some(bytes) {
        Ok(count) if count > 0 || bytes.is_empty() => Ok(count),
        _ => Err(count_fault(faults)),
    }
}
