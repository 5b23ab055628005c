ghost use Rattle.std.specs.Prelude.{◌≡◌, OnOk, OnErr};
ghost use Rattle.flow_outside.specs.Causes.{HasCause};
ghost use Rattle.flow_outside.specs.Told.{Appends, AppendsProperPrefix};

use crate::failure::Failed;
use crate::sink::Sink;

/// Writes all of `bytes`, piece after piece. After `Failed` a proper prefix of them was taken.
pub fn write_all<K: Sink>(sink: &mut K, bytes: &[u8]) -> Result<(), Failed>
    ensures cause { HasCause (K.fault_count sink.old) (K.fault_count sink.new) result }
    ensures written { OnOk result (Appends (K.told sink.old) (K.told sink.new) bytes.now) }
    ensures broken { OnErr result (AppendsProperPrefix (K.told sink.old) (K.told sink.new) bytes.now) }
{
    let mut at = 0;
    while at < bytes.len() {
        at += sink.write(&bytes[at..])?;
    }
    Ok(())
}
