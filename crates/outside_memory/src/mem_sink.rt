ghost use Rattle.std.specs.Prelude.{◌≡◌, ◌+◌, ◌<◌, ◌≤◌, ◌++◌, [], Some, IfOk, OnErr, length, take, min};
ghost use Rattle.flow_outside.specs.Causes.{HasCause};

use flow_outside::failure::{Failed, count_fault};
use flow_outside::sink::Sink;
use std::alloc::Global;

/// A text in memory, with room for so many bytes. It tells its bytes.
///
/// A write takes what there is room for. It fails where there is room for nothing, and where memory
/// is wanting.
#[derive(Debug, Drop)]
pub struct MemSink {
    text: Vec<u8>,
    /// How many more bytes there is room for.
    room: u64,
    faults: u64,
}

impl MemSink {
    /// An empty text with room for this many bytes.
    pub fn new(alloc: Global, room: u64) -> MemSink
        ensures tells { ⟦<MemSink as Sink>⟧.told result ≡ Some [] }
        ensures no_fault { ⟦<MemSink as Sink>⟧.fault_count result ≡ 0 }
        ensures room { result.room ≡ room }
    {
        MemSink {
            text: Vec::new(alloc),
            room,
            faults: 0,
        }
    }

    /// The bytes that were taken.
    pub fn text(&self) -> &[u8]
        ensures { ⟦<MemSink as Sink>⟧.told self.now ≡ Some result.now }
    {
        self.text.as_slice()
    }
}

impl Sink for MemSink {
    ghost told = { λ sink. Some sink.text.items };

    ghost fault_count = { λ sink. sink.faults };

    fn write(&mut self, bytes: &[u8]) -> Result<usize, Failed>
        ensures cause { HasCause self.old.faults self.new.faults result }
        ensures most { IfOk result (λ count. count ≡ min self.old.room (length bytes.now)) }
        ensures some { IfOk result (λ count. 0 < length bytes.now → 0 < count) }
        ensures appended { IfOk result
            (λ count. self.new.text.items ≡ self.old.text.items ++ take count bytes.now) }
        ensures room { IfOk result (λ count. self.new.room + count ≡ self.old.room) }
        ensures refused { OnErr result
            ((self.new.text.items ≡ self.old.text.items) × (self.new.room ≡ self.old.room)) }
    {
        let count = self.room.min(bytes.len() as u64) as usize;
        let full = count == 0 && !bytes.is_empty();
        if full || self.text.extend_from_slice(&bytes[..count]).is_err() {
            return Err(count_fault(&mut self.faults));
        }
        self.room -= count as u64;
        Ok(count)
    }

    fn faults(&self) -> u64 {
        self.faults
    }
}
