ghost use Rattle.std.specs.Prelude.{◌≡◌, ◌+◌, ◌<◌, ℕ, ◌++◌, ◌∷◌, [], Some, None, IfSome, IfNone, OnSome, length, vec_len, slice_set, option_to_list};
ghost use Rattle.flow_outside.specs.Blocks.{IsLive, HoldsPage, Becomes, IsGiven};
ghost use Rattle.outside_memory.specs.Spilled.{blocks_in, contents, slot_of};

use std::alloc::Global;

/// What a disk in memory has of a block.
#[derive(Debug, Drop)]
pub(crate) enum Slot {
    /// The block isn't live. The place of the slot that was freed before it, where there is one.
    Free { next: Option<usize> },
    /// The block is live, and its bytes are open.
    Open,
    /// The block is live, and holds this page.
    Holds(Vec<u8>),
}

/// The blocks of a disk in memory, counted from 1. A block that was freed last is given next.
#[derive(Debug, Drop)]
pub(crate) struct SpillBlocks {
    slots: Vec<Slot>,
    /// The place of the slot that was freed last, where there is one.
    freed: Option<usize>,
}

impl SpillBlocks {
    /// No block is live.
    pub(crate) fn new(alloc: Global) -> SpillBlocks
        ensures { result.slots.items ≡ [] }
    {
        SpillBlocks {
            slots: Vec::new(alloc),
            freed: None,
        }
    }

    /// Gives a block that isn't live. None where memory for it is wanting.
    pub(crate) fn give(&mut self) -> Option<u64>
        ensures given { IfSome result (λ block.
            IsGiven block (blocks_in self.old.slots.items) (blocks_in self.new.slots.items)) }
        ensures none { IfNone result (blocks_in self.new.slots.items ≡ blocks_in self.old.slots.items) }
    {
        if let Some(place) = self.freed {
            if let Some(next) = open_freed(&mut self.slots, place) {
                self.freed = next;
                return Some(place as u64 + 1);
            }
        }
        let place = self.slots.len();
        match self.slots.push(Slot::Open) {
            Ok(()) => Some(place as u64 + 1),
            Err(_) => None,
        }
    }

    /// Sets the slot of a live block.
    pub(crate) fn set(&mut self, block: u64, slot: Slot)
        requires { IsLive (blocks_in self.old.slots.items) block }
        ensures { Becomes block (contents slot) (blocks_in self.old.slots.items) (blocks_in self.new.slots.items) }
    {
        let place = (block - 1) as usize;
        self.slots[place] = slot;
    }

    /// Ends the life of a block.
    pub(crate) fn free(&mut self, block: u64)
        requires { IsLive (blocks_in self.old.slots.items) block }
        ensures { Becomes block None (blocks_in self.old.slots.items) (blocks_in self.new.slots.items) }
    {
        let next = self.freed;
        self.set(block, Slot::Free { next });
        self.freed = Some((block - 1) as usize);
    }

    /// Copies the page of a block, which has the length of `page`.
    pub(crate) fn read(&self, block: u64, page: &mut [u8])
        requires { HoldsPage (blocks_in self.now.slots.items) block (length page.old) }
        ensures { blocks_in self.now.slots.items block ≡ Some (Some page.new) }
    {
        match self.slots.get((block - 1) as usize) {
            Some(Slot::Holds(bytes)) => page.copy_from_slice(bytes.as_slice()),
            _ => unreachable!(),
        }
    }
}

/// Opens the slot at a place where it is free, and gives what stood in it. None where it isn't free.
fn open_freed(slots: &mut Vec<Slot>, place: usize) -> Option<Option<usize>>
    ensures opened { OnSome result (IsGiven (place + 1) (blocks_in slots.old.items) (blocks_in slots.new.items)) }
    ensures within { OnSome result (place < vec_len slots.old) }
    ensures none { IfNone result (slots.new.items ≡ slots.old.items) }
{
    let next = match slots.get(place) {
        Some(Slot::Free { next }) => *next,
        _ => return None,
    };
    slots[place] = Slot::Open;
    Some(next)
}
