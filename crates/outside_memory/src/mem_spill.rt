ghost use Rattle.std.specs.Prelude.{◌≡◌, ◌↔◌, ◌+◌, ◌^◌, ◌<◌, ◌≤◌, ℕ, Option, Some, None, IfOk, OnOk, OnErr, IsErr, IfSome, IsTrue, length};
ghost use Rattle.flow_outside.specs.Blocks.{Blocks, IsLive, HoldsPage, Becomes, IsGiven};
ghost use Rattle.flow_outside.specs.Causes.{HasCause};
ghost use Rattle.outside_memory.specs.Spilled.{blocks_in};

use crate::spill_blocks::{Slot, SpillBlocks};
use crate::spill_calls::{SpillCall, SpillCalls};
use flow_outside::failure::{Failed, count_fault};
use flow_outside::spill::Spill;
use std::alloc::Global;

/// How many blocks a disk gives in its life.
const BLOCKS: u64 = 1 << 44;

/// A disk in memory. It tells its blocks, which are counted from 1. A block that was freed is given
/// again.
///
/// The listed calls fail, and so does a call that wants memory which isn't there, and `fresh` once
/// the blocks are used up.
#[derive(Debug, Drop)]
pub struct MemSpill {
    alloc: Global,
    blocks: SpillBlocks,
    calls: SpillCalls,
    given: u64,
    faults: u64,
}

impl MemSpill {
    /// A disk that has given no block. The calls in `failing` fail, by their kind and their number
    /// among the calls of that kind, which are counted from 1.
    pub fn new(alloc: Global, failing: Vec<(SpillCall, u64)>) -> MemSpill
        ensures tells { IfSome (⟦<MemSpill as Spill>⟧.told result) (λ blocks. (block : ℕ) → blocks block ≡ None) }
        ensures telling { ⟦<MemSpill as Spill>⟧.told result ≡ Some (blocks_in result.blocks.slots.items) }
        ensures given { ⟦<MemSpill as Spill>⟧.given result ≡ 0 }
        ensures no_fault { ⟦<MemSpill as Spill>⟧.fault_count result ≡ 0 }
        ensures calls { result.calls ≡ record { fresh = 0; puts = 0; gets = 0; failing = failing } }
    {
        MemSpill {
            alloc,
            blocks: SpillBlocks::new(alloc),
            calls: SpillCalls::new(failing),
            given: 0,
            faults: 0,
        }
    }
}

impl Spill for MemSpill {
    ghost use Rattle.outside_memory.specs.SpillCalls.{HasCalledSpill, NextSpillFails};

    ghost told = { λ disk. Some (blocks_in disk.blocks.slots.items) };

    ghost fault_count = { λ disk. disk.faults };

    ghost given = { λ disk. disk.given };

    fn fresh(&mut self) -> Result<u64, Failed>
        ensures cause { HasCause self.old.faults self.new.faults result }
        ensures counted { OnOk result ((self.old.given < 2 ^ 44) × (self.new.given ≡ self.old.given + 1)) }
        ensures granted { IfOk result (λ block.
            IsGiven block (blocks_in self.old.blocks.slots.items) (blocks_in self.new.blocks.slots.items)) }
        ensures refused { OnErr result ((self.new.given ≡ self.old.given)
            × (blocks_in self.new.blocks.slots.items ≡ blocks_in self.old.blocks.slots.items)) }
        ensures called { HasCalledSpill self.old.calls self.new.calls SpillCall.Fresh }
        ensures listed { NextSpillFails self.old.calls SpillCall.Fresh → IsErr result }
        ensures used_up { 2 ^ 44 ≤ self.old.given → IsErr result }
    {
        let listed = self.calls.next_fails(SpillCall::Fresh);
        if listed || self.given >= BLOCKS {
            return Err(count_fault(&mut self.faults));
        }
        match self.blocks.give() {
            Some(block) => {
                self.given += 1;
                Ok(block)
            }
            None => Err(count_fault(&mut self.faults)),
        }
    }

    fn put(&mut self, block: u64, page: &[u8]) -> Result<(), Failed>
        requires { IsLive (blocks_in self.old.blocks.slots.items) block }
        ensures cause { HasCause self.old.faults self.new.faults result }
        ensures counted { self.new.given ≡ self.old.given }
        ensures written { OnOk result (Becomes block (Some (Some page.now))
            (blocks_in self.old.blocks.slots.items) (blocks_in self.new.blocks.slots.items)) }
        ensures refused { OnErr result (Becomes block (Some None)
            (blocks_in self.old.blocks.slots.items) (blocks_in self.new.blocks.slots.items)) }
        ensures called { HasCalledSpill self.old.calls self.new.calls SpillCall.Put }
        ensures listed { NextSpillFails self.old.calls SpillCall.Put → IsErr result }
    {
        let listed = self.calls.next_fails(SpillCall::Put);
        match copy_unless(listed, self.alloc, page) {
            Some(bytes) => {
                self.blocks.set(block, Slot::Holds(bytes));
                Ok(())
            }
            None => {
                self.blocks.set(block, Slot::Open);
                Err(count_fault(&mut self.faults))
            }
        }
    }

    fn get(&mut self, block: u64, page: &mut [u8]) -> Result<(), Failed>
        requires { HoldsPage (blocks_in self.old.blocks.slots.items) block (length page.old) }
        ensures cause { HasCause self.old.faults self.new.faults result }
        ensures counted { self.new.given ≡ self.old.given }
        ensures tells { self.new.blocks ≡ self.old.blocks }
        ensures read { OnOk result (blocks_in self.old.blocks.slots.items block ≡ Some (Some page.new)) }
        ensures called { HasCalledSpill self.old.calls self.new.calls SpillCall.Get }
        ensures fails { IsErr result ↔ NextSpillFails self.old.calls SpillCall.Get }
    {
        if self.calls.next_fails(SpillCall::Get) {
            return Err(count_fault(&mut self.faults));
        }
        self.blocks.read(block, page);
        Ok(())
    }

    fn free(&mut self, block: u64)
        requires { IsLive (blocks_in self.old.blocks.slots.items) block }
        ensures later { self.old.faults ≤ self.new.faults }
        ensures counted { self.new.given ≡ self.old.given }
        ensures freed { Becomes block None
            (blocks_in self.old.blocks.slots.items) (blocks_in self.new.blocks.slots.items) }
        ensures calls { self.new.calls ≡ self.old.calls }
    {
        self.blocks.free(block);
    }

    fn faults(&self) -> u64 {
        self.faults
    }
}

/// A copy of the bytes. None where the call is to fail, and where memory is wanting.
fn copy_unless(fails: bool, alloc: Global, bytes: &[u8]) -> Option<Vec<u8>>
    ensures copied { IfSome result (λ copy. copy.items ≡ bytes.now) }
    ensures fails { IsTrue fails → result ≡ None }
{
    if fails {
        return None;
    }
    Vec::from_slice(alloc, bytes).ok()
}
