ghost use Rattle.std.specs.Prelude.{◌≡◌, ℕ, ◌+◌, ◌<◌, ◌≤◌, ◌↔◌, [], ◌∷◌, ◌++◌, length, vec_len, vec_capacity, IsSome, IsOk, IfOk, IsOkUnless, option_to_list};
ghost use Rattle.segment_core.specs.Segments.{segment_sum};
ghost use Rattle.segment_core.specs.Ledger.{KeepsLedger};

use super::{PoolFault, Segment};
use std::alloc::Global;
use std::marker::Model;

/// Segments on their way: up to `room` of them, of which the last put is the first taken. It may not
/// be let go: it goes back to its pool, or is taken apart.
pub struct Purse {
    items: Vec<Segment>,
    room: u32,
}

impl Model for Purse {
    ghost use Rattle.std.specs.Prelude.{◌≤◌, vec_len, vec_capacity};
    ghost use Rattle.segment_core.specs.Segments.{PurseView};

    ghost Value = { PurseView };

    ghost view = { λ p. record { room = p.room; pages = p.items.items } };

    ghost invariant = { λ p. (vec_len p.items ≤ p.room) × (p.room ≤ vec_capacity p.items) };
}

impl Purse {
    /// An empty purse for `room` segments. Of the faults it answers `Memory` alone. It takes 32 bytes
    /// for each segment that it may hold.
    pub fn open(alloc: Global, room: u32) -> Result<Purse, PoolFault>
        ensures ok { IfOk result (λ p. p ≡ record { room = room; pages = [] }) }
        ensures err { IsOkUnless result PoolFault.Memory }
        ensures no_room { room ≡ 0 → IsOk result }
    {
        match Vec::with_capacity(alloc, room as usize) {
            Ok(items) => Ok(Purse { items, room }),
            Err(_) => Err(PoolFault::Memory),
        }
    }

    /// Takes the segment that was put last: `None` exactly where the purse is empty. It takes no
    /// memory.
    pub fn take(&mut self) -> Option<Segment>
        ensures some { IsSome result ↔ (0 < length self.old.pages) }
        ensures fits { length self.old.pages ≤ self.old.room }
        ensures last { self.old.pages ≡ self.new.pages ++ option_to_list result }
        ensures room { self.new.room ≡ self.old.room }
        ensures segments { (h : ℕ → ℕ → ℕ) →
            segment_sum h self.new.pages + segment_sum h (option_to_list result) ≡ segment_sum h self.old.pages }
        ensures ledger { KeepsLedger (self.old.pages ∷ []) (self.new.pages ∷ option_to_list result ∷ []) }
    {
        self.items.pop()
    }

    /// Puts a segment on top. It takes no memory.
    pub fn put(&mut self, s: Segment)
        requires { length self.old.pages < self.old.room }
        ensures pages { self.new.pages ≡ self.old.pages ++ s ∷ [] }
        ensures room { self.new.room ≡ self.old.room }
        ensures segments { (h : ℕ → ℕ → ℕ) →
            segment_sum h self.new.pages ≡ segment_sum h self.old.pages + segment_sum h (s ∷ []) }
        ensures ledger { KeepsLedger (self.old.pages ∷ (s ∷ []) ∷ []) (self.new.pages ∷ []) }
    {
        self.items.push_reserved(s);
    }

    /// How many segments it holds: at most its room.
    pub fn len(&self) -> u32
        ensures count { result ≡ length self.now.pages }
        ensures fits { result ≤ self.now.room }
    {
        let _room = self.room;
        self.items.len() as u32
    }

    /// The most segments that it may hold.
    pub fn room(&self) -> u32
        ensures room { result ≡ self.now.room }
        ensures fits { length self.now.pages ≤ result }
    {
        let _len = self.items.len();
        self.room
    }

    /// Takes the purse apart: its segments, with space reserved for its room, and its room.
    pub fn into_items(self) -> (Vec<Segment>, u32)
        ensures pages { result.0.items ≡ self.pages }
        ensures len { vec_len result.0 ≡ length self.pages }
        ensures room { result.1 ≡ self.room }
        ensures fits { vec_len result.0 ≤ self.room }
        ensures reserved { self.room ≤ vec_capacity result.0 }
        ensures segments { (h : ℕ → ℕ → ℕ) → segment_sum h result.0.items ≡ segment_sum h self.pages }
    {
        let Purse { items, room } = self;
        (items, room)
    }

    /// The purse of these segments and this room, for which the list has space reserved.
    pub fn of_items(items: Vec<Segment>, room: u32) -> Purse
        requires fits { vec_len items ≤ room }
        requires reserved { room ≤ vec_capacity items }
        ensures purse { result ≡ record { room = room; pages = items.items } }
        ensures segments { (h : ℕ → ℕ → ℕ) → segment_sum h result.pages ≡ segment_sum h items.items }
    {
        Purse { items, room }
    }
}
