ghost use Rattle.std.specs.Prelude.{◌≡◌, ℕ, ◌+◌, ◌<◌, ◌≤◌, ◌⊎◌, ◌↔◌, true, false, [], ◌∷◌, ◌++◌, length, reverse, vec_len, vec_capacity, IsOk, IfOk, OnOk, OnErr, IsErrOf};
ghost use Rattle.segment_core.specs.Segments.{is_segment_size, segment_sum, blank_pages};
ghost use Rattle.segment_core.specs.Ledger.{IsLedger, KeepsLedger, Leases, MayReturn};

use super::{LARGEST_SIZE, LeaseFault, PoolFault, Purse, SMALLEST_SIZE, Segment};
use std::alloc::{AllocError, Global};
use std::marker::Model;

/// The most segments of a pool.
pub const MOST_SEGMENTS: u32 = 65_536;

/// The segments of one size that nobody has leased. It may not be let go: it is closed once every
/// segment is free.
pub struct Pool {
    alloc: Global,
    free: Vec<Segment>,
    total: u32,
    size: u32,
}

impl Model for Pool {
    ghost use Rattle.std.specs.Prelude.{vec_len, vec_capacity};
    ghost use Rattle.segment_core.specs.Segments.{PoolView};
    ghost use Rattle.segment_core.specs.Ledger.{IsSound};

    ghost Value = { PoolView };

    ghost view = { λ p. record { total = p.total; size = p.size; free = p.free.items } };

    ghost invariant = { λ p.
        IsSound p.total p.size p.free.items (vec_len p.free) (vec_capacity p.free) };
}

impl Pool {
    /// Makes `count` segments of `size` bytes, with the ids 0 to `count` - 1, all free and zero.
    ///
    /// `BadSize` exactly where a segment may not have that size, else `BadCount` exactly where `count`
    /// is 0 or above 65,536. After `Memory` all that was made is given back. It takes the segments'
    /// bytes and about 48 bytes more for each; after it, only `lease` takes memory.
    pub fn open(alloc: Global, count: u32, size: u32) -> Result<Pool, PoolFault>
        ensures bad_size { IsErrOf result PoolFault.BadSize ↔ (is_segment_size size ≡ false) }
        ensures bad_count { IsErrOf result PoolFault.BadCount
            ↔ ((is_segment_size size ≡ true) × ((count ≡ 0) ⊎ (MOST_SEGMENTS < count))) }
        ensures pool { IfOk result (λ p.
            p ≡ record { total = count; size = size; free = blank_pages count size }) }
        ensures ledger { IfOk result (λ p. IsLedger p.total p.size (p.free ∷ [])) }
    {
        if !is_size(size) {
            return Err(PoolFault::BadSize);
        }
        if count == 0 || MOST_SEGMENTS < count {
            return Err(PoolFault::BadCount);
        }
        let mut free = match Vec::with_capacity(alloc, count as usize) {
            Ok(free) => free,
            Err(_) => return Err(PoolFault::Memory),
        };
        match fill(&mut free, alloc, count, size) {
            Ok(()) => Ok(Pool {
                alloc,
                free,
                total: count,
                size,
            }),
            Err(_) => {
                destroy_all(free);
                Err(PoolFault::Memory)
            }
        }
    }

    /// Takes `n` free segments out into a purse of that room, those that were made or restored last.
    ///
    /// `Short` exactly where fewer are free, told before `Memory`. It takes 32 bytes for each segment.
    pub fn lease(&mut self, n: u32) -> Result<Purse, LeaseFault>
        ensures short { (free : ℕ) →
            IsErrOf result (LeaseFault.Short free) ↔ ((free ≡ length self.old.free) × (free < n)) }
        ensures none { n ≡ 0 → IsOk result }
        ensures err { OnErr result (self.new ≡ self.old) }
        ensures full { IfOk result (λ p. (p.room ≡ n) × (length p.pages ≡ n)) }
        ensures leases { IfOk result (Leases self.old self.new) }
        ensures may_return { IfOk result (λ p. MayReturn self.new p.pages) }
        ensures total { self.new.total ≡ self.old.total }
        ensures size { self.new.size ≡ self.old.size }
    {
        let free = self.free();
        if free < n {
            return Err(LeaseFault::Short { free });
        }
        let mut items = match Vec::with_capacity(self.alloc, n as usize) {
            Ok(items) => items,
            Err(_) => return Err(LeaseFault::Memory),
        };
        move_last(&mut self.free, &mut items, n);
        Ok(Purse::of_items(items, n))
    }

    /// Takes a purse's segments back: those of this pool's size and ids that aren't free. It takes no
    /// memory.
    pub fn restore(&mut self, p: Purse)
        requires { MayReturn self.old p.pages }
        ensures free { self.new.free ≡ self.old.free ++ p.pages }
        ensures total { self.new.total ≡ self.old.total }
        ensures size { self.new.size ≡ self.old.size }
        ensures segments { (h : ℕ → ℕ → ℕ) →
            segment_sum h self.new.free ≡ segment_sum h self.old.free + segment_sum h p.pages }
        ensures ledger { KeepsLedger (self.old.free ∷ p.pages ∷ []) (self.new.free ∷ []) }
    {
        let (mut items, _room) = p.into_items();
        self.free.append(&mut items).unwrap();
        items.destroy_empty();
    }

    /// How many segments are free: all of them where the pool alone holds a whole ledger.
    pub fn free(&self) -> u32
        ensures count { result ≡ length self.now.free }
        ensures fits { result ≤ self.now.total }
        ensures home { IsLedger self.now.total self.now.size (self.now.free ∷ [])
            → result ≡ self.now.total }
    {
        let _total = self.total;
        self.free.len() as u32
    }

    /// How many segments it was opened with.
    pub fn total(&self) -> u32
        ensures { result ≡ self.now.total }
    {
        self.total
    }

    /// Ends the pool, once every segment is free, and gives their memory back.
    pub fn close(self)
        requires { length self.free ≡ self.total }
    {
        let Pool {
            alloc: _,
            free,
            total: _,
            size: _,
        } = self;
        destroy_all(free);
    }
}

// Whether a segment may have so many bytes.
fn is_size(size: u32) -> bool
    ensures { result ≡ is_segment_size size }
{
    size == SMALLEST_SIZE
        || size == 2 * SMALLEST_SIZE
        || size == 4 * SMALLEST_SIZE
        || size == LARGEST_SIZE
}

// Puts the segments of a new pool into its list.
fn fill(free: &mut Vec<Segment>, alloc: Global, count: u32, size: u32) -> Result<(), AllocError>
    requires empty { vec_len free.old ≡ 0 }
    requires reserved { count ≤ vec_capacity free.old }
    requires sized { is_segment_size size ≡ true }
    ensures ok { OnOk result (free.new.items ≡ blank_pages count size) }
    ensures len { OnOk result (vec_len free.new ≡ count) }
    ensures capacity { vec_capacity free.new ≡ vec_capacity free.old }
{
    for id in 0..count {
        let bytes = Vec::from_elem(alloc, 0u8, size as usize)?;
        free.push_reserved(Segment::of_bytes(id, bytes));
    }
    Ok(())
}

// Moves the last `n` segments of one list to the end of another, the last one first.
fn move_last(from: &mut Vec<Segment>, to: &mut Vec<Segment>, n: u32)
    requires enough { n ≤ vec_len from.old }
    requires reserved { vec_len to.old + n ≤ vec_capacity to.old }
    ensures moved { from.new.items ++ reverse to.new.items ≡ from.old.items ++ reverse to.old.items }
    ensures from_len { vec_len from.new + n ≡ vec_len from.old }
    ensures to_len { vec_len to.new ≡ vec_len to.old + n }
    ensures from_capacity { vec_capacity from.new ≡ vec_capacity from.old }
    ensures to_capacity { vec_capacity to.new ≡ vec_capacity to.old }
{
    for _ in 0..n {
        let last = from.pop().unwrap();
        to.push_reserved(last);
    }
}

// Gives the memory of these segments back.
fn destroy_all(mut items: Vec<Segment>) {
    while let Some(s) = items.pop() {
        s.destroy();
    }
    items.destroy_empty();
}
