//! What the tests share: mailboxes where there is memory, and segments from purse to purse.
ghost use Rattle.std.specs.Prelude.{◌≡◌, ℕ, ◌+◌, ◌<◌, [], ◌∷◌, length, reverse, All};
ghost use Rattle.exchange_core.specs.Machine.{IsWorkerCount};
ghost use Rattle.segment_core.specs.Segments.{segment_sum};
ghost use Rattle.post_table.specs.Pairs.{pair_count};
ghost use Rattle.post_table.specs.Seats.{MadeBy, ids_of, size_of};
ghost use Rattle.post_table.specs.Views.{opening_view};

use post_table::post::{Post, PostMemory};
use post_table::seats::MainSeat;
use segment_core::{Purse, Segment};
use std::alloc::Global;
use std::process::Abort;

/// Opens mailboxes, where there is memory.
pub(crate) fn open(rt: &impl Abort, alloc: Global, w: u32, spares: Purse) -> (Post, MainSeat)
    requires workers { IsWorkerCount w }
    requires count { length spares.pages ≡ pair_count w }
    requires sized { All (λ p. length p.bytes ≡ size_of spares.pages) spares.pages }
    ensures post { (result.0.workers ≡ w) × (result.0.size ≡ size_of spares.pages)
        × (result.0.spares ≡ ids_of (reverse spares.pages)) }
    ensures made { MadeBy result.0 result.1 }
    ensures seat { result.1.view ≡ opening_view w (size_of spares.pages) }
{
    match Post::open(alloc, w, spares) {
        Ok(opened) => opened,
        Err(PostMemory { spares: _spares }) => panic!(rt; "no memory"),
    }
}

/// Moves the last segment of a purse behind those of another.
pub(crate) fn move_one(rt: &impl Abort, from: &mut Purse, to: &mut Purse)
    requires { length to.old.pages < to.old.room }
    ensures from_len { length from.new.pages + 1 ≡ length from.old.pages }
    ensures to_len { length to.new.pages ≡ length to.old.pages + 1 }
    ensures rooms { (from.new.room ≡ from.old.room) × (to.new.room ≡ to.old.room) }
    ensures sized { (n : ℕ) → All (λ p. length p.bytes ≡ n) from.old.pages
        → All (λ p. length p.bytes ≡ n) to.old.pages
        → All (λ p. length p.bytes ≡ n) from.new.pages
        × All (λ p. length p.bytes ≡ n) to.new.pages }
    ensures segments { (h : ℕ → ℕ → ℕ) → segment_sum h from.new.pages + segment_sum h to.new.pages
        ≡ segment_sum h from.old.pages + segment_sum h to.old.pages }
{
    let segment = take_one(rt, from);
    to.put(segment);
}

/// Takes a segment out of a purse that holds one.
pub(crate) fn take_one(rt: &impl Abort, from: &mut Purse) -> Segment
    ensures len { length from.new.pages + 1 ≡ length from.old.pages }
    ensures room { from.new.room ≡ from.old.room }
    ensures sized { (n : ℕ) → All (λ p. length p.bytes ≡ n) from.old.pages
        → All (λ p. length p.bytes ≡ n) from.new.pages × (length result.bytes ≡ n) }
    ensures segments { (h : ℕ → ℕ → ℕ) →
        segment_sum h from.new.pages + segment_sum h (result ∷ []) ≡ segment_sum h from.old.pages }
{
    match from.take() {
        Some(segment) => segment,
        None => panic!(rt; "no segment"),
    }
}
