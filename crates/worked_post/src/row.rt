ghost use Rattle.std.specs.Prelude.{◌≡◌, ℕ, ◌+◌, [], ◌∷◌, length, All};
ghost use Rattle.segment_core.specs.Segments.{segment_sum};
ghost use Rattle.post_table.specs.Seats.{MadeBy};
ghost use Rattle.worked_post.specs.Swaps.{put_in, took_out};

use crate::helpers::{move_one, open, take_one};
use crate::tries::{try_get, try_put};
use post_table::post::Post;
use post_table::seats::WorkerSeat;
use segment_core::{Pool, Purse, Segment};
use std::alloc::Global;
use std::process::Abort;

// Writes a page's first byte.
fn mark(page: &mut Segment, byte: u8)
    ensures id { page.new.id ≡ page.old.id }
    ensures len { length page.new.bytes ≡ length page.old.bytes }
{
    // for the prover: a page has a first byte
    let _len = page.bytes().len();
    page.bytes_mut()[0] = byte;
}

// One page goes from worker 0 to worker 1. The second put and the second got are refused.
fn pass_on(
    rt: &impl Abort,
    post: &Post,
    zero: &mut WorkerSeat,
    one: &mut WorkerSeat,
    mut page: Segment,
) -> Segment
    requires made { MadeBy post.now zero.old × MadeBy post.now one.old }
    requires numbers { (zero.old.view.number ≡ 0) × (one.old.view.number ≡ 1)
        × (post.now.workers ≡ 2) }
    requires sized { length page.bytes ≡ post.now.size }
    ensures made { MadeBy post.now zero.new × MadeBy post.now one.new }
    ensures here { (zero.new.view.here ≡ zero.old.view.here)
        × (one.new.view.here ≡ one.old.view.here) }
    ensures sized { length result.bytes ≡ post.now.size }
    ensures swaps { (h : ℕ → ℕ → ℕ) → let n = post.now.size in
        segment_sum h (result ∷ []) + put_in h n zero.new.view + put_in h n one.new.view
        + took_out h n zero.old.view + took_out h n one.old.view
        ≡ segment_sum h (page ∷ []) + put_in h n zero.old.view + put_in h n one.old.view
        + took_out h n zero.new.view + took_out h n one.new.view }
{
    mark(&mut page, 7);
    let id = page.id();
    let (spare, went) = try_put(post, zero, 1, page);
    assert!(rt; went);
    let second = spare.id();
    let (spare, went) = try_put(post, zero, 1, spare);
    assert!(rt; !went);
    assert_eq!(rt; spare.id(), second);
    let (page, came) = try_get(post, one, 0, spare);
    assert!(rt; came);
    assert_eq!(rt; page.id(), id);
    assert_eq!(rt; page.bytes().first(), Some(&7));
    let (page, came) = try_get(post, one, 0, page);
    assert!(rt; !came);
    assert_eq!(rt; page.id(), id);
    page
}

// Opens two workers' mailboxes, passes a page on, and closes them.
fn play(rt: &impl Abort, alloc: Global, mut all: Purse) -> Purse
    requires three { (length all.pages ≡ 3) × (all.room ≡ 3) }
    requires sized { All (λ p. length p.bytes ≡ 4096) all.pages }
    ensures segments { (h : ℕ → ℕ → ℕ) → segment_sum h result.pages ≡ segment_sum h all.pages }
{
    let mut spares = Purse::open(alloc, 2).expect(rt, "no memory");
    move_one(rt, &mut all, &mut spares);
    move_one(rt, &mut all, &mut spares);
    let (post, mut main) = open(rt, alloc, 2, spares);
    let mut zero = post.part(&mut main, 0);
    let mut one = post.part(&mut main, 1);
    let page = take_one(rt, &mut all);
    let page = pass_on(rt, &post, &mut zero, &mut one, page);
    all.put(page);
    post.meet(&mut main, zero);
    post.meet(&mut main, one);
    let mut home = post.close(main);
    move_one(rt, &mut home, &mut all);
    move_one(rt, &mut home, &mut all);
    let (rest, _room) = home.into_items();
    rest.destroy_empty();
    all
}

#[test]
fn a_page_waits_until_it_is_got(rt: HostRuntime) {
    let mut pool = Pool::open(rt.alloc(), 3, 4_096).expect(&rt, "no memory");
    let all = pool.lease(3).expect(&rt, "no memory");
    let all = play(&rt, rt.alloc(), all);
    pool.restore(all);
    assert_eq!(rt; pool.free(), 3);
    pool.close();
}
