ghost use Rattle.std.specs.Prelude.{◌≡◌, ℕ, ◌+◌, ◌<◌, ◌≤◌, [], ◌∷◌, ◌++◌, true, length, All};
ghost use Rattle.std.specs.Prelude.{vec_len, vec_capacity};
ghost use Rattle.segment_core.specs.Segments.{segment_sum};
ghost use Rattle.post_table.specs.Pairs.{workers_below};
ghost use Rattle.post_table.specs.Seats.{MadeBy};
ghost use Rattle.post_table.specs.Views.{is_among, is_here};
ghost use Rattle.worked_post.specs.Swaps.{put_in, took_out, IsUnused};
ghost use Rattle.worked_post.specs.Crowd.{IsAt, all_given, all_got, all_here};
ghost use Rattle.worked_post.specs.Crowd.{weigh_given, weigh_got};

use crate::crowd::{Member, WORKERS, work_at_once};
use crate::helpers::{move_one, open};
use post_table::post::Post;
use post_table::seats::MainSeat;
use segment_core::{Pool, Purse};
use std::alloc::Global;
use std::process::Abort;
use std::thread::Threads;

/// How many mailboxes there are.
const PAIRS: u32 = WORKERS * (WORKERS - 1);

/// How many segments there are: one in each mailbox and one in each worker's hand.
const SEGMENTS: u32 = PAIRS + WORKERS;

// A purse with one segment of these.
fn hand_of(rt: &impl Abort, alloc: Global, all: &mut Purse) -> Purse
    ensures one { length result.pages ≡ 1 }
    ensures all { (all.new.room ≡ all.old.room)
        × (length all.new.pages + 1 ≡ length all.old.pages) }
    ensures sized { (n : ℕ) → All (λ p. length p.bytes ≡ n) all.old.pages
        → All (λ p. length p.bytes ≡ n) all.new.pages
        × All (λ p. length p.bytes ≡ n) result.pages }
    ensures segments { (h : ℕ → ℕ → ℕ) →
        segment_sum h all.new.pages + segment_sum h result.pages ≡ segment_sum h all.old.pages }
{
    let mut hand = Purse::open(alloc, 1).expect(rt, "no memory");
    move_one(rt, all, &mut hand);
    hand
}

// Parts the worker with the greatest number of those that have no seat yet.
fn seat_one(post: &Post, main: &mut MainSeat, worker: u32, hand: Purse) -> Member
    requires made { MadeBy post.now main.old × (post.now.workers ≡ WORKERS) }
    requires near { worker < WORKERS }
    requires here { main.old.view.here ≡ workers_below (worker + 1) }
    requires unused { IsUnused main.old.view }
    requires one { length hand.pages ≡ 1 }
    requires sized { All (λ p. length p.bytes ≡ post.now.size) hand.pages }
    ensures made { MadeBy post.now main.new }
    ensures left { main.new.view.here ≡ workers_below worker }
    ensures here { result.seat.view.here ≡ worker ∷ [] }
    ensures unused { IsUnused main.new.view × IsUnused result.seat.view }
    ensures at { IsAt post.now result }
    ensures hand { result.hand ≡ hand }
{
    let seat = post.part(main, worker);
    Member::new(seat, worker, hand)
}

// Seats all workers, the last one first, each with a segment in its hand.
fn seat_all(
    rt: &impl Abort,
    alloc: Global,
    post: &Post,
    main: &mut MainSeat,
    all: &mut Purse,
    members: &mut Vec<Member>,
)
    requires made { MadeBy post.now main.old × (post.now.workers ≡ WORKERS) }
    requires here { main.old.view.here ≡ workers_below WORKERS }
    requires unused { IsUnused main.old.view }
    requires sized { All (λ p. length p.bytes ≡ post.now.size) all.old.pages }
    requires none { (members.old.items ≡ []) × (vec_len members.old ≡ 0) }
    requires reserved { WORKERS ≤ vec_capacity members.old }
    ensures made { MadeBy post.now main.new }
    ensures at { All (IsAt post.now) members.new.items }
    ensures here { all_here members.new.items ≡ workers_below WORKERS }
    ensures unused { IsUnused main.new.view }
    ensures members { vec_len members.new ≡ WORKERS }
    ensures all { (all.new.room ≡ all.old.room)
        × (length all.new.pages + WORKERS ≡ length all.old.pages) }
    ensures got { (h : ℕ → ℕ → ℕ) (n : ℕ) → all_got h n members.new.items ≡ 0 }
    ensures given { (h : ℕ → ℕ → ℕ) (n : ℕ) →
        segment_sum h all.new.pages + all_given h n members.new.items
        ≡ segment_sum h all.old.pages }
{
    let mut left = WORKERS;
    'workers: while 0 < left {
        left -= 1;
        let hand = hand_of(rt, alloc, all);
        members.push_reserved(seat_one(post, main, left, hand));
    }
}

// Takes a worker's seat in, where it is done, and the segment in its hand.
fn meet_one(rt: &impl Abort, post: &Post, main: &mut MainSeat, all: &mut Purse, member: Member)
    requires made { MadeBy post.now main.old × IsAt post.now member }
    requires room { length all.old.pages < all.old.room }
    ensures made { MadeBy post.now main.new }
    ensures here { main.new.view.here ≡ main.old.view.here ++ member.seat.view.here }
    ensures all { (all.new.room ≡ all.old.room)
        × (length all.new.pages ≡ length all.old.pages + 1) }
    ensures given { (h : ℕ → ℕ → ℕ) (n : ℕ) →
        segment_sum h all.new.pages + put_in h n main.new.view
        ≡ segment_sum h all.old.pages + put_in h n main.old.view + weigh_given h n member }
    ensures got { (h : ℕ → ℕ → ℕ) (n : ℕ) →
        took_out h n main.new.view ≡ took_out h n main.old.view + weigh_got h n member }
{
    assert!(rt; member.is_done());
    let (seat, mut hand) = member.into_parts();
    post.meet(main, seat);
    move_one(rt, &mut hand, all);
    let (rest, _room) = hand.into_items();
    rest.destroy_empty();
}

// Takes all seats in, and the segments in the workers' hands.
fn meet_all(
    rt: &impl Abort,
    post: &Post,
    main: &mut MainSeat,
    all: &mut Purse,
    mut members: Vec<Member>,
)
    requires made { MadeBy post.now main.old × All (IsAt post.now) members.items }
    requires room { length all.old.pages + vec_len members ≤ all.old.room }
    ensures made { MadeBy post.now main.new }
    ensures here { (i : ℕ) → is_among i (all_here members.items) ≡ true
        → is_here main.new.view i ≡ true }
    ensures all { (all.new.room ≡ all.old.room)
        × (length all.new.pages ≡ length all.old.pages + vec_len members) }
    ensures given { (h : ℕ → ℕ → ℕ) (n : ℕ) →
        segment_sum h all.new.pages + put_in h n main.new.view
        ≡ segment_sum h all.old.pages + put_in h n main.old.view + all_given h n members.items }
    ensures got { (h : ℕ → ℕ → ℕ) (n : ℕ) →
        took_out h n main.new.view ≡ took_out h n main.old.view + all_got h n members.items }
{
    'members: while let Some(member) = members.pop() {
        meet_one(rt, post, main, all, member);
    }
    members.destroy_empty();
}

// Moves so many segments of a purse behind those of another.
fn move_some(rt: &impl Abort, from: &mut Purse, to: &mut Purse, count: u32)
    requires { length to.old.pages + count ≤ to.old.room }
    ensures from_len { length from.new.pages + count ≡ length from.old.pages }
    ensures to_len { length to.new.pages ≡ length to.old.pages + count }
    ensures rooms { (from.new.room ≡ from.old.room) × (to.new.room ≡ to.old.room) }
    ensures sized { (n : ℕ) → All (λ p. length p.bytes ≡ n) from.old.pages
        → All (λ p. length p.bytes ≡ n) to.old.pages
        → All (λ p. length p.bytes ≡ n) from.new.pages
        × All (λ p. length p.bytes ≡ n) to.new.pages }
    ensures segments { (h : ℕ → ℕ → ℕ) → segment_sum h from.new.pages + segment_sum h to.new.pages
        ≡ segment_sum h from.old.pages + segment_sum h to.old.pages }
{
    for _ in 0..count {
        move_one(rt, from, to);
    }
}

// Opens the mailboxes, lets all workers exchange their pages, and closes them.
fn play<R: Threads + Abort + Sync>(rt: &R, alloc: Global, mut all: Purse) -> Purse
    requires count { (length all.pages ≡ SEGMENTS) × (all.room ≡ SEGMENTS) }
    requires sized { All (λ p. length p.bytes ≡ 4096) all.pages }
    ensures segments { (h : ℕ → ℕ → ℕ) → segment_sum h result.pages ≡ segment_sum h all.pages }
{
    let mut spares = Purse::open(alloc, PAIRS).expect(rt, "no memory");
    move_some(rt, &mut all, &mut spares, PAIRS);
    let (post, mut main) = open(rt, alloc, WORKERS, spares);
    let mut members = Vec::with_capacity(alloc, WORKERS as usize).expect(rt, "no memory");
    seat_all(rt, alloc, &post, &mut main, &mut all, &mut members);
    work_at_once(rt, &post, &mut members);
    meet_all(rt, &post, &mut main, &mut all, members);
    let mut home = post.close(main);
    move_some(rt, &mut home, &mut all, PAIRS);
    let (rest, _room) = home.into_items();
    rest.destroy_empty();
    all
}

#[test]
fn pages_of_four_threads_come_once_and_in_order(rt: HostRuntime) {
    let mut pool = Pool::open(rt.alloc(), SEGMENTS, 4_096).expect(&rt, "no memory");
    let all = pool.lease(SEGMENTS).expect(&rt, "no memory");
    let all = play(&rt, rt.alloc(), all);
    pool.restore(all);
    assert_eq!(rt; pool.free(), SEGMENTS);
    pool.close();
}
