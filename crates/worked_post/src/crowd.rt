//! Four workers, each of which puts pages to all others and gets theirs, and never waits.
ghost use Rattle.std.specs.Prelude.{◌≡◌, ◌≢◌, ℕ, ◌+◌, ◌<◌, vec_len, All};
ghost use Rattle.worked_post.specs.Crowd.{IsAt, IsLater, all_given, all_got, all_here};

use crate::label::Label;
use crate::tries::{try_get, try_put};
use post_table::post::Post;
use post_table::seats::WorkerSeat;
use segment_core::Purse;
use std::thread;
use std::thread::Threads;

/// How many workers there are.
pub const WORKERS: u32 = 4;

// The same, as a number of places in a list.
const PLACES: usize = WORKERS as usize;

/// How many pages each worker puts to each other one.
pub const PAGES: u32 = 834;

const _: () = prove!(WORKERS * (WORKERS - 1) * PAGES >= 10_000);

/// How often a worker goes round before it gives up.
const ROUNDS: u64 = 10_000_000;

/// A worker of the crowd, with one segment in its hand.
pub struct Member {
    pub(crate) seat: WorkerSeat,
    pub(crate) number: u32,
    pub(crate) hand: Purse,
    /// How many pages it put to each worker.
    sent: [u32; PLACES],
    /// How many pages of each worker it found, the first one first and none left out.
    found: [u32; PLACES],
    /// Each page that it got was the one that it had to find next.
    is_in_order: bool,
}

impl Member {
    /// A worker that neither put nor got a page so far.
    pub fn new(seat: WorkerSeat, number: u32, hand: Purse) -> Member
        ensures { (result.seat ≡ seat) × (result.number ≡ number) × (result.hand ≡ hand) }
    {
        Member {
            seat,
            number,
            hand,
            sent: [0; PLACES],
            found: [0; PLACES],
            is_in_order: true,
        }
    }

    /// Its seat and what is in its hand.
    pub fn into_parts(self) -> (WorkerSeat, Purse)
        ensures { (result.0 ≡ self.seat) × (result.1 ≡ self.hand) }
    {
        let Member {
            seat,
            number: _,
            hand,
            sent: _,
            found: _,
            is_in_order: _,
        } = self;
        (seat, hand)
    }

    /// It put all its pages, and found all pages of all others, each once and in order.
    pub fn is_done(&self) -> bool {
        self.is_in_order
            && (0..PLACES).all(|peer| {
                peer == self.number as usize
                    || (self.sent[peer] == PAGES && self.found[peer] == PAGES)
            })
    }

    /// Goes round until it is done, or gives up. It waits for nobody.
    pub fn work(&mut self, post: &Post)
        requires at { IsAt post.now self.old }
        ensures at { IsAt post.now self.new }
        ensures later { IsLater post.now.size self.old self.new }
    {
        for _ in 0..ROUNDS {
            if self.is_done() {
                break;
            }
            self.go_round(post);
            thread::yield_now();
        }
    }

    // Tries to put a page to each other worker, and to get one of it.
    fn go_round(&mut self, post: &Post)
        requires at { IsAt post.now self.old }
        ensures at { IsAt post.now self.new }
        ensures later { IsLater post.now.size self.old self.new }
    {
        for peer in 0..WORKERS {
            if peer != self.number {
                self.put_next(post, peer);
                self.get_next(post, peer);
            }
        }
    }

    // Tries to put the next page to another worker, where one is left.
    fn put_next(&mut self, post: &Post, peer: u32)
        requires at { IsAt post.now self.old }
        requires other { (peer < WORKERS) × (peer ≢ self.old.number) }
        ensures at { IsAt post.now self.new }
        ensures later { IsLater post.now.size self.old self.new }
    {
        let sequence = self.sent[peer as usize];
        if sequence < PAGES {
            let label = Label {
                poster: self.number,
                receiver: peer,
                sequence,
            };
            if self.put_page(post, peer, &label) {
                self.sent[peer as usize] = sequence + 1;
            }
        }
    }

    // Tries to get the next page of another worker, and looks whether it is that one.
    fn get_next(&mut self, post: &Post, peer: u32)
        requires at { IsAt post.now self.old }
        requires other { (peer < WORKERS) × (peer ≢ self.old.number) }
        ensures at { IsAt post.now self.new }
        ensures later { IsLater post.now.size self.old self.new }
    {
        let sequence = self.found[peer as usize];
        let wanted = Label {
            poster: peer,
            receiver: self.number,
            sequence,
        };
        if let Some(label) = self.get_page(post, peer) {
            if label == wanted && sequence < PAGES {
                self.found[peer as usize] = sequence + 1;
            } else {
                self.is_in_order = false;
            }
        }
    }

    // Tries to put the segment in the hand as a page of this label. Whether it went.
    fn put_page(&mut self, post: &Post, peer: u32, label: &Label) -> bool
        requires at { IsAt post.now self.old }
        requires other { (peer < WORKERS) × (peer ≢ self.old.number) }
        ensures at { IsAt post.now self.new }
        ensures later { IsLater post.now.size self.old self.new }
    {
        let mut page = self.hand.take().unwrap();
        label.write(&mut page);
        let (segment, went) = try_put(post, &mut self.seat, peer, page);
        self.hand.put(segment);
        went
    }

    // Tries to get a page for the segment in the hand. Its label.
    fn get_page(&mut self, post: &Post, peer: u32) -> Option<Label>
        requires at { IsAt post.now self.old }
        requires other { (peer < WORKERS) × (peer ≢ self.old.number) }
        ensures at { IsAt post.now self.new }
        ensures later { IsLater post.now.size self.old self.new }
    {
        let spare = self.hand.take().unwrap();
        let (segment, came) = try_get(post, &mut self.seat, peer, spare);
        let label = Label::read(&segment);
        self.hand.put(segment);
        if came { Some(label) } else { None }
    }
}

/// All members work at once, each in a thread of its own.
pub fn work_at_once<R: Threads + Sync>(rt: &R, post: &Post, members: &mut Vec<Member>)
    requires at { All (IsAt post.now) members.old.items }
    ensures at { All (IsAt post.now) members.new.items }
    ensures len { vec_len members.new ≡ vec_len members.old }
    ensures here { all_here members.new.items ≡ all_here members.old.items }
    ensures swaps { (h : ℕ → ℕ → ℕ) → let n = post.now.size in
        all_given h n members.new.items + all_got h n members.old.items
        ≡ all_given h n members.old.items + all_got h n members.new.items }
{
    let members = members.as_mut_slice();
    thread::for_each_mut(rt, members, PLACES, &|_, member| member.work(post));
}
