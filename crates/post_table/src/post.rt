ghost use Rattle.std.specs.Prelude.{◌≡◌, ℕ, ◌+◌, ◌*◌, ◌<◌, ◌≤◌, true, [], ◌++◌, length, map, reverse, vec_len, vec_capacity, All, IfOk, IfErr, sum_by};
ghost use Rattle.exchange_core.specs.Machine.{IsWorkerCount};
ghost use Rattle.segment_core.specs.Segments.{segment_sum};
ghost use Rattle.post_table.specs.Pairs.{pair_count};
ghost use Rattle.post_table.specs.Seats.{MadeBy, ids_of, size_of};
ghost use Rattle.post_table.specs.Views.{is_here, opening_view, weigh_in, weigh_out};

use crate::lists::{reserve, size_of, turn_over, words_of};
use crate::opening::Opening;
use crate::pairs;
use crate::rule::Boxes;
use crate::seats::MainSeat;
use atomic_table::Refused;
use segment_core::{Purse, Segment};
use std::alloc::Global;
use std::marker::Model;

/// The mailboxes of all ordered pairs of workers. It may not be let go: `close` gives its segments back.
pub struct Post {
    pub(crate) boxes: Boxes,
    pub(crate) workers: u32,
    // the way home of the spares
    home: Vec<Segment>,
    room: u32,
}

impl Model for Post {
    ghost use Rattle.std.specs.Prelude.{◌≡◌, ◌/◌, ◌≤◌, map, vec_len, vec_capacity, length};
    ghost use Rattle.post_table.specs.Pairs.{pair_count};
    ghost use Rattle.post_table.specs.Seats.{IsTableOf, PostView};

    ghost Value = { PostView };

    ghost view = { λ p. record {
      table = p.boxes.shared.table_id;
      workers = p.workers;
      size = p.boxes.shared.key.size;
      spares = map (λ word. word / 2) p.boxes.shared.key.words.items;
      room = p.room;
    } };

    ghost invariant = { λ p. IsTableOf p.boxes.shared.table_id p.workers
        × (p.boxes.shared.key.workers ≡ p.workers)
        × (length p.boxes.shared.key.words.items ≡ pair_count p.workers)
        × (vec_len p.home ≡ 0) × (pair_count p.workers ≤ p.room) × (p.room ≤ vec_capacity p.home) };
}

/// There was no memory. The spares come back.
pub struct PostMemory {
    pub spares: Purse,
}

impl Post {
    /// Mailboxes for `w` workers, with one of the spares in each, and the main seat, in whose view all
    /// workers' lists stand. It takes memory for the mailboxes and for two lists of as many segments, and
    /// no call after it takes any.
    pub fn open(alloc: Global, w: u32, spares: Purse) -> Result<(Post, MainSeat), PostMemory>
        requires workers { IsWorkerCount w }
        requires count { length spares.pages ≡ pair_count w }
        requires sized { All (λ p. length p.bytes ≡ size_of spares.pages) spares.pages }
        ensures post { IfOk result (λ r. (r.0.workers ≡ w) × (r.0.size ≡ size_of spares.pages)
            × (r.0.spares ≡ ids_of (reverse spares.pages)) × (r.0.room ≡ spares.room)) }
        ensures made { IfOk result (λ r. MadeBy r.0 r.1) }
        ensures seat { IfOk result (λ r. r.1.view ≡ opening_view w (size_of spares.pages)) }
        ensures err { IfErr result (λ refused. refused.spares ≡ spares) }
    {
        let count = pairs::count(w);
        let (mut home, room) = spares.into_items();
        let size = size_of(home.as_slice());
        let Some((mut slots, mut words)) = reserve(alloc, count) else {
            return Err(PostMemory {
                spares: Purse::of_items(home, room),
            });
        };
        turn_over(&mut home, &mut slots);
        words_of(slots.as_slice(), &mut words);
        let opening = Opening {
            workers: w,
            size,
            words,
        };
        match Boxes::new(alloc, opening.words.as_slice(), slots, &opening) {
            Ok((boxes, place)) => {
                let post = Post {
                    boxes,
                    workers: w,
                    home,
                    room,
                };
                Ok((post, MainSeat { place }))
            }
            Err(Refused { mut slots }) => {
                turn_over(&mut slots, &mut home);
                slots.destroy_empty();
                Err(PostMemory {
                    spares: Purse::of_items(home, room),
                })
            }
        }
    }

    /// Ends the post, once every seat was met, and gives every segment back, that of a page that still
    /// waits too. It takes no memory.
    pub fn close(self, main: MainSeat) -> Purse
        requires made { MadeBy self main }
        requires met { (worker : ℕ) → worker < self.workers → is_here main.view worker ≡ true }
        ensures count { length result.pages ≡ pair_count self.workers }
        ensures room { result.room ≡ self.room }
        ensures sized { All (λ p. length p.bytes ≡ self.size) result.pages }
        ensures segments { (h : ℕ → ℕ → ℕ) → let g : ℕ → ℕ = λ id. h id self.size in
            segment_sum h result.pages + weigh_out g main.view.posted + weigh_out g main.view.took
            ≡ sum_by g self.spares + weigh_in g main.view.posted + weigh_in g main.view.took }
    {
        let Post {
            boxes,
            workers,
            mut home,
            room,
        } = self;
        let MainSeat { place } = main;
        let count = pairs::count(workers);
        let mut closed = boxes.close_with(place);
        'slots: for slot in 0..count {
            home.push_reserved(closed.take(slot));
        }
        closed.free();
        Purse::of_items(home, room)
    }
}
