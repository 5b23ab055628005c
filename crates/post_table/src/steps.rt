//! The atomic steps on the table: of who parts and meets seats, of a poster and of a receiver.
ghost use Rattle.std.specs.Prelude.{◌≡◌, ◌+◌, ◌*◌, ◌%◌, ◌<◌, true, [], length, IfOk, IfErr};
ghost use Rattle.post_table.specs.Pairs.{pair_count, poster_of, receiver_of};
ghost use Rattle.post_table.specs.Seats.{IsTableOf};
ghost use Rattle.post_table.specs.Steps.{HasTakenKnown, IsIdle, IsUnreceived, StaysSeat};
ghost use Rattle.post_table.specs.Views.{both_of, chosen, is_here, learned, looked, parted, with_posted, with_taken, without, ShowsExchange};

use crate::plays::{Chooses, Gets, Learns, LooksToPost, LooksToTake, Meets, Parts, Posts};
use crate::rule::{Boxes, Place};
use segment_core::Segment;

/// Parts a worker from the main seat. The base crate's split is told nothing, so a load notes the worker
/// first.
pub(crate) fn part_place(boxes: &Boxes, place: &mut Place, worker: u32) -> Place
    requires table { (place.old.table_id ≡ boxes.now.shared.table_id)
        × IsTableOf boxes.now.shared.table_id boxes.now.shared.key.workers }
    requires idle { IsIdle place.old.me }
    requires home { (worker < boxes.now.shared.key.workers) × (is_here place.old.me.0 worker ≡ true) }
    ensures table { (place.new.table_id ≡ place.old.table_id) × (result.table_id ≡ place.old.table_id) }
    ensures main { place.new.me ≡ (without worker (chosen worker place.new.me.0.last place.old.me.0), []) }
    ensures seat { result.me ≡ (parted worker place.old.me.0, []) }
{
    let shared = &boxes.shared;
    shared.load::<Chooses>(place, worker as usize);
    shared.split_seat::<Parts>(place)
}

/// Takes another seat in, and learns its lists.
pub(crate) fn meet_place(boxes: &Boxes, place: &mut Place, other: Place)
    requires table { (place.old.table_id ≡ boxes.now.shared.table_id) × (other.table_id ≡ boxes.now.shared.table_id)
        × IsTableOf boxes.now.shared.table_id boxes.now.shared.key.workers }
    requires idle { IsIdle place.old.me }
    requires other { IsIdle other.me }
    ensures table { place.new.table_id ≡ place.old.table_id }
    ensures main { place.new.me
        ≡ (learned (looked place.new.me.0.last (both_of place.old.me.0 other.me.0)), []) }
    ensures exchange { ShowsExchange place.new.me.0 }
{
    let shared = &boxes.shared;
    shared.join_seat::<Meets>(place, other);
    shared.load::<Learns>(place, 0);
}

/// Puts a page into the mailbox of a pair, where no page waits there.
pub(crate) fn post_page(
    boxes: &Boxes,
    place: &mut Place,
    pair: usize,
    page: Segment,
) -> Result<Segment, Segment>
    requires table { (place.old.table_id ≡ boxes.now.shared.table_id)
        × IsTableOf boxes.now.shared.table_id boxes.now.shared.key.workers }
    requires idle { IsIdle place.old.me }
    requires poster { (pair < pair_count boxes.now.shared.key.workers)
        × (is_here place.old.me.0 (poster_of boxes.now.shared.key.workers pair) ≡ true) }
    requires sized { length page.bytes ≡ boxes.now.shared.key.size }
    ensures table { place.new.table_id ≡ place.old.table_id }
    ensures stays { StaysSeat place.old.me place.new.me }
    ensures ok { IfOk result (λ spare. (length spare.bytes ≡ place.old.me.0.size)
        × (place.new.me ≡ (with_posted pair page spare.id (looked (2 * spare.id) place.old.me.0), []))) }
    ensures err { IfErr result (λ back. (back ≡ page) × IsUnreceived pair place.old.me.0
        × (place.new.me ≡ (looked place.new.me.0.last place.old.me.0, [])) × (place.new.me.0.last % 2 ≡ 1)) }
{
    let shared = &boxes.shared;
    let found = shared.load::<LooksToPost>(place, pair);
    if found % 2 == 1 {
        return Err(page);
    }
    let word = 2 * u64::from(page.id()) + 1;
    let spare = shared.exchange(place, pair, page);
    shared.store::<Posts>(place, pair, word);
    Ok(spare)
}

/// Gets the page out of the mailbox of a pair, where one waits there, and leaves the spare.
pub(crate) fn take_page(
    boxes: &Boxes,
    place: &mut Place,
    pair: usize,
    spare: Segment,
) -> Result<Segment, Segment>
    requires table { (place.old.table_id ≡ boxes.now.shared.table_id)
        × IsTableOf boxes.now.shared.table_id boxes.now.shared.key.workers }
    requires idle { IsIdle place.old.me }
    requires receiver { (pair < pair_count boxes.now.shared.key.workers)
        × (is_here place.old.me.0 (receiver_of boxes.now.shared.key.workers pair) ≡ true) }
    requires sized { length spare.bytes ≡ boxes.now.shared.key.size }
    ensures table { place.new.table_id ≡ place.old.table_id }
    ensures stays { StaysSeat place.old.me place.new.me }
    ensures ok { IfOk result (λ page. (length page.bytes ≡ place.old.me.0.size)
        × (place.new.me ≡ (with_taken pair page.bytes spare.id page.id (looked (2 * page.id + 1) place.old.me.0), []))) }
    ensures err { IfErr result (λ back. (back ≡ spare) × HasTakenKnown pair place.old.me.0
        × (place.new.me ≡ (looked place.new.me.0.last place.old.me.0, [])) × (place.new.me.0.last % 2 ≡ 0)) }
{
    let shared = &boxes.shared;
    let found = shared.load::<LooksToTake>(place, pair);
    if found % 2 == 0 {
        return Err(spare);
    }
    let word = 2 * u64::from(spare.id());
    let page = shared.exchange(place, pair, spare);
    shared.store::<Gets>(place, pair, word);
    Ok(page)
}
