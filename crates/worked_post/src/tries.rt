//! One try at a mailbox, with the segment that is in hand after it, however the try ends.
ghost use Rattle.std.specs.Prelude.{◌≡◌, ◌≢◌, ◌<◌, length};
ghost use Rattle.post_table.specs.Seats.{MadeBy};
ghost use Rattle.worked_post.specs.Swaps.{Swaps};

use post_table::post::Post;
use post_table::seats::WorkerSeat;
use segment_core::Segment;

/// Tries to put a page. The spare, or the page again, and whether the page went.
pub fn try_put(post: &Post, seat: &mut WorkerSeat, c: u32, page: Segment) -> (Segment, bool)
    requires made { MadeBy post.now seat.old }
    requires other { (c < post.now.workers) × (c ≢ seat.old.view.number) }
    requires sized { length page.bytes ≡ post.now.size }
    ensures made { MadeBy post.now seat.new }
    ensures number { seat.new.view.number ≡ seat.old.view.number }
    ensures here { seat.new.view.here ≡ seat.old.view.here }
    ensures sized { length result.0.bytes ≡ post.now.size }
    ensures swaps { Swaps post.now.size seat.old.view seat.new.view page result.0 }
{
    match post.put(seat, c, page) {
        Ok(spare) => (spare, true),
        Err(page) => (page, false),
    }
}

/// Tries to get a page. The page, or the spare again, and whether a page came.
pub fn try_get(post: &Post, seat: &mut WorkerSeat, p: u32, spare: Segment) -> (Segment, bool)
    requires made { MadeBy post.now seat.old }
    requires other { (p < post.now.workers) × (p ≢ seat.old.view.number) }
    requires sized { length spare.bytes ≡ post.now.size }
    ensures made { MadeBy post.now seat.new }
    ensures number { seat.new.view.number ≡ seat.old.view.number }
    ensures here { seat.new.view.here ≡ seat.old.view.here }
    ensures sized { length result.0.bytes ≡ post.now.size }
    ensures swaps { Swaps post.now.size seat.old.view seat.new.view spare result.0 }
{
    match post.got(seat, p, spare) {
        Ok(page) => (page, true),
        Err(spare) => (spare, false),
    }
}
