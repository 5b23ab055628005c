ghost use Rattle.std.specs.Prelude.{◌≡◌, ◌≢◌, ◌<◌, length, IfOk, IfErr};
ghost use Rattle.post_table.specs.Seats.{IsNotPosted, IsNotTaken, IsPosted, IsTaken, MadeBy};

use crate::pairs;
use crate::post::Post;
use crate::seats::WorkerSeat;
use crate::steps::{post_page, take_page};
use segment_core::Segment;

impl Post {
    /// Posts a page to worker `c`. `Ok` gives the spare that lay in the mailbox. `Err` gives the page
    /// back: this call's load saw that a page waits there. It never comes where the seat knows that all
    /// that it posted to `c` was received. It takes no memory.
    pub fn put(&self, seat: &mut WorkerSeat, c: u32, page: Segment) -> Result<Segment, Segment>
        requires made { MadeBy self.now seat.old }
        requires other { (c < self.now.workers) × (c ≢ seat.old.view.number) }
        requires sized { length page.bytes ≡ self.now.size }
        ensures made { MadeBy self.now seat.new }
        ensures ok { IfOk result (λ spare. IsPosted self.now.workers c page spare seat.old.view seat.new.view) }
        ensures err { IfErr result (λ back. (back ≡ page)
            × IsNotPosted self.now.workers c seat.old.view seat.new.view) }
    {
        let pair = pairs::number(self.workers, seat.number, c);
        post_page(&self.boxes, &mut seat.place, pair, page)
    }

    /// Takes the page that worker `p` posted. `Ok` gives the page, and the spare lies in the mailbox.
    /// `Err` gives the spare back: this call's load saw that no page waits there. It never comes where the
    /// seat knows that `p` posted a page that it hasn't taken. It takes no memory.
    pub fn got(&self, seat: &mut WorkerSeat, p: u32, spare: Segment) -> Result<Segment, Segment>
        requires made { MadeBy self.now seat.old }
        requires other { (p < self.now.workers) × (p ≢ seat.old.view.number) }
        requires sized { length spare.bytes ≡ self.now.size }
        ensures made { MadeBy self.now seat.new }
        ensures ok { IfOk result (λ page. IsTaken self.now.workers p page spare seat.old.view seat.new.view) }
        ensures err { IfErr result (λ back. (back ≡ spare)
            × IsNotTaken self.now.workers p seat.old.view seat.new.view) }
    {
        let pair = pairs::number(self.workers, p, seat.number);
        take_page(&self.boxes, &mut seat.place, pair, spare)
    }
}
