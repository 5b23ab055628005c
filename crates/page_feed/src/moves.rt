ghost use Rattle.std.specs.Prelude.{◌≡◌, ℕ, ◌+◌, ◌≤◌, [], ◌++◌, length, vec_capacity};
ghost use Rattle.segment_core.specs.Segments.{segment_sum};
ghost use Rattle.page_feed.specs.Feeds.{IsStarted, kept_in, open_page_in, lent, stopped};

use crate::feed::Feed;
use crate::lists::{give_back, lend, turn_over, withdraw, withdraw_all, withdraw_lent};
use segment_core::{Purse, Segment};
use spool::reader::RunReader;

impl Feed {
    /// Begins at the first of these pages: kept ones, those of the run, and the open page. It takes
    /// the segments out of both lists, and `reach` segments from the purse, to read pages into.
    pub fn start(
        &mut self,
        kept: &mut Vec<Segment>,
        open_page: &mut Vec<Segment>,
        run: Option<RunReader>,
        purse: &mut Purse,
    )
        requires stopped { self.old ≡ stopped self.old.room self.old.reach }
        requires fits { (length kept.old.items ≤ self.old.room) × (length open_page.old.items ≤ 1) }
        requires supply { self.old.reach ≤ length purse.old.pages }
        ensures begins { self.new ≡ record (stopped self.old.room self.old.reach) {
          ahead = kept.old.items;
          run = run;
          open_page = open_page.old.items;
          blank = self.new.blank;
        } }
        ensures started { IsStarted self.new }
        ensures emptied { (kept.new.items ≡ []) × (open_page.new.items ≡ []) }
        ensures capacities { (vec_capacity kept.new ≡ vec_capacity kept.old)
            × (vec_capacity open_page.new ≡ vec_capacity open_page.old) }
        ensures purse { (purse.new.room ≡ purse.old.room) × ((h : ℕ → ℕ → ℕ) →
            segment_sum h purse.new.pages + segment_sum h self.new.blank ≡ segment_sum h purse.old.pages) }
    {
        turn_over(kept, &mut self.ahead);
        turn_over(open_page, &mut self.open_page);
        lend(purse, self.reach, &mut self.blank);
        self.run = run;
    }

    /// Gives all of its segments back, whether it was started or not: the kept pages behind those of
    /// `kept`, in order, the open page behind those of `open_page`, and the lent ones to the purse.
    pub fn stop(&mut self, kept: &mut Vec<Segment>, open_page: &mut Vec<Segment>, purse: &mut Purse)
        requires space { (length kept.old.items + length (kept_in self.old) ≤ vec_capacity kept.old)
            × (length open_page.old.items + length (open_page_in self.old) ≤ vec_capacity open_page.old) }
        requires room { length purse.old.pages + length (lent self.old) ≤ purse.old.room }
        ensures kept { kept.new.items ≡ kept.old.items ++ kept_in self.old }
        ensures open_page { open_page.new.items ≡ open_page.old.items ++ open_page_in self.old }
        ensures stopped { self.new ≡ stopped self.old.room self.old.reach }
        ensures capacities { (vec_capacity kept.new ≡ vec_capacity kept.old)
            × (vec_capacity open_page.new ≡ vec_capacity open_page.old) }
        ensures room { purse.new.room ≡ purse.old.room }
        ensures segments { (h : ℕ → ℕ → ℕ) →
            segment_sum h purse.new.pages ≡ segment_sum h purse.old.pages + segment_sum h (lent self.old) }
    {
        withdraw(&mut self.reader, self.of_kept, &mut self.passed);
        withdraw_lent(&mut self.reader, self.of_run, purse);
        withdraw_all(&mut self.reader, open_page);
        turn_over(&mut self.passed, &mut self.ahead);
        turn_over(&mut self.ahead, kept);
        turn_over(&mut self.open_page, open_page);
        give_back(&mut self.blank, purse);
        self.of_kept = 0;
        self.of_run = 0;
        self.run = None;
        self.is_shown = false;
    }
}
