ghost use Rattle.std.specs.Prelude.{◌≡◌, ◌≤◌, [], Option, IfOk, option_map, vec_len, vec_capacity};
ghost use Rattle.paged_view.specs.Seen.{seen_in};
ghost use Rattle.page_feed.specs.Feeds.{block_of, block_or, held, stopped};

use crate::lists::{end_reader, reserve, reserve_reader};
use flow_outside::failure::Memory;
use paged_view::reader::PageReader;
use paged_view::record_ref::RecordRef;
use segment_core::Segment;
use spool::reader::RunReader;
use std::alloc::Global;
use std::marker::Model;

/// Reads the records of kept pages, of the pages of a run and of the open page, in this order. The
/// pages of the run are read one by one into segments that it was lent. It may not be let go: `stop`
/// gives back what it holds, and `end` ends it.
pub struct Feed {
    pub(crate) reader: PageReader,
    // the kept pages that were read
    pub(crate) passed: Vec<Segment>,
    // those that weren't given to the reader yet, the next one last
    pub(crate) ahead: Vec<Segment>,
    // the open page, where the reader doesn't have it
    pub(crate) open_page: Vec<Segment>,
    pub(crate) blank: Vec<Segment>,
    pub(crate) run: Option<RunReader>,
    pub(crate) of_kept: usize,
    pub(crate) of_run: usize,
    pub(crate) room: u32,
    pub(crate) reach: u32,
    pub(crate) is_shown: bool,
}

impl Model for Feed {
    ghost use Rattle.std.specs.Prelude.{Some, None, cond, reverse, vec_len, vec_capacity};
    ghost use Rattle.page_feed.specs.Feeds.{FeedView};
    ghost use Rattle.page_feed.specs.Feeding.{IsFeed};

    ghost Value = { FeedView };

    ghost view = { λ f. record {
      room = f.room;
      reach = f.reach;
      passed = f.passed.items;
      reader = f.reader;
      of_kept = f.of_kept;
      of_run = f.of_run;
      ahead = reverse f.ahead.items;
      run = f.run;
      open_page = f.open_page.items;
      blank = f.blank.items;
      shown = cond f.is_shown (Some f.reader.head) None;
    } };

    ghost invariant = { λ f. IsFeed f.room f.reach f.reader f.of_kept f.of_run f.run
        (vec_len f.passed) (vec_capacity f.passed) (vec_len f.ahead) (vec_capacity f.ahead)
        (vec_len f.open_page) (vec_capacity f.open_page) (vec_len f.blank) (vec_capacity f.blank) };
}

impl Feed {
    /// A feed that holds nothing. It takes at most `room` kept pages, and gives records that touch at most
    /// `reach` pages each. It takes memory for its lists, and no call after it takes any.
    pub fn open(alloc: Global, room: u32, reach: u32) -> Result<Feed, Memory>
        ensures { IfOk result (λ f. f ≡ stopped room reach) }
    {
        let (passed, ahead) = reserve(alloc, room, room)?;
        match open_rest(alloc, reach) {
            Ok((reader, open_page, blank)) => Ok(Feed {
                reader,
                passed,
                ahead,
                open_page,
                blank,
                run: None,
                of_kept: 0,
                of_run: 0,
                room,
                reach,
                is_shown: false,
            }),
            Err(Memory) => {
                passed.destroy_empty();
                ahead.destroy_empty();
                Err(Memory)
            }
        }
    }

    /// The record that it shows: `None` exactly before the first `advance` since `start`, and after one
    /// that answered false or a fault. It costs nothing.
    pub fn head(&self) -> Option<RecordRef<'_>>
        ensures { option_map seen_in result ≡ self.now.shown }
    {
        if self.is_shown {
            Some(self.reader.head())
        } else {
            None
        }
    }

    /// The block of the page of the run that was read last, 0 where none was.
    pub fn block(&self) -> u64
        ensures { result ≡ block_of self.now.run }
    {
        match &self.run {
            Some(run) => run.block(),
            None => 0,
        }
    }

    /// The block of the page of the run that was read last, and this one where no run is read.
    pub fn block_or(&self, other: u64) -> u64
        ensures { result ≡ block_or self.now.run other }
    {
        match &self.run {
            Some(run) => run.block(),
            None => other,
        }
    }

    /// Ends a feed that holds no segment.
    pub fn end(self)
        requires { held self ≡ [] }
    {
        let Feed {
            reader,
            passed,
            ahead,
            open_page,
            blank,
            run: _,
            of_kept: _,
            of_run: _,
            room: _,
            reach: _,
            is_shown: _,
        } = self;
        end_reader(reader);
        passed.destroy_empty();
        ahead.destroy_empty();
        open_page.destroy_empty();
        blank.destroy_empty();
    }
}

// What a feed has beside its lists of kept pages.
fn open_rest(alloc: Global, reach: u32) -> Result<(PageReader, Vec<Segment>, Vec<Segment>), Memory>
    ensures reader { IfOk result
        (λ rest. rest.0 ≡ record { room = reach; pages = []; head = []; text = [] }) }
    ensures open_page { IfOk result
        (λ rest. (rest.1.items ≡ []) × (vec_len rest.1 ≡ 0) × (1 ≤ vec_capacity rest.1)) }
    ensures blank { IfOk result
        (λ rest. (rest.2.items ≡ []) × (vec_len rest.2 ≡ 0) × (reach ≤ vec_capacity rest.2)) }
{
    let (open_page, blank) = reserve(alloc, 1, reach)?;
    match reserve_reader(alloc, reach) {
        Ok(reader) => Ok((reader, open_page, blank)),
        Err(Memory) => {
            open_page.destroy_empty();
            blank.destroy_empty();
            Err(Memory)
        }
    }
}
