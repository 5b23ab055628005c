ghost use Rattle.std.specs.Prelude.{◌≡◌, ◌↔◌, ℕ, ◌+◌, ◌<◌, ◌≤◌, ◌⊎◌, true, false, [], ◌∷◌, ◌++◌, Option, Some, None, Ok, IsTrue, IsErrOf, IfNone, is_ok, length, option_to_list};
ghost use Rattle.flow_outside.specs.Blocks.{Blocks};
ghost use Rattle.flow_outside.specs.Causes.{HasStreamCause};
ghost use Rattle.flow_outside.specs.Told.{IfTold};
ghost use Rattle.paged_view.specs.Pages.{used_bytes, IsSameSegment};
ghost use Rattle.paged_view.specs.Reading.{HasRecord, first_record, moved};
ghost use Rattle.page_feed.specs.Feeding.{GoesOn, IsFed, IsGivenOut, IsKnown, IsPutAway, PutsAway, pages_to_give};
ghost use Rattle.page_feed.specs.Feeds.{HasBlockLeft, IsLeftReadable, IsStarted, block_of, pages_left, pages_to_read};

use crate::feed::Feed;
use flow_outside::failure::StreamFault;
use flow_outside::spill::Spill;
use paged_view::need_page::NeedPage;
use paged_view::page::used_bytes;
use segment_core::Segment;
use spool::reader::RunReader;

impl Feed {
    /// Moves past the next record in the reader, and shows it: false where there is no whole one.
    pub(crate) fn show_next(&mut self) -> bool
        ensures fed { IsFed self.old }
        ensures found { IsTrue result ↔ HasRecord self.old.reader.text }
        ensures shows { IsTrue result → self.new ≡ record self.old {
          reader = moved self.old.reader;
          shown = Some (first_record self.old.reader.text);
        } }
        ensures none { result ≡ false → self.new ≡ record self.old { shown = None } }
    {
        self.is_shown = false;
        match self.reader.advance() {
            Ok(()) => {
                self.is_shown = true;
                true
            }
            Err(NeedPage) => false,
        }
    }

    /// Puts all pages in the reader away that were read, but for the open page.
    pub(crate) fn put_all_away(&mut self)
        requires { self.old.shown ≡ None }
        ensures puts { PutsAway self.old self.new }
        ensures all { IsPutAway self.new }
        ensures none { self.new.shown ≡ None }
    {
        'pages: loop {
            if !self.put_away() {
                return;
            }
        }
    }

    // Puts the oldest page in the reader away, where it was read: a kept one to those that were passed, and
    // one of the run to the lent segments that hold no page.
    fn put_away(&mut self) -> bool
        requires { self.old.shown ≡ None }
        ensures puts { IsTrue result → PutsAway self.old self.new }
        ensures fewer { IsTrue result →
            self.new.of_kept + self.new.of_run < self.old.of_kept + self.old.of_run }
        ensures stays { result ≡ false → self.new ≡ self.old }
        ensures all { result ≡ false → IsPutAway self.old }
        ensures none { self.new.shown ≡ None }
    {
        if self.of_kept + self.of_run == 0 {
            return false;
        }
        let Some(page) = self.reader.spent() else {
            return false;
        };
        if self.of_kept > 0 {
            self.of_kept -= 1;
            self.passed.push_reserved(page);
            return true;
        }
        self.of_run -= 1;
        self.blank.push_reserved(page);
        true
    }

    /// Gives the reader its next page: false where none is left, or where the reader has as many pages as a
    /// record touches.
    pub(crate) fn give_next<D: Spill>(&mut self, disk: &mut D) -> Result<bool, StreamFault>
        requires started { IsStarted self.old }
        requires none { self.old.shown ≡ None }
        requires known { IsKnown (D.told disk.old) self.old }
        ensures goes { GoesOn (D.told disk.old) self.old self.new }
        ensures fewer { result ≡ Ok true → pages_to_give self.new < pages_to_give self.old }
        ensures stays { result ≡ Ok false → self.new ≡ self.old }
        ensures refused { result ≡ Ok false →
            IsGivenOut self.old ⊎ (length self.old.reader.pages ≡ self.old.reach) }
        ensures fed { IsFed self.old }
        ensures none { self.new.shown ≡ None }
        ensures tells { D.told disk.new ≡ D.told disk.old }
        ensures counted { D.given disk.new ≡ D.given disk.old }
        ensures cause { HasStreamCause (D.fault_count disk.old) (D.fault_count disk.new)
            (D.told disk.old) result }
        ensures damaged { (block : ℕ) → IsErrOf result (StreamFault.Damaged block) →
            block ≡ block_of self.new.run }
        ensures quiet { self.old.run ≡ None → (disk.new ≡ disk.old) ×
            ((self.new.run ≡ None) × (is_ok result ≡ true)) }
    {
        if self.is_full() {
            return Ok(false);
        }
        if self.give_kept() {
            return Ok(true);
        }
        match self.give_read(disk) {
            Ok(true) => Ok(true),
            Ok(false) => Ok(self.give_last()),
            Err(fault) => Err(fault),
        }
    }

    // Whether the reader has as many pages as a record touches.
    fn is_full(&self) -> bool
        ensures full { IsTrue result → length self.now.reader.pages ≡ self.now.reach }
        ensures space { result ≡ false → length self.now.reader.pages < self.now.reach }
        ensures fed { IsFed self.now }
    {
        self.reader.len() >= self.reach as usize
    }

    // Gives the reader the next kept page: false where there is none.
    fn give_kept(&mut self) -> bool
        requires space { length self.old.reader.pages < self.old.reach }
        requires none { self.old.shown ≡ None }
        ensures goes { (told : Option Blocks) → GoesOn told self.old self.new }
        ensures fewer { IsTrue result → pages_to_give self.new < pages_to_give self.old }
        ensures stays { result ≡ false → self.new ≡ self.old }
        ensures out { result ≡ false → self.old.ahead ≡ [] }
        ensures run { self.new.run ≡ self.old.run }
        ensures none { self.new.shown ≡ None }
    {
        let Some(page) = self.ahead.pop() else {
            return false;
        };
        self.of_kept += 1;
        self.reader.give(page);
        true
    }

    // Reads the next page of the run and gives it to the reader: false where there is none.
    fn give_read<D: Spill>(&mut self, disk: &mut D) -> Result<bool, StreamFault>
        requires space { length self.old.reader.pages < self.old.reach }
        requires started { IsStarted self.old }
        requires out { self.old.ahead ≡ [] }
        requires none { self.old.shown ≡ None }
        requires known { IsKnown (D.told disk.old) self.old }
        ensures goes { GoesOn (D.told disk.old) self.old self.new }
        ensures fewer { result ≡ Ok true → pages_to_give self.new < pages_to_give self.old }
        ensures stays { result ≡ Ok false → self.new ≡ self.old }
        ensures out { result ≡ Ok false → pages_to_read self.old.run ≡ 0 }
        ensures none { self.new.shown ≡ None }
        ensures tells { D.told disk.new ≡ D.told disk.old }
        ensures counted { D.given disk.new ≡ D.given disk.old }
        ensures cause { HasStreamCause (D.fault_count disk.old) (D.fault_count disk.new)
            (D.told disk.old) result }
        ensures damaged { (block : ℕ) → IsErrOf result (StreamFault.Damaged block) →
            block ≡ block_of self.new.run }
        ensures quiet { self.old.run ≡ None → (result ≡ Ok false) × (disk.new ≡ disk.old) }
    {
        match self.take_blank() {
            Some(page) => {
                let mut page = page;
                match self.read_page(disk, &mut page) {
                    Ok(true) => {
                        self.give_page(page);
                        Ok(true)
                    }
                    Ok(false) => {
                        self.put_blank(page);
                        Ok(false)
                    }
                    Err(fault) => {
                        self.put_blank(page);
                        Err(fault)
                    }
                }
            }
            None => unreachable!(),
        }
    }

    // Takes a lent segment that holds no page.
    fn take_blank(&mut self) -> Option<Segment>
        ensures blank { self.old.blank ≡ self.new.blank ++ option_to_list result }
        ensures none { IfNone result (self.old.blank ≡ []) }
        ensures others { self.new ≡ record self.old { blank = self.new.blank } }
        ensures fed { IsFed self.old }
    {
        let _reach = self.reach;
        self.blank.pop()
    }

    // Reads the next page of the run: false where there is none.
    fn read_page<D: Spill>(&mut self, disk: &mut D, page: &mut Segment) -> Result<bool, StreamFault>
        requires { IfTold (D.told disk.old)
            (λ blocks. IsLeftReadable blocks (length page.old.bytes) self.old.run) }
        ensures others { self.new ≡ record self.old { run = self.new.run } }
        ensures cause { HasStreamCause (D.fault_count disk.old) (D.fault_count disk.new) (D.told disk.old) result }
        ensures tells { D.told disk.new ≡ D.told disk.old }
        ensures given { D.given disk.new ≡ D.given disk.old }
        ensures same { IsSameSegment page.old page.new }
        ensures end { result ≡ Ok false → pages_to_read self.old.run ≡ 0 }
        ensures stays { result ≡ Ok false → (self.new.run ≡ self.old.run) × (page.new ≡ page.old) }
        ensures fewer { result ≡ Ok true → pages_to_read self.old.run ≡ pages_to_read self.new.run + 1 }
        ensures later { pages_to_read self.new.run ≤ pages_to_read self.old.run }
        ensures pages { result ≡ Ok true → IfTold (D.told disk.old)
            (λ blocks. pages_left blocks self.old.run ≡ page.new.bytes ∷ pages_left blocks self.new.run) }
        ensures readable { IfTold (D.told disk.old)
            (λ blocks. IsLeftReadable blocks (length page.old.bytes) self.new.run) }
        ensures among { IfTold (D.told disk.old) (λ blocks. (block : ℕ) →
            HasBlockLeft blocks self.new.run block → HasBlockLeft blocks self.old.run block) }
        ensures spill { IsErrOf result StreamFault.Spill → self.new.run ≡ self.old.run }
        ensures damaged { (block : ℕ) → IsErrOf result (StreamFault.Damaged block) →
            block ≡ block_of self.new.run }
        ensures quiet { self.old.run ≡ None → (result ≡ Ok false) × (disk.new ≡ disk.old) }
    {
        read_next(&mut self.run, disk, page)
    }

    // Gives the reader a page of the run.
    fn give_page(&mut self, page: Segment)
        requires space { length self.old.reader.pages < self.old.reach }
        requires lent { self.old.of_run + length self.old.blank < self.old.reach }
        requires turn { length self.old.reader.pages ≡ self.old.of_kept + self.old.of_run }
        requires out { self.old.ahead ≡ [] }
        requires none { self.old.shown ≡ None }
        ensures others { self.new ≡ record self.old {
          of_run = self.old.of_run + 1;
          reader = self.new.reader;
        } }
        ensures pages { self.new.reader.pages ≡ self.old.reader.pages ++ page ∷ [] }
        ensures text { self.new.reader.text ≡ self.old.reader.text ++ used_bytes page }
        ensures most { length (used_bytes page) ≤ 32752 }
    {
        let _used = used_bytes(&page);
        self.of_run += 1;
        self.reader.give(page);
    }

    // Puts a segment back that holds no page.
    fn put_blank(&mut self, page: Segment)
        requires { self.old.of_run + length self.old.blank < self.old.reach }
        ensures { self.new ≡ record self.old { blank = self.old.blank ++ page ∷ [] } }
    {
        self.blank.push_reserved(page);
    }

    // Gives the reader the open page: false where there is none.
    fn give_last(&mut self) -> bool
        requires space { length self.old.reader.pages < self.old.reach }
        requires out { self.old.ahead ≡ [] }
        requires run { pages_to_read self.old.run ≡ 0 }
        requires none { self.old.shown ≡ None }
        ensures goes { (told : Option Blocks) → GoesOn told self.old self.new }
        ensures fewer { IsTrue result → pages_to_give self.new < pages_to_give self.old }
        ensures stays { result ≡ false → self.new ≡ self.old }
        ensures out { result ≡ false → self.old.open_page ≡ [] }
        ensures run { self.new.run ≡ self.old.run }
        ensures none { self.new.shown ≡ None }
    {
        let Some(page) = self.open_page.pop() else {
            return false;
        };
        self.reader.give(page);
        true
    }
}

// Reads the next page of a run: false where none is left, or where there is no run.
fn read_next<D: Spill>(
    run: &mut Option<RunReader>,
    disk: &mut D,
    page: &mut Segment,
) -> Result<bool, StreamFault>
    requires { IfTold (D.told disk.old) (λ blocks. IsLeftReadable blocks (length page.old.bytes) run.old) }
    ensures cause { HasStreamCause (D.fault_count disk.old) (D.fault_count disk.new) (D.told disk.old) result }
    ensures tells { D.told disk.new ≡ D.told disk.old }
    ensures given { D.given disk.new ≡ D.given disk.old }
    ensures same { IsSameSegment page.old page.new }
    ensures end { result ≡ Ok false → pages_to_read run.old ≡ 0 }
    ensures stays { result ≡ Ok false → (run.new ≡ run.old) × (page.new ≡ page.old) }
    ensures fewer { result ≡ Ok true → pages_to_read run.old ≡ pages_to_read run.new + 1 }
    ensures later { pages_to_read run.new ≤ pages_to_read run.old }
    ensures pages { result ≡ Ok true → IfTold (D.told disk.old)
        (λ blocks. pages_left blocks run.old ≡ page.new.bytes ∷ pages_left blocks run.new) }
    ensures readable { IfTold (D.told disk.old)
        (λ blocks. IsLeftReadable blocks (length page.old.bytes) run.new) }
    ensures among { IfTold (D.told disk.old) (λ blocks. (block : ℕ) →
        HasBlockLeft blocks run.new block → HasBlockLeft blocks run.old block) }
    ensures spill { IsErrOf result StreamFault.Spill → run.new ≡ run.old }
    ensures damaged { (block : ℕ) → IsErrOf result (StreamFault.Damaged block) → block ≡ block_of run.new }
    ensures quiet { run.old ≡ None → (result ≡ Ok false) × (disk.new ≡ disk.old) }
{
    match run {
        Some(reader) => reader.next(disk, page),
        None => Ok(false),
    }
}
