ghost use Rattle.std.specs.Prelude.{◌≡◌, ◌≢◌, ◌↔◌, None, Some, Ok, OnOk, OnErr};
ghost use Rattle.std.specs.Option.{option_copied};
ghost use Rattle.exchange_core.specs.Lane.{idle, after_put, after_got};

use crate::fault::StepFault;
use crate::page::Page;
use std::alloc::Global;
use std::marker::Model;

/// The pages of one lane, in the order in which they were put, with the number of those that were
/// got. What was received stands at the front, and the page in the mailbox after it, so no page is
/// copied or moved on its way.
#[derive(Debug, Drop)]
pub struct PageLog {
    sent: Vec<Page>,
    received: usize,
}

impl Model for PageLog {
    ghost use Rattle.std.specs.Prelude.{◌≤◌, ◌+◌, take, slice_get, length};
    ghost use Rattle.exchange_core.specs.Lane.{Lane};

    ghost Value = { Lane };

    ghost view = { λ log. record {
      sent = log.sent.items;
      received = take log.received log.sent.items;
      mailbox = slice_get log.sent.items log.received;
    } };

    // At most one page was sent and isn't received.
    ghost invariant = { λ log. (log.received ≤ length log.sent.items)
        × (length log.sent.items ≤ log.received + 1) };
}

impl PageLog {
    /// Nothing was put yet. It takes no memory.
    pub fn new(alloc: Global) -> PageLog
        ensures { result ≡ idle }
    {
        PageLog {
            sent: Vec::new(alloc),
            received: 0,
        }
    }

    /// Puts a page into the mailbox. Only a full mailbox is not ready.
    #[tactic(auto, using(crate::proofs::LogLemmas::put_free, crate::proofs::LogLemmas::put_full))]
    pub fn put(&mut self, page: Page) -> Result<(), StepFault>
        ensures ok { OnOk result (after_put page self.old ≡ Some self.new) }
        ensures not_now { (result ≡ Err StepFault.NotNow) ↔ (after_put page self.old ≡ None) }
        ensures err { OnErr result (self.new ≡ self.old) }
    {
        if self.received < self.sent.len() {
            return Err(StepFault::NotNow);
        }
        self.sent.push(page).map_err(|_| StepFault::Memory)?;
        Ok(())
    }

    /// Gets the page that is in the mailbox. Only an empty mailbox is not ready. It takes no memory.
    #[tactic(auto, using(crate::proofs::LogLemmas::got_full, crate::proofs::LogLemmas::got_empty))]
    pub fn get(&mut self) -> Result<(), StepFault>
        ensures ok { OnOk result (after_got self.old ≡ Some self.new) }
        ensures not_now { (result ≡ Err StepFault.NotNow) ↔ (after_got self.old ≡ None) }
        ensures memory { result ≢ Err StepFault.Memory }
        ensures err { OnErr result (self.new ≡ self.old) }
    {
        if self.received == self.sent.len() {
            return Err(StepFault::NotNow);
        }
        self.received += 1;
        Ok(())
    }

    /// All pages that were put.
    pub fn sent(&self) -> &[Page]
        ensures { result.now ≡ self.now.sent }
    {
        self.sent.as_slice()
    }

    /// The pages that were got.
    pub fn received(&self) -> &[Page]
        ensures { result.now ≡ self.now.received }
    {
        let sent = self.sent.as_slice();
        &sent[..self.received]
    }

    /// The page that was put and isn't got yet.
    pub fn mailbox(&self) -> Option<&Page>
        ensures { option_copied result ≡ self.now.mailbox }
    {
        self.sent.get(self.received)
    }
}
