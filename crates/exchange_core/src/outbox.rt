ghost use Rattle.std.specs.Prelude.{◌≡◌, ◌≢◌, ◌↔◌, ◌<◌, None, Some, Err, IfOk, OnOk, OnErr, option_map, length, replicate, slice_set};
ghost use Rattle.exchange_core.specs.Lane.{idle, after_put, after_got};
ghost use Rattle.exchange_core.specs.Machine.{lane_to};

use crate::fault::StepFault;
use crate::page::Page;
use crate::page_log::PageLog;
use std::alloc::{AllocError, Global};
use std::marker::Model;

/// The lanes of one poster, in the order of the receivers' numbers.
#[derive(Debug, Drop)]
pub struct Outbox {
    logs: Vec<PageLog>,
}

impl Model for Outbox {
    ghost use Rattle.std.specs.Prelude.{List};
    ghost use Rattle.exchange_core.specs.Lane.{Lane};

    ghost Value = { List Lane };

    ghost view = { λ outbox. outbox.logs.items };
}

impl Outbox {
    /// Idle lanes to this many receivers.
    pub fn open(alloc: Global, count: u32) -> Result<Outbox, AllocError>
        ensures { IfOk result (λ outbox. outbox ≡ replicate count idle) }
    {
        let mut logs = Vec::with_capacity(alloc, count as usize)?;
        for _ in 0..count {
            logs.push(PageLog::new(alloc))?;
        }
        Ok(Outbox { logs })
    }

    /// Puts a page into the mailbox to `c`.
    pub fn put(&mut self, c: usize, page: Page) -> Result<(), StepFault>
        requires { c < length self.old }
        ensures ok { OnOk result
            (option_map (slice_set self.old c) (after_put page (lane_to self.old c)) ≡ Some self.new) }
        ensures not_now { (result ≡ Err StepFault.NotNow) ↔ (after_put page (lane_to self.old c) ≡ None) }
        ensures err { OnErr result (self.new ≡ self.old) }
        ensures len { length self.new ≡ length self.old }
    {
        let log = &mut self.logs[c];
        log.put(page)
    }

    /// Gets the page that is in the mailbox to `c`. It takes no memory.
    pub fn get(&mut self, c: usize) -> Result<(), StepFault>
        requires { c < length self.old }
        ensures ok { OnOk result
            (option_map (slice_set self.old c) (after_got (lane_to self.old c)) ≡ Some self.new) }
        ensures not_now { (result ≡ Err StepFault.NotNow) ↔ (after_got (lane_to self.old c) ≡ None) }
        ensures memory { result ≢ Err StepFault.Memory }
        ensures err { OnErr result (self.new ≡ self.old) }
        ensures len { length self.new ≡ length self.old }
    {
        let log = &mut self.logs[c];
        log.get()
    }

    /// The lane to `c`.
    pub fn log(&self, c: usize) -> &PageLog
        requires { c < length self.now }
        ensures { result.now ≡ lane_to self.now c }
    {
        &self.logs[c]
    }
}
