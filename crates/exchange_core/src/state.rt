ghost use Rattle.std.specs.Prelude.{◌≡◌, ◌≢◌, ◌↔◌, ℕ, None, Some, Err, IfOk, OnOk, OnErr};
ghost use Rattle.std.specs.Option.{option_copied};
ghost use Rattle.exchange_core.specs.Machine.{lane_of, start_of, step_of, workers, IsAmong, IsPair, IsSquare, IsWorkerCount};

use crate::event::Event;
use crate::fault::StepFault;
use crate::outbox::Outbox;
use crate::page::Page;
use flow_outside::failure::Memory;
use std::alloc::{AllocError, Global};
use std::marker::Model;

/// The state of an exchange between workers with the numbers 0, 1 and so on. To a contract it is the
/// exchange machine: for each ordered pair the pages sent, the pages received, and the mailbox.
#[derive(Debug, Drop)]
pub struct State {
    outboxes: Vec<Outbox>,
}

impl Model for State {
    ghost use Rattle.exchange_core.specs.Machine.{Machine, IsSquare};

    ghost Value = { Machine };

    ghost view = { λ state. state.outboxes.items };

    ghost invariant = { λ state. IsSquare state.outboxes.items };
}

impl State {
    /// An exchange between `w` workers, with nothing sent. It takes memory for `w` times `w` lanes;
    /// a lane's pages are its later growth.
    pub fn start(alloc: Global, w: u32) -> Result<State, Memory>
        requires { IsWorkerCount w }
        ensures ok { IfOk result (λ state. state ≡ start_of w) }
        ensures workers { IfOk result (λ state. workers state ≡ w) }
        ensures square { IfOk result IsSquare }
    {
        let outboxes = open_outboxes(alloc, w).map_err(|_| Memory)?;
        Ok(State { outboxes })
    }

    /// Lets one event happen, in constant time but for the growth of a list. `NotNow` comes where
    /// the mailbox is full for a Put, or empty for a Got, and after an `Err` nothing has changed. A
    /// Got takes no memory.
    pub fn step(&mut self, event: Event) -> Result<(), StepFault>
        requires { IsAmong (workers self.old) event }
        ensures ok { OnOk result (step_of self.old event ≡ Some self.new) }
        ensures not_now { (result ≡ Err StepFault.NotNow) ↔ (step_of self.old event ≡ None) }
        ensures got { (p c : ℕ) → event ≡ Event.Got p c → result ≢ Err StepFault.Memory }
        ensures err { OnErr result (self.new ≡ self.old) }
        ensures workers { workers self.new ≡ workers self.old }
        ensures square { IsSquare self.new }
    {
        match event {
            Event::Put { p, c, page } => {
                let outbox = &mut self.outboxes[p as usize];
                outbox.put(c as usize, page)
            }
            Event::Got { p, c } => {
                let outbox = &mut self.outboxes[p as usize];
                outbox.get(c as usize)
            }
        }
    }

    /// The pages that `p` has put for `c` so far, in order.
    pub fn sent(&self, p: u32, c: u32) -> &[Page]
        requires { IsPair (workers self.now) p c }
        ensures { result.now ≡ (lane_of self.now p c).sent }
    {
        let outbox = &self.outboxes[p as usize];
        outbox.log(c as usize).sent()
    }

    /// The pages that `c` has got of `p` so far, in order.
    pub fn received(&self, p: u32, c: u32) -> &[Page]
        requires { IsPair (workers self.now) p c }
        ensures { result.now ≡ (lane_of self.now p c).received }
    {
        let outbox = &self.outboxes[p as usize];
        outbox.log(c as usize).received()
    }

    /// The page in the mailbox of `p` to `c`, or `None` where it is empty.
    pub fn mailbox(&self, p: u32, c: u32) -> Option<&Page>
        requires { IsPair (workers self.now) p c }
        ensures { option_copied result ≡ (lane_of self.now p c).mailbox }
    {
        let outbox = &self.outboxes[p as usize];
        outbox.log(c as usize).mailbox()
    }
}

/// For each of this many posters its idle lanes to as many receivers.
fn open_outboxes(alloc: Global, count: u32) -> Result<Vec<Outbox>, AllocError>
    ensures { IfOk result (λ outboxes. outboxes.items ≡ start_of count) }
{
    let mut outboxes = Vec::with_capacity(alloc, count as usize)?;
    for _ in 0..count {
        outboxes.push(Outbox::open(alloc, count)?)?;
    }
    Ok(outboxes)
}
