ghost use Rattle.std.specs.Prelude.{◌≡◌, ℕ, Ok, Err, All, IfOk};
ghost use Rattle.exchange_core.specs.Laws.{AllKeepUp};
ghost use Rattle.exchange_core.specs.Machine.{run_of, workers, IsAmong, IsSquare, IsWorkerCount};

use crate::event::Event;
use crate::fault::{RunFault, StepFault};
use crate::state::State;
use std::alloc::Global;

/// The state that these events lead to, one after another, from an exchange between `w` workers with
/// nothing sent. `NotNow` tells the place of the first event that finds its mailbox not ready.
pub fn run(alloc: Global, w: u32, events: Vec<Event>) -> Result<State, RunFault>
    requires workers { IsWorkerCount w }
    requires pairs { All (IsAmong w) events.items }
    ensures ok { IfOk result (λ state. run_of w events.items ≡ Ok state) }
    ensures not_now { (place : ℕ) → result ≡ Err (RunFault.NotNow place) → run_of w events.items ≡ Err place }
    ensures keeps_up { IfOk result AllKeepUp }
    ensures workers { IfOk result (λ state. workers state ≡ w) }
    ensures square { IfOk result IsSquare }
{
    let mut state = State::start(alloc, w).map_err(|_| RunFault::Memory)?;
    for (place, event) in events.into_iter().enumerate() {
        match state.step(event) {
            Ok(()) => {}
            Err(StepFault::Memory) => return Err(RunFault::Memory),
            Err(StepFault::NotNow) => {
                return Err(RunFault::NotNow {
                    place: place as u64,
                });
            }
        }
    }
    Ok(state)
}
