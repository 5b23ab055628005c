use flow_outside::gate::Gate;
use std::sync::atomic::{AtomicBool, AtomicU64, Ordering};
use std::thread;

/// The word of a gate in which no worker stands.
const EMPTY: u64 = 0;

/// A gate in which a worker waits until another one stands there in the same round, or until it has
/// yielded so many times. Once two workers have met, each passes at once. It serves tests that want to
/// see two workers at once, and no contract says what it answers.
#[derive(Drop)]
pub struct MeetGate {
    limit: u64,
    /// One more than the round of the worker that stands in the gate; rounds past a word's end are one.
    standing: AtomicU64,
    met: AtomicBool,
}

impl MeetGate {
    /// A gate in which no worker stands and none has met another.
    pub fn new(limit: u64) -> MeetGate {
        MeetGate {
            limit,
            standing: AtomicU64::new(EMPTY),
            met: AtomicBool::new(false),
        }
    }

    /// Whether two workers stood in the gate at once, in the same round.
    pub fn met(&self) -> bool {
        self.met.load(Ordering::SeqCst)
    }

    /// Tries to be the worker that stands in the gate. Where one of the same round does, both have met.
    fn enters(&self, mine: u64) -> bool {
        match self
            .standing
            .compare_exchange(EMPTY, mine, Ordering::SeqCst, Ordering::SeqCst)
        {
            Ok(_) => true,
            Err(other) => {
                if other == mine {
                    self.met.store(true, Ordering::SeqCst);
                }
                false
            }
        }
    }
}

impl Gate for MeetGate {
    fn turn(&self, _worker: u32, round: u64) {
        let mine = round.saturating_add(1);
        let mut stands = false;
        for _ in 0..self.limit {
            if self.met() {
                break;
            }
            stands = stands || self.enters(mine);
            thread::yield_now();
        }
        if stands {
            self.standing.store(EMPTY, Ordering::SeqCst);
        }
    }
}
