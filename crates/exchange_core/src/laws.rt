ghost use Rattle.std.specs.Prelude.{◌≡◌, ◌≢◌, ◌↔◌, ℕ, List, Ok, Err, Some, None};
ghost use Rattle.exchange_core.specs.Lane.{Bytes, after_put, after_got};
ghost use Rattle.exchange_core.specs.Laws.{AllKeepUp, IsFirstRefusal, IsNotReady};
ghost use Rattle.exchange_core.specs.Machine.{Machine, lane_of, pair_of, run_of, start_of, step_of, workers, IsPair, IsSquare};
ghost use Rattle.exchange_core.specs.declared.event.Event.{Event};
ghost use Rattle.exchange_core.specs.declared.event.Event.TheVariants.{Put, Got};

/// Over every list of events that isn't refused, and for each pair: what was received is a prefix of
/// what was sent, at most one page behind, and the mailbox holds exactly the page between. It holds
/// at the start, and each event keeps it.
pub fn received_is_prefix()
    ensures run { (count : ℕ) (events : List Event) (machine : Machine)
        → run_of count events ≡ Ok machine → AllKeepUp machine }
    ensures start { (count : ℕ) → AllKeepUp (start_of count) }
    ensures step { (machine next : Machine) (event : Event)
        → AllKeepUp machine → step_of machine event ≡ Some next → AllKeepUp next }
{}

/// An event is refused exactly where the mailbox of its pair is full for a Put, or empty for a Got.
pub fn refused_by_the_mailbox()
    ensures { (machine : Machine) (event : Event)
        → (step_of machine event ≡ None) ↔ IsNotReady machine event }
{}

/// A run that is refused at a place comes to a machine by the events before it, which has no step by
/// the event at it.
pub fn refused_at_the_first()
    ensures { (count : ℕ) (events : List Event) (place : ℕ)
        → run_of count events ≡ Err place → IsFirstRefusal count events place }
{}

/// An event leaves the lanes of all other pairs as they were.
pub fn other_lanes_stay()
    ensures { (machine next : Machine) (event : Event) → step_of machine event ≡ Some next
        → (p c : ℕ) → pair_of event ≢ (p, c) → lane_of next p c ≡ lane_of machine p c }
{}

/// An event moves the lane of its own pair as Put or Got says.
pub fn own_lane_moves()
    ensures put { (machine next : Machine) (p c : ℕ) (page : Bytes)
        → IsSquare machine → IsPair (workers machine) p c
        → step_of machine (Put p c page) ≡ Some next
        → after_put page (lane_of machine p c) ≡ Some (lane_of next p c) }
    ensures got { (machine next : Machine) (p c : ℕ)
        → IsSquare machine → IsPair (workers machine) p c
        → step_of machine (Got p c) ≡ Some next
        → after_got (lane_of machine p c) ≡ Some (lane_of next p c) }
{}
