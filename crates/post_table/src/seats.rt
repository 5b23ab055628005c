use crate::rule::Place;
use std::marker::Model;

/// The seat of who parts and meets the others. It may not be let go: `close` ends it.
pub struct MainSeat {
    pub(crate) place: Place,
}

impl Model for MainSeat {
    ghost use Rattle.post_table.specs.Seats.{SeatView};
    ghost use Rattle.post_table.specs.Steps.{IsIdle};

    ghost Value = { SeatView };

    ghost view = { λ s. record { table = s.place.table_id; view = s.place.me.0 } };

    ghost invariant = { λ s. IsIdle s.place.me };
}

/// A worker's seat. It may not be let go: it is met.
pub struct WorkerSeat {
    pub(crate) place: Place,
    pub(crate) number: u32,
}

impl Model for WorkerSeat {
    ghost use Rattle.std.specs.Prelude.{◌≡◌, ◌<◌, [], ◌∷◌};
    ghost use Rattle.post_table.specs.Seats.{SeatView};
    ghost use Rattle.post_table.specs.Steps.{IsIdle};

    ghost Value = { SeatView };

    ghost view = { λ s. record { table = s.place.table_id; view = s.place.me.0 } };

    // Its own worker's lists stand in its view.
    ghost invariant = { λ s. IsIdle s.place.me × (s.place.me.0.number ≡ s.number)
        × (s.place.me.0.here ≡ s.number ∷ []) × (s.number < s.place.me.0.count) };
}
