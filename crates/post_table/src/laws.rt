ghost use Rattle.std.specs.Prelude.{◌≡◌, ℕ, [], ◌∷◌, ◌++◌, List, length, Some, None};
ghost use Rattle.atomic_table.specs.Table.{State};
ghost use Rattle.exchange_core.specs.Lane.{Bytes, after_got, after_put};
ghost use Rattle.segment_core.specs.Segments.{SegmentView};
ghost use Rattle.post_table.specs.Rule.{IsPostTable, slots_and_out, spares_and_in};
ghost use Rattle.post_table.specs.Views.{Log, lane_of_logs, pages_of, ShowsLane};
ghost use Rattle.post_table.specs.declared.view.Moved.{Moved};
ghost use Rattle.post_table.specs.declared.view.View.{View};

/// What a receiver took is a prefix of what the poster posted, by the pages' bytes. Where it took as many
/// pages as were posted, both are equal.
pub fn taken_is_posted()
    ensures prefix { (posted took : Log) → ShowsLane posted took
        → (rest : List Bytes) × (pages_of took ++ rest ≡ pages_of posted) }
    ensures whole { (posted took : Log) → ShowsLane posted took → length posted ≡ length took
        → pages_of posted ≡ pages_of took }
{}

/// A poster's store is the exchange machine's Put, and a receiver's is its Got.
pub fn stores_are_events()
    ensures put { (posted took : Log) (m : Moved) → after_put m.bytes (lane_of_logs posted took None)
        ≡ Some (lane_of_logs (posted ++ m ∷ []) took (Some m.bytes)) }
    ensures got { (posted took : Log) (m : Moved) → after_got (lane_of_logs posted took (Some m.bytes))
        ≡ Some (lane_of_logs posted (took ++ m ∷ []) None) }
{}

/// Between any two steps the slots' ids, with all that seats swapped out, are the bag of the opening spares'
/// ids with all that seats swapped in.
pub fn ids_are_kept()
    ensures { (w size : ℕ) (opened : List ℕ) (s : State SegmentView View) (r : IsPostTable w size opened s)
        → (h : ℕ → ℕ) → slots_and_out w size opened s r h ≡ spares_and_in w size opened s r h }
{}
