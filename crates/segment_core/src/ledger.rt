ghost use Rattle.std.specs.Prelude.{◌≡◌, ℕ};
ghost use Rattle.segment_core.specs.Ledger.{Change, KeepsLedger, segment_sum_all};

/// The law of the ledger: where holders weigh after a change what they weighed before, for every
/// weight, each ledger in which they stand still holds. It does nothing when it runs.
pub fn ledger_stays()
    ghost change: { Change }
    requires { (h : ℕ → ℕ → ℕ) → segment_sum_all h change.after ≡ segment_sum_all h change.before }
    ensures { KeepsLedger change.before change.after }
{}
