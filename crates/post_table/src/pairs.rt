//! The pairs of workers as numbers.
ghost use Rattle.std.specs.Prelude.{◌≡◌, ◌≢◌, ◌-◌, ◌<◌, ◌≤◌, nat_lt, if◌then◌else◌};
ghost use Rattle.exchange_core.specs.Machine.{IsPair, IsWorkerCount};
ghost use Rattle.post_table.specs.Pairs.{pair_count, pair_number};

/// How many pairs there are.
#[tactic(auto, using(crate::proofs::PairLemmas::small_product))]
pub(crate) fn count(workers: u32) -> usize
    requires { IsWorkerCount workers }
    ensures { result ≡ pair_count workers }
{
    (workers * (workers - 1)) as usize
}

/// The number of the pair from p to c.
#[tactic(auto, using(crate::proofs::PairLemmas::small_product))]
pub(crate) fn number(workers: u32, p: u32, c: u32) -> usize
    requires workers { IsWorkerCount workers }
    requires pair { IsPair workers p c }
    ensures { result ≡ pair_number workers p c }
{
    let place = place(p, c);
    (p * (workers - 1) + place) as usize
}

// The place of a receiver among all receivers of a poster.
fn place(p: u32, c: u32) -> u32
    requires { p ≢ c }
    ensures value { result ≡ (if nat_lt c p then c else c - 1) }
    ensures most { result ≤ c }
{
    if c < p { c } else { c - 1 }
}
