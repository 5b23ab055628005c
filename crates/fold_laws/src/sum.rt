ghost use Rattle.std.specs.Prelude.{◌≡◌, ◌+ℤ◌};
ghost use Rattle.flow_types.specs.Expressions.{wrap};

use crate::fold::Fold;
use crate::part::Part;

/// The sum of a field's Longs, modulo 2^64 as Java adds them; 0 of no rows.
#[derive(Clone, Copy, Debug, PartialEq, Eq)]
pub struct SumFold;

impl Fold for SumFold {
    ghost use Rattle.flow_types.specs.declared.agg.Agg.TheVariants.{Sum};

    ghost agg = { λ _. Sum 0 };

    fn zero(&self) -> Part {
        Part::of_none()
    }

    fn add(&self, p: Part, v: i64) -> Part {
        if p.any {
            Part::of(sum(p.n, v))
        } else {
            Part::of(v)
        }
    }

    fn merge(&self, a: Part, b: Part) -> Part {
        if b.any { self.add(a, b.n) } else { a }
    }

    fn finish(&self, p: Part) -> i64 {
        p.number_or(0)
    }
}

/// The sum of two Longs modulo 2^64, as Java adds.
fn sum(a: i64, b: i64) -> i64
    ensures { result ≡ wrap (a +ℤ b) }
{
    a.wrapping_add(b)
}
