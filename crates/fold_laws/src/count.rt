use crate::fold::Fold;
use crate::part::Part;
use crate::sum::SumFold;

/// The number of rows, modulo 2^64: the sum of a 1 for each row.
#[derive(Clone, Copy, Debug, PartialEq, Eq)]
pub struct CountFold;

impl Fold for CountFold {
    ghost use Rattle.flow_types.specs.declared.agg.Agg.TheVariants.{Count};

    ghost agg = { λ _. Count };

    fn zero(&self) -> Part {
        Part::of_none()
    }

    fn add(&self, p: Part, _v: i64) -> Part {
        SumFold.add(p, 1)
    }

    fn merge(&self, a: Part, b: Part) -> Part {
        SumFold.merge(a, b)
    }

    fn finish(&self, p: Part) -> i64 {
        p.number_or(0)
    }
}
