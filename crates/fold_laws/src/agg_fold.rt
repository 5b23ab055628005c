ghost use Rattle.std.specs.Prelude.{◌≡◌};
ghost use Rattle.fold_laws.specs.Parts.{field_of};

use crate::count::CountFold;
use crate::extremes::{MaxFold, MinFold};
use crate::fold::Fold;
use crate::part::Part;
use crate::sum::SumFold;
use flow_types::agg::Agg;

/// The fold that a plan names, with the number of its field.
#[derive(Clone, Copy, Debug, PartialEq, Eq)]
pub struct AggFold {
    named: Agg,
}

impl AggFold {
    /// The fold of a plan.
    pub fn of(a: &Agg) -> AggFold
        ensures { ⟦<AggFold as Fold>⟧.agg result ≡ a.now }
    {
        AggFold { named: *a }
    }

    /// The number of the field whose Longs are added, from 0; none for a count, which takes any values.
    pub fn field(&self) -> Option<u16>
        ensures { result ≡ field_of (⟦<AggFold as Fold>⟧.agg self.now) }
    {
        match self.named {
            Agg::Sum(field) => Some(field),
            Agg::Min(field, _) => Some(field),
            Agg::Max(field, _) => Some(field),
            Agg::Count => None,
        }
    }
}

impl Fold for AggFold {
    ghost agg = { λ f. f.named };

    fn zero(&self) -> Part {
        Part::of_none()
    }

    fn add(&self, p: Part, v: i64) -> Part {
        match self.named {
            Agg::Sum(_) => SumFold.add(p, v),
            Agg::Min(_, empty) => MinFold { empty }.add(p, v),
            Agg::Max(_, empty) => MaxFold { empty }.add(p, v),
            Agg::Count => CountFold.add(p, v),
        }
    }

    fn merge(&self, a: Part, b: Part) -> Part {
        match self.named {
            Agg::Sum(_) => SumFold.merge(a, b),
            Agg::Min(_, empty) => MinFold { empty }.merge(a, b),
            Agg::Max(_, empty) => MaxFold { empty }.merge(a, b),
            Agg::Count => CountFold.merge(a, b),
        }
    }

    fn finish(&self, p: Part) -> i64 {
        match self.named {
            Agg::Sum(_) => SumFold.finish(p),
            Agg::Min(_, empty) => MinFold { empty }.finish(p),
            Agg::Max(_, empty) => MaxFold { empty }.finish(p),
            Agg::Count => CountFold.finish(p),
        }
    }
}
