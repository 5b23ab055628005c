use crate::fold::Fold;
use crate::part::Part;

/// The least of a field's Longs, or a stated number of no rows.
#[derive(Clone, Copy, Debug, PartialEq, Eq)]
pub struct MinFold {
    /// The value over no rows.
    pub empty: i64,
}

impl Fold for MinFold {
    ghost use Rattle.flow_types.specs.declared.agg.Agg.TheVariants.{Min};

    ghost agg = { λ f. Min 0 f.empty };

    fn zero(&self) -> Part {
        Part::of_none()
    }

    fn add(&self, p: Part, v: i64) -> Part {
        if p.any {
            Part::of(p.n.min(v))
        } else {
            Part::of(v)
        }
    }

    fn merge(&self, a: Part, b: Part) -> Part {
        if b.any { self.add(a, b.n) } else { a }
    }

    fn finish(&self, p: Part) -> i64 {
        p.number_or(self.empty)
    }
}

/// The greatest of a field's Longs, or a stated number of no rows.
#[derive(Clone, Copy, Debug, PartialEq, Eq)]
pub struct MaxFold {
    /// The value over no rows.
    pub empty: i64,
}

impl Fold for MaxFold {
    ghost use Rattle.flow_types.specs.declared.agg.Agg.TheVariants.{Max};

    ghost agg = { λ f. Max 0 f.empty };

    fn zero(&self) -> Part {
        Part::of_none()
    }

    fn add(&self, p: Part, v: i64) -> Part {
        if p.any {
            Part::of(p.n.max(v))
        } else {
            Part::of(v)
        }
    }

    fn merge(&self, a: Part, b: Part) -> Part {
        if b.any { self.add(a, b.n) } else { a }
    }

    fn finish(&self, p: Part) -> i64 {
        p.number_or(self.empty)
    }
}
