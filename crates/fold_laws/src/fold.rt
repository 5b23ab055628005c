ghost use Rattle.std.specs.Prelude.{◌≡◌, None, pos};
ghost use Rattle.flow_types.specs.declared.agg.Agg.{Agg};
ghost use Rattle.flow_types.specs.LawsOfFolds.{merged, finished};
ghost use Rattle.fold_laws.specs.Parts.{kept_in, added};

use crate::part::Part;

/// A fold over the rows of a group, as Flink's DataSet API aggregates one, whose parts are kept apart and
/// merged. Each call takes constant time and no memory. Rows may be added and parts merged in any order
/// and grouping, as `crate::laws` says.
pub trait Fold {
    /// Which fold it is. The number of its field doesn't count: `SumFold` serves for a sum of any field.
    ghost agg: { Self → Agg };

    /// What is kept of no rows.
    fn zero(&self) -> Part
        ensures kept { kept_in result ≡ None }
        ensures number { result.n ≡ pos 0 };

    /// One row more, in whose field stands `v`. A count takes any `v`.
    fn add(&self, p: Part, v: i64) -> Part
        ensures { kept_in result ≡ added (agg self.now) (kept_in p) v };

    /// What is kept of the rows of both parts.
    fn merge(&self, a: Part, b: Part) -> Part
        ensures { kept_in result ≡ merged (agg self.now) (kept_in a) (kept_in b) };

    /// The fold's value over all rows, of what is kept of them.
    fn finish(&self, p: Part) -> i64
        ensures { result ≡ finished (agg self.now) (kept_in p) };
}
