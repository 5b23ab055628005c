ghost use Rattle.std.specs.Prelude.{◌≡◌, ℕ, Bool, List, IsTrue};
ghost use Rattle.std.specs.Cmp.{IsTotalOrder};
ghost use Rattle.std.specs.Cmp.Lexicographic.{slice_cmp};
ghost use Rattle.std.specs.Ordering.{nat_cmp};
ghost use Rattle.std.specs.declared.cmp.Ordering.{Ordering};
ghost use Rattle.std.specs.declared.cmp.Ordering.TheVariants.{Less};
ghost use Rattle.paged_view.specs.Seen.{seen_in};

use crate::record_ref::RecordRef;
use std::cmp::Ordering;

/// An order of records by their bytes. Records that it calls Equal may differ.
pub trait RecordOrder {
    /// Its own test of a record.
    ghost is_fit: { Self → List ℕ → Bool };

    /// The first 16 bytes of what it compares.
    ghost prefix_of: { Self → List ℕ → List ℕ };

    /// The order, of any bytes.
    ghost cmp: { Self → List ℕ → List ℕ → Ordering };

    /// Whether a record passes the order's own test.
    fn fits(&self, row: &RecordRef<'_>) -> bool
        ensures { result ≡ is_fit self.now (seen_in row.now) };

    /// The record's prefix: where one is smaller, byte by byte, `compare` says Less.
    fn prefix(&self, row: &RecordRef<'_>) -> [u8; 16]
        requires { IsTrue (is_fit self.now (seen_in row.now)) }
        ensures { result ≡ prefix_of self.now (seen_in row.now) };

    /// Which record stands first.
    fn compare(&self, a: &RecordRef<'_>, b: &RecordRef<'_>) -> Ordering
        requires a_fits { IsTrue (is_fit self.now (seen_in a.now)) }
        requires b_fits { IsTrue (is_fit self.now (seen_in b.now)) }
        ensures { result ≡ cmp self.now (seen_in a.now) (seen_in b.now) };

    /// It is a total order, up to records that it calls Equal.
    ghost total: { (order : Self) → IsTotalOrder (cmp order) };

    /// A smaller prefix means Less, of records that pass the test.
    ghost prefix_first: { (order : Self) (a b : List ℕ) → IsTrue (is_fit order a) → IsTrue (is_fit order b)
        → slice_cmp nat_cmp (prefix_of order a) (prefix_of order b) ≡ Less → cmp order a b ≡ Less };
}
