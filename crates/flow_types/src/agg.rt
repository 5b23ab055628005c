/// A fold over the rows of a group, as Flink's DataSet API aggregates a group. Fields are named by
/// their numbers from 0.
#[derive(Clone, Copy, Debug, PartialEq, Eq)]
pub enum Agg {
    /// The sum of a field's Longs, modulo 2^64 as Java adds them; 0 where there is no row.
    Sum(u16),
    /// The least of a field's Longs, or the stated number where there is no row.
    Min(u16, i64),
    /// The greatest of a field's Longs, or the stated number where there is no row.
    Max(u16, i64),
    /// The number of rows, modulo 2^64.
    Count,
}
