ghost use Rattle.std.specs.Prelude.{◌≡◌, None, Some, pos};
ghost use Rattle.flow_types.specs.Folds.{number_or};
ghost use Rattle.fold_laws.specs.Parts.{kept_in};

/// What is kept of some rows for a fold. Where there is no row, the number has no meaning.
#[derive(Clone, Copy, Debug, PartialEq, Eq)]
pub struct Part {
    /// Whether there is a row.
    pub any: bool,
    /// The fold's value over the rows, where there is one.
    pub n: i64,
}

impl Part {
    /// What is kept of no rows.
    pub fn of_none() -> Part
        ensures kept { kept_in result ≡ None }
        ensures number { result.n ≡ pos 0 }
    {
        Part { any: false, n: 0 }
    }

    /// What is kept of some rows over which the fold has this value.
    pub fn of(n: i64) -> Part
        ensures { kept_in result ≡ Some n }
    {
        Part { any: true, n }
    }

    /// The number, or another one where there is no row.
    pub fn number_or(self, empty: i64) -> i64
        ensures { result ≡ number_or empty (kept_in self) }
    {
        if self.any { self.n } else { empty }
    }
}
