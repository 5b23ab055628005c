ghost use Rattle.std.specs.Prelude.{◌≡◌};

use crate::ledger::Ledger;

/// What `Engine::execute` did, which alone makes it.
#[derive(Clone, Copy, Debug, PartialEq, Eq)]
pub struct Receipt {
    rows: u64,
    supersteps: u64,
    ledger: Ledger,
}

impl Receipt {
    pub(crate) fn of(rows: u64, supersteps: u64, ledger: Ledger) -> Receipt
        ensures { result ≡ record { rows = rows; supersteps = supersteps; ledger = ledger } }
    {
        Receipt {
            rows,
            supersteps,
            ledger,
        }
    }

    /// The rows of the result, 2^64 - 1 where there are more.
    pub fn rows(&self) -> u64
        ensures { result ≡ self.now.rows }
    {
        self.rows
    }

    /// The supersteps of all iterations.
    pub fn supersteps(&self) -> u64
        ensures { result ≡ self.now.supersteps }
    {
        self.supersteps
    }

    /// The engine's segments once the result was there.
    pub fn ledger(&self) -> Ledger
        ensures { result ≡ self.now.ledger }
    {
        self.ledger
    }
}
