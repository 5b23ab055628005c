use flow_types::row::Row;
use std::marker::Model;

/// The state of a delta iteration: the entries of its solution, and its workset. It is seen as the
/// algebra's state.
#[derive(Debug, Drop)]
pub struct State {
    entries: Vec<Row>,
    workset: Vec<Row>,
}

impl Model for State {
    ghost use Rattle.flow_model.specs.Algebra.{DeltaState};

    ghost Value = { DeltaState };

    ghost view = { λ s. record { entries = s.entries.items; workset = s.workset.items } };
}

impl State {
    ghost use Rattle.std.specs.Prelude.{◌≡◌};
    ghost use Rattle.flow_model.specs.Rows.{is_nothing};

    /// The state of these entries and this workset, in the vectors as they are.
    pub fn of(entries: Vec<Row>, workset: Vec<Row>) -> State
        ensures { result ≡ record { entries = entries.items; workset = workset.items } }
    {
        State { entries, workset }
    }

    /// The solution's entries, in ascending order of their keys.
    pub fn entries(&self) -> &[Row]
        ensures { result.now ≡ self.now.entries }
    {
        self.entries.as_slice()
    }

    /// Whether the workset has no rows, which ends the iteration.
    pub fn is_last(&self) -> bool
        ensures { result ≡ is_nothing self.now.workset }
    {
        match self.workset.as_slice() {
            [] => true,
            _ => false,
        }
    }

    /// The entries and the workset in their vectors; it takes no memory.
    pub fn into_parts(self) -> (Vec<Row>, Vec<Row>)
        ensures entries { result.0.items ≡ self.entries }
        ensures workset { result.1.items ≡ self.workset }
    {
        let State { entries, workset } = self;
        (entries, workset)
    }

    /// The entries in their vector; it takes no memory.
    pub fn into_entries(self) -> Vec<Row>
        ensures { result.items ≡ self.entries }
    {
        let State { entries, .. } = self;
        entries
    }
}
