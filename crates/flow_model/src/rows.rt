ghost use Rattle.std.specs.Prelude.{◌≡◌};

use flow_types::row::Row;
use std::marker::Model;

/// Rows, seen as the list of their tuples; a list stands for a bag.
#[derive(Debug, Drop)]
pub struct Rows {
    rows: Vec<Row>,
}

impl Model for Rows {
    ghost use Rattle.flow_model.specs.Env.{Tuples};

    ghost Value = { Tuples };

    ghost view = { λ r. r.rows.items };
}

impl Rows {
    /// These rows, in the vector as it is.
    pub fn of(rows: Vec<Row>) -> Rows
        ensures { result ≡ rows.items }
    {
        Rows { rows }
    }

    /// The rows, in their order.
    pub fn rows(&self) -> &[Row]
        ensures { result.now ≡ self.now }
    {
        self.rows.as_slice()
    }

    /// The rows in their vector; it takes no memory.
    pub fn into_vec(self) -> Vec<Row>
        ensures { result.items ≡ self }
    {
        let Rows { rows } = self;
        rows
    }
}

/// A plan's inputs, seen as one list of rows for each source in plan order.
#[derive(Debug, Drop)]
pub struct Inputs {
    inputs: Vec<Rows>,
}

impl Model for Inputs {
    ghost use Rattle.std.specs.Prelude.{List};
    ghost use Rattle.flow_model.specs.Env.{Tuples};

    ghost Value = { List Tuples };

    ghost view = { λ i. i.inputs.items };
}

impl Inputs {
    /// These inputs, in the vector as it is; the first is the first source's.
    pub fn of(inputs: Vec<Rows>) -> Inputs
        ensures { result ≡ inputs.items }
    {
        Inputs { inputs }
    }

    /// The inputs, in the order of their sources.
    pub fn inputs(&self) -> &[Rows]
        ensures { result.now ≡ self.now }
    {
        self.inputs.as_slice()
    }
}
