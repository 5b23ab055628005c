ghost use Rattle.std.specs.Prelude.{◌≡◌, ◌==◌, take, IfOk, if◌then◌else◌};
ghost use Rattle.std.specs.List.{list_any};
ghost use Rattle.flow_model.specs.declared.made.Made.{Made};
ghost use Rattle.flow_model.specs.Algebra.{rows_at, and_rows, source_numbers, given};

use flow_model::made::Made;
use flow_model::plan::Node;
use flow_model::rows::Rows;
use flow_outside::failure::Memory;
use flow_types::row::Row;
use plain_ops::lists::copy_rows;
use std::alloc::Global;

/// The input of a source, by its number; no rows where there is none.
pub fn input_at<'a>(nodes: &[Node], inputs: &'a [Rows], number: u32) -> &'a [Row]
    ensures { result.now ≡ rows_at (given (source_numbers nodes.now) inputs.now) number }
{
    let mut place = 0;
    for node in nodes {
        if node.op.is_source() {
            if place >= inputs.len() {
                return &[];
            }
            if node.number == number {
                return inputs[place].rows();
            }
            place += 1;
        }
    }
    &[]
}

/// The rows under a number; none where nothing is.
pub fn rows_at(made: &[Made], number: u32) -> &[Row]
    ensures { result.now ≡ rows_at made.now number }
{
    for one in made {
        if one.number == number {
            return one.rows.rows();
        }
    }
    &[]
}

/// Puts rows under a number, after what was made before.
pub fn push_made(made: &mut Vec<Made>, number: u32, rows: Vec<Row>) -> Result<(), Memory>
    ensures { IfOk result (λ _. made.new.items ≡ and_rows made.old.items number rows.items) }
{
    let rows = Rows::of(rows);
    match made.push(Made { number, rows }) {
        Ok(()) => Ok(()),
        Err(_) => Err(Memory),
    }
}

/// The rows under a number, and only the first `kept` lists stay. The rows are moved out where they
/// stand past these, and copied where they stand among them.
pub fn take_rows(
    alloc: Global,
    made: &mut Vec<Made>,
    kept: usize,
    number: u32,
) -> Result<Vec<Row>, Memory>
    ensures rows { IfOk result (λ rows. rows.items ≡ rows_at made.old.items number) }
    ensures rest { made.new.items ≡ take kept made.old.items }
{
    let mut found = Vec::new(alloc);
    while made.len() > kept {
        let Some(last) = made.pop() else {
            unreachable!()
        };
        found = rows_or(last, number, found);
    }
    if is_made(made.as_slice(), number) {
        return copy_rows(alloc, rows_at(made.as_slice(), number));
    }
    Ok(found)
}

/// The rows of a list where it stands under this number, and else the others.
fn rows_or(one: Made, number: u32, others: Vec<Row>) -> Vec<Row>
    ensures { result.items ≡ (if one.number == number then one.rows else others.items) }
{
    if one.number == number {
        one.rows.into_vec()
    } else {
        others
    }
}

/// Whether rows stand under a number.
fn is_made(made: &[Made], number: u32) -> bool
    ensures { result ≡ list_any (λ (one : Made). one.number == number) made.now }
{
    made.iter().any(|one| one.number == number)
}
