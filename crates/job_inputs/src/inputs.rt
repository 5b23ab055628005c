ghost use Rattle.std.specs.Prelude.{◌≡◌, ℕ, ◌<◌, ◌≤◌, List, [], ◌∷◌, ◌++◌, filter, None, Some, IsTrue, is_some, IfOk, IfErr, OnOk, All};
ghost use Rattle.flow_types.specs.Tuples.{Tuple};
ghost use Rattle.flow_types.specs.Records.{IsTupleOf};
ghost use Rattle.flow_model.specs.declared.plan.Node.{Node};
ghost use Rattle.flow_model.specs.Algebra.{is_source};
ghost use Rattle.job_words.specs.Requests.{all_bound};
ghost use Rattle.job_inputs.specs.Sources.{binding_at, first_unbound, sources_of};
ghost use Rattle.job_inputs.specs.Inputs.{path_of, input_rows, HasRows, HaveRows};
ghost use Rattle.job_inputs.specs.InputEnds.{everywhere, EndsReadingInput, StopsReading, EndsReadingInputs};

use crate::sources::binding_at;
use delim_io::first_form::{INPUT_LIMIT, read_packed};
use delim_io::input_fault::InputFault;
use delim_io::input_kind::InputKind;
use flow_model::plan::{Node, Plan};
use flow_model::rows::{Inputs, Rows};
use flow_outside::read_file::{FileFault, read_file};
use flow_outside::shelf::Shelf;
use job_report::fault::Fault;
use job_words::named_path::NamedPath;
use std::alloc::Global;

/// Why the reading of inputs stopped, and at which source: its name, as the words have it.
#[derive(Drop)]
pub struct Stopped<'a> {
    pub fault: Fault,
    pub name: &'a str,
}

/// The rows in the files that a plan's sources are bound to, in plan order, or the first fault and the
/// name of its source. `ReadFault` comes only where the count of faults at the file's path rose, and
/// `NotBuilt`, at line 0 and field 0, exactly where the input isn't of the form that is served; the
/// sources before have rows. After want of memory nothing is known.
///
/// Each file is read whole, up to 65,536 bytes and a piece, and is let go before the next is read; each
/// row is written as a record once and decoded once.
pub fn read_inputs<'a, S: Shelf>(
    alloc: Global,
    shelf: &mut S,
    bindings: &[NamedPath<'a>],
    plan: &Plan,
) -> Result<Inputs, Stopped<'a>>
    requires living { S.living shelf.old < 80 }
    requires bound { first_unbound (all_bound bindings.now) (sources_of plan.now) ≡ None }
    ensures tells { S.told shelf.new ≡ S.told shelf.old }
    ensures later { (k : List ℕ) → S.faults_at shelf.old k ≤ S.faults_at shelf.new k }
    ensures read { OnOk result (S.living shelf.new ≡ S.living shelf.old) }
    ensures rows { IfOk result
        (λ inputs. HaveRows (S.told shelf.old) (all_bound bindings.now) (sources_of plan.now) inputs) }
    ensures refused { IfErr result
        (λ stopped. EndsReadingInputs (S.told shelf.old) (all_bound bindings.now) (sources_of plan.now)
        (S.faults_at shelf.old) (S.faults_at shelf.new) stopped.name.now stopped.fault) }
{
    match read_sources(alloc, shelf, bindings, plan.nodes.as_slice()) {
        Ok(rows) => Ok(Inputs::of(rows)),
        Err(stopped) => Err(stopped),
    }
}

/// The rows of the sources among nodes.
fn read_sources<'a, S: Shelf>(
    alloc: Global,
    shelf: &mut S,
    bindings: &[NamedPath<'a>],
    nodes: &[Node],
) -> Result<Vec<Rows>, Stopped<'a>>
    requires living { S.living shelf.old < 80 }
    requires bound { first_unbound (all_bound bindings.now) (filter (λ (node : Node). is_source node.op) nodes.now) ≡ None }
    ensures tells { S.told shelf.new ≡ S.told shelf.old }
    ensures later { (k : List ℕ) → S.faults_at shelf.old k ≤ S.faults_at shelf.new k }
    ensures read { OnOk result (S.living shelf.new ≡ S.living shelf.old) }
    ensures rows { IfOk result
        (λ rows. HaveRows (S.told shelf.old) (all_bound bindings.now) (filter (λ (node : Node). is_source node.op) nodes.now) rows.items) }
    ensures refused { IfErr result
        (λ stopped. EndsReadingInputs (S.told shelf.old) (all_bound bindings.now) (filter (λ (node : Node). is_source node.op) nodes.now)
        (S.faults_at shelf.old) (S.faults_at shelf.new) stopped.name.now stopped.fault) }
{
    let mut inputs = Vec::new(alloc);
    for i in 0..nodes.len() {
        let node = &nodes[i];
        if node.op.is_source() {
            match add_source(alloc, shelf, &mut inputs, bindings, node) {
                Ok(()) => {}
                Err(stopped) => return Err(stopped),
            }
        }
    }
    Ok(inputs)
}

/// Adds the rows of a source that is bound behind those of the sources before it.
fn add_source<'a, S: Shelf>(
    alloc: Global,
    shelf: &mut S,
    inputs: &mut Vec<Rows>,
    bindings: &[NamedPath<'a>],
    source: &Node,
) -> Result<(), Stopped<'a>>
    requires living { S.living shelf.old < 80 }
    requires bound { IsTrue (is_some (binding_at (all_bound bindings.now) source.now.name)) }
    ensures tells { S.told shelf.new ≡ S.told shelf.old }
    ensures later { (k : List ℕ) → S.faults_at shelf.old k ≤ S.faults_at shelf.new k }
    ensures read { OnOk result (S.living shelf.new ≡ S.living shelf.old) }
    ensures rows { OnOk result ((rows : List Tuple)
        × HasRows (S.told shelf.old) (path_of (all_bound bindings.now) source.now) source.now rows
        × (inputs.new.items ≡ inputs.old.items ++ rows ∷ [])) }
    ensures refused { IfErr result
        (λ stopped. StopsReading (S.told shelf.old) (all_bound bindings.now) source.now
        (S.faults_at shelf.old) (S.faults_at shelf.new) stopped.name.now stopped.fault) }
{
    let Some(binding) = binding_at(bindings, source.name.as_str()) else {
        unreachable!()
    };
    match read_source(alloc, shelf, inputs, binding.path, source) {
        Ok(()) => Ok(()),
        Err(fault) => Err(Stopped {
            fault,
            name: binding.name,
        }),
    }
}

/// Adds the rows of a source's input, in the file at a path.
fn read_source<S: Shelf>(
    alloc: Global,
    shelf: &mut S,
    inputs: &mut Vec<Rows>,
    path: &str,
    source: &Node,
) -> Result<(), Fault>
    requires { S.living shelf.old < 80 }
    ensures tells { S.told shelf.new ≡ S.told shelf.old }
    ensures later { (k : List ℕ) → S.faults_at shelf.old k ≤ S.faults_at shelf.new k }
    ensures read { OnOk result (S.living shelf.new ≡ S.living shelf.old) }
    ensures rows { OnOk result ((rows : List Tuple)
        × HasRows (S.told shelf.old) path.now source.now rows
        × (inputs.new.items ≡ inputs.old.items ++ rows ∷ [])) }
    ensures refused { IfErr result
        (λ fault. EndsReadingInput source.now (S.told shelf.old) path.now
        (S.faults_at shelf.old path.now) (S.faults_at shelf.new path.now) fault) }
{
    let bytes = match read_file(shelf, alloc, path, INPUT_LIMIT) {
        Ok(bytes) => bytes,
        Err(FileFault::Read) => {
            return Err(Fault::ReadFault {
                source: source.number,
            });
        }
        Err(FileFault::Memory) => return Err(Fault::Memory),
        Err(FileFault::TooLong) => return Err(not_built(source.number)),
    };
    add_rows(alloc, inputs, bytes.as_slice(), source)
}

/// Adds the rows of a source's input.
fn add_rows(alloc: Global, inputs: &mut Vec<Rows>, bytes: &[u8], source: &Node) -> Result<(), Fault>
    ensures rows { OnOk result ((rows : List Tuple)
        × HasRows (everywhere bytes.now) [] source.now rows
        × (inputs.new.items ≡ inputs.old.items ++ rows ∷ [])) }
    ensures refused { IfErr result
        (λ fault. EndsReadingInput source.now (everywhere bytes.now) [] 0 0 fault) }
{
    match rows_in(alloc, bytes, source) {
        Ok(rows) => match inputs.push(rows) {
            Ok(()) => Ok(()),
            Err(_) => Err(Fault::Memory),
        },
        Err(fault) => Err(fault),
    }
}

/// The rows of a source's input.
fn rows_in(alloc: Global, bytes: &[u8], source: &Node) -> Result<Rows, Fault>
    ensures rows { IfOk result (λ rows. HasRows (everywhere bytes.now) [] source.now rows) }
    ensures refused { IfErr result (λ fault. EndsReadingInput source.now (everywhere bytes.now) [] 0 0 fault) }
{
    let packed = match read_packed(alloc, bytes, &source.schema, source.op.delimiter()) {
        Ok(packed) => packed,
        Err(InputFault::Memory) => return Err(Fault::Memory),
        Err(InputFault::NotBuilt) => return Err(not_built(source.number)),
    };
    match packed.unpack(alloc, &source.schema) {
        Ok(rows) => Ok(Rows::of(rows)),
        Err(_) => Err(Fault::Memory),
    }
}

fn not_built(source: u32) -> Fault
    ensures { result ≡ Fault.InputRefused source 0 0 InputKind.NotBuilt }
{
    Fault::InputRefused {
        source,
        line: 0,
        field: 0,
        kind: InputKind::NotBuilt,
    }
}
