ghost use Rattle.std.specs.Prelude.{◌≡◌, IfOk};
ghost use Rattle.flow_model.specs.Rules.{is_iteration, is_probe, references, end_references, delta_key};
ghost use Rattle.flow_model.specs.Segments.{is_delta};
ghost use Rattle.plan_check.specs.Checking.{has_unknown};

use flow_model::op::Op;
use flow_outside::failure::Memory;
use std::alloc::Global;

/// Whether an op has a body.
pub fn is_iteration(op: &Op) -> bool
    ensures { result ≡ is_iteration op.now }
{
    matches!(op, Op::Bulk { .. } | Op::Delta { .. })
}

pub fn is_delta(op: &Op) -> bool
    ensures { result ≡ is_delta op.now }
{
    matches!(op, Op::Delta { .. })
}

pub fn is_probe(op: &Op) -> bool
    ensures { result ≡ is_probe op.now }
{
    matches!(op, Op::Probe { .. })
}

/// The key of a delta iteration; no fields of another op.
pub fn delta_key(op: &Op) -> &[u16]
    ensures { result.now ≡ delta_key op.now }
{
    match op {
        Op::Delta { key, .. } => key.as_slice(),
        _ => &[],
    }
}

/// Whether one of these numbers is that of a name that isn't visible.
pub fn has_unknown(numbers: &[u32]) -> bool
    ensures { result ≡ has_unknown numbers.now }
{
    numbers.iter().any(|number| *number == 0)
}

/// The numbers that an op refers to where it stands, in the order of its members.
pub fn references(alloc: Global, op: &Op) -> Result<Vec<u32>, Memory>
    ensures { IfOk result (λ numbers. numbers.items ≡ references op.now) }
{
    match op {
        Op::Source { .. } => Ok(Vec::new(alloc)),
        Op::Union { inputs } => copied(alloc, inputs.as_slice()),
        Op::Map { input, .. } => copied(alloc, &[*input]),
        Op::Filter { input, .. } => copied(alloc, &[*input]),
        Op::FlatMap { input, .. } => copied(alloc, &[*input]),
        Op::Distinct { input } => copied(alloc, &[*input]),
        Op::Group { input, .. } => copied(alloc, &[*input]),
        Op::Top { input, .. } => copied(alloc, &[*input]),
        Op::Probe { input, .. } => copied(alloc, &[*input]),
        Op::Join { left, right, .. } => copied(alloc, &[*left, *right]),
        Op::Cogroup { left, right, .. } => copied(alloc, &[*left, *right]),
        Op::Bulk { init, .. } => copied(alloc, &[*init]),
        Op::Delta {
            solution,
            workset,
            ..
        } => copied(alloc, &[*solution, *workset]),
    }
}

fn copied(alloc: Global, numbers: &[u32]) -> Result<Vec<u32>, Memory>
    ensures { IfOk result (λ copy. copy.items ≡ numbers.now) }
{
    match Vec::from_slice(alloc, numbers) {
        Ok(copy) => Ok(copy),
        Err(_) => Err(Memory),
    }
}

/// Whether an iteration refers at its body's end to a name that isn't visible there.
pub fn has_unknown_end(op: &Op) -> bool
    ensures { result ≡ has_unknown (end_references op.now) }
{
    match op {
        Op::Bulk { next, until, .. } => *next == 0 || *until == Some(0),
        Op::Delta { delta, next, .. } => *delta == 0 || *next == 0,
        _ => false,
    }
}
