use flow_outside::gate::Gate;

/// A gate that each worker passes at once.
#[derive(Clone, Copy, Debug)]
pub struct NoGate;

impl Gate for NoGate {
    fn turn(&self, _worker: u32, _round: u64) {}
}
