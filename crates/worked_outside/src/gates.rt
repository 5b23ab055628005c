use flow_outside::gate::Gate;
use outside_memory::meet_gate::MeetGate;
use std::test::Fail;
use std::thread;

/// How many yields a worker waits for another one.
const LIMIT: u64 = 100_000_000;

#[test]
fn two_workers_meet(rt: HostRuntime) -> Result<(), Fail> {
    let gate = MeetGate::new(LIMIT);
    thread::join(&rt, || gate.turn(0, 1), || gate.turn(1, 1));
    assert!(rt; gate.met());
    gate.turn(0, 2);
    Ok(())
}

#[test]
fn one_worker_gives_up(rt: HostRuntime) -> Result<(), Fail> {
    let gate = MeetGate::new(10);
    gate.turn(0, 1);
    gate.turn(1, 1);
    assert!(rt; !gate.met());
    Ok(())
}
