ghost use Rattle.std.specs.Prelude.{◌≡◌, ◌<◌, ◌≤◌, OnErr, OnOk, vec_len};
ghost use Rattle.flow_model.specs.Rules.{IsPlan};
ghost use Rattle.superstep.specs.EngineCalls.{MayBeClosed};
ghost use Rattle.superstep.specs.Engines.{IsReady};

use crate::served::{begins_with_source, is_served};
use flow_model::plan::Plan;
use flow_outside::shelf::Shelf;
use flow_outside::sink::Sink;
use flow_outside::spill::Spill;
use model_laws::held::plan_states_values;
use plan_need::divide::allot;
use std::alloc::Global;
use superstep::engine::{Closed, Engine};
use superstep::faults::{EmitFault, ExecFault, LoadFault, OpenMemory};

/// Why a run stopped.
#[derive(Clone, Copy, Debug, PartialEq, Eq)]
pub(crate) enum Stop {
    NotServed,
    TooSmall,
    NoEngine,
    NoFile,
    Load(LoadFault),
    Execute(ExecFault),
    Emit(EmitFault),
}

/// How a run ended: with the number of the result's rows or a reason, with how many disks, and
/// whether all segments were free.
#[derive(Clone, Copy, Debug, PartialEq, Eq)]
pub(crate) struct Ended {
    pub answer: Result<u64, Stop>,
    pub disks: usize,
    pub free: bool,
}

/// Loads the file `p` as the first node's input, makes the result and prints it.
pub(crate) fn run<S: Shelf, K: Sink, D: Spill>(
    alloc: Global,
    plan: Plan,
    budget: u32,
    disks: Vec<D>,
    shelf: &mut S,
    out: &mut K,
) -> Ended
    requires rules { IsPlan plan }
    requires budget { budget ≤ 65_536 }
    requires disks { 0 < vec_len disks }
    requires living { S.living shelf.old ≡ 0 }
{
    plan_states_values(&plan);
    if !is_served(&plan) {
        return stopped(Stop::NotServed);
    }
    let Ok(parts) = allot(&plan, 1, budget) else {
        return stopped(Stop::TooSmall);
    };
    match Engine::open(alloc, plan, parts, disks) {
        Ok(engine) => run_engine(engine, shelf, out),
        Err(OpenMemory { disks: _disks }) => stopped(Stop::NoEngine),
    }
}

fn stopped(stop: Stop) -> Ended {
    Ended {
        answer: Err(stop),
        disks: 0,
        free: true,
    }
}

fn run_engine<S: Shelf, K: Sink, D: Spill>(
    mut engine: Engine<D>,
    shelf: &mut S,
    out: &mut K,
) -> Ended
    requires ready { IsReady D.told engine }
    requires living { S.living shelf.old ≡ 0 }
{
    let answer = load_and_print(&mut engine, shelf, out);
    let Closed { disks, ledger } = engine.close();
    Ended {
        answer,
        disks: disks.len(),
        free: ledger.free() == ledger.total(),
    }
}

fn load_and_print<S: Shelf, K: Sink, D: Spill>(
    engine: &mut Engine<D>,
    shelf: &mut S,
    out: &mut K,
) -> Result<u64, Stop>
    requires ready { IsReady D.told engine.old }
    requires living { S.living shelf.old ≡ 0 }
    ensures { MayBeClosed D.told engine.new }
{
    match load(engine, shelf) {
        Ok(_) => print(engine, out),
        Err(stop) => Err(stop),
    }
}

fn load<S: Shelf, D: Spill>(engine: &mut Engine<D>, shelf: &mut S) -> Result<u64, Stop>
    requires ready { IsReady D.told engine.old }
    requires living { S.living shelf.old ≡ 0 }
    ensures ready { OnOk result (IsReady D.told engine.new) }
    ensures closes { OnErr result (MayBeClosed D.told engine.new) }
{
    if !begins_with_source(engine.plan()) {
        return Err(Stop::NotServed);
    }
    match shelf.open("p") {
        Ok(id) => match engine.load(1, shelf, id) {
            Ok(count) => Ok(count),
            Err(fault) => Err(Stop::Load(fault)),
        },
        Err(_) => Err(Stop::NoFile),
    }
}

fn print<K: Sink, D: Spill>(engine: &mut Engine<D>, out: &mut K) -> Result<u64, Stop>
    requires { IsReady D.told engine.old }
    ensures { MayBeClosed D.told engine.new }
{
    match engine.execute() {
        Ok(receipt) => match engine.emit(&receipt, out) {
            Ok(()) => Ok(receipt.rows()),
            Err(fault) => Err(Stop::Emit(fault)),
        },
        Err(fault) => Err(Stop::Execute(fault)),
    }
}
