ghost use Rattle.std.specs.Prelude.{◌≡◌, IfOk, ◌<◌, vec_len};
ghost use Rattle.flow_outside.specs.Causes.{Rose};

use crate::runs::{Ended, Stop, run};
use flow_outside::failure::Memory;
use flow_outside::shelf::Shelf;
use outside_memory::file_name::FileName;
use outside_memory::mem_shelf::MemShelf;
use outside_memory::mem_sink::MemSink;
use outside_memory::mem_spill::MemSpill;
use outside_memory::spill_calls::SpillCall;
use plan_check::check::plan_from;
use std::alloc::Global;
use std::test::Fail;
use superstep::faults::{EmitFault, ExecFault, LoadFault};

/// A union of a source with itself.
const TWICE: &str = r#"{"version":1,"segment":4096,"result":"u","nodes":[
  {"name":"p","op":"source","fields":["long","long"]},
  {"name":"u","op":"union","inputs":["p","p"]}]}"#;

/// Each op that goes row by row, one behind the other.
const ALL: &str = r#"{"version":1,"segment":4096,"result":"e","nodes":[
  {"name":"a","op":"source","fields":["long","str:200"]},
  {"name":"b","op":"map","input":"a","columns":[["sub",100,["f",0]],["f",1]]},
  {"name":"c","op":"filter","input":"b","test":["gt",["f",0],0]},
  {"name":"d","op":"flat_map","input":"c","rows":[
    {"when":true,"columns":[["f",0],["f",1]]},
    {"when":["gt",["f",0],98],"columns":[["mul",["f",0],10],"many"]}]},
  {"name":"e","op":"union","inputs":["d","c"]}]}"#;

/// What a run printed, and how it ended.
#[derive(Drop)]
struct Seen {
    printed: String,
    ended: Ended,
}

/// Runs a plan on a file, with a disk whose listed calls fail and an output with so much room.
fn see(
    alloc: Global,
    plan: &str,
    budget: u32,
    text: &str,
    failing: Option<(SpillCall, u64)>,
    room: u64,
) -> Result<Seen, Fail> {
    let Ok(plan) = plan_from(alloc, plan.as_bytes()) else {
        return Err(Fail::from("the plan is refused"));
    };
    let mut shelf = shelf_of(alloc, text)?;
    let mut out = MemSink::new(alloc, room);
    let disks = disks_of(alloc, failing)?;
    let ended = run(alloc, plan, budget.min(65_536), disks, &mut shelf, &mut out);
    let printed = String::from_str(alloc, str::from_utf8(out.text())?)?;
    Ok(Seen { printed, ended })
}

fn shelf_of(alloc: Global, text: &str) -> Result<MemShelf, Memory>
    ensures { IfOk result (λ shelf. ⟦<MemShelf as Shelf>⟧.living shelf ≡ 0) }
{
    let mut files = Vec::new(alloc);
    let name = FileName::of(String::from_str(alloc, "p")?);
    files.push((name, Vec::from_slice(alloc, text.as_bytes())?))?;
    MemShelf::new(alloc, files, Vec::new(alloc))
}

/// Two disks, of which the first has calls that fail.
fn disks_of(alloc: Global, failing: Option<(SpillCall, u64)>) -> Result<Vec<MemSpill>, Memory>
    ensures { IfOk result (λ disks. 0 < vec_len disks) }
{
    let mut calls = Vec::new(alloc);
    if let Some(call) = failing {
        calls.push(call)?;
    }
    let mut disks = Vec::new(alloc);
    disks.push(MemSpill::new(alloc, calls))?;
    disks.push(MemSpill::new(alloc, Vec::new(alloc)))?;
    Ok(disks)
}

#[test]
fn a_row_of_a_union_is_printed_twice(rt: HostRuntime) -> Result<(), Fail> {
    let seen = see(rt.alloc(), TWICE, 16, "1,2\n", None, 1_000)?;
    assert_eq!(rt; seen.printed.as_str(), "1,2\n1,2\n");
    assert_eq!(rt;
        seen.ended,
        Ended {
            answer: Ok(2),
            disks: 2,
            free: true
        }
    );
    Ok(())
}

#[test]
fn ops_follow_one_another(rt: HostRuntime) -> Result<(), Fail> {
    let seen = see(rt.alloc(), ALL, 16, "1,x\n2,y z\n100,\n3,\n", None, 1_000)?;
    let wanted = "97,\n97,\n98,y z\n98,y z\n99,x\n99,x\n990,many\n";
    assert_eq!(rt; seen.printed.as_str(), wanted);
    assert_eq!(rt;
        seen.ended,
        Ended {
            answer: Ok(7),
            disks: 2,
            free: true
        }
    );
    Ok(())
}

#[test]
fn of_no_rows_none_are_printed(rt: HostRuntime) -> Result<(), Fail> {
    let seen = see(rt.alloc(), ALL, 16, "", None, 1_000)?;
    assert_eq!(rt; seen.printed.as_str(), "");
    assert_eq!(rt;
        seen.ended,
        Ended {
            answer: Ok(0),
            disks: 2,
            free: true
        }
    );
    Ok(())
}

#[test]
fn a_budget_below_the_minimum_is_too_small(rt: HostRuntime) -> Result<(), Fail> {
    let seen = see(rt.alloc(), TWICE, 15, "1,2\n", None, 1_000)?;
    assert_eq!(rt; seen.ended.answer, Err(Stop::TooSmall));
    Ok(())
}

#[test]
fn each_call_of_the_disk_fails_once(rt: HostRuntime) -> Result<(), Fail> {
    let alloc = rt.alloc();
    for call in [SpillCall::Fresh, SpillCall::Put, SpillCall::Get] {
        let seen = see(alloc, TWICE, 16, "1,2\n", Some((call, 1)), 1_000)?;
        assert!(rt; seen.ended.free);
        assert_eq!(rt; seen.ended.disks, 2);
        assert_eq!(rt; seen.printed.as_str(), "");
        assert!(rt; is_spill_fault(seen.ended.answer));
    }
    Ok(())
}

/// A disk failed, the first worker's.
fn is_spill_fault(answer: Result<u64, Stop>) -> bool {
    matches!(
        answer,
        Err(Stop::Load(LoadFault::Spill { worker: 0 }))
            | Err(Stop::Execute(ExecFault::Spill { worker: 0 }))
            | Err(Stop::Emit(EmitFault::Spill { worker: 0 }))
    )
}

#[test]
fn more_rows_than_segments_are_spilled(rt: HostRuntime) -> Result<(), Fail> {
    let text = "7,8\n".repeat(rt.alloc(), 6_000)?;
    let seen = see(rt.alloc(), TWICE, 16, text.as_str(), None, 100_000)?;
    assert_eq!(rt;
        seen.ended,
        Ended {
            answer: Ok(12_000),
            disks: 2,
            free: true
        }
    );
    assert_eq!(rt; seen.printed.len(), 48_000);
    Ok(())
}

#[test]
fn an_output_that_fails_has_a_prefix(rt: HostRuntime) -> Result<(), Fail> {
    let seen = see(rt.alloc(), TWICE, 16, "1,2\n", None, 5)?;
    assert_eq!(rt; seen.printed.as_str(), "1,2\n1");
    assert_eq!(rt;
        seen.ended,
        Ended {
            answer: Err(Stop::Emit(EmitFault::Write)),
            disks: 2,
            free: true
        }
    );
    Ok(())
}
