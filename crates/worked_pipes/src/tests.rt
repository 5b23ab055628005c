use crate::lots::Given;
use crate::passes::{Records, run_on};
use crate::pipes::pipe_of;
use flow_outside::spill::Spill;
use outside_host::file_spill::FileSpill;
use plan_check::check::plan_from;
use std::alloc::Global;
use std::fs::Files;
use std::os::unix::fs::FileExt;
use std::process::Abort;
use std::test::Fail;

/// A source, and behind it a node of each op that goes row by row.
const PLAN: &str = r#"{"version": 1, "result": "e", "nodes": [
  {"name": "a", "op": "source", "fields": ["long", "str:4"]},
  {"name": "b", "op": "map", "input": "a", "columns": [["cat", ["f", 1], "!"], ["sub", ["f", 0], 1]]},
  {"name": "c", "op": "filter", "input": "a", "test": ["gt", ["f", 0], 0]},
  {"name": "d", "op": "flat_map", "input": "a", "rows": [
    {"when": ["eq", ["f", 1], ""], "columns": [["f", 0]]},
    {"when": ["gt", ["f", 0], 0], "columns": [["mul", ["f", 0], 10]]}]},
  {"name": "e", "op": "union", "inputs": ["a", "c"]}]}"#;

/// The records of the rows `1,ann`, `2,` and `-1,bo`.
const GIVEN: [&[u8]; 3] = [
    b"\0\0\0\0\0\0\0\x01\0\x03ann",
    b"\0\0\0\0\0\0\0\x02\0\0",
    b"\xff\xff\xff\xff\xff\xff\xff\xff\0\x02bo",
];

/// Passes the rows through a node of the plan, as they are and 2,000 times over, between lots that keep all pages
/// and between lots that keep none, and looks whether these records come out each time.
fn gives<'a, R: Files + Abort + Drop>(
    rt: R,
    alloc: Global,
    place: usize,
    wanted: &'a [&'a [u8]],
) -> Result<(), Fail>
where
    R::File: FileExt,
{
    let plan = plan_from(alloc, PLAN.as_bytes()).expect(&rt, "the plan is accepted");
    let pipe = pipe_of(alloc, &plan, place).expect(&rt, "the node goes row by row");
    for room in [0, 5] {
        for times in [0, 1, 2_000] {
            let name = String::from_str(alloc, "worked-pipes-spill.tmp")?;
            let mut disk = FileSpill::new(&rt, alloc, name);
            let records = Records {
                given: &GIVEN,
                count: 3 * times,
                wanted,
            };
            let given = run_on(&rt, alloc, &pipe, room, records, &mut disk);
            let all = Given {
                same: wanted.len().saturating_mul(times),
                others: 0,
            };
            assert_eq!(rt; given, Ok(all), "{place} {room} {times}");
            assert_eq!(rt; disk.faults(), 0);
        }
    }
    Ok(())
}

#[test]
fn a_map_gives_its_columns(rt: HostRuntime) -> Result<(), Fail> {
    let wanted: [&[u8]; 3] = [
        b"\0\x04ann!\0\0\0\0\0\0\0\0",
        b"\0\x01!\0\0\0\0\0\0\0\x01",
        b"\0\x03bo!\xff\xff\xff\xff\xff\xff\xff\xfe",
    ];
    let alloc = rt.alloc();
    gives(rt, alloc, 1, &wanted)
}

#[test]
fn a_filter_gives_the_rows_that_pass(rt: HostRuntime) -> Result<(), Fail> {
    let alloc = rt.alloc();
    gives(rt, alloc, 2, &GIVEN[..2])
}

#[test]
fn a_flat_map_gives_each_branch_that_is_true(rt: HostRuntime) -> Result<(), Fail> {
    let wanted: [&[u8]; 3] = [
        b"\0\0\0\0\0\0\0\x0a",
        b"\0\0\0\0\0\0\0\x02",
        b"\0\0\0\0\0\0\0\x14",
    ];
    let alloc = rt.alloc();
    gives(rt, alloc, 3, &wanted)
}

#[test]
fn a_union_gives_all_rows(rt: HostRuntime) -> Result<(), Fail> {
    let alloc = rt.alloc();
    gives(rt, alloc, 4, &GIVEN)
}
