use crate::lots::{run_cuts_on, run_on};
use crate::rows::{framed_rows, pattern};
use flow_outside::failure::StreamFault;
use flow_outside::spill::Spill;
use outside_memory::mem_spill::MemSpill;
use outside_memory::spill_calls::SpillCall;
use outside_memory::zero_spill::ZeroSpill;
use std::test::Fail;

#[test]
fn records_come_back_twice(rt: HostRuntime) -> Result<(), Fail> {
    let bytes = pattern(rt.alloc(), 12_251)?;
    for room in [0, 1, 5] {
        // Records of 13 bytes with their lengths: over 13 pages each place in a record is a page's end.
        for (count, len) in [(0, 9), (1, 9), (1, 12_000), (10, 12_000), (10_000, 9)] {
            let mut disk = MemSpill::new(rt.alloc(), Vec::new(rt.alloc()));
            let rows = run_on(&rt, rt.alloc(), &mut disk, room, &bytes, count, len);
            assert_eq!(rt; rows, Ok(count * 2), "{room} {count} {len}");
            assert_eq!(rt; disk.faults(), 0);
        }
    }
    Ok(())
}

#[test]
fn each_failing_call_is_told(rt: HostRuntime) -> Result<(), Fail> {
    let bytes = pattern(rt.alloc(), 12_251)?;
    // Ten records of 2,040 bytes with their lengths fill five pages, which are all spilled. They are read
    // twice, and once more as they are dropped.
    for (call, calls) in [
        (SpillCall::Fresh, 6),
        (SpillCall::Put, 5),
        (SpillCall::Get, 15),
    ] {
        for number in 1..calls + 2 {
            let failing = Vec::from_slice(rt.alloc(), &[(call, number)])?;
            let mut disk = MemSpill::new(rt.alloc(), failing);
            let rows = run_on(&rt, rt.alloc(), &mut disk, 0, &bytes, 10, 2_036);
            let fails = number <= calls;
            let want = if fails {
                Err(StreamFault::Spill)
            } else {
                Ok(20)
            };
            assert_eq!(rt; rows, want, "{number}");
            assert_eq!(rt; disk.faults(), u64::from(fails));
        }
    }
    Ok(())
}

#[test]
fn pages_may_be_cut_inside_records(rt: HostRuntime) -> Result<(), Fail> {
    let bytes = pattern(rt.alloc(), 751)?;
    // Ten records of 504 bytes with their lengths, in six pages of at most 1,001 bytes, which are all kept.
    let stream = framed_rows(rt.alloc(), &bytes, 10, 500)?;
    let mut disk = ZeroSpill::new();
    let rows = run_cuts_on(&rt, rt.alloc(), &mut disk, &stream, &bytes, 500);
    assert_eq!(rt; rows, Ok(20));
    Ok(())
}
