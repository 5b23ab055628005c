use crate::pages::run_on;
use flow_outside::failure::StreamFault;
use flow_outside::spill::Spill;
use outside_memory::mem_spill::MemSpill;
use outside_memory::spill_calls::SpillCall;
use outside_memory::zero_spill::ZeroSpill;
use std::test::Fail;

#[test]
fn runs_come_back_twice_and_end(rt: HostRuntime) -> Result<(), Fail> {
    for count in [0, 1, 5] {
        let mut disk = MemSpill::new(rt.alloc(), Vec::new(rt.alloc()));
        let pages = run_on(&rt, rt.alloc(), &mut disk, count);
        assert_eq!(rt; pages, Ok(u64::from(count) * 2));
        assert_eq!(rt; disk.faults(), 0);
        // The block that was freed last is the one behind the pages.
        assert_eq!(rt; disk.fresh(), Ok(u64::from(count) + 1));
    }
    Ok(())
}

#[test]
fn each_failing_call_is_told(rt: HostRuntime) -> Result<(), Fail> {
    for (call, calls) in [
        (SpillCall::Fresh, 6),
        (SpillCall::Put, 5),
        (SpillCall::Get, 15),
    ] {
        for number in 1..calls + 2 {
            let failing = Vec::from_slice(rt.alloc(), &[(call, number)])?;
            let mut disk = MemSpill::new(rt.alloc(), failing);
            let pages = run_on(&rt, rt.alloc(), &mut disk, 5);
            let fails = number <= calls;
            let want = if fails {
                Err(StreamFault::Spill)
            } else {
                Ok(10)
            };
            assert_eq!(rt; pages, want, "{number}");
            assert_eq!(rt; disk.faults(), u64::from(fails));
        }
    }
    Ok(())
}

#[test]
fn a_page_that_was_not_kept_is_damaged(rt: HostRuntime) -> Result<(), Fail> {
    let mut disk = ZeroSpill::new();
    let pages = run_on(&rt, rt.alloc(), &mut disk, 1);
    assert_eq!(rt; pages, Err(StreamFault::Damaged { block: 1 }));
    assert_eq!(rt; disk.faults(), 0);
    Ok(())
}
