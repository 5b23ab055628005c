ghost use Rattle.std.specs.Prelude.{◌≡◌, ℕ};
ghost use Rattle.segment_core.specs.Segments.{segment_sum};

use segment_core::{LeaseFault, Pool, PoolFault, Purse};
use std::alloc::Global;
use std::process::Abort;

// Opens a pool and closes it again. Its fault, if it has one.
fn fault_of(alloc: Global, count: u32, size: u32) -> Option<PoolFault> {
    match Pool::open(alloc, count, size) {
        Ok(pool) => {
            let _free = pool.free();
            pool.close();
            None
        }
        Err(fault) => Some(fault),
    }
}

#[test]
fn bad_sizes_are_told_before_bad_counts(rt: HostRuntime) {
    for size in [0, 4_095, 4_097, 12_288, 65_536] {
        assert_eq!(rt;
            fault_of(rt.alloc(), 1, size),
            Some(PoolFault::BadSize),
            "{size}"
        );
        assert_eq!(rt;
            fault_of(rt.alloc(), 0, size),
            Some(PoolFault::BadSize),
            "{size}"
        );
    }
    for count in [0, 65_537] {
        assert_eq!(rt;
            fault_of(rt.alloc(), count, 4_096),
            Some(PoolFault::BadCount),
            "{count}"
        );
    }
    for size in [4_096, 8_192, 16_384, 32_768] {
        assert_eq!(rt; fault_of(rt.alloc(), 3, size), None, "{size}");
    }
}

// Takes a segment out of a purse, looks at it, and puts it back marked. Its id, its size and the mark
// that it had.
fn mark_first(rt: &impl Abort, purse: &mut Purse, mark: u8) -> (u32, usize, u8)
    ensures segments { (h : ℕ → ℕ → ℕ) → segment_sum h purse.new.pages ≡ segment_sum h purse.old.pages }
{
    let mut segment = purse.take().expect(rt, "the purse is empty");
    let seen = (segment.id(), segment.bytes().len(), segment.bytes()[0]);
    segment.bytes_mut()[0] = mark;
    purse.put(segment);
    seen
}

// The fault of a lease. What was leased goes back at once.
fn lease_fault(pool: &mut Pool, n: u32) -> Option<LeaseFault>
    ensures total { pool.new.total ≡ pool.old.total }
    ensures size { pool.new.size ≡ pool.old.size }
    ensures segments { (h : ℕ → ℕ → ℕ) → segment_sum h pool.new.free ≡ segment_sum h pool.old.free }
{
    match pool.lease(n) {
        Ok(purse) => {
            pool.restore(purse);
            None
        }
        Err(fault) => Some(fault),
    }
}

#[test]
fn segments_are_leased_and_come_home(rt: HostRuntime) {
    let mut pool = Pool::open(rt.alloc(), 3, 4_096).expect(&rt, "no memory");
    let mut two = pool.lease(2).expect(&rt, "no memory");
    assert_eq!(rt;
        (pool.free(), pool.total(), two.len(), two.room()),
        (1, 3, 2, 2)
    );
    assert_eq!(rt;
        lease_fault(&mut pool, 2),
        Some(LeaseFault::Short { free: 1 })
    );
    assert_eq!(rt; lease_fault(&mut pool, 1), None);
    let one = pool.lease(1).expect(&rt, "no memory");
    assert_eq!(rt; mark_first(&rt, &mut two, 7), (1, 4_096, 0));
    assert_eq!(rt; mark_first(&rt, &mut two, 8), (1, 4_096, 7));
    pool.restore(one);
    pool.restore(two);
    assert_eq!(rt; pool.free(), 3);
    pool.close();
}

// Compiles only for a value that threads may hand on and share.
fn crosses_threads<T: Send + Sync>(_value: &T) {}

#[test]
fn an_empty_purse_is_taken_apart_and_made_again(rt: HostRuntime) {
    let mut empty = Purse::open(rt.alloc(), 2).expect(&rt, "no memory");
    crosses_threads(&empty);
    assert_eq!(rt; (empty.len(), empty.room()), (0, 2));
    match empty.take() {
        None => (),
        Some(segment) => {
            empty.put(segment);
            panic!(rt; "an empty purse gave a segment");
        }
    }
    let (items, room) = empty.into_items();
    let again = Purse::of_items(items, room);
    assert_eq!(rt; (again.len(), again.room()), (0, 2));
    let (items, _room) = again.into_items();
    items.destroy_empty();
}
