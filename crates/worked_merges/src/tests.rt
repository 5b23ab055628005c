ghost use Rattle.std.specs.Prelude.{◌≡◌, ◌<◌, ◌+◌, All, true, length};
ghost use Rattle.run_merge.specs.Collected.{Collected};

use crate::listed::{Listed, count_wanted};
use flow_outside::failure::StreamFault;
use flow_types::field_type::FieldType;
use flow_types::schema::Schema;
use normal_key::key_order::KeyOrder;
use outside_memory::zero_spill::ZeroSpill;
use run_merge::merge::Merge;
use run_merge::streams::Streams;
use std::alloc::Global;
use std::test::Fail;

/// Adds a list to the streams.
fn add<'a>(streams: &mut Streams<Listed<'a>>, rows: &'a [&'a [u8]])
    requires room { length streams.old.sources < streams.old.room }
    requires given { All (λ s. s.given ≡ true) streams.old.sources }
    ensures room { streams.new.room ≡ streams.old.room }
    ensures count { length streams.new.sources ≡ length streams.old.sources + 1 }
    ensures given { All (λ s. s.given ≡ true) streams.new.sources }
{
    streams.push(Listed {
        rows,
        next: 0,
        shown: None,
    });
}

/// Takes all streams out, and ends their list.
fn end(streams: Streams<Listed<'_>>) {
    let mut streams = streams;
    'streams: while let Some(_) = streams.pop() {}
    streams.end();
}

/// Merges three lists by their first field: how many records come out as wanted, and one more for the end.
fn merged(
    alloc: Global,
    lists: [&[&[u8]]; 3],
    wanted: &[&[u8]],
) -> Result<Result<usize, StreamFault>, Fail> {
    let schema = Schema::of(vec![in alloc; FieldType::Bool, FieldType::Str(3)]?).ok_or(
        "no schema",
    )?;
    let order = KeyOrder::of(&schema, &[0], &[], false);
    let mut streams = Streams::open(alloc, 3)?;
    add(&mut streams, lists[0]);
    add(&mut streams, lists[1]);
    add(&mut streams, lists[2]);
    let mut merge = Merge::new(streams, &order);
    let mut disk = ZeroSpill::new();
    let count = count_wanted(&mut merge, &mut disk, wanted);
    end(merge.end());
    Ok(count)
}

// A Bool and a text: those of the first list that tie stand before those of the second.
#[test]
fn records_that_tie_keep_the_order_of_their_lists(rt: HostRuntime) -> Result<(), Fail> {
    let first: [&[u8]; 2] = [b"\0\0\x01q", b"\x01\0\x01x"];
    let second: [&[u8]; 2] = [b"\0\0\x01b", b"\0\0\0"];
    let third: [&[u8]; 1] = [b"\x01\0\x02aa"];
    let wanted: [&[u8]; 5] = [
        b"\0\0\x01q",
        b"\0\0\x01b",
        b"\0\0\0",
        b"\x01\0\x01x",
        b"\x01\0\x02aa",
    ];
    let found = merged(rt.alloc(), [&first, &second, &third], &wanted)?;
    assert_eq!(rt; found, Ok(6));
    let found = merged(rt.alloc(), [&second, &third, &first], &wanted)?;
    assert_eq!(rt; found, Ok(0));
    Ok(())
}

// The second list's record has a Bool that is none.
#[test]
fn no_record_is_damaged(rt: HostRuntime) -> Result<(), Fail> {
    let first: [&[u8]; 1] = [b"\0\0\x01q"];
    let second: [&[u8]; 1] = [b"\x02\0\x01b"];
    let found = merged(rt.alloc(), [&first, &second, &[]], &first)?;
    assert_eq!(rt; found, Err(StreamFault::Damaged { block: 0 }));
    let found = merged(rt.alloc(), [&[], &[], &[]], &[])?;
    assert_eq!(rt; found, Ok(1));
    Ok(())
}
