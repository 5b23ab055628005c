use flow_outside::read_file::{FileFault, read_file};
use flow_outside::shelf::Shelf;
use flow_outside::sink::Sink;
use flow_outside::spill::Spill;
use flow_outside::write_all::write_all;
use outside_memory::file_name::FileName;
use outside_memory::mem_shelf::MemShelf;
use outside_memory::mem_sink::MemSink;
use outside_memory::zero_spill::ZeroSpill;
use std::alloc::{AllocError, Global};
use std::test::Fail;

/// The files `a` with the bytes `1\n2\n`, and a second `a` that is never read.
fn two_files(alloc: Global) -> Result<Vec<(FileName, Vec<u8>)>, AllocError> {
    let mut files = Vec::new(alloc);
    let first = FileName::of(String::from_str(alloc, "a")?);
    files.push((first, Vec::from_slice(alloc, b"1\n2\n")?))?;
    let second = FileName::of(String::from_str(alloc, "a")?);
    files.push((second, Vec::from_slice(alloc, b"3\n")?))?;
    Ok(files)
}

#[test]
fn reads_the_first_of_two_files(rt: HostRuntime) -> Result<(), Fail> {
    let alloc = rt.alloc();
    let mut shelf = MemShelf::new(alloc, two_files(alloc)?, Vec::new(alloc))?;
    let bytes = read_file(&mut shelf, alloc, "a", 4)?;
    assert_eq!(rt; bytes.as_slice(), b"1\n2\n".as_slice());
    assert_eq!(rt; shelf.faults("a"), 0);
    Ok(())
}

#[test]
fn refuses_a_file_past_the_limit(rt: HostRuntime) -> Result<(), Fail> {
    let alloc = rt.alloc();
    let mut shelf = MemShelf::new(alloc, two_files(alloc)?, Vec::new(alloc))?;
    assert_eq!(rt;
        read_file(&mut shelf, alloc, "a", 3),
        Err(FileFault::TooLong)
    );
    Ok(())
}

#[test]
fn counts_a_failed_call_at_its_name(rt: HostRuntime) -> Result<(), Fail> {
    let alloc = rt.alloc();
    let failing = Vec::from_slice(alloc, &[2])?;
    let mut shelf = MemShelf::new(alloc, two_files(alloc)?, failing)?;
    assert_eq!(rt; read_file(&mut shelf, alloc, "a", 4), Err(FileFault::Read));
    assert_eq!(rt; shelf.faults("a"), 1);
    assert_eq!(rt; shelf.faults("b"), 0);
    Ok(())
}

#[test]
fn counts_unknown_names_together(rt: HostRuntime) -> Result<(), Fail> {
    let alloc = rt.alloc();
    let mut shelf = MemShelf::new(alloc, two_files(alloc)?, Vec::new(alloc))?;
    assert_eq!(rt; read_file(&mut shelf, alloc, "b", 4), Err(FileFault::Read));
    assert_eq!(rt; shelf.faults("c"), 1);
    assert_eq!(rt; shelf.faults("a"), 0);
    Ok(())
}

#[test]
fn writes_until_the_room_ends(rt: HostRuntime) -> Result<(), Fail> {
    let mut sink = MemSink::new(rt.alloc(), 10);
    assert_eq!(rt; write_all(&mut sink, b"2,bob\n"), Ok(()));
    assert!(rt; write_all(&mut sink, b"3,cy\n").is_err());
    assert_eq!(rt; sink.text(), b"2,bob\n3,cy".as_slice());
    assert_eq!(rt; sink.faults(), 1);
    Ok(())
}

#[test]
fn keeps_nothing_of_a_page(rt: HostRuntime) -> Result<(), Fail> {
    let mut disk = ZeroSpill::new();
    let mut page = [7, 7];
    let block = disk.fresh().expect(&rt, "a block is left");
    disk.put(block, &page).expect(&rt, "it takes any page");
    disk.get(block, &mut page).expect(&rt, "it gives any page");
    assert_eq!(rt; page, [0, 0]);
    disk.free(block);
    Ok(())
}
