ghost use Rattle.std.specs.Prelude.{◌≡◌};

use flow_outside::read_file::{FileFault, read_file};
use flow_outside::shelf::Shelf;
use flow_outside::sink::Sink;
use flow_outside::spill::Spill;
use flow_outside::write_all::write_all;
use outside_host::file_shelf::FileShelf;
use outside_host::file_spill::FileSpill;
use outside_host::print_sink::{StderrSink, StdoutSink};
use std::fs;
use std::fs::Files;
use std::os::unix::fs::FileExt;
use std::test::Fail;

#[test]
fn reads_a_real_file(rt: HostRuntime) -> Result<(), Fail> {
    fs::write(&rt, "outside-host.tmp", "1,ann\n2,bob\n")?;
    let mut shelf = FileShelf::new(&rt, rt.alloc())?;
    let bytes = read_file(&mut shelf, rt.alloc(), "outside-host.tmp", 12)?;
    fs::remove_file(&rt, "outside-host.tmp")?;
    assert_eq!(rt; bytes.as_slice(), b"1,ann\n2,bob\n".as_slice());
    assert_eq!(rt; shelf.faults("outside-host.tmp"), 0);
    Ok(())
}

#[test]
fn counts_a_file_that_is_not_there(rt: HostRuntime) -> Result<(), Fail> {
    let mut shelf = FileShelf::new(&rt, rt.alloc())?;
    let answer = read_file(&mut shelf, rt.alloc(), "outside-host.none", 12);
    assert_eq!(rt; answer, Err(FileFault::Read));
    assert_eq!(rt; shelf.faults("outside-host.none"), 1);
    Ok(())
}

#[test]
fn writes_to_both_outputs(rt: HostRuntime) -> Result<(), Fail> {
    let mut out = StdoutSink::new(&rt);
    write_all(&mut out, b"to the output\n")?;
    assert_eq!(rt; out.faults(), 0);
    let stderr = rt.stderr();
    let mut err = StderrSink::new(&stderr);
    write_all(&mut err, b"to the error output\n")?;
    assert_eq!(rt; err.faults(), 0);
    Ok(())
}
/// The page of a block: its number in eight bytes.
fn page_of(block: u64) -> [u8; 8] {
    block.to_be_bytes()
}

/// Takes so many blocks and puts the page of each. Whether all was done.
fn fill<R: Files>(disk: &mut FileSpill<'_, R>, count: u64) -> bool
where
    R::File: FileExt,
{
    for _ in 0..count {
        match disk.fresh() {
            Ok(block) => {
                if disk.put(block, &page_of(block)).is_err() {
                    return false;
                }
            }
            Err(_) => return false,
        }
    }
    true
}

/// Whether the first so many blocks hold their pages.
fn holds<R: Files>(disk: &mut FileSpill<'_, R>, count: u64) -> bool
where
    R::File: FileExt,
{
    for block in 0..count {
        let mut page = [0; 8];
        if disk.get(block + 1, &mut page).is_err() || page != page_of(block + 1) {
            return false;
        }
    }
    true
}

/// A disk that a worker can have.
fn handed_over<D: Spill + Send>(disk: D) -> D
    ensures { result ≡ disk }
{
    disk
}

#[test]
fn keeps_pages_in_a_file(rt: HostRuntime) -> Result<(), Fail> {
    let alloc = rt.alloc();
    {
        let name = String::from_str(alloc, "outside-host-spill.tmp")?;
        let mut disk = handed_over(FileSpill::new(&rt, alloc, name));
        assert!(rt; fs::metadata(&rt, "outside-host-spill.tmp").is_err());
        assert!(rt; fill(&mut disk, 1_000) && holds(&mut disk, 1_000));
        disk.free(500);
        assert_eq!(rt; disk.fresh(), Ok(500));
        assert_eq!(rt; disk.fresh(), Ok(1_001));
        assert!(rt; holds(&mut disk, 1_000));
        assert_eq!(rt; disk.faults(), 0);
        assert!(rt; disk.get(2_000, &mut [0; 8]).is_err());
        assert_eq!(rt; disk.faults(), 1);
        assert!(rt; fs::metadata(&rt, "outside-host-spill.tmp").is_ok());
    }
    assert!(rt; fs::metadata(&rt, "outside-host-spill.tmp").is_err());
    Ok(())
}

#[test]
fn counts_a_file_that_cannot_be_made(rt: HostRuntime) -> Result<(), Fail> {
    let alloc = rt.alloc();
    let name = String::from_str(alloc, "outside-host.none/spill.tmp")?;
    let mut disk = FileSpill::new(&rt, alloc, name);
    let block = disk.fresh().expect(&rt, "a block");
    assert!(rt; disk.put(block, &[7]).is_err());
    assert!(rt; disk.get(block, &mut [0]).is_err());
    assert_eq!(rt; disk.faults(), 2);
    Ok(())
}
