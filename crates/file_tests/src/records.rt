//! Files that are no journal, and the limits of a record.
use crate::spelling::bytes_of;
use commit_journal::{Fit, JournalFault, Walk, fits, give_up};
use host_port::{Host, MemoryHost};
use page_pool::Pool;
use std::alloc::Global;
use std::process::Abort;
use std::test::Fail;

// How many records a file with at most two of them has, or the fault at which reading ends. Where it has none, one is
// made ready and given up.
fn count<H: Host>(alloc: Global, host: &mut H) -> Result<usize, JournalFault> {
    let mut walk = Walk::mount(host)?;
    match walk.next_bytes(alloc, host)? {
        None => {
            let mut pool = Pool::new(alloc);
            let prepared = walk.finish().prepare(alloc, &mut pool, b"a")?;
            give_up(prepared, &mut pool);
            return Ok(0);
        }
        Some(_) => {}
    }
    match walk.next_bytes(alloc, host)? {
        None => Ok(1),
        Some(_) => Ok(2),
    }
}

// A case a line: a file, and how many records it has or why it has none.
const FILES: &str = r" => Ok(0)
EMFSTARE\0\0\0\x01\0\0\0\0\xa5 => Ok(0)
EMFSTARE\0\0\0\x01\0\0\0\0\0\0 => Err(Damaged { at: 5 })
EMFSTORE\0\0\0\x01\0\0\0\0\xa5\0 => Err(Damaged { at: 16 })
EMFSTORE\0\0\0\x01\0\0\0\0\xa5\0\0\0\x01 => Err(Damaged { at: 16 })
EMFSTORE\0\0\0\x01\0\0\0\0\xa5\x01\0\0\0ab => Err(Damaged { at: 16 })
EMFSTORE\0\0\0\x01\0\0\0\0\xa5\0\0\0\x01a => Err(Damaged { at: 22 })
EMFSTORE\0\0\0\x01\0\0\0\0\xa5\0\0\0\x01a\xa5\0 => Err(Damaged { at: 22 })
EMFSTORE\0\0\0\x01\0\0\0\0\xa5\0\0\0\x01a\0behind => Ok(1)";

// How many records these bytes have as a file, as it is told.
fn told(alloc: Global, file: Vec<u8>) -> Result<String, Fail> {
    let mut host = MemoryHost::new(alloc, Vec::new(alloc), 1, file, Vec::new(alloc));
    let counted = count(alloc, &mut host);
    Ok(format!(in alloc; "{counted:?}")?)
}

fn is_counted(rt: &impl Abort, alloc: Global, case: &str) -> Result<(), Fail> {
    let (file, wanted) = case.split_once(" => ").ok_or("a case without an answer")?;
    let told = told(alloc, bytes_of(alloc, file)?)?;
    assert_eq!(rt; told.as_str(), wanted, "{case}");
    Ok(())
}

#[test]
fn a_file_that_reads_on_in_no_way_is_damaged_at_its_place(rt: HostRuntime) -> Result<(), Fail> {
    for case in FILES.lines() {
        is_counted(&rt, rt.alloc(), case)?;
    }
    Ok(())
}

#[test]
fn a_record_fits_up_to_its_limits(rt: HostRuntime) {
    for (end, n, want) in [
        (16, 0, Fit::Yes),
        (16, 16_777_211, Fit::Yes),
        (16, 16_777_212, Fit::TooLarge),
        (16, u64::MAX, Fit::TooLarge),
        ((1 << 40) - 16, 10, Fit::Yes),
        ((1 << 40) - 16, 11, Fit::Full),
        (u64::MAX, 16_777_212, Fit::TooLarge),
    ] {
        assert_eq!(&rt; fits(end, n), want);
    }
}
