//! A run over a project of which each call fails once, or is the last before a crash.
use crate::hosts::{asked, beginning, over, serve};
use emf_top::Status;
use host_port::{FuseHost, MemoryHost};
use std::alloc::Global;
use std::process::Abort;
use std::test::Fail;

const LINES: &str = r#"create 1 Library / l
create 1 Book l books b
set 1 b title "Emma"
commit 1 first book
checkout trunk
log
"#;

// The events of the run, with those of its opening.
const EVENTS: usize = 7;

const CALLS: u64 = 44;

fn script(alloc: Global) -> Result<Vec<u8>, Fail> {
    beginning(alloc, LINES)
}

// The status where a call fails. Six calls open the store and one takes the input. Five are for each event: record,
// sync, gate, sync, reply. One is for the reply of the log, and one finds the input's end.
fn status_at(call: u64) -> Status {
    match call {
        6 | 43 => Status::ReadFault,
        11 | 16 | 21 | 26 | 31 | 36 | 41 | 42 => Status::WriteFault,
        CALLS => Status::Accepted,
        _ => Status::DiskFault,
    }
}

// The number that `--check` prints as its third word.
fn count_in(said: &[u8]) -> Result<usize, Fail> {
    let said = std::str::from_utf8(said)?;
    let count = said.split(' ').nth(2).ok_or("no count")?;
    Ok(count.parse::<usize>()?)
}

// How many events a host's file has, as `--check` counts them.
fn events_of(alloc: Global, host: &mut MemoryHost) -> Result<usize, Fail> {
    if asked(alloc, "--check", host)? != Status::Accepted {
        return Err("no store")?;
    }
    count_in(host.said())
}

// How many events a file has.
fn events_in(alloc: Global, file: Vec<u8>) -> Result<usize, Fail> {
    let mut host = over(alloc, Vec::new(alloc), file);
    events_of(alloc, &mut host)
}

// How many events have their reply among what was printed.
fn replied(said: &[u8]) -> Result<usize, Fail> {
    let replies = std::str::from_utf8(said)?
        .lines()
        .filter(|line| line.starts_with("ok"))
        .count();
    Ok(replies.min(EVENTS))
}

// How many events a file has: those whose reply was printed, and at most one more.
fn kept_in(rt: &impl Abort, alloc: Global, said: &[u8], file: Vec<u8>) -> Result<usize, Fail> {
    let (kept, least) = (events_in(alloc, file)?, replied(said)?);
    assert!(rt;
        kept == least || kept.checked_sub(1) == Some(least),
        "{kept} {least}"
    );
    Ok(kept)
}

// A run of which the call of a number fails.
fn failed(rt: &impl Abort, alloc: Global, call: u64) -> Result<MemoryHost, Fail> {
    let fails = vec![in alloc; call; 1]?;
    let mut host = MemoryHost::new(alloc, script(alloc)?, 4096, Vec::new(alloc), fails);
    assert_eq!(rt; serve(alloc, &mut host), status_at(call), "{call}");
    Ok(host)
}

#[test]
fn a_call_that_fails_leaves_the_first_events_whole(rt: HostRuntime) -> Result<(), Fail> {
    let alloc = rt.alloc();
    for call in 0..=CALLS {
        let host = failed(&rt, alloc, call)?;
        let _kept = kept_in(&rt, alloc, host.said(), host.file().to_vec(alloc)?)?;
    }
    Ok(())
}

// A run that crashes after so many calls.
fn crashed(rt: &impl Abort, alloc: Global, calls: u64) -> Result<MemoryHost, Fail> {
    let host = over(alloc, script(alloc)?, Vec::new(alloc));
    let mut fuse = FuseHost::new(host, calls);
    assert_eq!(rt; serve(alloc, &mut fuse), status_at(calls), "{calls}");
    Ok(fuse.into_inner())
}

// How many events are there again after a crash. Where the bytes that a crash leaves are those of an open gate, it is
// each whose gate was written. Else it is each whose gate was synced too.
fn kept_at(calls: u64, fill: u8) -> u64 {
    let calls = if fill == 165 {
        calls
    } else {
        calls.saturating_sub(1)
    };
    (calls / 5).max(1).min(EVENTS as u64 + 1) - 1
}

// How many events are there again after the crash.
fn is_kept(
    rt: &impl Abort,
    alloc: Global,
    host: &MemoryHost,
    calls: u64,
    fill: u8,
) -> Result<(), Fail> {
    let kept = kept_in(rt, alloc, host.said(), host.stop_image(fill)?)?;
    assert_eq!(rt; kept as u64, kept_at(calls, fill), "{calls} {fill}");
    Ok(())
}

// The same for each fill.
fn are_kept(rt: &impl Abort, alloc: Global, host: &MemoryHost, calls: u64) -> Result<(), Fail> {
    for fill in [0, 1, 164, 165, 166, 255] {
        is_kept(rt, alloc, host, calls, fill)?;
    }
    Ok(())
}

#[test]
fn a_crash_between_two_calls_leaves_the_first_events_whole(rt: HostRuntime) -> Result<(), Fail> {
    let alloc = rt.alloc();
    for calls in 0..=CALLS {
        let host = crashed(&rt, alloc, calls)?;
        are_kept(&rt, alloc, &host, calls)?;
    }
    Ok(())
}
