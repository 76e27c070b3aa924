//! When replies are printed, and what is generated.
use crate::hosts::{asked, beginning, over, serve};
use emf_top::{Status, generate};
use host_port::{MemoryHost, TalkHost};
use std::alloc::Global;
use std::process::Abort;
use std::test::Fail;

#[test]
fn a_reply_is_printed_before_the_next_line_is_asked_for(rt: HostRuntime) -> Result<(), Fail> {
    let alloc = rt.alloc();
    let mut pieces = Vec::new(alloc);
    pieces.push(beginning(alloc, "")?)?;
    pieces.push(b"create 1 Book / b\n".to_vec(alloc)?)?;
    let mut host = TalkHost::new(alloc, pieces, Vec::new(alloc));
    assert_eq!(&rt; serve(alloc, &mut host), Status::Accepted);
    assert_eq!(&rt; host.said(), b"ok\n[]\nok 1 0 trunk\nok b\n".as_slice());
    Ok(())
}

// A store that a script is generated into is the same as one that gets it on its input.
fn makes_the_same(
    rt: &impl Abort,
    alloc: Global,
    host: &mut MemoryHost,
    fed: &mut MemoryHost,
) -> Result<(), Fail> {
    assert_eq!(rt; asked(alloc, "--generate 7:8", host)?, Status::Accepted);
    assert_eq!(rt; serve(alloc, fed), Status::Accepted);
    assert_eq!(rt; fed.file(), host.file());
    Ok(())
}

// The bytes of a generated script, as an input, make the same store.
#[test]
fn the_script_on_the_input_makes_the_same_store(rt: HostRuntime) -> Result<(), Fail> {
    let alloc = rt.alloc();
    let script = generate(alloc, 7, 8)?;
    let mut fed = over(alloc, script, Vec::new(alloc));
    let mut host = over(alloc, Vec::new(alloc), Vec::new(alloc));
    makes_the_same(&rt, alloc, &mut host, &mut fed)
}
