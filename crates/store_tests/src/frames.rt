//! An edit whose record lies in three frames: what a crash after each call of its run leaves.
use crate::hosts::{beginning, over, serve};
use emf_top::Status;
use host_port::{FuseHost, MemoryHost};
use std::alloc::Global;
use std::process::Abort;
use std::test::Fail;

// A title of 10,000 letters.
fn title(alloc: Global) -> Result<String, Fail> {
    Ok(String::from_utf8(vec![in alloc; b'x'; 10_000]?)?)
}

// A script of a book, and its title.
fn script(alloc: Global, title: &str) -> Result<Vec<u8>, Fail> {
    let lines = format!(in alloc; "create 1 Book / b\nset 1 b title \"{title}\"\n")?;
    beginning(alloc, lines.as_str())
}

// What is printed after a crash, of that fill, to whom asks for the model.
fn shown(alloc: Global, host: &MemoryHost, fill: u8) -> Result<String, Fail> {
    let mut again = over(alloc, b"show 1\n".to_vec(alloc)?, host.stop_image(fill)?);
    let _status = serve(alloc, &mut again);
    Ok(String::from_utf8(again.said().to_vec(alloc)?)?)
}

// What is printed of the book, with these bytes of its title.
fn text(alloc: Global, title: &str) -> Result<String, Fail> {
    Ok(format!(in alloc; "{{\"_id\":\"b\",\"eClass\":\"http://lib/1#//Book\"{title}}}\nok\n")?)
}

const BOOK: &str = "ok\n[]\nok 1 0 trunk\nok b\n";

const BOTH: &str = "ok\n[]\nok 1 0 trunk\nok b\nok\n";

// A run that crashes after so many calls, and whether it ended before.
fn stopped(alloc: Global, title: &str, calls: u64) -> Result<(MemoryHost, bool), Fail> {
    let mut fuse = FuseHost::new(over(alloc, script(alloc, title)?, Vec::new(alloc)), calls);
    let is_whole = serve(alloc, &mut fuse) == Status::Accepted;
    Ok((fuse.into_inner(), is_whole))
}

// What is printed of the book with its title and without.
fn texts(alloc: Global, title: &str) -> Result<(String, String), Fail> {
    let field = format!(in alloc; ",\"title\":\"{title}\"")?;
    Ok((text(alloc, field.as_str())?, text(alloc, "")?))
}

// Whether this is what a crash leaves after a run that printed so much. It is the book with its title where both replies were printed. Where the
// book's alone was it is the book with or without its title.
fn is_right(said: &[u8], found: &str, texts: &(String, String)) -> bool {
    let is_with = found == texts.0.as_str();
    if said == BOTH.as_bytes() {
        return is_with;
    }
    said != BOOK.as_bytes() || is_with || found == texts.1.as_str()
}

fn is_left(
    rt: &impl Abort,
    alloc: Global,
    host: &MemoryHost,
    texts: &(String, String),
    fill: u8,
    calls: u64,
) -> Result<(), Fail> {
    let found = shown(alloc, host, fill)?;
    assert!(rt; is_right(host.said(), found.as_str(), texts), "{calls}");
    Ok(())
}

// How a run ended: whether the book's reply alone was printed, whether both replies were, and whether the run ended before the crash.
fn stop(
    rt: &impl Abort,
    alloc: Global,
    title: &str,
    texts: &(String, String),
    calls: u64,
) -> Result<(bool, bool, bool), Fail> {
    let (host, is_whole) = stopped(alloc, title, calls)?;
    is_left(rt, alloc, &host, texts, 0, calls)?;
    is_left(rt, alloc, &host, texts, 165, calls)?;
    let is_book = host.said() == BOOK.as_bytes();
    Ok((is_book, host.said() == BOTH.as_bytes(), is_whole))
}

// How many calls there are after which the book's reply alone was printed, and after which both were.
fn sorts(
    rt: &impl Abort,
    alloc: Global,
    title: &str,
    texts: &(String, String),
) -> Result<(u64, u64), Fail> {
    let (mut early, mut late) = (0_u64, 0_u64);
    for calls in 0..40 {
        let (is_book, is_both, is_whole) = stop(rt, alloc, title, texts, calls)?;
        early = u64::saturating_add(early, u64::from(is_book));
        late = u64::saturating_add(late, u64::from(is_both));
        if is_whole {
            return Ok((early, late));
        }
    }
    Ok((early, late))
}

// Three takes of input, three frames, a sync, the gate, a sync, and the reply; then the input's end.
#[test]
fn a_long_title_is_there_or_not_after_a_crash_and_is_once_it_was_replied(
    rt: HostRuntime,
) -> Result<(), Fail> {
    let alloc = rt.alloc();
    let title = title(alloc)?;
    let texts = texts(alloc, title.as_str())?;
    assert_eq!(&rt; sorts(&rt, alloc, title.as_str(), &texts)?, (10, 2));
    Ok(())
}
