//! Replies that no line of a session is answered: those of stores that are too large for one.
use script_lang::{Last, Refusal, Reply, print_reply};
use std::alloc::Global;
use std::test::Fail;
use texts::List;

// Refusals of large stores, and the greatest offset; and their replies, in that order.
const REFUSALS: [Refusal; 4] = [
    Refusal::HistoryFull,
    Refusal::TooLarge,
    Refusal::JournalFull,
    Refusal::NotForm {
        at: 18446744073709551615,
    },
];

const REPLIES: &str = "no 33 HistoryFull
no 34 TooLarge
no 35 JournalFull
no 37 NotForm 18446744073709551615
";

// Puts the bytes of a reply after those of others.
fn print(alloc: Global, printed: &mut Vec<u8>, reply: &Reply) -> Result<(), Fail> {
    let bytes = print_reply(alloc, reply)?;
    printed.extend_from_slice(bytes.as_slice())?;
    Ok(())
}

fn print_refusals(alloc: Global, printed: &mut Vec<u8>) -> Result<(), Fail> {
    for refusal in REFUSALS {
        let reply = Reply {
            lines: List::new(alloc),
            last: Last::No(refusal),
        };
        print(alloc, printed, &reply)?;
    }
    Ok(())
}

#[test]
fn replies_of_large_stores_are_printed(rt: HostRuntime) -> Result<(), Fail> {
    let alloc = rt.alloc();
    let mut printed = Vec::new(alloc);
    print_refusals(alloc, &mut printed)?;
    assert_eq!(&rt; printed.as_slice(), REPLIES.as_bytes());
    Ok(())
}
