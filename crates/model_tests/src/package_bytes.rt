//! Events, byte for byte as the format's tables have them. Bytes are written in hex, a field a word.
use crate::reading::cut;
use op_form::{Event, encode_event, has_encoding};
use op_reading::{FormFault, decode_event};
use std::alloc::Global;
use std::process::Abort;
use std::test::Fail;

// The bytes of events, and what they stand for: each event, each kind of operations, each step, and each kind of values.
const EVENTS: &str = r#"01 000000027b7d = Init { text: Text { text: "{}" } }
02 00000000 00000000 = Checkout { version: 0, branch: 0 }
02 ffffffff 00000000 = Checkout { version: 4294967295, branch: 0 }
03 00000001 00000000 = Edit { ws: 1, package: List { items: [] } }
03 00000001 00000001 01 01 00000001 08 0000000161 00000000 00 0000000100000000 = Edit { ws: 1, package: List { items: [Simple { kind: Create, steps: List { items: [New { e: Id { text: Text { text: "a" } }, class: 0, place: Root, rank: 4294967296 }] } }] } }
03 00000001 00000001 01 02 00000001 09 0000000161 00000000 01 0000000162 00000004 0000000100000000 = Edit { ws: 1, package: List { items: [Simple { kind: Delete, steps: List { items: [Gone { e: Id { text: Text { text: "a" } }, class: 0, place: Inside { parent: Id { text: Text { text: "b" } }, feature: 4 }, rank: 4294967296 }] } }] } }
03 00000001 00000001 01 03 00000001 01 0000000162 00000001 00 01 01 00000004456d6d61 = Edit { ws: 1, package: List { items: [Simple { kind: Attribute, steps: List { items: [Put { e: Id { text: Text { text: "b" } }, f: 1, old: None, new: Some(Text(Text { text: "Emma" })) }] } }] } }
03 00000001 00000001 01 03 00000002 01 0000000162 00000001 01 02 01 01 02 00 01 0000000162 00000002 01 03 fffffffffffffff9 01 04 00000002 = Edit { ws: 1, package: List { items: [Simple { kind: Attribute, steps: List { items: [Put { e: Id { text: Text { text: "b" } }, f: 1, old: Some(Flag(true)), new: Some(Flag(false)) }, Put { e: Id { text: Text { text: "b" } }, f: 2, old: Some(Whole(-7)), new: Some(Literal(2)) }] } }] } }
03 00000001 00000001 01 04 00000001 03 0000000162 00000003 00000001 01 0000000178 = Edit { ws: 1, package: List { items: [Simple { kind: ManyAttribute, steps: List { items: [Del { e: Id { text: Text { text: "b" } }, f: 3, at: 1, v: Text(Text { text: "x" }) }] } }] } }
03 00000001 00000001 01 04 00000001 04 0000000162 00000003 00000002 00000000 = Edit { ws: 1, package: List { items: [Simple { kind: ManyAttribute, steps: List { items: [Shift { e: Id { text: Text { text: "b" } }, f: 3, from: 2, to: 0 }] } }] } }
03 00000001 00000001 01 05 00000001 05 0000000161 00000005 0000000100000000 0000000162 01 0000000200000000 = Edit { ws: 1, package: List { items: [Simple { kind: Reference, steps: List { items: [Link { a: Id { text: Text { text: "a" } }, f: 5, ra: 4294967296, b: Id { text: Text { text: "b" } }, rb: Some(8589934592) }] } }] } }
03 00000001 00000001 01 05 00000001 06 0000000161 0000000a 0000000000000007 0000000162 00 = Edit { ws: 1, package: List { items: [Simple { kind: Reference, steps: List { items: [Unlink { a: Id { text: Text { text: "a" } }, f: 10, ra: 7, b: Id { text: Text { text: "b" } }, rb: None }] } }] } }
03 00000001 00000001 01 05 00000001 07 0000000161 00000004 0000000162 0000000000000007 0000000100000000 = Edit { ws: 1, package: List { items: [Simple { kind: Reference, steps: List { items: [RerankRow { a: Id { text: Text { text: "a" } }, f: 4, b: Id { text: Text { text: "b" } }, old: 7, new: 4294967296 }] } }] } }
03 00000001 00000001 01 06 00000001 0a 0000000161 01 0000000162 00000004 0000000000000007 00 0000000100000000 00000002 0000000162 0000000163 00000000 = Edit { ws: 1, package: List { items: [Simple { kind: Move, steps: List { items: [Move { e: Id { text: Text { text: "a" } }, from: Inside { parent: Id { text: Text { text: "b" } }, feature: 4 }, from_rank: 7, to: Root, to_rank: 4294967296, above_from: List { items: [Id { text: Text { text: "b" } }, Id { text: Text { text: "c" } }] }, above_to: List { items: [] } }] } }] } }
03 00000001 00000001 02 00000004626f7468 00000002 02 0000000162 00000003 00000000 01 0000000178 0b 0000000161 0000000000000007 0000000100000000 = Edit { ws: 1, package: List { items: [Composite { name: Text { text: "both" }, steps: List { items: [Ins { e: Id { text: Text { text: "b" } }, f: 3, at: 0, v: Text(Text { text: "x" }) }, RerankPlace { e: Id { text: Text { text: "a" } }, old: 7, new: 4294967296 }] } }] } }
04 00000001 00000008616e79206e616d65 = Begin { ws: 1, name: Text { text: "any name" } }
05 00000002 = End { ws: 2 }
05 ffffffff = End { ws: 4294967295 }
06 00000000 = Undo { ws: 0 }
06 00000002 = Undo { ws: 2 }
07 00000002 = Discard { ws: 2 }
08 00000002 = Tidy { ws: 2 }
09 00000001 00000000 = Commit { ws: 1, message: Text { text: "" } }
09 00000002 0000000461202062 = Commit { ws: 2, message: Text { text: "a  b" } }
0a 00000001 00000003646576 = Branch { ws: 1, name: Text { text: "dev" } }
0b 0000000161 00000000 = Tag { name: Text { text: "a" }, version: 0 }
0b 000000027631 ffffffff = Tag { name: Text { text: "v1" }, version: 4294967295 }
0c 00000001 00000000 = Update { ws: 1, choices: Text { text: "" } }
0c 00000002 000000036d746d = Update { ws: 2, choices: Text { text: "mtm" } }
0d 00000001 00000002 00000000 = Merge { ws: 1, branch: 2, choices: Text { text: "" } }
0d ffffffff 00000000 000000026d74 = Merge { ws: 4294967295, branch: 0, choices: Text { text: "mt" } }
0e 00000002 = Drop { ws: 2 }
0f 000000027b7d = Evolve { text: Text { text: "{}" } }
10 = Upgrade
11 00000001 00000003616e6e 0000000000000000 00000000 = Signed { ws: 1, author: Text { text: "ann" }, moment: 0, message: Text { text: "" } }
11 00000002 00000003616e6e ffffffffffffffff 0000000161 = Signed { ws: 2, author: Text { text: "ann" }, moment: 18446744073709551615, message: Text { text: "a" } }"#;

fn read(alloc: Global, text: &str) -> Result<Vec<u8>, Fail> {
    let digits = text.replace(alloc, " ", "")?;
    Ok(hex::decode(alloc, digits.as_str())?)
}

// Until the last byte of the next field has come, the bytes are no event, and the offset is that where the field begins.
fn add_field(
    rt: &impl Abort,
    alloc: Global,
    prefix: &mut Vec<u8>,
    field: &str,
) -> Result<(), Fail> {
    let wanted = Some(FormFault::NotForm {
        at: prefix.len() as u64,
    });
    for byte in hex::decode(alloc, field)?.as_slice() {
        let fault = decode_event(alloc, prefix.as_slice()).err();
        assert_eq!(rt; fault, wanted, "{field}");
        prefix.push(*byte)?;
    }
    Ok(())
}

fn add_fields(
    rt: &impl Abort,
    alloc: Global,
    prefix: &mut Vec<u8>,
    text: &str,
) -> Result<(), Fail> {
    for field in text.split_whitespace() {
        add_field(rt, alloc, prefix, field)?;
    }
    Ok(())
}

fn check_shown(rt: &impl Abort, alloc: Global, event: &Event, wanted: &str) -> Result<(), Fail> {
    let shown = format!(in alloc; "{event:?}")?;
    assert_eq!(rt; shown.as_str(), wanted);
    Ok(())
}

fn check_spelled(
    rt: &impl Abort,
    alloc: Global,
    event: &Event,
    bytes: &[u8],
    text: &str,
) -> Result<(), Fail> {
    if !has_encoding(event) {
        return Err("no encoding")?;
    }
    let spelled = encode_event(alloc, event)?;
    assert_eq!(rt; spelled.as_slice(), bytes, "{text}");
    Ok(())
}

fn check_both(
    rt: &impl Abort,
    alloc: Global,
    event: &Event,
    bytes: &[u8],
    line: &str,
) -> Result<(), Fail> {
    let (text, wanted) = cut(line, " = ");
    check_shown(rt, alloc, event, wanted)?;
    check_spelled(rt, alloc, event, bytes, text)
}

fn check_bytes(rt: &impl Abort, alloc: Global, bytes: &[u8], line: &str) -> Result<(), Fail> {
    let event = decode_event(alloc, bytes)?;
    check_both(rt, alloc, &event, bytes, line)
}

fn check_event(rt: &impl Abort, alloc: Global, line: &str) -> Result<(), Fail> {
    let (text, _) = cut(line, " = ");
    let mut bytes = Vec::new(alloc);
    add_fields(rt, alloc, &mut bytes, text)?;
    check_bytes(rt, alloc, bytes.as_slice(), line)
}

#[test]
fn events_are_spelled_and_every_prefix_is_no_encoding(rt: HostRuntime) -> Result<(), Fail> {
    let alloc = rt.alloc();
    for line in EVENTS.lines() {
        check_event(&rt, alloc, line)?;
    }
    Ok(())
}

// Bytes of no event, and the offset: of the first field that can't be read, or of the first byte left over.
const NO_EVENTS: &str = "12 00000001 = 0
00 = 0
01 00000001ff = 1
05 00000002 00 = 5
0b 00000000 0000000161 = 9
0c 00000001 000000016d 00 = 10
0d 00000001 000000016d 6d = 9
0e 00000002 00 = 5
10 00 = 1
11 00000001 0000000000000005 00000003616e6e 00000000 = 17
03 00000001 00 = 5
03 00000001 00000000 00 = 9";

fn check_no_event(rt: &impl Abort, alloc: Global, line: &str) -> Result<(), Fail> {
    let (text, wanted) = cut(line, " = ");
    let at = wanted.parse::<u64>()?;
    let bytes = read(alloc, text)?;
    let fault = decode_event(alloc, bytes.as_slice()).err();
    assert_eq!(rt; fault, Some(FormFault::NotForm { at }), "{text}");
    Ok(())
}

#[test]
fn bytes_of_no_event_are_no_encoding(rt: HostRuntime) -> Result<(), Fail> {
    for line in NO_EVENTS.lines() {
        check_no_event(&rt, rt.alloc(), line)?;
    }
    Ok(())
}
