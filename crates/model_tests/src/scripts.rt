//! The lines of events, and which events a script can't hold: each reason, and what is just on its edge.
use crate::reading::cut;
use ecore_meta::{CompactList, Value};
use history_tree::History;
use model_state::{Id, OpKind, Operation, Step};
use op_form::{Event, has_encoding};
use op_reading::decode_event;
use replay_script::{PrintFault, line_of};
use std::alloc::Global;
use std::process::Abort;
use std::test::Fail;
use texts::{List, Text};

// The bytes of events, and their lines on the first history, or why they have none there. A line feed is written as `;`.
const LINES: &str = r#"01 000000037b7d0a = init;{};.;
02 00000000 00000000 = checkout 0;
02 00000001 00000000 = Unknown
02 00000000 00000001 = Unknown
03 00000001 00000000 = load 1;00000000;.;
04 00000001 00000008616e79206e616d65 = begin 1 any name;
05 00000002 = end 2;
06 00000002 = undo 2;
07 00000002 = discard 2;
08 00000002 = tidy 2;
09 00000001 00000000 = commit 1;
09 00000002 0000000520612020 62 = commit 2  a  b;
0a 00000001 00000003646576 = branch 1 dev;
0b 000000027631 00000000 = tag v1 0;
0b 000000027631 00000001 = Unknown
0c 00000001 00000000 = update 1;
0c 00000002 000000036d746d = update 2 mtm;
0d 00000001 00000000 00000000 = merge 1 trunk;
0d 00000001 00000000 000000026d74 = merge 1 trunk mt;
0d 00000001 00000001 00000000 = Unknown
0e 00000002 = drop 2;
0f 000000037b7d0a = evolve;{};.;
10 = upgrade;
11 00000001 00000003616e6e 0000000000000000 00000000 = signed 1 ann 0;
11 00000002 00000003616e6e ffffffffffffffff 000000026120 = signed 2 ann 18446744073709551615 a ;"#;

// Texts of events: the kind of event, how the text begins, how often an `x` follows, how it ends, and whether a script holds it.
const TEXTS: [(&str, &str, usize, &str, bool); 21] = [
    ("commit", "", 0, "", true),
    ("commit", " a  b ", 0, "", true),
    ("commit", "a\rb", 0, "", true),
    ("commit", "a\nb", 0, "", false),
    ("commit", "a", 0, "\r", false),
    ("commit", "", 1048567, "", true),
    ("commit", "", 1048568, "", false),
    ("signed", "a\rb", 0, "", true),
    ("signed", "a\nb", 0, "", false),
    ("signed", "a", 0, "\r", false),
    ("init", "", 0, "", true),
    ("init", "{}", 0, "\n", true),
    ("init", "{}", 0, "", false),
    ("init", "{\r}\n.\r.", 0, "\n", true),
    ("init", "{\r\n}", 0, "\n", false),
    ("init", "{\n.\n}", 0, "\n", false),
    ("init", "", 8388607, "\n", true),
    ("init", "", 8388608, "\n", false),
    ("evolve", "{}", 0, "\n", true),
    ("evolve", "{}", 0, "", false),
    ("evolve", "{\r\n}", 0, "\n", false),
];

// How many bytes the package has of one operation that sets a text of no bytes.
const PACKAGE_FRONT: usize = 27;

fn filled(alloc: Global, front: &str, count: usize, end: &str) -> Result<Text, Fail> {
    let filler = "x".repeat(alloc, count)?;
    let mut text = String::from_str(alloc, front)?;
    text.push_str(filler.as_str())?;
    text.push_str(end)?;
    Ok(Text::new(alloc, text.as_str())?)
}

fn event_of(alloc: Global, kind: &str, text: Text) -> Result<Event, Fail> {
    match kind {
        "commit" => Ok(Event::Commit {
            ws: 1,
            message: text,
        }),
        "signed" => Ok(Event::Signed {
            ws: 1,
            author: Text::new(alloc, "ann")?,
            moment: 5,
            message: text,
        }),
        "init" => Ok(Event::Init { text }),
        _ => Ok(Event::Evolve { text }),
    }
}

// An edit by one operation that sets a text of so many bytes.
fn long_edit(alloc: Global, count: usize) -> Result<Event, Fail> {
    let steps = CompactList::one(Step::Put {
        e: Id::read(alloc, "b")?,
        f: 1,
        old: None,
        new: Some(Value::Text(filled(alloc, "", count, "")?)),
    });
    let mut package = List::new(alloc);
    package.push(Operation::Simple {
        kind: OpKind::Attribute,
        steps,
    })?;
    Ok(Event::Edit { ws: 1, package })
}

// Why an event has no lines, where there is no history.
fn fault_of(alloc: Global, event: &Event) -> Result<Option<PrintFault>, Fail> {
    if !has_encoding(event) {
        return Err("no encoding")?;
    }
    Ok(line_of(alloc, None, event).err())
}

// The same, of an event with a text.
fn fault_of_text(alloc: Global, kind: &str, text: Text) -> Result<Option<PrintFault>, Fail> {
    let event = event_of(alloc, kind, text)?;
    let found = fault_of(alloc, &event);
    drop(event);
    found
}

// The same, of a long edit.
fn fault_of_edit(alloc: Global, count: usize) -> Result<Option<PrintFault>, Fail> {
    let event = long_edit(alloc, count)?;
    let found = fault_of(alloc, &event);
    drop(event);
    found
}

fn check_lines(
    rt: &impl Abort,
    alloc: Global,
    history: &History,
    event: &Event,
    wanted: &str,
) -> Result<(), Fail> {
    if !has_encoding(event) {
        return Err("no encoding")?;
    }
    match line_of(alloc, Some(history), event) {
        Ok(lines) => {
            let expected = wanted.replace(alloc, ";", "\n")?;
            assert_eq!(rt; lines.as_slice(), expected.as_bytes(), "{wanted}");
        }
        Err(fault) => {
            let shown = format!(in alloc; "{fault:?}")?;
            assert_eq!(rt; shown.as_str(), wanted);
        }
    }
    Ok(())
}

fn check_event(rt: &impl Abort, alloc: Global, history: &History, line: &str) -> Result<(), Fail> {
    let (text, wanted) = cut(line, " = ");
    let digits = text.replace(alloc, " ", "")?;
    let bytes = hex::decode(alloc, digits.as_str())?;
    let event = decode_event(alloc, bytes.as_slice())?;
    let checked = check_lines(rt, alloc, history, &event, wanted);
    drop(event);
    checked
}

#[test]
fn events_have_their_lines(rt: HostRuntime) -> Result<(), Fail> {
    let alloc = rt.alloc();
    let history = History::new(alloc)?;
    for line in LINES.lines() {
        check_event(&rt, alloc, &history, line)?;
    }
    Ok(())
}

#[test]
fn a_script_holds_what_it_can_cut_again(rt: HostRuntime) -> Result<(), Fail> {
    let alloc = rt.alloc();
    for (kind, front, count, end, held) in TEXTS {
        let text = filled(alloc, front, count, end)?;
        let wanted = if held {
            None
        } else {
            Some(PrintFault::NotPrintable)
        };
        assert_eq!(&rt;
            fault_of_text(alloc, kind, text)?,
            wanted,
            "{kind} {front} {count}"
        );
    }
    Ok(())
}

#[test]
fn a_package_has_4194303_bytes_at_most(rt: HostRuntime) -> Result<(), Fail> {
    let alloc = rt.alloc();
    let last = fault_of_edit(alloc, 4194303 - PACKAGE_FRONT)?;
    assert_eq!(&rt; last, None);
    let next = fault_of_edit(alloc, 4194304 - PACKAGE_FRONT)?;
    assert_eq!(&rt; next, Some(PrintFault::TooLong));
    Ok(())
}
