//! What `emftools` answers with ample memory, over a store that a script makes.
use crate::hosts::{over, serve, tools_asked};
use std::alloc::Global;
use std::process::Abort;
use std::test::Fail;

// A book, and on another branch its page count.
const SCRIPT: &str = r#"init
{"eClass":"http://www.eclipse.org/emf/2002/Ecore#//EPackage","name":"lib","nsURI":"http://lib/1","nsPrefix":"lib","eClassifiers":[
{"eClass":"http://www.eclipse.org/emf/2002/Ecore#//EClass","name":"Book","eStructuralFeatures":[
{"eClass":"http://www.eclipse.org/emf/2002/Ecore#//EAttribute","name":"title","eType":{"$ref":"http://www.eclipse.org/emf/2002/Ecore#//EString"}},
{"eClass":"http://www.eclipse.org/emf/2002/Ecore#//EAttribute","name":"pages","eType":{"$ref":"http://www.eclipse.org/emf/2002/Ecore#//EInt"}}]}
]}
.
checkout 0
create 1 Book / b
set 1 b title "Emma"
commit 1 title
branch 1 dev
set 1 b pages 474
commit 1 pages
checkout trunk
set 2 b title "Persuasion"
commit 2 other title
"#;

// The words of a run and its input, and then what is said, `|` for each end of a line, and the status.
const ROWS: &str = "query trunk b Book title <  > ok 3| 0
query dev b Book title <  > ok 1| 0
query dev b Book pages <  > ok 2| 0
query trunk b Book pages <  > ok -| 0
query trunk b Shelf pages <  > no 13 NoClass| 1
blame trunk b <  > Book.title 3|ok| 0
blame dev b <  > Book.title 1|Book.pages 2|ok| 0
blame @none b <  > no 6 NoVersion| 1
blame trunk <  >  2
guard bob bob:writer@dev < set 2 b pages 1|set 1 b pages 475|tag t 0|fly| > no 41 Denied 4|ok|no 41 Denied 3|no 1 BadLine 1| 1
guard ann ann:admin < tag t 0| > ok| 0
guard ann bob:admin < show 1| > no 41 Denied 0| 1
guard ann ann:all < show 1| >  2
serve ann:all < ann 4|log| >  2
serve bob:writer@dev,ann:admin < bob 12|tag t 0|fly|ann 8|tag t 0| > no 41 Denied 3|no 1 BadLine 1||ok|| 1
serve ann:admin < ann 7|load 1|ann 8|tag t 0| > no 44 BadFrame 4 7||ok|| 1
serve ann:admin < ann 10|load 1|0.|ann 8|tag t 0| > no 44 BadFrame 4 10||ok|| 1
serve ann:admin < ann 8|tag t 0|ann 4|log > ok|| 8
serve ann:admin <  4|log| >  8
serve ann:admin < ann 16777217|log| >  8";

// The file that a script makes.
fn store(rt: &impl Abort, alloc: Global, script: &[u8]) -> Result<Vec<u8>, Fail> {
    let mut host = over(alloc, script.to_vec(alloc)?, Vec::new(alloc));
    assert_eq!(rt; serve(alloc, &mut host).code(), 0);
    Ok(host.file().to_vec(alloc)?)
}

// What stands before the mark and after it.
fn cut<'a>(text: &'a str, mark: &str) -> (&'a str, &'a str) {
    match text.split_once(mark) {
        Some(parts) => parts,
        None => (text, ""),
    }
}

fn check_run(
    rt: &impl Abort,
    alloc: Global,
    file: Vec<u8>,
    run: &str,
    wanted: &str,
) -> Result<(), Fail> {
    let (words, input) = cut(run, " < ");
    let input = input.replace(alloc, "|", "\n")?;
    let mut host = over(alloc, input.into_bytes(), file);
    let status = tools_asked(alloc, words, &mut host)?.code();
    let said = std::str::from_utf8(host.said())?.replace(alloc, "\n", "|")?;
    let found = format!(in alloc; "{said} {status}")?;
    assert_eq!(rt; found.as_str(), wanted, "{run}");
    Ok(())
}

#[test]
fn each_row_is_answered(rt: HostRuntime) -> Result<(), Fail> {
    let alloc = rt.alloc();
    let file = store(&rt, alloc, SCRIPT.as_bytes())?;
    for row in ROWS.lines() {
        let (run, wanted) = cut(row, " > ");
        check_run(&rt, alloc, file.clone()?, run, wanted)?;
    }
    Ok(())
}

// The lines of the script again that name a command.
const COMMANDS: &str =
    "init|checkout 0|load 1|load 1|commit 1 title|branch 1 dev|load 1|commit 1 pages|checkout 1|load 2|commit 2 other title|";

// Whether a line is one of a block.
fn is_in_block(line: &str) -> bool {
    line == "." || line.starts_with("{") || line.starts_with("]") || line.starts_with("0")
}

fn commands(alloc: Global, script: &str) -> Result<String, Fail> {
    let mut commands = String::new(alloc);
    for line in script.lines() {
        if !is_in_block(line) {
            commands.push_str(line)?;
            commands.push_str("|")?;
        }
    }
    Ok(commands)
}

#[test]
fn a_store_is_printed_as_the_script_that_makes_it_again(rt: HostRuntime) -> Result<(), Fail> {
    let alloc = rt.alloc();
    let file = store(&rt, alloc, SCRIPT.as_bytes())?;
    let mut host = over(alloc, Vec::new(alloc), file.clone()?);
    assert_eq!(rt; tools_asked(alloc, "replay", &mut host)?.code(), 0);
    let script = std::str::from_utf8(host.said())?;
    assert_eq!(rt; commands(alloc, script)?.as_str(), COMMANDS);
    let again = store(&rt, alloc, host.said())?;
    assert!(rt; again.as_slice() == file.as_slice());
    Ok(())
}
