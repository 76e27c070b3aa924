//! The script that is generated: a library whose books two workspaces make in turn.
ghost use Rattle.std.specs.Prelude.{◌≡◌, ◌++◌, ◌∷◌, [], ◌<◌, ◌≤◌, IfOk, OnOk, None, map, string_bytes};
ghost use Rattle.std.specs.Fmt.{decimal};
ghost use Rattle.script_items.specs.Generator.{without_block, opening, workspace_in, pages_in, create_text, title_text, pages_text, edits, exchange, round, generated, block_bytes, script_bytes};
ghost use Rattle.script_items.specs.Items.{script};
ghost use Rattle.script_items.specs.Words.{most_rounds};

use crate::item::Item;
use crate::line::push_count;
use std::alloc::{AllocError, Global};
use texts::{List, Text};

/// The most pages of a book.
const MOST_PAGES: u64 = 1000;

/// The metamodel of the script: libraries with books, their writers, and shelves.
const LIBRARY: &str =
    r#"{"eClass":"http://www.eclipse.org/emf/2002/Ecore#//EPackage","name":"lib","nsURI":"http://lib/1","nsPrefix":"lib","eClassifiers":[
{"eClass":"http://www.eclipse.org/emf/2002/Ecore#//EClass","name":"Library","eStructuralFeatures":[
{"eClass":"http://www.eclipse.org/emf/2002/Ecore#//EReference","name":"books","upperBound":-1,"containment":true,"eType":{"$ref":"//Book"},"eOpposite":{"$ref":"//Book/library"}}]},
{"eClass":"http://www.eclipse.org/emf/2002/Ecore#//EClass","name":"Book","eStructuralFeatures":[
{"eClass":"http://www.eclipse.org/emf/2002/Ecore#//EAttribute","name":"title","eType":{"$ref":"http://www.eclipse.org/emf/2002/Ecore#//EString"}},
{"eClass":"http://www.eclipse.org/emf/2002/Ecore#//EAttribute","name":"pages","eType":{"$ref":"http://www.eclipse.org/emf/2002/Ecore#//EInt"}},
{"eClass":"http://www.eclipse.org/emf/2002/Ecore#//EAttribute","name":"tags","upperBound":-1,"eType":{"$ref":"http://www.eclipse.org/emf/2002/Ecore#//EString"}},
{"eClass":"http://www.eclipse.org/emf/2002/Ecore#//EReference","name":"authors","upperBound":-1,"eType":{"$ref":"//Writer"},"eOpposite":{"$ref":"//Writer/books"}},
{"eClass":"http://www.eclipse.org/emf/2002/Ecore#//EReference","name":"sequel","eType":{"$ref":"//Book"},"eOpposite":{"$ref":"//Book/prequel"}},
{"eClass":"http://www.eclipse.org/emf/2002/Ecore#//EReference","name":"prequel","eType":{"$ref":"//Book"},"eOpposite":{"$ref":"//Book/sequel"}},
{"eClass":"http://www.eclipse.org/emf/2002/Ecore#//EReference","name":"library","eType":{"$ref":"//Library"},"eOpposite":{"$ref":"//Library/books"}}]},
{"eClass":"http://www.eclipse.org/emf/2002/Ecore#//EClass","name":"Writer","eStructuralFeatures":[
{"eClass":"http://www.eclipse.org/emf/2002/Ecore#//EAttribute","name":"name","eType":{"$ref":"http://www.eclipse.org/emf/2002/Ecore#//EString"}},
{"eClass":"http://www.eclipse.org/emf/2002/Ecore#//EReference","name":"books","upperBound":-1,"eType":{"$ref":"//Book"},"eOpposite":{"$ref":"//Book/authors"}},
{"eClass":"http://www.eclipse.org/emf/2002/Ecore#//EReference","name":"pair","upperBound":2,"eType":{"$ref":"//Writer"}}]},
{"eClass":"http://www.eclipse.org/emf/2002/Ecore#//EClass","name":"Shelf","eStructuralFeatures":[
{"eClass":"http://www.eclipse.org/emf/2002/Ecore#//EAttribute","name":"name","eType":{"$ref":"http://www.eclipse.org/emf/2002/Ecore#//EString"}},
{"eClass":"http://www.eclipse.org/emf/2002/Ecore#//EReference","name":"parts","upperBound":-1,"containment":true,"eType":{"$ref":"//Shelf"}}]}
]}
"#;

/// A line that takes no block, as an item at the end.
fn push(alloc: Global, items: &mut List<Item>, line: &str) -> Result<(), AllocError>
    ensures { OnOk result (items.new ≡ items.old ++ without_block line.now ∷ []) }
{
    items.push(Item::new(Text::new(alloc, line)?, None))
}

/// The items before the first round.
#[tactic(auto, using(crate::proofs::Library::library_same))]
fn opening(alloc: Global) -> Result<List<Item>, AllocError>
    ensures { IfOk result (λ items. items ≡ opening) }
{
    let mut items = List::new(alloc);
    let library = Text::new(alloc, LIBRARY)?;
    items.push(Item::new(Text::new(alloc, "init")?, Some(library)))?;
    push(alloc, &mut items, "checkout trunk")?;
    push(alloc, &mut items, "checkout trunk")?;
    push(alloc, &mut items, "create 1 Library / lib")?;
    push(alloc, &mut items, "commit 1 start")?;
    push(alloc, &mut items, "update 2")?;
    Ok(items)
}

/// The workspace that makes the book of a round.
fn workspace_in(seed: u64, k: u32) -> u64
    ensures workspace { result ≡ workspace_in seed k }
{
    1 + (k as u64 + seed % 2) % 2
}

/// How many pages the book of a round has.
fn pages_in(seed: u64, k: u32) -> u64
    ensures { result ≡ pages_in seed k }
{
    1 + (seed % MOST_PAGES * k as u64) % MOST_PAGES
}

/// A line that takes no block, as an item at the end.
fn push_line(alloc: Global, items: &mut List<Item>, line: String) -> Result<(), AllocError>
    ensures { OnOk result (items.new ≡ items.old ++ without_block (string_bytes line) ∷ []) }
{
    push(alloc, items, line.as_str())
}

fn create_line(alloc: Global, ws: u64, k: u32) -> Result<String, AllocError>
    ensures { IfOk result (λ line. string_bytes line ≡ create_text ws k) }
{
    let mut line = String::new(alloc);
    push_count(alloc, &mut line, "create ", ws)?;
    push_count(alloc, &mut line, " Book lib books b", k as u64)?;
    Ok(line)
}

fn title_line(alloc: Global, ws: u64, k: u32) -> Result<String, AllocError>
    ensures { IfOk result (λ line. string_bytes line ≡ title_text ws k) }
{
    let mut line = String::new(alloc);
    push_count(alloc, &mut line, "set ", ws)?;
    push_count(alloc, &mut line, " b", k as u64)?;
    push_count(alloc, &mut line, " title \"t", k as u64)?;
    line.push_str("\"")?;
    Ok(line)
}

fn pages_line(alloc: Global, ws: u64, k: u32, pages: u64) -> Result<String, AllocError>
    ensures { IfOk result (λ line. string_bytes line ≡ pages_text ws k pages) }
{
    let mut line = String::new(alloc);
    push_count(alloc, &mut line, "set ", ws)?;
    push_count(alloc, &mut line, " b", k as u64)?;
    push_count(alloc, &mut line, " pages ", pages)?;
    Ok(line)
}

/// The lines that each round has.
fn push_edits(alloc: Global, items: &mut List<Item>, seed: u64, k: u32) -> Result<(), AllocError>
    ensures { OnOk result (items.new ≡ items.old ++ map without_block (edits seed k)) }
{
    let ws = workspace_in(seed, k);
    let pages = pages_in(seed, k);
    let create = create_line(alloc, ws, k)?;
    push_line(alloc, items, create)?;
    let title = title_line(alloc, ws, k)?;
    push_line(alloc, items, title)?;
    let number = pages_line(alloc, ws, k, pages)?;
    push_line(alloc, items, number)?;
    Ok(())
}

/// A line of a word and a number, as an item at the end.
fn push_numbered(
    alloc: Global,
    items: &mut List<Item>,
    word: &str,
    k: u32,
) -> Result<(), AllocError>
    ensures { OnOk result (items.new ≡ items.old ++ without_block (word.now ++ decimal k) ∷ []) }
{
    let mut line = String::new(alloc);
    push_count(alloc, &mut line, word, k as u64)?;
    push_line(alloc, items, line)
}

/// The lines that each fourth round has besides.
fn push_exchange(alloc: Global, items: &mut List<Item>, k: u32) -> Result<(), AllocError>
    ensures { OnOk result (items.new ≡ items.old ++ map without_block (exchange k)) }
{
    push(alloc, items, "update 1")?;
    push_numbered(alloc, items, "commit 1 round ", k)?;
    push(alloc, items, "update 2")?;
    push_numbered(alloc, items, "commit 2 round ", k)?;
    Ok(())
}

/// The lines of a round.
fn push_round(alloc: Global, items: &mut List<Item>, seed: u64, k: u32) -> Result<(), AllocError>
    ensures { OnOk result (items.new ≡ items.old ++ map without_block (round seed k)) }
{
    push_edits(alloc, items, seed, k)?;
    if k % 4 == 0 {
        return push_exchange(alloc, items, k);
    }
    Ok(())
}

/// The items of the script.
pub fn generated(alloc: Global, seed: u64, count: u32) -> Result<List<Item>, AllocError>
    ensures { IfOk result (λ items. items ≡ generated seed count) }
{
    let mut items = opening(alloc)?;
    'rounds: for k in 0..count {
        push_round(alloc, &mut items, seed, k + 1)?;
    }
    Ok(items)
}

/// The bytes of an item at the end: its line, and its block with the line that ends it.
fn push_bytes(bytes: &mut Vec<u8>, item: &Item) -> Result<(), AllocError>
    ensures { OnOk result (bytes.new.items ≡ bytes.old.items ++ ((item.now.line ++ 10 ∷ []) ++ block_bytes item.now.block)) }
{
    bytes.extend_from_slice(item.line().as_bytes())?;
    bytes.push(b'\n')?;
    let Some(text) = item.block() else {
        return Ok(());
    };
    bytes.extend_from_slice(text.as_str().as_bytes())?;
    bytes.extend_from_slice(b".\n")
}

/// A script that fills an empty store, whatever the seed. Two workspaces make `count` books in turn. After each fourth
/// book each takes what the other committed, and commits its own.
pub fn generate(alloc: Global, seed: u64, count: u32) -> Result<Vec<u8>, AllocError>
    ensures bytes { IfOk result (λ bytes. bytes.items ≡ script_bytes (generated seed count)) }
    // As an input they are the script of the items that `--generate` answers.
    ensures script { IfOk result (λ bytes. count ≤ most_rounds → script bytes.items ≡ record { items = generated seed count; fault = None }) }
{
    let items = generated(alloc, seed, count)?;
    let mut bytes = Vec::new(alloc);
    'items: for item in items.as_slice() {
        push_bytes(&mut bytes, item)?;
    }
    Ok(bytes)
}
