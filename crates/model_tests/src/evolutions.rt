//! Metamodels that evolve: the first part that a changed document lacks, by its name, and the numbers that are kept.

use crate::metamodels::{document, metamodel, read};
use crate::reading::cut;
use ecore_meta::Metamodel;
use metamodel_growth::{EvolveFault, evolve, is_same};
use std::alloc::Global;
use std::process::Abort;
use std::test::Fail;

// What comes of changes of the document `parts`: the first part that is lacking, in the order of parts, or nothing.
// First come changes of one part each, then of two parts, of which the first in that order is named.
const CHANGES: &str = r##"the same <- "name":"parts","nsURI" => "name":"other","nsURI"
nsURI <- http://parts/1 => http://parts/2
Named <- "name":"Named" => "name":"Titled" & //Named => //Titled
Named <- "abstract":true => "abstract":false
Part <- "name":"Part","eSuperTypes":[{"$ref":"//Named"}] => "name":"Part"
Tool <- "eSuperTypes":[{"$ref":"//Part"}] => "eSuperTypes":[{"$ref":"//Named"}]
the same <- "eSuperTypes":[{"$ref":"//Part"}] => "eSuperTypes":[{"$ref":"//Part"},{"$ref":"//Named"}]
evolves <- "name":"Tool" => "name":"Blade" & {"eClass":"E#//EEnum","name":"Size" => {"eClass":"E#//EClass","name":"Tool","eSuperTypes":[{"$ref":"//Blade"}]},{"eClass":"E#//EEnum","name":"Size"
evolves <- "abstract":true => "abstract":true,"eSuperTypes":[{"$ref":"//Root"}] & {"eClass":"E#//EEnum","name":"Size" => {"eClass":"E#//EClass","name":"Root"},{"eClass":"E#//EEnum","name":"Size"
Size <- "name":"Size" => "name":"Extent" & //Size => //Extent
Size <- {"name":"small"},{"name":"large","value":1,"literal":"L"} => {"name":"large","value":1,"literal":"L"},{"name":"small"}
Size <- "name":"large" => "name":"big"
Size <- "literal":"L" => "literal":"XL"
Mood <- {"name":"good"},{"name":"bad","value":1} => {"name":"good"}
the same <- "name":"bad","value":1 => "name":"bad","value":7
evolves <- {"name":"bad","value":1} => {"name":"bad","value":1},{"name":"odd"}
Named.name <- "name":"name" => "name":"label"
Part.size <- "name":"size" => "name":"extent" & "eClass":"E#//EAttribute","name":"name" => "eClass":"E#//EAttribute","name":"size","eType":{"$ref":"//Size"}},{"eClass":"E#//EAttribute","name":"name"
Named.name <- "lowerBound":1 => "lowerBound":0
Part.marks <- "upperBound":3 => "upperBound":4
Part.fits <- "upperBound":2 => "upperBound":-1
Named.name <- "defaultValueLiteral":"new" => "defaultValueLiteral":"old"
Named.name <- {"$ref":"E#//EString"},"defaultValueLiteral":"new" => {"$ref":"E#//EString"}
Part.size <- "eType":{"$ref":"//Size"} => "eType":{"$ref":"//Mood"}
Part.size <- "name":"size" => "name":"size","upperBound":2
Part.marks <- "unique":false => "unique":true
Part.marks <- "unique":false,"eType":{"$ref":"E#//EInt"} => "unique":false,"eType":{"$ref":"E#//ELong"}
Part.parts <- "name":"whole" => "name":"outer" & //Part/whole => //Part/outer
Part.parts <- {"$ref":"//Part"},"eOpposite":{"$ref":"//Part/whole"} => {"$ref":"//Part"} & {"$ref":"//Part"},"eOpposite":{"$ref":"//Part/parts"} => {"$ref":"//Part"}
Part.parts <- "containment":true => "containment":false
Part.fits <- "name":"fits","upperBound":2,"eType":{"$ref":"//Part"} => "name":"fits","upperBound":2,"eType":{"$ref":"//Tool"}
Part.near <- "upperBound":-1,"eType":{"$ref":"//Named"} => "upperBound":-1,"eType":{"$ref":"//Part"}
Part.near <- "upperBound":-1,"eType":{"$ref":"//Named"} => "upperBound":-1,"containment":true,"eType":{"$ref":"//Named"}
Part.weight <- "derived":true => "derived":false
evolves <- "name":"size" => "name":"age","eType":{"$ref":"E#//EInt"}},{"eClass":"E#//EAttribute","name":"size"
nsURI <- http://parts/1 => http://parts/2 & "abstract":true => "abstract":false
Named <- "abstract":true => "abstract":false & "name":"Tool" => "name":"Saw"
Tool <- "name":"Tool" => "name":"Saw" & "literal":"L" => "literal":"XL"
Size <- "literal":"L" => "literal":"XL" & "name":"good" => "name":"glad"
Mood <- "name":"good" => "name":"glad" & "lowerBound":1 => "lowerBound":0
Part.marks <- "upperBound":3 => "upperBound":4 & "upperBound":2 => "upperBound":-1"##;

// The first part of one metamodel that another lacks. Where it lacks none: whether it then is the same.
fn outcome(alloc: Global, old: &Metamodel, next: Metamodel) -> Result<String, Fail> {
    match evolve(alloc, old, next) {
        Ok(evolved) => {
            let word = if is_same(old, &evolved) {
                "the same"
            } else {
                "evolves"
            };
            Ok(String::from_str(alloc, word)?)
        }
        Err(EvolveFault::NotExtension { name }) => Ok(String::from_str(alloc, name.as_str())?),
        Err(EvolveFault::Memory) => Err("out of memory")?,
    }
}

// The metamodel of a document with changes, each of the form `TEXT => ANOTHER`.
fn changed(alloc: Global, document: &str, changes: &str) -> Result<Metamodel, Fail> {
    let mut text = String::from_str(alloc, document)?;
    for change in changes.split(" & ") {
        let (from, to) = cut(change, " => ");
        text = text.replace(alloc, from, to)?;
    }
    read(alloc, text.as_str())
}

// What comes of changes of a document.
fn outcome_of(alloc: Global, document: &str, changes: &str) -> Result<String, Fail> {
    let old = read(alloc, document)?;
    let next = changed(alloc, document, changes)?;
    outcome(alloc, &old, next)
}

fn check_change(rt: &impl Abort, alloc: Global, document: &str, line: &str) -> Result<(), Fail> {
    let (wanted, changes) = cut(line, " <- ");
    let found = outcome_of(alloc, document, changes)?;
    assert_eq!(rt; found.as_str(), wanted, "{line}");
    Ok(())
}

fn check_changes(rt: &impl Abort, alloc: Global, document: &str, lines: &str) -> Result<(), Fail> {
    for line in lines.lines() {
        check_change(rt, alloc, document, line)?;
    }
    Ok(())
}

#[test]
fn the_first_missing_part_is_named(rt: HostRuntime) -> Result<(), Fail> {
    check_changes(&rt, rt.alloc(), document("parts")?, CHANGES)
}

fn push_name(names: &mut String, name: &str) -> Result<(), Fail> {
    names.push_str(name)?;
    names.push_str(" ")?;
    Ok(())
}

fn push_class_names(meta: &Metamodel, names: &mut String) -> Result<(), Fail> {
    for c in 0..meta.class_count() {
        if let Some(class) = meta.get_class(c) {
            push_name(names, class.name.as_str())?;
        }
    }
    Ok(())
}

fn push_feature_names(meta: &Metamodel, names: &mut String) -> Result<(), Fail> {
    for f in 0..meta.feature_count() {
        if let Some(feature) = meta.get_feature(f) {
            push_name(names, feature.name.as_str())?;
        }
    }
    Ok(())
}

// The names of all classes and then of all features, each by number.
fn names(alloc: Global, meta: &Metamodel) -> Result<String, Fail> {
    let mut names = String::new(alloc);
    push_class_names(meta, &mut names)?;
    push_feature_names(meta, &mut names)?;
    Ok(names)
}

// Two attributes before the others of Book, the first of an enum that comes with them, and a class before all others.
const GROWTH: &str =
    r##""name":"title" => "name":"genre","eType":{"$ref":"//Genre"}},{"eClass":"E#//EAttribute","name":"isbn","eType":{"$ref":"E#//EString"}},{"eClass":"E#//EAttribute","name":"title" & {"eClass":"E#//EClass","name":"Library" => {"eClass":"E#//EEnum","name":"Genre","eLiterals":[{"name":"novel"},{"name":"essay","value":1}]},{"eClass":"E#//EClass","name":"Town"},{"eClass":"E#//EClass","name":"Library""##;

// The names that come of it: what is new comes last.
const NAMES: &str =
    "Library Book Writer Shelf Town books title pages tags authors sequel prequel library name books pair name parts top genre isbn ";

// What a metamodel evolves to by the document `library` with what is new.
fn grown(alloc: Global, old: &Metamodel) -> Result<Metamodel, Fail> {
    let next = changed(alloc, document("library")?, GROWTH)?;
    let evolved = evolve(alloc, old, next)?;
    Ok(evolved)
}

fn check_names(rt: &impl Abort, alloc: Global, evolved: &Metamodel) -> Result<(), Fail> {
    let names = names(alloc, evolved)?;
    assert_eq!(rt; names.as_str(), NAMES);
    Ok(())
}

// Whether a metamodel that evolved to another stays the same when it does so again.
fn stays(alloc: Global, evolved: &Metamodel) -> Result<bool, Fail> {
    let again = grown(alloc, evolved)?;
    Ok(is_same(evolved, &again))
}

#[test]
fn numbers_are_kept(rt: HostRuntime) -> Result<(), Fail> {
    let old = metamodel(rt.alloc(), "library")?;
    let evolved = grown(rt.alloc(), &old)?;
    drop(old);
    check_names(&rt, rt.alloc(), &evolved)?;
    let stays = stays(rt.alloc(), &evolved)?;
    assert!(rt; stays);
    Ok(())
}

// Changes of the document `library`, in the form of the others.
const LIBRARY: &str = r##"the same <- "nsPrefix":"lib" => "nsPrefix":"l"
Book.title <- "name":"title","eType":{"$ref":"E#//EString"} => "name":"title","eType":{"$ref":"E#//EInt"}
Shelf <- "name":"Shelf" => "name":"Rack" & //Shelf => //Rack"##;

#[test]
fn a_library_evolves_by_names(rt: HostRuntime) -> Result<(), Fail> {
    check_changes(&rt, rt.alloc(), document("library")?, LIBRARY)
}
