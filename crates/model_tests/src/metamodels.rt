//! The metamodels of the tests, and the numbers of their classes and features, by which steps name them.
//!
//! boxes: class 0 is Box, with features 0 to 8. They are 0 label, 1 size, 2 tags, two at most, 3 sizes, which may
//! repeat, and 4 inner, two at most. Then 5 next, 6 back, 7 pair, two at most, and 8 friends. Class 1 is Lid, of
//! another type; 2 is Thing, which is abstract.
//!
//! library: classes 0 Library, 1 Book, 2 Writer, 3 Shelf. Features: 0 Library.books, 1 title, 2 pages, 3 tags, 4
//! authors, 5 sequel, 6 prequel, 7 library. Then 8 Writer.name, 9 Writer.books, 10 pair, 11 Shelf.name, 12 parts, 13
//! top, which is one.
//!
//! parts: classes 0 Named, which is abstract, 1 Part and 2 Tool; enums 0 Size and 1 Mood; a feature of each kind.
ghost use Rattle.std.specs.Prelude.{IfOk};
ghost use Rattle.ecore_meta.specs.Sound.{Sound};

use crate::reading::cut;
use ecore_json::read_metamodel;
use ecore_meta::Metamodel;
use std::alloc::Global;
use std::test::Fail;

// Each after its name, with an empty line between them. `E#` stands for Ecore's own namespace.
const METAMODELS: &str = r##"boxes
{"eClass":"E#//EPackage","name":"boxes","nsURI":"http://boxes/1","eClassifiers":[
{"eClass":"E#//EClass","name":"Box","eStructuralFeatures":[
{"eClass":"E#//EAttribute","name":"label","eType":{"$ref":"E#//EString"}},
{"eClass":"E#//EAttribute","name":"size","eType":{"$ref":"E#//EInt"}},
{"eClass":"E#//EAttribute","name":"tags","upperBound":2,"eType":{"$ref":"E#//EString"}},
{"eClass":"E#//EAttribute","name":"sizes","upperBound":-1,"unique":false,"eType":{"$ref":"E#//EInt"}},
{"eClass":"E#//EReference","name":"inner","upperBound":2,"containment":true,"eType":{"$ref":"//Box"}},
{"eClass":"E#//EReference","name":"next","eType":{"$ref":"//Box"},"eOpposite":{"$ref":"//Box/back"}},
{"eClass":"E#//EReference","name":"back","eType":{"$ref":"//Box"},"eOpposite":{"$ref":"//Box/next"}},
{"eClass":"E#//EReference","name":"pair","upperBound":2,"eType":{"$ref":"//Box"}},
{"eClass":"E#//EReference","name":"friends","upperBound":-1,"eType":{"$ref":"//Box"}}]},
{"eClass":"E#//EClass","name":"Lid"},
{"eClass":"E#//EClass","name":"Thing","abstract":true}
]}

library
{"eClass":"E#//EPackage","name":"lib","nsURI":"http://lib/1","nsPrefix":"lib","eClassifiers":[
{"eClass":"E#//EClass","name":"Library","eStructuralFeatures":[
{"eClass":"E#//EReference","name":"books","upperBound":-1,"containment":true,"eType":{"$ref":"//Book"},"eOpposite":{"$ref":"//Book/library"}}]},
{"eClass":"E#//EClass","name":"Book","eStructuralFeatures":[
{"eClass":"E#//EAttribute","name":"title","eType":{"$ref":"E#//EString"}},
{"eClass":"E#//EAttribute","name":"pages","eType":{"$ref":"E#//EInt"}},
{"eClass":"E#//EAttribute","name":"tags","upperBound":-1,"eType":{"$ref":"E#//EString"}},
{"eClass":"E#//EReference","name":"authors","upperBound":-1,"eType":{"$ref":"//Writer"},"eOpposite":{"$ref":"//Writer/books"}},
{"eClass":"E#//EReference","name":"sequel","eType":{"$ref":"//Book"},"eOpposite":{"$ref":"//Book/prequel"}},
{"eClass":"E#//EReference","name":"prequel","eType":{"$ref":"//Book"},"eOpposite":{"$ref":"//Book/sequel"}},
{"eClass":"E#//EReference","name":"library","eType":{"$ref":"//Library"},"eOpposite":{"$ref":"//Library/books"}}]},
{"eClass":"E#//EClass","name":"Writer","eStructuralFeatures":[
{"eClass":"E#//EAttribute","name":"name","eType":{"$ref":"E#//EString"}},
{"eClass":"E#//EReference","name":"books","upperBound":-1,"eType":{"$ref":"//Book"},"eOpposite":{"$ref":"//Book/authors"}},
{"eClass":"E#//EReference","name":"pair","upperBound":2,"eType":{"$ref":"//Writer"}}]},
{"eClass":"E#//EClass","name":"Shelf","eStructuralFeatures":[
{"eClass":"E#//EAttribute","name":"name","eType":{"$ref":"E#//EString"}},
{"eClass":"E#//EReference","name":"parts","upperBound":-1,"containment":true,"eType":{"$ref":"//Shelf"}},
{"eClass":"E#//EReference","name":"top","containment":true,"eType":{"$ref":"//Shelf"}}]}
]}

parts
{"eClass":"E#//EPackage","name":"parts","nsURI":"http://parts/1","eClassifiers":[
{"eClass":"E#//EClass","name":"Named","abstract":true,"eStructuralFeatures":[
{"eClass":"E#//EAttribute","name":"name","lowerBound":1,"eType":{"$ref":"E#//EString"},"defaultValueLiteral":"new"}]},
{"eClass":"E#//EClass","name":"Part","eSuperTypes":[{"$ref":"//Named"}],"eStructuralFeatures":[
{"eClass":"E#//EAttribute","name":"size","eType":{"$ref":"//Size"}},
{"eClass":"E#//EAttribute","name":"marks","upperBound":3,"unique":false,"eType":{"$ref":"E#//EInt"}},
{"eClass":"E#//EReference","name":"parts","upperBound":-1,"containment":true,"eType":{"$ref":"//Part"},"eOpposite":{"$ref":"//Part/whole"}},
{"eClass":"E#//EReference","name":"whole","eType":{"$ref":"//Part"},"eOpposite":{"$ref":"//Part/parts"}},
{"eClass":"E#//EReference","name":"fits","upperBound":2,"eType":{"$ref":"//Part"}},
{"eClass":"E#//EReference","name":"near","upperBound":-1,"eType":{"$ref":"//Named"}},
{"eClass":"E#//EAttribute","name":"weight","derived":true,"eType":{"$ref":"E#//EInt"}}]},
{"eClass":"E#//EClass","name":"Tool","eSuperTypes":[{"$ref":"//Part"}]},
{"eClass":"E#//EEnum","name":"Size","eLiterals":[{"name":"small"},{"name":"large","value":1,"literal":"L"}]},
{"eClass":"E#//EEnum","name":"Mood","eLiterals":[{"name":"good"},{"name":"bad","value":1}]}
]}"##;

// The text after its name, among parts that have an empty line between them.
fn named(all: &'static str, name: &str) -> Result<&'static str, Fail> {
    for part in all.split("\n\n") {
        let (first, text) = cut(part, "\n");
        if first == name {
            return Ok(text);
        }
    }
    Err("no such metamodel")?
}

// The metamodel that a document gives, in which `E#` stands for Ecore's own namespace.
pub(crate) fn read(alloc: Global, document: &str) -> Result<Metamodel, Fail>
    ensures { IfOk result Sound }
{
    let text = document.replace(alloc, "E#", "http://www.eclipse.org/emf/2002/Ecore#")?;
    if text.len() >= 4_294_967_295 {
        return Err("a long text")?;
    }
    let meta = read_metamodel(alloc, text.as_str())?;
    meta.recall_soundness();
    Ok(meta)
}

// The document of that name.
pub(crate) fn document(name: &str) -> Result<&'static str, Fail> {
    named(METAMODELS, name)
}

pub(crate) fn metamodel(alloc: Global, name: &str) -> Result<Metamodel, Fail>
    ensures { IfOk result Sound }
{
    read(alloc, document(name)?)
}
