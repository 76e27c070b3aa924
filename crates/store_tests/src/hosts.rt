//! Runs of both programs over hosts in memory.
use emf_top::{Status, run};
use host_port::{Host, MemoryHost};
use std::alloc::Global;
use std::test::Fail;
use tools_top::tools;

// A library has books; a book has a title, which it needs, a genre, pages, tags, authors, a sequel and a prequel.
pub(crate) const LIBRARY: &str =
    r#"{"eClass":"http://www.eclipse.org/emf/2002/Ecore#//EPackage","name":"lib","nsURI":"http://lib/1","nsPrefix":"lib","eClassifiers":[
{"eClass":"http://www.eclipse.org/emf/2002/Ecore#//EClass","name":"Library","eStructuralFeatures":[
{"eClass":"http://www.eclipse.org/emf/2002/Ecore#//EReference","name":"books","upperBound":-1,"containment":true,"eType":{"$ref":"//Book"},"eOpposite":{"$ref":"//Book/library"}}]},
{"eClass":"http://www.eclipse.org/emf/2002/Ecore#//EClass","name":"Book","eStructuralFeatures":[
{"eClass":"http://www.eclipse.org/emf/2002/Ecore#//EAttribute","name":"title","lowerBound":1,"eType":{"$ref":"http://www.eclipse.org/emf/2002/Ecore#//EString"}},
{"eClass":"http://www.eclipse.org/emf/2002/Ecore#//EAttribute","name":"genre","eType":{"$ref":"//Genre"}},
{"eClass":"http://www.eclipse.org/emf/2002/Ecore#//EAttribute","name":"pages","eType":{"$ref":"http://www.eclipse.org/emf/2002/Ecore#//EInt"}},
{"eClass":"http://www.eclipse.org/emf/2002/Ecore#//EAttribute","name":"tags","upperBound":-1,"eType":{"$ref":"http://www.eclipse.org/emf/2002/Ecore#//EString"}},
{"eClass":"http://www.eclipse.org/emf/2002/Ecore#//EReference","name":"authors","upperBound":-1,"eType":{"$ref":"//Writer"},"eOpposite":{"$ref":"//Writer/books"}},
{"eClass":"http://www.eclipse.org/emf/2002/Ecore#//EReference","name":"sequel","eType":{"$ref":"//Book"},"eOpposite":{"$ref":"//Book/prequel"}},
{"eClass":"http://www.eclipse.org/emf/2002/Ecore#//EReference","name":"prequel","eType":{"$ref":"//Book"},"eOpposite":{"$ref":"//Book/sequel"}},
{"eClass":"http://www.eclipse.org/emf/2002/Ecore#//EReference","name":"library","eType":{"$ref":"//Library"},"eOpposite":{"$ref":"//Library/books"}}]},
{"eClass":"http://www.eclipse.org/emf/2002/Ecore#//EClass","name":"Writer","eStructuralFeatures":[
{"eClass":"http://www.eclipse.org/emf/2002/Ecore#//EAttribute","name":"name","eType":{"$ref":"http://www.eclipse.org/emf/2002/Ecore#//EString"}},
{"eClass":"http://www.eclipse.org/emf/2002/Ecore#//EReference","name":"books","upperBound":-1,"eType":{"$ref":"//Book"},"eOpposite":{"$ref":"//Book/authors"}},
{"eClass":"http://www.eclipse.org/emf/2002/Ecore#//EReference","name":"pair","upperBound":2,"eType":{"$ref":"//Writer"}}]},
{"eClass":"http://www.eclipse.org/emf/2002/Ecore#//EClass","name":"Shelf","eStructuralFeatures":[
{"eClass":"http://www.eclipse.org/emf/2002/Ecore#//EAttribute","name":"name","eType":{"$ref":"http://www.eclipse.org/emf/2002/Ecore#//EString"}},
{"eClass":"http://www.eclipse.org/emf/2002/Ecore#//EReference","name":"parts","upperBound":-1,"containment":true,"eType":{"$ref":"//Shelf"}}]},
{"eClass":"http://www.eclipse.org/emf/2002/Ecore#//EEnum","name":"Genre","eLiterals":[{"name":"novel"},{"name":"essay","value":1}]}]}
"#;

// The script that begins a project of the library, and then these lines.
pub(crate) fn beginning(alloc: Global, lines: &str) -> Result<Vec<u8>, Fail> {
    let script = format!(in alloc; "init\n{LIBRARY}.\ncheckout 0\n{lines}")?;
    Ok(script.into_bytes())
}

pub(crate) fn over(alloc: Global, input: Vec<u8>, file: Vec<u8>) -> MemoryHost {
    MemoryHost::new(alloc, input, 4096, file, Vec::new(alloc))
}

pub(crate) fn serve<H: Host>(alloc: Global, host: &mut H) -> Status {
    let words = Vec::new(alloc);
    run(alloc, words.as_slice(), host)
}

// The words between single spaces.
fn listed(alloc: Global, words: &str) -> Result<Vec<String>, Fail> {
    let mut list = Vec::new(alloc);
    for word in words.split(' ') {
        list.push(String::from_str(alloc, word)?)?;
    }
    Ok(list)
}

// How a run of the first program with these words ends.
pub(crate) fn asked<H: Host>(alloc: Global, words: &str, host: &mut H) -> Result<Status, Fail> {
    let list = listed(alloc, words)?;
    Ok(run(alloc, list.as_slice(), host))
}

// How a run of the second program with these words ends.
pub(crate) fn tools_asked<H: Host>(
    alloc: Global,
    words: &str,
    host: &mut H,
) -> Result<Status, Fail> {
    let list = listed(alloc, words)?;
    Ok(tools(alloc, list.as_slice(), host))
}
