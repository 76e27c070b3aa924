//! The indexes of a document's elements, by id and by place, in which references are looked up.
ghost use Rattle.std.specs.Prelude.{◌≡◌, ◌++◌, ◌∷◌, [], IfOk, OnErr, OnOk, Some, None, cond, false};
ghost use Rattle.std.specs.BTreeMap.{get_by_text};
ghost use Rattle.finite_maps.specs.Equal.{option_eq, text_eq};
ghost use Rattle.model_state.specs.Keys.{IdBytes};
ghost use Rattle.model_documents.specs.declared.doc.DocParent.{DocParent};
ghost use Rattle.model_documents.specs.Finder.{ChildrenOf, NamesOf, first_of, numbers_at};
ghost use Rattle.model_documents.specs.Places.{child_at, class_at, named, numbers_where, parent_eq, stands_in};

use model_documents::{DocParent, ElementDraft};
use model_state::Id;
use std::alloc::{AllocError, Global};
use std::collections::BTreeMap;
use std::marker::Model;
use texts::List;

/// The elements of a document, which are soon found by an id and by a place.
#[derive(Drop)]
pub struct Finder<'a> {
    rows: &'a [ElementDraft],
    names: BTreeMap<String, usize>,
    children: BTreeMap<(usize, u32), List<usize>>,
    roots: List<usize>,
}

impl<'a> Model for Finder<'a> {
    ghost use Rattle.std.specs.Prelude.{List};
    ghost use Rattle.model_documents.specs.declared.draft.ElementDraft.{ElementDraft};
    ghost use Rattle.model_documents.specs.Finder.{Finds};

    ghost Value = { List ElementDraft };

    ghost view = { λ a. a.rows.now };

    ghost invariant = { λ a. Finds a.rows.now a.names a.children a.roots };
}

impl<'a> Finder<'a> {
    /// Makes the maps that the elements are found by, from all of them. The error is out of memory.
    pub fn new(alloc: Global, rows: &'a [ElementDraft]) -> Result<Finder<'a>, AllocError>
        ensures { IfOk result (λ finder. finder ≡ rows.now) }
    {
        let names = names_of(alloc, rows)?;
        let children = children_of(alloc, rows)?;
        let roots = roots_of(alloc, rows)?;
        Ok(Finder {
            rows,
            names,
            children,
            roots,
        })
    }

    /// The element of that id.
    pub fn named(&self, id: &str) -> Option<usize>
        ensures { result ≡ named self.now id.now }
    {
        self.names.get(id).copied()
    }

    /// The element of that index inside an element.
    fn child_at(&self, place: DocParent, index: u32) -> Option<usize>
        ensures { result ≡ child_at self.now (Some place) index }
    {
        match self.children.get(&(place.row, place.feature)) {
            None => None,
            Some(numbers) => numbers.get(index as usize).copied(),
        }
    }

    /// The root of that index.
    fn root_at(&self, index: u32) -> Option<usize>
        ensures { result ≡ child_at self.now None index }
    {
        self.roots.get(index as usize).copied()
    }

    /// The class of a row.
    pub fn class_at(&self, row: usize) -> u32
        ensures { result ≡ class_at self.now row }
    {
        match self.rows.get(row) {
            None => 0,
            Some(row) => row.class,
        }
    }
}

/// The element of that index in a place; no parent is the root.
pub fn child_at(rows: &Finder, place: Option<DocParent>, index: u32) -> Option<usize>
    ensures { result ≡ child_at rows.now place index }
{
    match place {
        None => rows.root_at(index),
        Some(place) => rows.child_at(place, index),
    }
}

/// The number of a row is added for its id, unless a row before has it.
pub(crate) fn add_name(
    alloc: Global,
    names: &mut BTreeMap<String, usize>,
    n: usize,
    id: &Option<Id>,
) -> Result<(), AllocError>
    ensures found { OnOk result ((t : IdBytes) → get_by_text names.new t ≡ first_of (get_by_text names.old t) (cond (option_eq text_eq id.now (Some t)) (Some n) None)) }
    ensures kept { OnErr result ((t : IdBytes) → get_by_text names.new t ≡ get_by_text names.old t) }
{
    match id {
        None => {}
        Some(id) => {
            if !names.contains_key(id.as_str()) {
                let key = String::from_str(alloc, id.as_str())?;
                names.insert(key, n)?;
            }
        }
    }
    Ok(())
}

/// The number of the first row of each id.
fn names_of(alloc: Global, rows: &[ElementDraft]) -> Result<BTreeMap<String, usize>, AllocError>
    ensures { IfOk result (NamesOf rows.now) }
{
    let mut names = BTreeMap::new(alloc);
    for (n, row) in rows.iter().enumerate() {
        add_name(alloc, &mut names, n, &row.id)?;
    }
    Ok(names)
}

/// The numbers in a place, which are taken out.
pub fn take_numbers(
    alloc: Global,
    children: &mut BTreeMap<(usize, u32), List<usize>>,
    place: DocParent,
) -> List<usize>
    ensures numbers { result ≡ numbers_at children.old place }
    ensures others { (q : DocParent) → parent_eq place q ≡ false → numbers_at children.new q ≡ numbers_at children.old q }
{
    match children.remove(&(place.row, place.feature)) {
        None => List::new(alloc),
        Some(numbers) => numbers,
    }
}

/// The number of a row is added to the others in its place, if that is not the root.
fn add_child(
    alloc: Global,
    children: &mut BTreeMap<(usize, u32), List<usize>>,
    n: usize,
    parent: Option<DocParent>,
) -> Result<(), AllocError>
    ensures { OnOk result ((q : DocParent) → numbers_at children.new q ≡ numbers_at children.old q ++ cond (option_eq parent_eq parent (Some q)) (n ∷ []) []) }
{
    match parent {
        None => {}
        Some(place) => {
            let mut numbers = take_numbers(alloc, children, place);
            numbers.push(n)?;
            children.insert((place.row, place.feature), numbers)?;
        }
    }
    Ok(())
}

/// The numbers of the rows in each place but the root.
fn children_of(
    alloc: Global,
    rows: &[ElementDraft],
) -> Result<BTreeMap<(usize, u32), List<usize>>, AllocError>
    ensures { IfOk result (ChildrenOf rows.now) }
{
    let mut children = BTreeMap::new(alloc);
    for (n, row) in rows.iter().enumerate() {
        add_child(alloc, &mut children, n, row.parent)?;
    }
    Ok(children)
}

/// The number of a row is added to the others at the root, if it stands there.
fn add_root(roots: &mut List<usize>, n: usize, parent: Option<DocParent>) -> Result<(), AllocError>
    ensures { OnOk result (roots.new ≡ roots.old ++ cond (option_eq parent_eq parent None) (n ∷ []) []) }
{
    match parent {
        None => {
            roots.push(n)?;
        }
        Some(_) => {}
    }
    Ok(())
}

/// The numbers of the rows at the root.
fn roots_of(alloc: Global, rows: &[ElementDraft]) -> Result<List<usize>, AllocError>
    ensures { IfOk result (λ roots. roots ≡ numbers_where (stands_in None) 0 rows.now) }
{
    let mut roots = List::new(alloc);
    for (n, row) in rows.iter().enumerate() {
        add_root(&mut roots, n, row.parent)?;
    }
    Ok(roots)
}
