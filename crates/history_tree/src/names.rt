//! The numbers of the names of a list that grows.
ghost use Rattle.std.specs.Prelude.{◌≡◌, ◌+◌, ◌<◌, OnOk, OnErr, None, Some, cond};
ghost use Rattle.std.specs.BTreeMap.{get_by_text};
ghost use Rattle.std.specs.Str.{bytes_eq};
ghost use Rattle.ecore_meta.specs.Names.{Name};
ghost use Rattle.ecore_meta.specs.Values.{or_else};
ghost use Rattle.history_tree.specs.Room.{most_numbered};

use std::alloc::{AllocError, Global};
use std::collections::BTreeMap;

/// The numbers of the first names of a list, in a search tree. A list takes a further name without memory, so the names after these wait until memory
/// may be taken again.
#[derive(Drop)]
pub(crate) struct NameIndex {
    alloc: Global,
    numbers: BTreeMap<String, u32>,
    /// How many names of the list were entered.
    pub(crate) entered: u32,
}

/// Gives the name its number, where the tree has none for it.
fn enter(
    alloc: Global,
    name: &str,
    number: u32,
    numbers: &mut BTreeMap<String, u32>,
) -> Result<(), AllocError>
    ensures numbers { OnOk result ((q : Name) → get_by_text numbers.new q ≡ or_else (get_by_text numbers.old q) (cond (bytes_eq q name.now) (Some number) None)) }
    ensures same { OnErr result ((q : Name) → get_by_text numbers.new q ≡ get_by_text numbers.old q) }
{
    if numbers.contains_key(name) {
        return Ok(());
    }
    let key = String::from_str(alloc, name)?;
    numbers.insert(key, number)?;
    Ok(())
}

impl NameIndex {
    /// No name was entered yet.
    pub(crate) fn new(alloc: Global) -> NameIndex
        ensures entered { result.entered ≡ 0 }
        ensures none { (q : Name) → get_by_text result.numbers q ≡ None }
    {
        NameIndex {
            alloc,
            numbers: BTreeMap::new(alloc),
            entered: 0,
        }
    }

    /// The number of a name among those that were entered.
    pub(crate) fn number(&self, name: &str) -> Option<u32>
        ensures { result ≡ get_by_text self.now.numbers name.now }
    {
        self.numbers.get(name).copied()
    }

    /// The list's next name is entered too. When out of memory it isn't.
    pub(crate) fn enter(&mut self, name: &str) -> Result<(), AllocError>
        requires count { self.old.entered < most_numbered }
        ensures numbers { OnOk result ((q : Name) → get_by_text self.new.numbers q ≡ or_else (get_by_text self.old.numbers q) (cond (bytes_eq q name.now) (Some self.old.entered) None)) }
        ensures entered { OnOk result (self.new.entered ≡ self.old.entered + 1) }
        ensures same { OnErr result ((q : Name) → get_by_text self.new.numbers q ≡ get_by_text self.old.numbers q) }
        ensures same_count { OnErr result (self.new.entered ≡ self.old.entered) }
    {
        enter(self.alloc, name, self.entered, &mut self.numbers)?;
        self.entered += 1;
        Ok(())
    }
}
