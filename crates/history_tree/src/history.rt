//! The history in memory.
ghost use Rattle.std.specs.Prelude.{ℕ, cond, nat_eq, get_or, ◌≡◌, ◌+◌, ◌≤◌, ◌<◌, ◌∷◌, ◌++◌, [], length, None, IfOk, IfSome, OnOk, OnErr, slice_get, Some, is_some, ◌||◌, true, false, All};
ghost use Rattle.std.specs.Option.{option_copied, option_map};
ghost use Rattle.std.specs.List.{find, list_any, position};
ghost use Rattle.history_tree.specs.Found.{is_branch_named, is_tag_named, branch_named, branch_name, tag_named, has_tag, tags_of, found_by_number, found_by_branch, found_by_tag, found_by};
ghost use Rattle.history_tree.specs.History.{first_version, first_history, with_version, with_branch, with_tag, path, head};
ghost use Rattle.history_tree.specs.Index.{Knows};
ghost use Rattle.history_tree.specs.Whole.{ComesBefore, IsWhole};
ghost use Rattle.history_tree.specs.Room.{most_numbered};

use crate::found::{FindFault, Found};
use crate::names::NameIndex;
use crate::version::{Branch, Tag, Version};
use ecore_meta::CompactList;
use std::alloc::{AllocError, Global};
use std::marker::Model;
use texts::{List, Text};

/// Versions, branches and tags, at most 4,294,967,295 of each. Contracts see its lists, and the room for further ones as a number.
#[derive(Drop)]
pub struct History {
    versions: Vec<Version>,
    branches: Vec<Branch>,
    tags: Vec<Tag>,
    /// The head of each branch, so that no call searches the versions for it.
    heads: Vec<u32>,
    /// The numbers of the branches' names, but perhaps of the last ones. The same of the tags' names.
    branch_names: NameIndex,
    tag_names: NameIndex,
}

impl Model for History {
    ghost use Rattle.std.specs.Prelude.{◌-◌, ◌≤◌, min, vec_len, vec_capacity};
    ghost use Rattle.history_tree.specs.Heads.{AreHeads};
    ghost use Rattle.history_tree.specs.Index.{Knows};
    ghost use Rattle.history_tree.specs.Room.{HistoryState, most_numbered};
    ghost use Rattle.history_tree.specs.Whole.{IsWhole};

    ghost Value = { HistoryState };

    ghost view = { λ h. record { history = record { versions = h.versions.items; branches = h.branches.items; tags = h.tags.items }; spare = min (vec_capacity h.versions - vec_len h.versions) (min (vec_capacity h.branches - vec_len h.branches) (min (vec_capacity h.tags - vec_len h.tags) (vec_capacity h.heads - vec_len h.heads))) } };

    ghost invariant = { λ h. IsWhole (record { versions = h.versions.items; branches = h.branches.items; tags = h.tags.items }) × (vec_len h.versions ≤ most_numbered) × (vec_len h.branches ≤ most_numbered) × (vec_len h.tags ≤ most_numbered) × AreHeads (record { versions = h.versions.items; branches = h.branches.items; tags = h.tags.items }) h.heads.items × Knows (λ b. b.name) h.branch_names h.branches.items × Knows (λ t. t.name) h.tag_names h.tags.items };
}

/// Version 0, the empty project.
fn first_version(alloc: Global) -> Result<Version, AllocError>
    ensures { IfOk result (λ v. v ≡ first_version) }
{
    let message = Text::new(alloc, "")?;
    Ok(Version {
        branch: 0,
        parent: None,
        merged: List::new(alloc),
        author: None,
        moment: None,
        message,
        package: CompactList::new(alloc),
    })
}

/// The branch of version 0.
fn first_branch(alloc: Global) -> Result<Branch, AllocError>
    ensures { IfOk result (λ b. b ∷ [] ≡ first_history.branches) }
{
    let name = Text::new(alloc, "trunk")?;
    Ok(Branch { name, start: 0 })
}

/// Adds version 0, its branch and that branch's head to the lists.
fn begin(
    alloc: Global,
    versions: &mut Vec<Version>,
    branches: &mut Vec<Branch>,
    heads: &mut Vec<u32>,
) -> Result<(), AllocError>
    ensures versions { OnOk result (versions.new.items ≡ versions.old.items ++ first_version ∷ []) }
    ensures branches { OnOk result (branches.new.items ≡ branches.old.items ++ first_history.branches) }
    ensures heads { OnOk result (heads.new.items ≡ heads.old.items ++ 0 ∷ []) }
{
    versions.push(first_version(alloc)?)?;
    branches.push(first_branch(alloc)?)?;
    heads.push(0)?;
    Ok(())
}

/// So many lists, all empty.
fn empty_lists(alloc: Global, size: usize) -> Result<Vec<List<Text>>, AllocError>
    ensures size { IfOk result (λ lists. length lists.items ≡ size) }
    ensures empty { IfOk result (λ lists. (v : ℕ) → v < size → get_or lists.items v [] ≡ []) }
{
    let mut lists = Vec::new(alloc);
    for _ in 0..size {
        lists.push(List::new(alloc))?;
    }
    Ok(lists)
}

/// Puts a name after those in a list.
fn put_name(lists: &mut Vec<List<Text>>, at: usize, name: Text) -> Result<(), AllocError>
    requires { at < length lists.old.items }
    ensures size { OnOk result (length lists.new.items ≡ length lists.old.items) }
    ensures names { OnOk result ((v : ℕ) → v < length lists.old.items → get_or lists.new.items v [] ≡ cond (nat_eq at v) (get_or lists.old.items v [] ++ name ∷ []) (get_or lists.old.items v [])) }
{
    lists[at].push(name)?;
    Ok(())
}

/// The first of some branches of that name.
fn branch_among(branches: &[Branch], name: &str) -> Option<usize>
    ensures place { result ≡ position (is_branch_named name.now) branches.now }
    ensures there { IfSome result (λ place. place < length branches.now) }
{
    branches
        .iter()
        .position(|branch| branch.name.as_str() == name)
}

/// The first of some tags of that name.
fn tag_among(tags: &[Tag], name: &str) -> Option<usize>
    ensures place { result ≡ position (is_tag_named name.now) tags.now }
    ensures there { IfSome result (λ place. place < length tags.now) }
{
    tags.iter().position(|tag| tag.name.as_str() == name)
}

/// The place of the branch of that name: by the index, else among those that weren't entered yet.
fn branch_place(branches: &[Branch], index: &NameIndex, name: &str) -> Option<usize>
    requires { Knows (λ b. b.name) index.now branches.now }
    ensures place { result ≡ position (is_branch_named name.now) branches.now }
    ensures there { IfSome result (λ place. place < length branches.now) }
{
    if let Some(number) = index.number(name) {
        return Some(number as usize);
    }
    let entered = index.entered as usize;
    match branch_among(&branches[entered..], name) {
        None => None,
        Some(later) => Some(entered + later),
    }
}

/// The place of the tag of that name, in the same way.
fn tag_place(tags: &[Tag], index: &NameIndex, name: &str) -> Option<usize>
    requires { Knows (λ t. t.name) index.now tags.now }
    ensures place { result ≡ position (is_tag_named name.now) tags.now }
    ensures there { IfSome result (λ place. place < length tags.now) }
{
    if let Some(number) = index.number(name) {
        return Some(number as usize);
    }
    let entered = index.entered as usize;
    match tag_among(&tags[entered..], name) {
        None => None,
        Some(later) => Some(entered + later),
    }
}

/// The tag of that name.
fn tag_at<'a>(tags: &'a [Tag], index: &NameIndex, name: &str) -> Option<&'a Tag>
    requires { Knows (λ t. t.name) index.now tags.now }
    ensures { option_copied result ≡ find (is_tag_named name.now) tags.now }
{
    match tag_place(tags, index, name) {
        None => None,
        Some(place) => Some(&tags[place]),
    }
}

/// Whether there is a tag of that name.
fn is_tag_there(tags: &[Tag], index: &NameIndex, name: &str) -> bool
    requires { Knows (λ t. t.name) index.now tags.now }
    ensures { result ≡ list_any (is_tag_named name.now) tags.now }
{
    tag_place(tags, index, name).is_some()
}

/// Enters the name of the first branch that isn't entered yet, where there is one.
fn enter_branch(branches: &[Branch], index: &mut NameIndex) -> Result<(), AllocError>
    requires knows { Knows (λ b. b.name) index.old branches.now }
    requires count { length branches.now ≤ most_numbered }
    ensures { Knows (λ b. b.name) index.new branches.now }
{
    let next = index.entered as usize;
    if next >= branches.len() {
        return Ok(());
    }
    index.enter(branches[next].name.as_str())?;
    Ok(())
}

/// Enters the name of the first tag that isn't entered yet, where there is one.
fn enter_tag(tags: &[Tag], index: &mut NameIndex) -> Result<(), AllocError>
    requires knows { Knows (λ t. t.name) index.old tags.now }
    requires count { length tags.now ≤ most_numbered }
    ensures { Knows (λ t. t.name) index.new tags.now }
{
    let next = index.entered as usize;
    if next >= tags.len() {
        return Ok(());
    }
    index.enter(tags[next].name.as_str())?;
    Ok(())
}

impl History {
    /// A history with version 0 alone, the empty project, on the branch `trunk`.
    pub fn new(alloc: Global) -> Result<History, AllocError>
        ensures { IfOk result (λ h. h.history ≡ first_history) }
    {
        let mut versions = Vec::new(alloc);
        let mut branches = Vec::new(alloc);
        let mut heads = Vec::new(alloc);
        begin(alloc, &mut versions, &mut branches, &mut heads)?;
        Ok(History {
            versions,
            branches,
            tags: Vec::new(alloc),
            heads,
            branch_names: NameIndex::new(alloc),
            tag_names: NameIndex::new(alloc),
        })
    }

    /// Each number that stands in a history names something. This call does nothing: its contract says so of any history.
    pub fn recall_wholeness(&self)
        ensures { IsWhole self.now.history }
    {
        // For what the type's invariant says.
        let _versions = &self.versions;
    }

    /// The version of that number.
    pub fn version(&self, v: u32) -> &Version
        requires there { v < length self.now.history.versions }
        ensures version { slice_get self.now.history.versions v ≡ Some result.now }
        ensures parent { ComesBefore result.now.parent v }
        ensures branch { result.now.branch < length self.now.history.branches }
    {
        &self.versions[v as usize]
    }

    /// How many versions there are.
    pub fn version_count(&self) -> u32
        ensures count { result ≡ length self.now.history.versions }
        ensures some { 0 < result }
    {
        self.versions.len() as u32
    }

    /// How many branches there are.
    pub fn branch_count(&self) -> u32
        ensures count { result ≡ length self.now.history.branches }
        ensures some { 0 < result }
    {
        self.branches.len() as u32
    }

    /// How many tags there are.
    pub fn tag_count(&self) -> u32
        ensures count { result ≡ length self.now.history.tags }
    {
        self.tags.len() as u32
    }

    /// The versions from the first to that one, each the parent of the next.
    pub fn path(&self, alloc: Global, v: u32) -> Result<List<u32>, AllocError>
        requires there { v < length self.now.history.versions }
        ensures path { IfOk result (λ p. p ≡ path self.now.history v) }
        ensures there { IfOk result (λ p. All (λ u. u < length self.now.history.versions) p) }
    {
        self.recall_wholeness();
        let mut back = Vec::new(alloc);
        back.push(v)?;
        let mut at = v;
        while let Some(parent) = self.version(at).parent {
            back.push(parent)?;
            at = parent;
        }
        back.reverse();
        Ok(List::from_vec(back))
    }

    /// The number of the branch of that name.
    pub fn branch_named(&self, name: &str) -> Option<u32>
        ensures number { result ≡ branch_named self.now.history name.now }
        ensures there { IfSome result (λ branch. branch < length self.now.history.branches) }
    {
        match self.place_named(name) {
            None => None,
            Some(branch) => Some(branch as u32),
        }
    }

    fn place_named(&self, name: &str) -> Option<usize>
        ensures number { result ≡ branch_named self.now.history name.now }
        ensures there { IfSome result (λ branch. branch < length self.now.history.branches) }
        ensures small { IfSome result (λ branch. branch < most_numbered) }
    {
        branch_place(&self.branches, &self.branch_names, name)
    }

    /// The name of a branch.
    pub fn branch_name(&self, branch: u32) -> &str
        requires there { branch < length self.now.history.branches }
        ensures name { result.now ≡ branch_name self.now.history branch }
    {
        self.branches[branch as usize].name.as_str()
    }

    /// The last version on a branch, else the one where it starts.
    pub fn head(&self, branch: u32) -> u32
        requires there { branch < length self.now.history.branches }
        ensures head { result ≡ head self.now.history branch }
        ensures version { result < length self.now.history.versions }
    {
        self.recall_wholeness();
        self.kept_head(branch)
    }

    fn kept_head(&self, branch: u32) -> u32
        requires { branch < length self.now.history.branches }
        ensures { result ≡ head self.now.history branch }
    {
        self.heads[branch as usize]
    }

    /// Whether there is a tag of that name.
    pub fn has_tag(&self, name: &str) -> bool
        ensures { result ≡ has_tag self.now.history name.now }
    {
        is_tag_there(&self.tags, &self.tag_names, name)
    }

    /// The names of a version's tags, in the order made.
    pub fn tags_of(&self, alloc: Global, v: u32) -> Result<List<Text>, AllocError>
        requires there { v < length self.now.history.versions }
        ensures names { IfOk result (λ names. names ≡ tags_of self.now.history v) }
    {
        let mut names = List::new(alloc);
        for tag in &self.tags {
            if tag.version == v {
                names.push(tag.name.copy(alloc)?)?;
            }
        }
        Ok(names)
    }

    /// The names of each version's tags, in the order made: one list a version, by the versions' numbers. It goes over the tags once.
    pub fn tags_by_version(&self, alloc: Global) -> Result<Vec<List<Text>>, AllocError>
        ensures size { IfOk result (λ lists. length lists.items ≡ length self.now.history.versions) }
        ensures names { IfOk result (λ lists. (v : ℕ) → v < length self.now.history.versions → slice_get lists.items v ≡ Some (tags_of self.now.history v)) }
    {
        self.recall_wholeness();
        let mut lists = empty_lists(alloc, self.versions.len())?;
        for tag in &self.tags {
            put_name(&mut lists, tag.version as usize, tag.name.copy(alloc)?)?;
        }
        Ok(lists)
    }

    /// What a version's number, a branch's name or a tag's name names: the first of these that is given.
    ///
    /// # Errors
    ///
    /// `NoVersion` where no version has that number, or no tag that name; `NoBranch` where no branch has that name.
    pub fn resolve(
        &self,
        version: Option<u32>,
        branch: Option<&str>,
        tag: Option<&str>,
    ) -> Result<Found, FindFault>
        requires given { (is_some version || (is_some branch || is_some tag)) ≡ true }
        ensures found { result ≡ found_by self.now.history version (option_copied branch.entry) (option_copied tag.entry) }
        ensures version { IfOk result (λ found. found.version < length self.now.history.versions) }
        ensures branch { IfOk result (λ found. found.branch < length self.now.history.branches) }
    {
        if let Some(v) = version {
            return self.find_number(v);
        }
        if let Some(name) = branch {
            return self.find_branch(name);
        }
        match tag {
            Some(name) => self.find_tag(name),
            None => Err(FindFault::NoVersion),
        }
    }

    fn find_number(&self, v: u32) -> Result<Found, FindFault>
        ensures found { result ≡ found_by_number self.now.history v }
        ensures version { IfOk result (λ found. found.version < length self.now.history.versions) }
        ensures branch { IfOk result (λ found. found.branch < length self.now.history.branches) }
    {
        match self.versions.get(v as usize) {
            None => Err(FindFault::NoVersion),
            Some(version) => Ok(Found {
                version: v,
                branch: version.branch,
            }),
        }
    }

    fn find_branch(&self, name: &str) -> Result<Found, FindFault>
        ensures found { result ≡ found_by_branch self.now.history name.now }
        ensures version { IfOk result (λ found. found.version < length self.now.history.versions) }
        ensures branch { IfOk result (λ found. found.branch < length self.now.history.branches) }
    {
        match self.branch_named(name) {
            None => Err(FindFault::NoBranch),
            Some(branch) => Ok(Found {
                version: self.head(branch),
                branch,
            }),
        }
    }

    fn find_tag(&self, name: &str) -> Result<Found, FindFault>
        ensures found { result ≡ found_by_tag self.now.history name.now }
        ensures version { IfOk result (λ found. found.version < length self.now.history.versions) }
        ensures branch { IfOk result (λ found. found.branch < length self.now.history.branches) }
    {
        match self.tag_named(name) {
            None => Err(FindFault::NoVersion),
            Some(tag) => self.find_number(tag.version),
        }
    }

    fn tag_named(&self, name: &str) -> Option<&Tag>
        ensures { option_copied result ≡ tag_named self.now.history name.now }
    {
        tag_at(&self.tags, &self.tag_names, name)
    }

    /// Makes room for a version, a branch and a tag, so that one of the three calls below takes no memory.
    pub fn reserve(&mut self) -> Result<(), AllocError>
        ensures same { self.new.history ≡ self.old.history }
        ensures room { OnOk result (0 < self.new.spare) }
        ensures kept { self.old.spare ≤ self.new.spare }
    {
        enter_branch(&self.branches, &mut self.branch_names)?;
        enter_tag(&self.tags, &mut self.tag_names)?;
        self.versions.reserve(1)?;
        self.branches.reserve(1)?;
        self.tags.reserve(1)?;
        self.heads.reserve(1)?;
        Ok(())
    }

    /// Adds a version after the head of its branch, whose head it is from now on. It takes no memory.
    pub fn append(&mut self, version: Version)
        requires room { 0 < self.old.spare }
        requires count { length self.old.history.versions < most_numbered }
        requires branch { version.branch < length self.old.history.branches }
        requires parent { version.parent ≡ Some (head self.old.history version.branch) }
        requires merged { All (λ v. v < length self.old.history.versions) version.merged }
        requires signed { is_some version.author ≡ is_some version.moment }
        ensures added { self.new.history ≡ with_version self.old.history version }
        ensures room { self.old.spare ≤ self.new.spare + 1 }
    {
        let number = self.versions.len() as u32;
        self.heads[version.branch as usize] = number;
        self.versions.push_reserved(version);
    }

    /// Adds a branch of a new name that starts at a version. It takes no memory.
    pub fn add_branch(&mut self, name: Text, start: u32)
        requires room { 0 < self.old.spare }
        requires count { length self.old.history.branches < most_numbered }
        requires new { branch_named self.old.history name ≡ None }
        requires start { start < length self.old.history.versions }
        ensures added { self.new.history ≡ with_branch self.old.history name start }
        ensures room { self.old.spare ≤ self.new.spare + 1 }
    {
        self.heads.push_reserved(start);
        self.branches.push_reserved(Branch { name, start });
    }

    /// Adds a tag of a new name to a version. It takes no memory.
    pub fn add_tag(&mut self, name: Text, version: u32)
        requires room { 0 < self.old.spare }
        requires count { length self.old.history.tags < most_numbered }
        requires new { has_tag self.old.history name ≡ false }
        requires version { version < length self.old.history.versions }
        ensures added { self.new.history ≡ with_tag self.old.history name version }
        ensures room { self.old.spare ≤ self.new.spare + 1 }
    {
        self.tags.push_reserved(Tag { name, version });
    }
}
