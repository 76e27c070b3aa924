//! How many elements the models have that workspaces keep. Where these are too many together, the models used longest ago are let go.
ghost use Rattle.std.specs.Prelude.{◌≡◌, ◌≢◌, ◌⊎◌, ◌+◌, ◌∷◌, ◌<◌, ◌≤◌, ℕ, [], IfNone, IfSome, IsTrue, OnOk, Some, drop, length, not, nat_eq};
ghost use Rattle.std.specs.List.{Contains, filter};
ghost use Rattle.std.specs.Vec.{vec_capacity, vec_len};
ghost use Rattle.repo_state.specs.Sizes.{HasRoom, sized, together};

use model_state::{Look, Operation, Step};
use std::alloc::{AllocError, Global};
use working_model::Working;

/// How many elements the models that are kept have together at most, by their sizes, but for one that has more alone. At
/// some 550 bytes an element such models take half a GiB.
pub(crate) const MOST_ELEMENTS: usize = 1_000_000;

/// The size of the model of the workspace at a position: how many elements it had when they were counted, and how many were
/// added to it since. Elements are added where an event creates them or brings them back. Those that go aren't taken off.
/// So the two are together at least the elements that the model has, but where there was no memory to count them: as many as
/// all models may have together are then taken to be added, and they are counted at the next use.
#[derive(Clone, Copy)]
struct Size {
    at: usize,
    counted: usize,
    added: usize,
}

/// The sizes of the models that workspaces keep, that of the model used last at the end. No reply depends on them.
#[derive(Drop)]
pub(crate) struct Sizes {
    sizes: Vec<Size>,
}

/// The size of a model whose elements are counted. Where memory is too small for that, they are taken to be as many as all
/// may have together, and are counted at the next use.
fn measure(alloc: Global, at: usize, model: &Working) -> Size
    ensures { result.at ≡ at }
{
    let (counted, added) = match model.graph().ids(alloc) {
        Ok(ids) => (ids.len(), 0),
        Err(_) => (0, MOST_ELEMENTS),
    };
    Size { at, counted, added }
}

/// Takes out the sizes of the model of the workspace at a position. This takes no memory.
fn without(sizes: &mut Vec<Size>, at: usize)
    ensures items { sizes.new.items ≡ filter (λ s. not (nat_eq s.at at)) sizes.old.items }
    ensures len { vec_len sizes.new ≤ vec_len sizes.old }
    ensures capacity { vec_capacity sizes.new ≡ vec_capacity sizes.old }
{
    sizes.retain(|size| size.at != at);
}

/// How many elements steps create.
pub(crate) fn created_by(steps: &[Step]) -> usize {
    steps
        .iter()
        .filter(|step| matches!(step, Step::New { .. }))
        .count()
}

/// How many elements steps delete. No more come back where the steps are taken back.
pub(crate) fn deleted_by(steps: &[Step]) -> usize {
    steps
        .iter()
        .filter(|step| matches!(step, Step::Gone { .. }))
        .count()
}

/// How many elements operations create, as far as the number goes.
pub(crate) fn created(operations: &[Operation]) -> usize {
    let mut created: usize = 0;
    for operation in operations {
        created = created.saturating_add(created_by(operation.steps()));
    }
    created
}

/// How many elements operations delete, as far as the number goes. No more come back where the operations are taken back.
pub(crate) fn deleted(operations: &[Operation]) -> usize {
    let mut deleted: usize = 0;
    for operation in operations {
        deleted = deleted.saturating_add(deleted_by(operation.steps()));
    }
    deleted
}

impl Size {
    /// How many elements the model is taken to have, as far as the number goes: those that went since it was counted are in it.
    fn elements(&self) -> usize
        ensures { result < usize.MAX → result ≡ self.now.counted + self.now.added }
    {
        self.counted.saturating_add(self.added)
    }

    /// Whether the elements are to be counted again, as more were added since than there were.
    fn is_old(&self) -> bool {
        self.counted < self.added
    }
}

impl Sizes {
    /// No model is kept.
    pub(crate) fn new(alloc: Global) -> Sizes {
        Sizes {
            sizes: Vec::new(alloc),
        }
    }

    /// No model is kept any more. This takes no memory.
    pub(crate) fn clear(&mut self)
        ensures none { self.new.sizes.items ≡ [] }
    {
        self.sizes.clear();
    }

    /// How many elements the models have together, as far as the number goes.
    fn total(&self) -> usize
        ensures { result < usize.MAX → result ≡ together self.now.sizes.items }
    {
        let mut total: usize = 0;
        for size in &self.sizes {
            total = total.saturating_add(size.elements());
        }
        total
    }

    /// The size of the model of the workspace at a position, where it has one.
    fn find(&self, at: usize) -> Option<Size>
        ensures { IfSome result (λ s. s.at ≡ at) }
    {
        self.sizes.iter().find(|size| size.at == at).copied()
    }

    /// Whether the model of the workspace at a position has a size.
    pub(crate) fn has(&self, at: usize) -> bool
        ensures { IsTrue result → Contains (sized self.now.sizes.items) at }
    {
        for size in &self.sizes {
            if size.at == at {
                return true;
            }
        }
        false
    }

    /// The workspace at the position, where one is named, keeps no model any more.
    pub(crate) fn forget(&mut self, out: Option<usize>)
        ensures stays { (i : ℕ) → Contains (sized self.old.sizes.items) i → Contains (sized self.new.sizes.items) i ⊎ (out ≡ Some i) }
    {
        let Some(at) = out else {
            return;
        };
        without(&mut self.sizes, at);
    }

    /// The size of the model of the workspace at a position, where it has one, is the last, as of the model used last.
    pub(crate) fn put_last(&mut self, at: usize)
        ensures stays { (i : ℕ) → Contains (sized self.old.sizes.items) i → Contains (sized self.new.sizes.items) i }
    {
        let Some(place) = self.sizes.iter().position(|size| size.at == at) else {
            return;
        };
        let size = self.sizes.remove(place);
        self.sizes.push_reserved(size);
    }

    /// The model of the workspace at a position is used now. Its elements are counted where it has no size, as one that was
    /// made anew, or an old one. This costs their number, and so no more than to make the model, or to add to it what was
    /// added since it was counted.
    pub(crate) fn note(
        &mut self,
        alloc: Global,
        at: usize,
        model: &Working,
    ) -> Result<(), AllocError>
        ensures stays { (i : ℕ) → Contains (sized self.old.sizes.items) i → Contains (sized self.new.sizes.items) i }
        ensures used { OnOk result (Contains (sized self.new.sizes.items) at) }
    {
        self.sizes.reserve(1)?;
        let size = self.size_of(alloc, at, model);
        without(&mut self.sizes, at);
        self.sizes.push_reserved(size);
        Ok(())
    }

    /// The size of the model of the workspace at a position: the one that it has, where that isn't old.
    fn size_of(&self, alloc: Global, at: usize, model: &Working) -> Size
        ensures { result.at ≡ at }
    {
        match self.find(at) {
            Some(size) if !size.is_old() => size,
            _ => measure(alloc, at, model),
        }
    }

    /// So many elements more are added to the model of the workspace at a position, or fewer.
    pub(crate) fn grow(&mut self, at: usize, added: usize)
        ensures { sized self.new.sizes.items ≡ sized self.old.sizes.items }
    {
        for size in self.sizes.iter_mut() {
            if size.at == at {
                size.added = size.added.saturating_add(added);
            }
        }
    }

    /// The model of the workspace at one position is led to be that of the workspace at another. So many elements came on the way
    /// at most, and so many went.
    pub(crate) fn hand_over(&mut self, from: usize, at: usize, came: usize, went: usize)
        ensures stays { (i : ℕ) → Contains (sized self.old.sizes.items) i → Contains (sized self.new.sizes.items) i ⊎ (from ≡ i) }
    {
        let Some(size) = self.find(from) else {
            return;
        };
        let now = size.elements().saturating_add(came).saturating_sub(went);
        let counted = size.counted.min(now);
        without(&mut self.sizes, from);
        if self.sizes.reserve(1).is_err() {
            return;
        }
        self.sizes.push_reserved(Size {
            at,
            counted,
            added: now - counted,
        });
    }

    /// How many models have a size.
    pub(crate) fn len(&self) -> usize {
        self.sizes.len()
    }

    /// The position of the workspace whose model has the size at a place, and how many elements that has.
    pub(crate) fn nth(&self, place: usize) -> Option<(usize, usize)> {
        let size = self.sizes.get(place)?;
        Some((size.at, size.elements()))
    }

    /// How many elements the model of the workspace at a position has, where it has a size.
    pub(crate) fn elements_at(&self, at: usize) -> usize {
        match self.find(at) {
            None => 0,
            Some(size) => size.elements(),
        }
    }

    /// Whether the models that are kept have so many elements together that one more of so many is one too many.
    pub(crate) fn is_crowded(&self, more: usize) -> bool {
        self.total().saturating_add(more) > MOST_ELEMENTS
    }

    /// Takes out the size of the model used longest ago, where all together have more elements than that, and it is not of
    /// the workspace at this position. Gives the position of its workspace.
    pub(crate) fn take_out(&mut self, at: usize, most: usize) -> Option<usize>
        requires { most < usize.MAX }
        ensures room { IfNone result (HasRoom self.new.sizes.items at most) }
        ensures same { IfNone result (self.new.sizes.items ≡ self.old.sizes.items) }
        ensures other { IfSome result (λ out. out ≢ at) }
        ensures first { IfSome result (λ out. out ∷ sized self.new.sizes.items ≡ sized self.old.sizes.items) }
        ensures rest { IfSome result (λ _. self.new.sizes.items ≡ drop 1 self.old.sizes.items) }
        ensures fewer { IfSome result (λ _. length self.new.sizes.items < length self.old.sizes.items) }
    {
        let first = self.sizes.first()?.at;
        if first == at || self.total() <= most {
            return None;
        }
        self.sizes.remove(0);
        Some(first)
    }
}
