//! The steps of a model: each kind with its fields, the places in which elements stand, and the faults of a step.
ghost use Rattle.std.specs.Prelude.{◌≡◌, IfOk};
ghost use Rattle.std.specs.Option.{option_copied};
ghost use Rattle.model_state.specs.Chains.{parent_of};
ghost use Rattle.model_state.specs.State.{place_eq, is_inside};

use crate::Id;
use ecore_meta::{Boxed, Value};
use std::alloc::{AllocError, Global};
use std::mem::size_of;
use texts::List;
use thiserror::Error;

/// Where an element stands: at the root of the model, or in a containment of its parent.
#[derive(Debug, PartialEq, Drop)]
pub enum Place {
    Root,
    Inside { parent: Id, feature: u32 },
}

/// Where an element stands, and its rank in that list.
#[derive(Debug, Drop)]
pub struct Placed {
    pub place: Place,
    pub rank: u64,
}

/// A change of a model: of an attribute's values, of a reference with its opposite, or of an element. Each step names
/// what its reversal needs.
#[derive(Debug, Drop)]
pub enum Step {
    /// A single attribute gets another value; none stands for one that isn't set.
    Put {
        e: Id,
        f: u32,
        old: Option<Value>,
        new: Option<Value>,
    },
    /// A value is inserted into a many-valued attribute, before the value at `at`.
    Ins {
        e: Id,
        f: u32,
        at: u32,
        v: Value,
    },
    /// The value at `at` of a many-valued attribute is removed.
    Del {
        e: Id,
        f: u32,
        at: u32,
        v: Value,
    },
    /// The value at `from` of a many-valued attribute is taken out and put at `to`.
    Shift {
        e: Id,
        f: u32,
        from: u32,
        to: u32,
    },
    /// A reference is added, with the rank `ra` in its list, and its opposite with the rank `rb` in that list.
    Link {
        a: Id,
        f: u32,
        ra: u64,
        b: Id,
        rb: Option<u64>,
    },
    /// A reference is removed, and its opposite with it.
    Unlink {
        a: Id,
        f: u32,
        ra: u64,
        b: Id,
        rb: Option<u64>,
    },
    /// A reference gets another rank in its list; its opposite keeps its own.
    RerankRow {
        a: Id,
        f: u32,
        b: Id,
        old: u64,
        new: u64,
    },
    /// An element is created, without values and references.
    New {
        e: Id,
        class: u32,
        place: Place,
        rank: u64,
    },
    /// An element is deleted that holds nothing and that nothing names.
    Gone {
        e: Id,
        class: u32,
        place: Place,
        rank: u64,
    },
    /// An element is moved to another place. The containers of both places are recorded, so that moves which would
    /// make a cycle touch what each other reads. Its large parts are boxed, so that other steps take no room for them.
    Move {
        e: Id,
        from: Boxed<Place>,
        from_rank: u64,
        to: Boxed<Place>,
        to_rank: u64,
        above_from: Boxed<List<Id>>,
        above_to: Boxed<List<Id>>,
    },
    /// An element gets another rank where it stands.
    RerankPlace {
        e: Id,
        old: u64,
        new: u64,
    },
}

// A step of any kind takes as much as the largest, and a history has millions of them.
const _: () = prove!(size_of::<Step>() == 96);

/// Why a step can't be taken: the first of its tests that fails.
#[derive(Clone, Copy, Debug, PartialEq, Eq, Drop, Error)]
pub enum StepFault {
    /// An element or a reference that the step names isn't there.
    #[error("not there")]
    NotThere,
    /// What the step brings is there already.
    #[error("there already")]
    There,
    /// What is there isn't what the step says was there before.
    #[error("something else is there")]
    OldDiffers,
    /// A list is at its upper bound, or an attribute has `MOST_ENTRIES` values.
    #[error("the list is full")]
    Bound,
    /// The metamodel doesn't allow the class, feature or value for the classes of these elements.
    #[error("a wrong type")]
    WrongType,
    /// The containers aren't those recorded, or the element would stand inside itself.
    #[error("other containers")]
    Chain,
    /// The element still holds something, or something names it.
    #[error("not empty")]
    NotEmpty,
    /// The step changes nothing, names a place past a list's end, or has a default as its old or new value. Or the
    /// mirror's rank is given without an opposite, is missing beside one, or the opposite has the lesser number.
    #[error("a step of a wrong form")]
    BadStep,
    #[error("out of memory")]
    Memory,
}

/// The first of a list's steps that can't be taken: its place in the list, from 0, and its fault.
#[derive(Clone, Copy, Debug, PartialEq, Eq, Drop)]
pub struct ApplyFault {
    pub at: u64,
    pub fault: StepFault,
}

impl Place {
    /// The element that the place is inside.
    pub fn parent(&self) -> Option<&Id>
        ensures { option_copied result ≡ parent_of self.now }
    {
        match self {
            Place::Root => None,
            Place::Inside { parent, .. } => Some(parent),
        }
    }

    /// Whether the two are the same place.
    pub fn is_same(&self, other: &Place) -> bool
        ensures { result ≡ place_eq self.now other.now }
    {
        match self {
            Place::Root => match other {
                Place::Root => true,
                Place::Inside { .. } => false,
            },
            Place::Inside { parent, feature } => match other {
                Place::Root => false,
                Place::Inside {
                    parent: other,
                    feature: number,
                } => parent == other && feature == number,
            },
        }
    }

    /// Whether the place is inside the element.
    pub fn is_inside(&self, e: &Id) -> bool
        ensures { result ≡ is_inside e.now self.now }
    {
        match self {
            Place::Root => false,
            Place::Inside { parent, .. } => e == parent,
        }
    }

    /// The same place, the parent's id in memory of its own.
    pub fn copy(&self, alloc: Global) -> Result<Place, AllocError>
        ensures { IfOk result (λ p. p ≡ self.now) }
    {
        match self {
            Place::Root => Ok(Place::Root),
            Place::Inside { parent, feature } => Ok(Place::Inside {
                parent: parent.copy(alloc)?,
                feature: *feature,
            }),
        }
    }
}
