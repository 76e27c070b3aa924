//! The refusals of an edit, which is answered with the first that applies.
ghost use Rattle.std.specs.Prelude.{◌≡◌};
ghost use Rattle.edit_steps.specs.declared.fault.EditFault.TheVariants.{Memory};

use std::alloc::AllocError;
use thiserror::Error;

/// Why an edit is refused: the first of its tests that fails.
#[derive(Clone, Copy, Debug, PartialEq, Eq, Drop, Error)]
pub enum EditFault {
    /// No live element has the id, that of the edit's element, of a target or of a new parent.
    #[error("no such element")]
    NoElement,
    /// The id of the new element is that of a live one.
    #[error("the id is in use")]
    IdInUse,
    /// The id of the new element isn't of the form of an id.
    #[error("no id")]
    BadId,
    /// The metamodel has no class of that name.
    #[error("no such class")]
    NoClass,
    /// The class is abstract.
    #[error("the class is abstract")]
    Abstract,
    /// The element's class has no feature of that name.
    #[error("no such feature")]
    NoFeature,
    /// The feature isn't of a kind that the edit takes.
    #[error("a feature of another kind")]
    WrongKind,
    /// The text isn't a value of the attribute's type, or for a reference isn't a JSON text.
    #[error("no value of the feature's type")]
    BadValue,
    /// The class of the target, or of the element that is put inside another, isn't the feature's type or below it.
    #[error("a wrong type")]
    WrongType,
    /// A list or place would get an entry more and is at its upper bound or has `MOST_ENTRIES` values. Or it is to be
    /// renumbered and is too long for it. An entry that the edit itself displaces isn't counted.
    #[error("the list is full")]
    Bound,
    /// The element would stand inside itself: it is the new parent, or one of the parent's containers.
    #[error("a cycle of containers")]
    WouldCycle,
    /// The attribute holds each value once, and holds this one, or the reference has the target.
    #[error("there already")]
    AlreadyThere,
    /// The list or place has no such index, or the list no such target.
    #[error("no such entry")]
    NoEntry,
    #[error("out of memory")]
    Memory,
}

impl From<AllocError> for EditFault {
    ghost from_gives = { λ _ e. e ≡ Memory };

    fn from(_: AllocError) -> EditFault {
        EditFault::Memory
    }
}
