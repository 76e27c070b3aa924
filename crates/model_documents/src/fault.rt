//! The faults of a model text, with the number of each in a reply.
ghost use Rattle.std.specs.Prelude.{◌≡◌};
ghost use Rattle.model_documents.specs.Faults.{model_fault_number};
ghost use Rattle.model_documents.specs.declared.fault.ModelFault.TheVariants.{Memory};

use std::alloc::AllocError;
use thiserror::Error;

/// Why a text is no model of the metamodel. `NotJson` comes first. Then comes the first fault of a walk over the
/// document. Then come the faults of references, element by element, and then the bounds of lists of references.
#[derive(Clone, Copy, Debug, PartialEq, Eq, Drop, Error)]
pub enum ModelFault {
    /// The text is no JSON: RFC 8259, at most 127 levels deep, with numbers that a double holds.
    #[error("the text is no JSON")]
    NotJson,
    /// A root is no object or names no class, or an `eClass` names no class of the package.
    #[error("no class of the package")]
    NoClass,
    /// The class is abstract.
    #[error("an abstract class")]
    Abstract,
    /// A key is no feature of the class.
    #[error("a key is no feature of the class")]
    NoFeature,
    /// A value is not of its attribute's type, or comes twice in an attribute that holds each once.
    #[error("a value is not of the attribute's type")]
    BadValue,
    /// A reference has no text at `$ref`, finds no element, or finds one that the list has already.
    #[error("a reference finds no element, or one twice")]
    BadRef,
    /// Two objects have one `_id`.
    #[error("an id comes twice")]
    DupId,
    /// An `_id` is not of the form of an id.
    #[error("no id")]
    BadId,
    /// A list has more entries than its feature's upper bound, or an attribute more than 2^32 - 1.
    #[error("a list is past its upper bound")]
    Bound,
    /// A child is no object, or a child or target is not of the feature's type.
    #[error("an element of a wrong type")]
    WrongType,
    #[error("out of memory")]
    Memory,
}

impl From<AllocError> for ModelFault {
    ghost from_gives = { λ _ e. e ≡ Memory };

    fn from(_: AllocError) -> ModelFault {
        ModelFault::Memory
    }
}

impl ModelFault {
    /// The number of the fault in a reply.
    pub fn number(&self) -> u32
        ensures number { result ≡ model_fault_number self.now }
    {
        match self {
            ModelFault::NotJson => 1,
            ModelFault::NoClass => 2,
            ModelFault::Abstract => 3,
            ModelFault::NoFeature => 4,
            ModelFault::BadValue => 5,
            ModelFault::BadRef => 6,
            ModelFault::DupId => 7,
            ModelFault::BadId => 8,
            ModelFault::Bound => 9,
            ModelFault::WrongType => 10,
            ModelFault::Memory => 11,
        }
    }
}
